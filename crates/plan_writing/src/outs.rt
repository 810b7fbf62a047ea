// The outputs that the steps of a channel keep.
ghost use Rattle.std.specs.Prelude.{◌≡◌, IfOk};
ghost use Rattle.exec_plan.specs.Channels.{output_numbers_of};

use exec_graph::Roots;
use std::alloc::{AllocError, Global};

/// The outputs that the steps of a channel keep, in preorder. Those of the identity are 0 alone.
pub fn outs_of(alloc: Global, does: &Option<Roots>) -> Result<Vec<u32>, AllocError>
    ensures { IfOk result (λ outs. outs.items ≡ output_numbers_of does.now) }
{
    match does {
        None => {
            let mut outs = Vec::new(alloc);
            outs.push(0)?;
            Ok(outs)
        }
        Some(roots) => {
            let outs = exec_plan::outs_of(alloc, roots)?;
            Ok(outs)
        }
    }
}
