// The outputs that a forest keeps.
ghost use Rattle.std.specs.Prelude.{◌≡◌, ◌++◌, IfOk, OnOk};
ghost use Rattle.exec_plan.specs.Channels.{kept_out, outs_of};

use exec_graph::{Roots, spots_of};
use std::alloc::{AllocError, Global};

/// The outputs that a forest keeps, in preorder.
pub fn outs_of(alloc: Global, roots: &Roots) -> Result<Vec<u32>, AllocError>
    ensures { IfOk result (λ outs. outs.items ≡ outs_of roots.now) }
{
    let spots = spots_of(alloc, roots)?;
    let mut outs = Vec::new(alloc);
    for spot in &spots {
        push_kept(spot.out, &mut outs)?;
    }
    Ok(outs)
}

fn push_kept(out: Option<u32>, outs: &mut Vec<u32>) -> Result<(), AllocError>
    ensures { OnOk result (outs.new.items ≡ outs.old.items ++ kept_out out) }
{
    if let Some(out) = out {
        outs.push(out)?;
    }
    Ok(())
}
