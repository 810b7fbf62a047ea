// Rewrites one behind the other.
ghost use Rattle.std.specs.Prelude.{◌≡◌, ◌++◌, IfOk};

use flume_value::Pile;
use graph_rewrites::Rewrite;
use std::alloc::AllocError;

/// Both lists, one behind the other.
pub(crate) fn joined(first: Pile<Rewrite>, more: &[Rewrite]) -> Result<Pile<Rewrite>, AllocError>
    ensures { IfOk result (λ all. all ≡ first ++ more.now) }
{
    let mut all = first;
    for rewrite in more {
        all.push(*rewrite)?;
    }
    Ok(all)
}
