// The outputs of a node under names that are of no other node.
ghost use Rattle.std.specs.Prelude.{◌≡◌, IfOk};
ghost use Rattle.graph_names.specs.inner.Naming.{name_of};

use graph_walks::Labels;
use std::alloc::AllocError;

/// How the outputs of a node are named: `next` is above the numbers of all nodes.
#[derive(Clone, Copy, Drop)]
pub(crate) struct Naming {
    pub(crate) node: u32,
    pub(crate) next: u32,
}

/// The name of the node's output of that number; where 32 bits do not hold it, that is want of
/// memory.
pub(crate) fn name_number(by: Naming, number: u32) -> Result<u32, AllocError>
    ensures { IfOk result (λ n. n ≡ name_of by number) }
{
    let below = number.checked_mul(by.next).ok_or(AllocError)?;
    below.checked_add(by.node).ok_or(AllocError)
}

impl Labels for Naming {
    ghost use Rattle.graph_laws.specs.Kids.{out_named};
    ghost use Rattle.graph_names.specs.inner.Naming.{name_of};

    ghost label_of = { λ by. out_named (name_of by) };

    fn label(&self, former: Option<u32>) -> Result<Option<u32>, AllocError> {
        match former {
            Some(number) => Ok(Some(name_number(*self, number)?)),
            None => Ok(None),
        }
    }
}
