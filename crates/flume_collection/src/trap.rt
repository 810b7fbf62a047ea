// Traps of calls, and the set of some traps.
ghost use Rattle.std.specs.Prelude.{◌≡◌, IfOk};
ghost use Rattle.flume_collection.specs.Traps.{trap_set};

use flume_value::{Kind, Value};
use std::alloc::AllocError;

/// A call that traps: the script node that it is of, the element that it names, and why. The order
/// of the fields is the order of traps.
#[derive(PartialEq, Eq, PartialOrd, Ord, Drop)]
pub struct Trap {
    pub origin: u32,
    pub element: Value,
    pub kind: Kind,
}

/// The set of the traps: ascending, each once.
pub fn trap_set(mut traps: Vec<Trap>) -> Result<Vec<Trap>, AllocError>
    ensures { IfOk result (λ all. all.items ≡ trap_set traps.items) }
{
    traps.sort()?;
    traps.dedup();
    Ok(traps)
}
