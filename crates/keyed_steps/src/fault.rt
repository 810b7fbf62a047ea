// Why the lists of groups were not combined.
use flume_value::{Kind, Value};
use std::alloc::AllocError;

/// Why the lists of some pairs were not combined.
#[derive(PartialEq, Eq, Drop)]
pub enum KeyFault {
    /// The list of this key traps.
    Trap { kind: Kind, key: Value },
    /// Want of memory.
    Memory,
}

impl From<AllocError> for KeyFault {
    ghost use Rattle.std.specs.Prelude.{◌≡◌};
    ghost use Rattle.keyed_steps.specs.declared.fault.KeyFault.TheVariants.{Memory};

    ghost from_gives = { λ _ e. e ≡ Memory };

    fn from(_e: AllocError) -> KeyFault {
        KeyFault::Memory
    }
}
