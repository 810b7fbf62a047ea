// Why bytes were not read.
use std::alloc::AllocError;

/// Why no value was read.
#[derive(Clone, Copy, PartialEq, Eq)]
pub enum ReadFault {
    /// No value of at most 16 levels has these canonical bytes.
    NotOne,
    /// Want of memory.
    Memory,
}

impl From<AllocError> for ReadFault {
    ghost use Rattle.std.specs.Prelude.{◌≡◌};
    ghost use Rattle.value_reading.specs.declared.fault.ReadFault.TheVariants.{Memory};

    ghost from_gives = { λ _ e. e ≡ Memory };

    fn from(_e: AllocError) -> ReadFault {
        ReadFault::Memory
    }
}
