// Why a call gives no value.
use std::alloc::{AllocError, AllocFailed};

/// Why a call traps. Of two traps of one element the earlier kind here comes first.
#[derive(Clone, Copy, PartialEq, Eq, PartialOrd, Ord, Hash, Debug)]
pub enum Kind {
    /// A number left the range of a signed number of 64 bits.
    Overflow,
    /// A division or a remainder by 0.
    DivideByZero,
    /// An index below 0, or at or beyond a list's length.
    BadIndex,
    /// A text that is no number in range.
    BadNumber,
    /// Where one value is wanted, none or several.
    NotOne,
}

/// Why a call gave nothing.
#[derive(PartialEq, Eq, Debug, Drop)]
pub enum CallFault {
    /// The call itself traps, whenever it is made.
    Trap(Kind),
    /// Want of memory.
    Memory,
}

impl From<AllocError> for CallFault {
    ghost use Rattle.std.specs.Prelude.{◌≡◌};
    ghost use Rattle.flume_value.specs.declared.fault.CallFault.TheVariants.{Memory};

    ghost from_gives = { λ _ e. e ≡ Memory };

    fn from(_e: AllocError) -> CallFault {
        CallFault::Memory
    }
}

impl<T: Drop> From<AllocFailed<T>> for CallFault {
    ghost use Rattle.std.specs.Prelude.{◌≡◌};
    ghost use Rattle.flume_value.specs.declared.fault.CallFault.TheVariants.{Memory};

    ghost from_gives = { λ _ e. e ≡ Memory };

    fn from(_e: AllocFailed<T>) -> CallFault {
        CallFault::Memory
    }
}
