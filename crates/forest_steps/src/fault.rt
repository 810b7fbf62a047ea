// Why steps end before their end.
use flume_collection::Trap;
use std::alloc::{AllocError, AllocFailed};

/// Why steps came to an end.
#[derive(PartialEq, Eq, Drop)]
pub enum StepFault {
    /// A call trapped.
    Trap(Trap),
    /// Want of memory.
    Memory,
}

impl From<AllocError> for StepFault {
    ghost use Rattle.std.specs.Prelude.{◌≡◌};
    ghost use Rattle.forest_steps.specs.declared.fault.StepFault.TheVariants.{Memory};

    ghost from_gives = { λ _ e. e ≡ Memory };

    fn from(_e: AllocError) -> StepFault {
        StepFault::Memory
    }
}

impl<T: Drop> From<AllocFailed<T>> for StepFault {
    ghost use Rattle.std.specs.Prelude.{◌≡◌};
    ghost use Rattle.forest_steps.specs.declared.fault.StepFault.TheVariants.{Memory};

    ghost from_gives = { λ _ e. e ≡ Memory };

    fn from(_e: AllocFailed<T>) -> StepFault {
        StepFault::Memory
    }
}
