// Why a phase has no out of some task.
use flume_collection::Trap;
use std::alloc::AllocError;

/// Why a phase stopped.
#[derive(Drop)]
pub enum PhaseStop {
    /// The least task that trapped.
    Trap {
        /// The task.
        task: u32,
        /// Its first trap.
        trap: Trap,
    },
    /// The least task of which no attempt has won.
    GaveUp {
        /// The task.
        task: u32,
    },
    /// Want of memory.
    Memory,
}

impl From<AllocError> for PhaseStop {
    ghost use Rattle.std.specs.Prelude.{◌≡◌};
    ghost use Rattle.phase_outs.specs.declared.stop.PhaseStop.TheVariants.{Memory};

    ghost from_gives = { λ _ e. e ≡ Memory };

    fn from(_e: AllocError) -> PhaseStop {
        PhaseStop::Memory
    }
}
