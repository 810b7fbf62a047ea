// Why a run has no answer.
use flume_collection::Trap;
use outside::Phase;
use std::alloc::AllocError;

/// Why the run of a plan stopped.
#[derive(Drop)]
pub enum RunFault {
    /// The first trap of the least trapping task, or of the act, of the first phase that has one.
    Trap(Trap),
    /// The first task, by phases and by tasks, of which no attempt has won; none before it traps.
    GaveUp {
        /// The stage, counted from 1 in the order of the plan.
        stage: u32,
        /// The phase of the stage.
        phase: Phase,
        /// The task of the phase, counted from 0.
        task: u32,
    },
    /// Want of memory.
    Memory,
}

impl From<AllocError> for RunFault {
    ghost use Rattle.std.specs.Prelude.{◌≡◌};
    ghost use Rattle.plan_phases.specs.declared.fault.RunFault.TheVariants.{Memory};

    ghost from_gives = { λ _ e. e ≡ Memory };

    fn from(_e: AllocError) -> RunFault {
        RunFault::Memory
    }
}
