// The winners of a phase.
use flume_value::Pile;
use outside::Phase;

/// Which attempts have won the tasks of a phase.
#[derive(Drop)]
pub struct PhaseWinners {
    /// The stage, counted from 1 in the order of the plan.
    pub stage: u32,
    /// The phase of the stage.
    pub phase: Phase,
    /// The attempt of each task, counted from 1, in order of tasks.
    pub attempts: Pile<u32>,
}
