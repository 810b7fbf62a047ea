// What a run has come to.
use flume_value::{Items, Pile};
use plan_phases::PhaseWinners;

/// What the run of a plan has come to.
#[derive(Drop)]
pub struct Executed {
    /// The elements of each output of the plan, in order.
    pub outputs: Pile<Items>,
    /// How many members the bag of each script node has, by the number of the node; a count stops
    /// at its last value.
    pub counts: Pile<u64>,
    /// Which attempts have won the tasks, phase after phase.
    pub winners: Pile<PhaseWinners>,
}
