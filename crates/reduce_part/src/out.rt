// What a reduce task comes to.
use flume_collection::Trap;
use flume_value::{Items, Pile};

/// What a reduce task gives where nothing traps.
#[derive(Drop)]
pub struct ReduceOut {
    /// What is emitted to each output of the reducer, in order.
    pub outputs: Pile<Items>,
    /// How many elements each output of each of its steps emits, in preorder.
    pub counts: Pile<u64>,
    /// How many groups there are.
    pub groups: u64,
}

/// What a reduce task comes to: its out, or its first trap.
pub type Reduced = Result<ReduceOut, Trap>;
