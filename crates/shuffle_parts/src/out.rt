// What a map task gives to the output channels of its stage.
use flume_value::{Items, Pile};
use key_order::Couple;
use partial_tables::Partial;

/// What a map task gives an output channel of its stage.
#[derive(Drop)]
pub enum Sent {
    /// The values that pass through the channel.
    Passed(Items),
    /// For each partition the pairs whose keys fall in it.
    Grouped(Pile<Pile<Couple>>),
    /// For each partition accumulators that stand for its pairs.
    Combined(Pile<Pile<Partial>>),
}

/// What a map task gives: what each output channel of its stage gets, in order, and how many
/// elements each of its steps gave.
#[derive(Drop)]
pub struct MapOut {
    pub sent: Pile<Sent>,
    pub counts: Pile<u64>,
}
