// Plans as data: stages with their channels, and the places of collections.
use combine_table::Comb;
use combine_table::flume_value::Pile;
use exec_graph::{Act, Roots};

/// A collection of a plan.
#[derive(Clone, Copy, PartialEq, Eq, Drop)]
pub enum PlanPlace {
    /// The rows of the input of that number.
    Source(u32),
    /// A result of a stage. Stages are numbered from 1, and results from 0.
    Result { stage: u32, number: u32 },
}

/// An output of an input channel of the stage.
#[derive(Clone, Copy, PartialEq, Eq, Drop)]
pub struct Take {
    pub channel: u32,
    pub out: u32,
}

/// A collection that a stage reads, and the steps on each of its elements. Without steps its output
/// 0 is the element itself. Where there is an object, each step is called beside it.
#[derive(Drop)]
pub struct InChannel {
    pub reads: PlanPlace,
    pub beside: Option<PlanPlace>,
    pub does: Option<Roots>,
}

/// What is taken is grouped, and the reducer runs on each group. Without a reducer the one result
/// is the groups.
#[derive(Drop)]
pub struct Grouping {
    /// The script node that the groups are of, and whether they are its own bag.
    pub origin: u32,
    pub last: bool,
    /// The combiner that the values of a key are combined with on their way.
    pub lifted: Option<Comb>,
    pub takes: Pile<Take>,
    pub does: Option<Roots>,
    /// The number of its first result.
    pub first: u32,
}

/// What gives results of a stage.
#[derive(Drop)]
pub enum OutChannel {
    Group(Grouping),
    /// What is taken is a result, of that number.
    Pass(Take, u32),
}

/// A stage of MapShuffleCombineReduce.
#[derive(Drop)]
pub struct Mscr {
    pub inputs: Pile<InChannel>,
    pub outputs: Pile<OutChannel>,
}

/// What a plan carries out in one go.
#[derive(Drop)]
pub enum Stage {
    Mscr(Mscr),
    /// The collections together are the one result.
    Flatten(Pile<PlanPlace>),
    /// The stage of a barrier that gives an object: what the act makes of the collections, for the
    /// script node, whose own bag it is or not, is the one result.
    Operate(Pile<PlanPlace>, u32, bool, Act),
}

/// Stages in order over so many sources, of which some are objects, and the collections that are
/// written out.
#[derive(Drop)]
pub struct Plan {
    pub sources: u32,
    pub objects: Pile<u32>,
    pub stages: Pile<Stage>,
    pub outputs: Pile<PlanPlace>,
}
