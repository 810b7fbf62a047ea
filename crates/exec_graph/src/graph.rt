// Graphs: operations under their numbers, each on collections that others give.
use crate::step::Roots;
use combine_table::Comb;
use flume_value::Pile;

/// A collection: an output of a node.
#[derive(Clone, Copy, PartialEq, Eq, Drop)]
pub struct Place {
    pub node: u32,
    pub out: u32,
}

/// What a source gives: the rows of that number. They are one row where the source is an object,
/// and that row is its value.
#[derive(Clone, Copy, PartialEq, Eq, Drop)]
pub struct Input {
    pub number: u32,
    pub is_object: bool,
}

/// What a barrier does with the collections that it reads. Some of them are objects: collections of
/// one value, or of none where a trap is behind it.
#[derive(Clone, Copy, PartialEq, Eq, Drop)]
pub enum Act {
    /// A side input: calls the function of that number on each element of the first collection,
    /// beside the value of the object that is the second. Gives what the calls emit.
    SideInput(u32),
    /// Calls the function of that number once, on the value of the one object, or on the record of
    /// the values of several. Gives an object: what the call emits, which is one value.
    Operate(u32),
    /// Gives an object: the value of the only pair of the collection, or what the combiner makes of
    /// nothing where there is no pair.
    Singleton(Comb),
}

/// An operation.
#[derive(Drop)]
pub enum Node {
    /// The rows of an input.
    Source(Input),
    /// The collections together.
    Flatten(Pile<Place>),
    /// The steps on each element.
    Pdo {
        input: Place,
        roots: Roots,
    },
    /// The groups of the pairs, by key: of the script node `origin`, whose own bag they are or not,
    /// and lifted with a combiner or not.
    Gbk {
        input: Place,
        origin: u32,
        is_own: bool,
        lifted: Option<Comb>,
    },
    /// What the act makes of the collections: of the script node `origin`, whose own bag it is or
    /// not. A barrier takes collections whole: all that it reads is finished before it begins. No
    /// rewrite changes what it does, and nothing is fused with it.
    Barrier {
        inputs: Pile<Place>,
        origin: u32,
        is_own: bool,
        act: Act,
    },
}

/// An operation under its number.
#[derive(Drop)]
pub struct Entry {
    pub number: u32,
    pub node: Node,
}

/// Operations under ascending numbers, and the collections that are written out.
#[derive(Drop)]
pub struct Graph {
    pub nodes: Pile<Entry>,
    pub outputs: Pile<Place>,
    /// Above all numbers that were ever given, so that a new node gets a number of its own.
    pub next: u32,
}

/// A graph with marked collections.
#[derive(Drop)]
pub struct Blocked {
    pub graph: Graph,
    pub marks: Pile<Place>,
}
