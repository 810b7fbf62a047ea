//! Execution graphs: operations on collections, and what a graph means.
//!
//! A `Graph` has five kinds of nodes: a source of rows, collections together (Flatten), a forest of
//! steps on each element of a collection (Pdo), the groups of a collection of pairs (Gbk), and what
//! is made of collections that are taken whole (Barrier). One type serves before and after every
//! rewrite. It names inputs and functions by their numbers, and holds neither rows, bodies nor
//! types.
//!
//! A barrier begins when all that it reads is finished, and nothing is fused with it. It makes and
//! takes objects, which are collections of one value, or of none where a trap is behind it. Its act
//! (`Act`) calls a function beside an object (a side input), calls a function of objects (operate),
//! or takes the value of the only pair (singleton): specs/Objects.antt, and `act_law`.
//!
//! What these are is a `World` (specs/World.antt): the rows of each source, and what each function
//! answers. A step calls a function, combines the list of a pair, or is a derived function
//! (`step_law`). `Meets` (specs/Meaning.antt) says what a graph means in a world: an assignment of
//! a bag and a set of traps to each collection that meets the equation of every node. A well-formed
//! graph (`IsGraphOk`, specs/Wellformed.antt) has just one (`meaning_law`), which `collection`
//! computes.
//!
//! Types are an assignment to collections that fits each node, by the signatures of inputs and
//! functions (`IsTyped`, specs/Typing.antt). Each member of a collection then has its type, where
//! the world is typed too (`typed_law`).
#![tactic(auto)]

mod combiners;
mod copies;
mod graph;
mod laws;
mod places;
mod readers;
mod rows;
mod sizes;
mod spots;
mod step;

pub use combiners::root_comb;
pub use graph::{Act, Blocked, Entry, Graph, Input, Node, Place};
pub use laws::{act_law, meaning_law, object_law, step_law, typed_law};
pub use places::{add_place, add_places, code_of, set_of_places};
pub use readers::{held_places, read_places};
pub use rows::{operate_rows_law, side_input_rows_law, singleton_rows_law};
pub use sizes::{MOST_NODES, count_outputs, size_of};
pub use spots::{Spot, spots_of};
pub use step::{Does, Output, Roots, Step};
