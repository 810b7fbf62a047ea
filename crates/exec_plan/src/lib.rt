//! Plans: stages of MapShuffleCombineReduce in order, and what a plan means.
//!
//! A `Plan` reads sources, and each of its stages gives results to later ones. A stage is an
//! `Mscr`, a Flatten or an Operate, which gives an object. Over each input channel of an `Mscr`
//! runs a forest of steps, beside an object or not, whose outputs are taken by output channels: a
//! grouping channel groups what it takes and runs its reducer on the groups, and a pass-through
//! channel gives on what it takes. Like graphs, plans name inputs and functions by their numbers,
//! and hold neither rows, bodies nor types.
//!
//! `results` (specs/Meaning.antt) says what a stage gives over any table of collections, and `run`
//! does so stage by stage: `plan_collection`. In a well-formed plan (`IsPlanOk`,
//! specs/Wellformed.antt) each stage reads sources and results of earlier stages alone, so that
//! just one table says of each result what its stage gives over that table (`meaning_law`). Types
//! are an assignment to collections that fits each stage (`IsPlanTyped`, specs/Typing.antt).
#![tactic(auto)]

mod laws;
mod outs;
mod plan;

pub use combine_table::flume_value;
pub use exec_graph;
pub use laws::meaning_law;
pub use outs::outs_of;
pub use plan::{Grouping, InChannel, Mscr, OutChannel, Plan, PlanPlace, Stage, Take};
