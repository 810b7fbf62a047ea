//! Walks over forests of steps, and over nodes, that change them where they stand.
//!
//! `relabel` gives each output the label that a rule says (`Labels`). `halve` gives each twice its
//! number, or one more, so that the numbers of two forests differ. `plant` puts steps on an output
//! of a step, behind those that it has, and `put_on` may drop it then. `number_forest` gives
//! the outputs numbers from 0 on in preorder, and `renumber` keeps some outputs alone before; both
//! tell which they were, and `number_table` tells the new number of each. `reread_nodes` tells what
//! nodes read anew, by a rule too (`Moves`). What each gives is said by the laws of graph_laws
//! (`named_by`, `grafted`, `kept_by`, `numbered`, `number_in`, `reread`). No walk copies a step.
//! `has_output` looks for an output.
#![tactic(auto)]

mod finding;
mod halves;
mod labels;
mod numbering;
mod planting;
mod rereading;
mod tables;

pub use finding::{has_output, is_out};
pub use halves::{Half, half_number, halve};
pub use labels::{Labels, relabel};
pub use numbering::{number_forest, renumber};
pub use planting::{kept_out, plant, put_on};
pub use rereading::{Moves, reread_nodes, reread_places};
pub use tables::number_table;
