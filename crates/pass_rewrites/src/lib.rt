//! The passes but forming, as lists of rewrites.
//!
//! Sinking is a list of merges and sinks, lifting of lifts, fusing of siblings and then kids, and
//! marking of marks, and each of them may be made where the others before it lead (`passes_law`).
//! So what all these passes make of a graph is what one list leads to (`refined_law`), such as a
//! plan from outside comes with.
//!
//! What comes of two Pdos has the lesser number of both, also where a kid's own is the lesser.
//! Fusing gives the least number of all that become one, so kids lead there whatever numbers Pdos
//! have.
//!
//! Nothing here runs: the functions state what holds of passes.
#![tactic(auto)]

mod laws;

pub use laws::{passes_law, refined_law};
pub use optimise::mscr_form;
