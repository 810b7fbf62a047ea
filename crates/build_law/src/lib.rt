//! What the execution graph of a script means: what the script means.
//!
//! The graph that is built of a well-formed script is well-formed (`graph_law`), where no statement
//! puts too many collections together, as none does that is read (`short_law`). In the world of the
//! script, whose sources are the lists of the needed inputs and kept collections and whose
//! functions answer as the script's do, its outputs are the collections that the script's outputs
//! read, the bag of each collection that has calls, groups, combinations or barriers of its own is
//! theirs, and its traps are all those of the script (`means_law`, specs/Means.antt). Types fit it,
//! by those of the script's sources and functions (`types_law`), and each of its Pdos has one step
//! with few outputs (`one_step_law`).
//!
//! It is shown by giving each node its collection: the last node of a script collection gives that,
//! the node of a call those of its outputs that are needed and not kept, and the nodes before the
//! last what a count, a join, the greatest members or all members as one value are put together
//! from. This assignment meets the equations of all nodes, and a well-formed graph has just one
//! that does.
#![tactic(auto)]

mod laws;

pub use direct_meaning;
pub use direct_meaning::script_laws;
pub use graph_build;
pub use graph_build::script_program;
pub use laws::{graph_law, means_law, one_step_law, short_law, types_law};
