//! What a script defines: functions, collections and outputs under their names.
//!
//! `Program` is the whole, behind the last statement: it also keeps which collections are needed,
//! as `specs/Needed.antt` defines. Some of its collections may be those that an earlier run has
//! kept (`specs/Saved.antt`): they are read as inputs are, and `specs/Sources.antt` says in which
//! order. script_state takes one definition more at a time. Which definitions a script may make is
//! for script_check.
//!
//! Types are held under numbers. Contracts see a program over types as trees, in the order of the
//! definitions, as `specs/Script.antt` defines; `specs/Program.antt` says what a function or a
//! collection in memory is of these.
#![tactic(auto)]

mod limits;
mod made;
mod needed;
mod program;
mod saved;
mod sources;

pub use body_check::{expression_check, written_types};
pub use limits::{MOST_COLLECTIONS, MOST_FILES, MOST_FUNCTIONS, MOST_OUTPUTS};
pub use made::{Emitted, Function, Made, Making, Node, Output, Signature, Standing};
pub use needed::needed_flags;
pub use program::Program;
pub use sources::{source_at, source_numbers};
