//! What types a script writes.
//!
//! A script gives names to types, and writes types by these names. `TypeNames` holds the types
//! under numbers, with what each name stands for; contracts see it as the types, and the names with
//! types as trees. `whole_type` answers the type that is written, or the first fault from the left,
//! exactly as `specs/Written.antt` defines.
//!
//! `specs/Answer.antt` has what checking gives, a result or the first fault, and how a function's
//! answer is tied to it: by one clause, `Gives`, for both ends of its `Result`.
#![tactic(auto)]

mod fault;
mod names;
mod tables;
mod written;

pub use fault::refused;
pub use names::TypeNames;
pub use tables::table;
pub use written::{shallow, whole_type};
