//! The types of what operations give, from those of their operands.
//!
//! `Scope` is what is in sight of an expression: types under numbers, names of types, and names of
//! values with their types; contracts see it by `specs/Sight.antt` and `specs/Held.antt`. Over it,
//! each operation of the language has a function that answers the type of what it gives, or the
//! first fault, exactly as `specs/Types.antt` defines. None of them goes down into an expression:
//! expression_check does, and asks them at each form.
#![tactic(auto)]

mod different;
mod kinds;
mod operator;
mod parts;
mod record;
mod scope;
mod types;

pub use kinds::is_bool;
pub use operator::{Operator, one, operator_of, side_of};
pub use parts::{Sides, member_of, place_under, sides_of};
pub use record::{list_type, record_type};
pub use scope::{Found, Scope};
pub use types::{Half, binary_type, index_type, list_of, pick_type, side_type, unary_type};
pub use written_types;
