//! The ints that texts show.
//!
//! `int_of_text` reads an optional `-` and one or more decimal digits, of a value that 64 bits hold
//! with a sign; leading zeros change nothing, and anything else shows no int. Cells of inputs,
//! number literals and `number(t)` are read by this one rule, which `specs/Ints.antt` defines.
#![tactic(auto)]

mod number;
mod reading;

pub use reading::int_of_text;
