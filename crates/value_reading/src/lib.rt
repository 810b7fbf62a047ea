//! Values from their canonical bytes.
//!
//! `read_canonical` reads exactly the canonical bytes of values of at most 16 levels: it gives the
//! value back that has these bytes, and where no such value has them it says so. So what was
//! written by `canonical_bytes` is read again, and nothing else is taken for a value.
//!
//! It reads from left to right and goes no deeper than the levels, whatever the bytes are. What it
//! takes of memory is the value's alone: a count of members that the bytes lack reserves nothing.
#![tactic(auto)]

mod cursor;
mod fault;
mod numbers;
mod reading;
mod tag;

pub use fault::ReadFault;
pub use reading::{MOST_LEVELS, read_canonical, reading_law};
