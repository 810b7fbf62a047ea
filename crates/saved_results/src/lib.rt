//! What is kept of a collection, as bytes: its members, and the sizes of what it rests on.
//!
//! Both stand in one value, whose canonical bytes are kept. What `saved_bytes` writes `read_saved`
//! gives back, and no other bytes are taken for such a value.
#![tactic(auto)]

mod parts;
mod reading;
mod saved;
mod writing;

pub use reading::read_saved;
pub use saved::{Saved, Size};
pub use writing::saved_bytes;
