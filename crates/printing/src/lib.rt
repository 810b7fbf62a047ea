//! How names and values are printed, into a buffer and onto a screen.
//!
//! What is printed is a text, `printed` of a value and `quoted` of a name (specs/Printed). On a
//! screen it is said piece by piece, which takes no memory (`screen`, `value`): the whole text
//! stands there then, or the screen failed and has a front of it. Pieces and names in quotes go
//! into a buffer too (`buffer`), where memory may be wanting.
//!
//! A value is printed one level at a time: `printed_law` gives the text of each variant by the
//! texts of its parts.
#![tactic(auto)]

mod buffer;
mod escape;
mod screen;
mod value;

pub use buffer::{joined, push_quoted};
pub use screen::say_named;
pub use value::{printed_law, say_value};
