//! The statements of a script as texts: the tokens of each, joined by one space.
//!
//! A statement begins with one of five words, where no brace is open. Its text has no blank that
//! was written, no comment and no line end: it depends on the tokens alone (`same` of `text_law`).
//! And it tells them (`apart`): statements with one text have the same tokens.
#![tactic(auto)]

mod law;
mod texts;
mod written;

pub use law::text_law;
pub use texts::texts_of;
