//! What the text of a statement tells: its tree, up to lines.
//!
//! The texts of a script are, statement by statement, those of its tree (`texts` of
//! `statement_law`), and statements with one text have one tree, but for the lines on which their
//! parts stand (`same`). So what is said of statements by their texts is said of their trees, in
//! whatever script they stand. Scripts with the same tokens have the same trees, up to lines
//! (`blanks`), and lines have no part in what statements are to keys (`keys`): so a change of
//! blanks and comments keeps each key.
#![tactic(auto)]

mod law;

pub use law::statement_law;
