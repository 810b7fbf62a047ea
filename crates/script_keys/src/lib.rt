//! Keys of collections: bytes under which what a collection comes to may be kept.
//!
//! A key is made of what a collection rests on: the texts of the types before it, of the inputs,
//! functions and lets that it rests on, with the bytes of each input's file, and last its name.
//! What it does not rest on has no part in it (`key_law`), and blanks, comments and lines have none
//! in the texts.
//!
//! `outline_of` says what a statement is to keys, read off its tree. `key_parts` says of the
//! outlines and the texts of a script's statements what the key of a collection is made of, and
//! `key_of` makes it of that, where the files are at hand.
#![tactic(auto)]

mod keys;
mod law;
mod names;
mod outline;
mod parts;
mod rests;

pub use keys::key_of;
pub use law::key_law;
pub use outline::{Outline, outline_of};
pub use parts::{KeyPart, key_parts};
