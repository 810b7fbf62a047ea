//! How tokens are spelled.
//!
//! Tokens that can be spelled are written one after another (`spelled`): line ends up to each
//! token's line, the token, and a blank. `spelling_law` proves that cutting what is written gives
//! the tokens back, and that all tokens of any script can be spelled.
#![tactic(auto)]

mod law;

pub use law::spelling_law;
