//! Beginnings of scripts are beginnings that bytes have.
//!
//! The grammar speaks of tokens: some tokens are a beginning where others behind them make a script
//! of them (`IsBeginning`). Not all tokens can be spelled: a name that is reserved, is empty, has
//! more than 32 letters or has others than a name's; a number without digits; a text that is not
//! UTF-8; lines that do not ascend from 1. `beginning_law` proves that tokens which can be spelled
//! and are a beginning are one that bytes have: some bytes are a script whose tokens begin so. All
//! tokens of a script can be spelled, so what is said of beginnings where a script is refused is
//! said of bytes.
#![tactic(auto)]

mod law;

pub use law::beginning_law;
