//! The tokens of a script.
//!
//! A script is UTF-8 of at most 65,536 bytes. Its tokens are names, keywords, numbers, texts and
//! signs; spaces, tabs, line ends and comments part them. `tokens` cuts a script into its tokens,
//! or says the first fault and its line: a script that is too long, a byte that is not part of
//! UTF-8, a place where no token begins, a word that is too long.
//!
//! `specs/Tokens.antt` has the whole definition, `tokens_of`, on lists of bytes; `tokens` answers
//! exactly that. A number keeps its digits, since it may be greater than any machine number.
#![tactic(auto)]

mod cutting;
mod fault;
mod keyword;
mod law;
mod piece;
mod sign;
mod text;
mod token;

pub use cutting::tokens;
pub use fault::{Refusal, TokenFault};
pub use flume_value;
pub use keyword::{Keyword, keyword_law, keyword_of};
pub use law::text_law;
pub use sign::Sign;
pub use token::{Token, TokenKind, TokenList};
