// A token with its line, and the tokens of a script.
ghost use Rattle.std.specs.Prelude.{◌≡◌, ◌↔◌, IsTrue};

use crate::keyword::Keyword;
use crate::sign::Sign;
use flume_value::{Pile, Str};

/// What a token is.
#[derive(PartialEq, Eq, Drop)]
pub enum TokenKind {
    /// a word that is not reserved
    Name(Str),
    Keyword(Keyword),
    /// one or more decimal digits, as they are written
    Number(Str),
    /// a text's content, its escapes replaced
    Text(Str),
    Sign(Sign),
}

impl TokenKind {
    pub fn is_keyword(&self, keyword: Keyword) -> bool
        ensures { IsTrue result ↔ (self.now ≡ TokenKind.Keyword keyword) }
    {
        matches!(self, TokenKind::Keyword(k) if *k == keyword)
    }

    pub fn is_sign(&self, sign: Sign) -> bool
        ensures { IsTrue result ↔ (self.now ≡ TokenKind.Sign sign) }
    {
        matches!(self, TokenKind::Sign(s) if *s == sign)
    }
}

/// A token, and the line on which it begins: 1 plus the number of line ends before it.
#[derive(PartialEq, Eq, Drop)]
pub struct Token {
    pub kind: TokenKind,
    pub line: u32,
}

/// The tokens of a script, and the number of its last line.
#[derive(PartialEq, Eq, Drop)]
pub struct TokenList {
    pub items: Pile<Token>,
    pub last_line: u32,
}
