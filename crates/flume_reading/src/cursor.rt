// The tokens of a script that are left.
ghost use Rattle.std.specs.Prelude.{◌≡◌, ◌∷◌, [], length, is_some, false, option_copied, IfOk, IfErr, None};
ghost use Rattle.flume_grammar.specs.inner.Out.{next};
ghost use Rattle.flume_grammar.specs.inner.Reading as spec;

use flume_grammar::{ScriptKind, Stop};
use flume_tokens::{Keyword, Sign, Token, TokenKind};
use flume_value::Pile;
use std::marker::Model;

/// The tokens that are left, which contracts see as their list. They lie last one first.
#[derive(Drop)]
pub struct Cursor {
    tokens: Vec<Token>,
}

impl Model for Cursor {
    ghost use Rattle.std.specs.Prelude.{List, reverse};
    ghost use Rattle.std.specs.Coded.{coded_list};
    ghost use Rattle.flume_tokens.specs.declared.token.Token.{Token as Plain};
    ghost use Rattle.flume_tokens.specs.contracts.token.Token as token;

    ghost Value = { List Plain };

    ghost coded = { coded_list token.the_row.coded };

    ghost view = { λ s. reverse s.tokens.items };
}

impl Cursor {
    /// All tokens of a script are left.
    pub fn new(tokens: Pile<Token>) -> Cursor
        ensures { result ≡ tokens }
    {
        let mut tokens = tokens.into_vec();
        tokens.as_mut_slice().reverse();
        Cursor { tokens }
    }

    /// How many tokens are left.
    pub fn len(&self) -> usize
        ensures { result ≡ length self.now }
    {
        self.tokens.len()
    }

    /// What the next token is.
    pub fn peek(&self) -> Option<&TokenKind>
        ensures { option_copied result ≡ next self.now }
    {
        match self.tokens.last() {
            Some(token) => Some(&token.kind),
            None => None,
        }
    }

    /// The next token, which is passed.
    pub fn token(&mut self) -> Result<Token, Stop>
        ensures ok { IfOk result (λ t. self.old ≡ t ∷ self.new) }
        ensures err { IfErr result (λ e. (self.old ≡ [])
            × (e ≡ Stop.Fault None ScriptKind.Syntax)) }
    {
        match self.tokens.pop() {
            Some(token) => Ok(token),
            None => Err(Stop::Fault {
                line: None,
                kind: ScriptKind::Syntax,
            }),
        }
    }

    /// Whether the next token is this sign.
    pub fn is_at_sign(&self, sign: Sign) -> bool
        ensures { result ≡ spec.is_at_sign sign (next self.now) }
    {
        match self.peek() {
            Some(TokenKind::Sign(s)) => *s == sign,
            _ => false,
        }
    }

    /// Whether the next token is this keyword.
    pub fn is_at_keyword(&self, keyword: Keyword) -> bool
        ensures { result ≡ spec.is_at_keyword keyword (next self.now) }
    {
        match self.peek() {
            Some(TokenKind::Keyword(k)) => *k == keyword,
            _ => false,
        }
    }

    /// Whether any token is left.
    pub fn has_more(&self) -> bool
        ensures value { result ≡ is_some (next self.now) }
        ensures end { result ≡ false → self.now ≡ [] }
    {
        self.peek().is_some()
    }
}
