// What an operand begins with, by its first token.
ghost use Rattle.std.specs.Prelude.{◌≡◌, IfOk, Some};
ghost use Rattle.flume_tokens.specs.declared.token.Token.{Token};
ghost use Rattle.flume_grammar.specs.inner.Expressions as spec;

use crate::operator::NOT;
use flume_grammar::start::Start;
use flume_grammar::{Expr, ScriptKind, Side, Stop, Unary};
use flume_reading::reading::at;
use flume_tokens::{Keyword, Sign, Token, TokenKind};

/// An operand of at most that depth begins, other than by a parenthesis.
pub fn operand_start(token: Token, limit: u32, least: u32) -> Result<Start, Stop>
    ensures value { result ≡ spec.operand_start limit least token }
    ensures deep { IfOk result (λ s. spec.HasRoom s limit) }
{
    let Token { kind, line } = token;
    match start_of(kind) {
        Some(start) => started(start, line, limit, least),
        None => Err(at(line, ScriptKind::Syntax)),
    }
}

fn start_of(kind: TokenKind) -> Option<Start>
    ensures { result ≡ spec.start_of kind }
{
    match kind {
        TokenKind::Name(name) => Some(Start::Leaf(Expr::Name(name))),
        TokenKind::Number(digits) => Some(Start::Leaf(Expr::Number(digits))),
        TokenKind::Text(text) => Some(Start::Leaf(Expr::Text(text))),
        TokenKind::Keyword(keyword) => keyword_start(keyword),
        TokenKind::Sign(sign) => sign_start(sign),
    }
}

/// What a keyword begins.
fn keyword_start(keyword: Keyword) -> Option<Start>
    ensures { result ≡ spec.keyword_start keyword }
{
    match keyword {
        Keyword::True => Some(Start::Leaf(Expr::Bool(true))),
        Keyword::False => Some(Start::Leaf(Expr::Bool(false))),
        Keyword::Empty => Some(Start::Empty),
        Keyword::Not => Some(Start::Prefix(Unary::Not)),
        Keyword::Left => Some(Start::Side(Side::Left)),
        Keyword::Right => Some(Start::Side(Side::Right)),
        Keyword::Concat => Some(Start::Concat),
        Keyword::Pick => Some(Start::Pick),
        Keyword::Len => Some(Start::Call(Unary::Len)),
        Keyword::Words => Some(Start::Call(Unary::Words)),
        Keyword::Text => Some(Start::Call(Unary::Text)),
        Keyword::Number => Some(Start::Call(Unary::Number)),
        _ => None,
    }
}

/// What a sign begins.
fn sign_start(sign: Sign) -> Option<Start>
    ensures { result ≡ spec.sign_start sign }
{
    match sign {
        Sign::OpenBrace => Some(Start::Record),
        Sign::OpenBracket => Some(Start::List),
        Sign::Minus => Some(Start::Prefix(Unary::Negate)),
        _ => None,
    }
}

fn started(start: Start, line: u32, limit: u32, least: u32) -> Result<Start, Stop>
    ensures value { (t : Token) → t.line ≡ line → result ≡ spec.started limit least t (Some start) }
    ensures deep { IfOk result (λ s. spec.HasRoom s limit) }
{
    if !fits(&start, least) {
        drop(start);
        Err(at(line, ScriptKind::Syntax))
    } else if limit > 1 || is_leaf(&start) {
        Ok(start)
    } else {
        drop(start);
        Err(at(line, ScriptKind::TooDeep))
    }
}

/// Whether it may be an operand of this rank: `not` only where an operand of its own rank may be.
fn fits(start: &Start, least: u32) -> bool
    ensures { result ≡ spec.fits start.now least }
{
    match start {
        Start::Prefix(Unary::Not) => least <= NOT,
        _ => true,
    }
}

fn is_leaf(start: &Start) -> bool
    ensures { result ≡ spec.is_leaf start.now }
{
    match start {
        Start::Leaf(_) | Start::Empty => true,
        _ => false,
    }
}
