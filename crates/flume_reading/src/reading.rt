// How one token is read: a sign, a keyword, a name, a number, a text or a comma.
ghost use Rattle.std.specs.Prelude.{◌≡◌, Some};
ghost use Rattle.flume_grammar.specs.inner.Out.{one};
ghost use Rattle.flume_grammar.specs.inner.Reads.{Reads};
ghost use Rattle.flume_grammar.specs.inner.Reading as spec;

use crate::cursor::Cursor;
use flume_grammar::{ScriptKind, Stop};
use flume_tokens::{Keyword, Sign, Token, TokenKind};
use flume_value::Str;
use std::alloc::Global;

/// The fault at the token on this line.
pub fn at(line: u32, kind: ScriptKind) -> Stop
    ensures { result ≡ Stop.Fault (Some line) kind }
{
    Stop::Fault {
        line: Some(line),
        kind,
    }
}

/// This sign.
pub fn sign(tokens: &mut Cursor, sign: Sign) -> Result<(), Stop>
    ensures { Reads (one (spec.sign_at sign)) tokens.old tokens.new result }
{
    let found = tokens.is_at_sign(sign);
    let Token { kind, line } = tokens.token()?;
    drop(kind);
    if found {
        Ok(())
    } else {
        Err(at(line, ScriptKind::Syntax))
    }
}

/// This keyword.
pub fn keyword(tokens: &mut Cursor, keyword: Keyword) -> Result<(), Stop>
    ensures { Reads (one (spec.keyword_at keyword)) tokens.old tokens.new result }
{
    let found = tokens.is_at_keyword(keyword);
    let Token { kind, line } = tokens.token()?;
    drop(kind);
    if found {
        Ok(())
    } else {
        Err(at(line, ScriptKind::Syntax))
    }
}

/// A name.
pub fn name(tokens: &mut Cursor) -> Result<Str, Stop>
    ensures { Reads (one (spec.name_at)) tokens.old tokens.new result }
{
    let Token { kind, line } = tokens.token()?;
    match kind {
        TokenKind::Name(own) => Ok(own),
        other => {
            drop(other);
            Err(at(line, ScriptKind::Syntax))
        }
    }
}

/// A field's name: any word, reserved or not.
pub fn word(alloc: Global, tokens: &mut Cursor) -> Result<Str, Stop>
    ensures { Reads (one (spec.word_at)) tokens.old tokens.new result }
{
    let Token { kind, line } = tokens.token()?;
    match kind {
        TokenKind::Name(name) => Ok(name),
        TokenKind::Keyword(keyword) => Ok(Str::from_slice(alloc, keyword.spelling())?),
        other => {
            drop(other);
            Err(at(line, ScriptKind::Syntax))
        }
    }
}

/// A number's digits, as they are written.
pub fn number(tokens: &mut Cursor) -> Result<Str, Stop>
    ensures { Reads (one (spec.number_at)) tokens.old tokens.new result }
{
    let Token { kind, line } = tokens.token()?;
    match kind {
        TokenKind::Number(digits) => Ok(digits),
        other => {
            drop(other);
            Err(at(line, ScriptKind::Syntax))
        }
    }
}

/// A text's content.
pub fn text(tokens: &mut Cursor) -> Result<Str, Stop>
    ensures { Reads (one (spec.text_at)) tokens.old tokens.new result }
{
    let Token { kind, line } = tokens.token()?;
    match kind {
        TokenKind::Text(text) => Ok(text),
        other => {
            drop(other);
            Err(at(line, ScriptKind::Syntax))
        }
    }
}

/// The comma after so many members, of which at most the limit may be there.
pub fn comma(tokens: &mut Cursor, members: usize, limit: usize) -> Result<(), Stop>
    ensures { Reads (one (spec.comma_at members limit)) tokens.old tokens.new result }
{
    let found = tokens.is_at_sign(Sign::Comma);
    let Token { kind, line } = tokens.token()?;
    drop(kind);
    if !found {
        Err(at(line, ScriptKind::Syntax))
    } else if members < limit {
        Ok(())
    } else {
        Err(at(line, ScriptKind::TooMany))
    }
}
