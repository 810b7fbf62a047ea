// A repeat, read from tokens: what enters its first turn, the lets of its body, and what it gives.
ghost use Rattle.flume_grammar.specs.Limits.{the_limits};
ghost use Rattle.flume_grammar.specs.inner.Out.{one};
ghost use Rattle.flume_grammar.specs.inner.Reads.{Reads, PassesSuch, all};
ghost use Rattle.flume_grammar.specs.inner.Statements as spec;
ghost use Rattle.flume_syntax.specs.inner.Pieces as inner;

use crate::names::names;
use crate::operation::operation;
use flume_grammar::{Repeat, ScriptKind, Stop, TurnLet};
use flume_reading::Cursor;
use flume_reading::reading::{at, keyword, number, sign};
use flume_tokens::{Keyword, Sign, Token};
use flume_value::{Pile, Str};
use std::alloc::Global;

/// What stands behind `repeat`.
pub fn repeat(alloc: Global, tokens: &mut Cursor) -> Result<Repeat, Stop>
    ensures { Reads (spec.repeat_at the_limits) tokens.old tokens.new result }
{
    let (turns, from, entering) = head(alloc, tokens)?;
    let (lets, gives) = body(alloc, tokens)?;
    Ok(Repeat {
        turns,
        from,
        entering,
        lets,
        gives,
    })
}

/// `turns from .. as ..`
fn head(alloc: Global, tokens: &mut Cursor) -> Result<(Str, Pile<Str>, Pile<Str>), Stop>
    ensures { Reads spec.repeat_head tokens.old tokens.new result }
{
    let turns = number(tokens)?;
    let from = names_behind(alloc, tokens, Keyword::From)?;
    let entering = names_behind(alloc, tokens, Keyword::As)?;
    Ok((turns, from, entering))
}

/// One name or more behind this keyword.
fn names_behind(alloc: Global, tokens: &mut Cursor, word: Keyword) -> Result<Pile<Str>, Stop>
    ensures { Reads (inner.names_behind word) tokens.old tokens.new result }
{
    keyword(tokens, word)?;
    names(alloc, tokens)
}

/// `{ let .. give .. }`
fn body(alloc: Global, tokens: &mut Cursor) -> Result<(Pile<TurnLet>, Pile<Str>), Stop>
    ensures { Reads (spec.repeat_body the_limits) tokens.old tokens.new result }
{
    sign(tokens, Sign::OpenBrace)?;
    let lets = turn_lets(alloc, tokens)?;
    let gives = names_behind(alloc, tokens, Keyword::Give)?;
    sign(tokens, Sign::CloseBrace)?;
    Ok((lets, gives))
}

/// The lets of a body.
fn turn_lets(alloc: Global, tokens: &mut Cursor) -> Result<Pile<TurnLet>, Stop>
    ensures { PassesSuch all (spec.turn_lets the_limits) tokens.old tokens.new result }
{
    let mut lets = Pile::new(alloc);
    'more: while tokens.is_at_keyword(Keyword::Let) {
        lets.push(turn_let(alloc, tokens)?)?;
    }
    Ok(lets)
}

fn turn_let(alloc: Global, tokens: &mut Cursor) -> Result<TurnLet, Stop>
    ensures { Reads (spec.turn_let the_limits) tokens.old tokens.new result }
{
    let line = line_of_let(tokens)?;
    let names = names(alloc, tokens)?;
    sign(tokens, Sign::Assign)?;
    let by = operation(alloc, tokens)?;
    Ok(TurnLet { line, names, by })
}

/// The line on which a let begins.
fn line_of_let(tokens: &mut Cursor) -> Result<u32, Stop>
    ensures { Reads (one spec.line_of_let) tokens.old tokens.new result }
{
    let found = tokens.is_at_keyword(Keyword::Let);
    let Token { kind, line } = tokens.token()?;
    drop(kind);
    if found {
        Ok(line)
    } else {
        Err(at(line, ScriptKind::Syntax))
    }
}
