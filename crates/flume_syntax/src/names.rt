// Names parted by commas, read from tokens.
ghost use Rattle.flume_grammar.specs.inner.Out.{all_of};
ghost use Rattle.flume_grammar.specs.inner.Reads.{Reads, PassesSuch, all};
ghost use Rattle.flume_grammar.specs.inner.Types.{at_comma};
ghost use Rattle.flume_grammar.specs.inner.Statements as spec;

use flume_grammar::Stop;
use flume_reading::Cursor;
use flume_reading::reading::{name, sign};
use flume_tokens::Sign;
use flume_value::{Pile, Str};
use std::alloc::Global;

/// One name or more.
pub fn names(alloc: Global, tokens: &mut Cursor) -> Result<Pile<Str>, Stop>
    ensures { Reads spec.names tokens.old tokens.new result }
{
    let first = name(tokens)?;
    let mut names = Pile::new(alloc);
    names.push(first)?;
    more_names(tokens, names)
}

/// The names after the first.
fn more_names(tokens: &mut Cursor, first: Pile<Str>) -> Result<Pile<Str>, Stop>
    ensures { PassesSuch all (all_of at_comma spec.next_name first) tokens.old tokens.new result }
{
    let mut names = first;
    'more: while tokens.is_at_sign(Sign::Comma) {
        names = next_name(tokens, names)?;
    }
    Ok(names)
}

/// A comma and one more name.
fn next_name(tokens: &mut Cursor, names: Pile<Str>) -> Result<Pile<Str>, Stop>
    ensures { Reads (spec.next_name names) tokens.old tokens.new result }
{
    sign(tokens, Sign::Comma)?;
    let next = name(tokens)?;
    let mut names = names;
    names.push(next)?;
    Ok(names)
}
