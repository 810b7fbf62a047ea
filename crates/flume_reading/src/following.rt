// What was read, with what follows it.
//
// Where a part would have to be let go at once because nothing fit to follow it comes, that is
// proved here for any type, and not once more at each call.
ghost use Rattle.std.specs.Prelude.{◌≡◌};
ghost use Rattle.flume_grammar.specs.inner.Reads.{Reads, ReadsSuch};
ghost use Rattle.flume_reading.specs.inner.Pieces as pieces;

use crate::cursor::Cursor;
use crate::reading::{keyword, name, sign, word};
use flume_grammar::Stop;
use flume_tokens::{Keyword, Sign};
use flume_value::Str;
use std::alloc::Global;

/// What was read, where this sign ends it.
pub fn ended<T: Drop>(tokens: &mut Cursor, end: Sign, read: T) -> Result<T, Stop>
    ensures { ReadsSuch (λ x. x ≡ read) (pieces.ended end read) tokens.old tokens.new result }
{
    sign(tokens, end)?;
    Ok(read)
}

/// What was read, where this keyword follows.
pub fn followed<T: Drop>(tokens: &mut Cursor, word: Keyword, read: T) -> Result<T, Stop>
    ensures { ReadsSuch (λ x. x ≡ read) (pieces.followed word read) tokens.old tokens.new result }
{
    keyword(tokens, word)?;
    Ok(read)
}

/// What was read, and the name behind it.
pub fn with_name<T: Drop>(tokens: &mut Cursor, read: T) -> Result<(T, Str), Stop>
    ensures { ReadsSuch (λ x. x.0 ≡ read) (pieces.with_name read) tokens.old tokens.new result }
{
    let name = name(tokens)?;
    Ok((read, name))
}

/// A field's name, and the colon after it.
pub fn field_name(alloc: Global, tokens: &mut Cursor) -> Result<Str, Stop>
    ensures { Reads pieces.field_name tokens.old tokens.new result }
{
    let name = word(alloc, tokens)?;
    ended(tokens, Sign::Colon, name)
}
