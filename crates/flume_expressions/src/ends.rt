// The ends of an expression's parts: the sign that follows what was read.
ghost use Rattle.std.specs.Prelude.{◌≡◌, ◌<◌, ◌+◌, ◌^◌};
ghost use Rattle.flume_grammar.specs.inner.Reads.{ReadsSuch};
ghost use Rattle.flume_expressions.specs.inner.Pieces as pieces;

use crate::expression::whole;
use flume_grammar::parts::{Parts, SoFar};
use flume_grammar::{Expr, Stop};
use flume_reading::Cursor;
use flume_reading::following::ended;
use flume_reading::reading::comma;
use flume_tokens::Sign;
use flume_value::Pile;

/// What was read, where a comma follows: there are so many parts, and may be one more.
pub fn after_comma<T: Drop>(
    tokens: &mut Cursor,
    parts: usize,
    limit: usize,
    read: T,
) -> Result<T, Stop>
    ensures { ReadsSuch (λ x. x ≡ read) (pieces.after_comma parts limit read)
        tokens.old tokens.new result }
{
    comma(tokens, parts, limit)?;
    Ok(read)
}

/// An expression of that depth, where its parenthesis closes.
pub fn closed(tokens: &mut Cursor, read: (Expr, u32)) -> Result<SoFar, Stop>
    ensures { ReadsSuch (λ x. x.depth ≡ read.1) (pieces.closed read) tokens.old tokens.new result }
{
    let (expr, depth) = ended(tokens, Sign::Close, read)?;
    Ok(whole(expr, depth))
}

/// The record of these fields, where it ends.
pub fn recorded(tokens: &mut Cursor, fields: Parts<Expr>) -> Result<SoFar, Stop>
    requires { fields.depth + 1 < 2 ^ 32 }
    ensures { ReadsSuch (λ x. x.depth ≡ fields.depth + 1) (pieces.recorded fields)
        tokens.old tokens.new result }
{
    let fields = ended(tokens, Sign::CloseBrace, fields)?;
    let (names, values, depth) = fields.into_parts();
    Ok(whole(Expr::Record(names, values), depth + 1))
}

/// The list of these members, of which the deepest has that depth, where it ends.
pub fn listed(tokens: &mut Cursor, members: (Pile<Expr>, u32)) -> Result<SoFar, Stop>
    requires { members.1 + 1 < 2 ^ 32 }
    ensures { ReadsSuch (λ x. x.depth ≡ members.1 + 1) (pieces.listed members)
        tokens.old tokens.new result }
{
    let (members, depth) = ended(tokens, Sign::CloseBracket, members)?;
    Ok(whole(Expr::List(members), depth + 1))
}
