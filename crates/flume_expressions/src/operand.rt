// Operands: in parentheses or bare, with the records and lists among them.
ghost use Rattle.std.specs.Prelude.{◌≡◌, ◌<◌, ◌≤◌, ◌++◌, length, max, [], ◌∷◌, IfOk, IfErr, OnOk};
ghost use Rattle.flume_grammar.specs.Limits.{the_limits};
ghost use Rattle.flume_grammar.specs.Parts.{with_named_part};
ghost use Rattle.flume_grammar.specs.inner.Out.{one, all_of};
ghost use Rattle.flume_grammar.specs.inner.Reads.{ReadsSuch, PassesSuch, Below, FitsSoFar};
ghost use Rattle.flume_grammar.specs.inner.Types.{at_comma};
ghost use Rattle.flume_grammar.specs.inner.Expressions as spec;

use crate::calls::{call, concat, empty, pick, sided};
use crate::ends::{after_comma, closed, listed, recorded};
use crate::expression::{continued, expression, part, whole};
use crate::operator::{ANY, NEGATION, NOT};
use crate::start::operand_start;
use flume_grammar::limits::{MAX_FIELDS, MAX_MEMBERS};
use flume_grammar::parts::{Parts, SoFar};
use flume_grammar::start::Start;
use flume_grammar::{Expr, Stop, Unary};
use flume_reading::Cursor;
use flume_reading::following::field_name;
use flume_reading::reading::sign;
use flume_tokens::Sign;
use flume_value::{Pile, Str};
use std::alloc::{AllocError, Global};

/// The expression that begins with this in parentheses that have opened.
#[cycle(expressions)]
fn enclosed(alloc: Global, tokens: &mut Cursor, limit: u32, first: SoFar) -> Result<SoFar, Stop>
    requires limit { 1 ≤ limit }
    requires depth { (1 ≤ first.depth) × (first.depth ≤ limit) }
    ensures { ReadsSuch (FitsSoFar limit) (spec.enclosed limit (spec.expression_below limit) first)
        tokens.old tokens.new result }
{
    let read = continued(alloc, tokens, limit, ANY, first)?;
    closed(tokens, read)
}

/// An operand of an operator that asks for at least that rank.
#[cycle(expressions)]
pub fn operand(alloc: Global, tokens: &mut Cursor, limit: u32, least: u32) -> Result<SoFar, Stop>
    requires { 1 ≤ limit }
    ensures { ReadsSuch (FitsSoFar limit)
        (spec.operand the_limits limit (spec.expression_below limit) least)
        tokens.old tokens.new result }
{
    let parens = opened(tokens)?;
    if parens == 0 {
        return bare(alloc, tokens, limit, least);
    }
    let mut inner = bare(alloc, tokens, limit, ANY)?;
    'close: for closed in 0..parens {
        inner = enclosed(alloc, tokens, limit, inner)?;
    }
    Ok(inner)
}

/// An operand that begins with no parenthesis.
#[cycle(expressions)]
fn bare(alloc: Global, tokens: &mut Cursor, limit: u32, least: u32) -> Result<SoFar, Stop>
    requires { 1 ≤ limit }
    ensures { ReadsSuch (FitsSoFar limit)
        (spec.bare the_limits limit (spec.expression_below limit) least)
        tokens.old tokens.new result }
{
    let start = next_start(tokens, limit, least)?;
    after_start(alloc, tokens, limit, start)
}

/// The operand that begins so.
#[cycle(expressions)]
fn after_start(alloc: Global, tokens: &mut Cursor, limit: u32, start: Start) -> Result<SoFar, Stop>
    requires limit { 1 ≤ limit }
    requires deep { spec.HasRoom start limit }
    ensures { PassesSuch (FitsSoFar limit)
        (spec.after_start the_limits (spec.expression_below limit) start)
        tokens.old tokens.new result }
{
    match start {
        Start::Leaf(expr) => Ok(whole(expr, 1)),
        Start::Empty => {
            drop(start);
            empty(alloc, tokens)
        }
        Start::Record => {
            drop(start);
            record(alloc, tokens, limit)
        }
        Start::List => {
            drop(start);
            list(alloc, tokens, limit)
        }
        Start::Prefix(unary) => {
            drop(start);
            prefix(alloc, tokens, limit, unary)
        }
        Start::Call(unary) => {
            drop(start);
            call(alloc, tokens, limit, unary)
        }
        Start::Side(side) => {
            drop(start);
            sided(alloc, tokens, limit, side)
        }
        Start::Concat => {
            drop(start);
            concat(alloc, tokens, limit)
        }
        Start::Pick => {
            drop(start);
            pick(alloc, tokens, limit)
        }
    }
}

#[cycle(expressions)]
fn field(
    alloc: Global,
    tokens: &mut Cursor,
    limit: u32,
    fields: Parts<Expr>,
) -> Result<Parts<Expr>, Stop>
    requires limit { 2 ≤ limit }
    requires depth { fields.depth < limit }
    ensures { ReadsSuch (Below limit) (spec.field (spec.expression_below limit) fields)
        tokens.old tokens.new result }
{
    let name = field_name(alloc, tokens)?;
    let (value, depth) = expression(alloc, tokens, limit - 1, ANY)?;
    Ok(with_value(fields, name, value, depth)?)
}

/// A comma and one more field.
#[cycle(expressions)]
fn next_field(
    alloc: Global,
    tokens: &mut Cursor,
    limit: u32,
    fields: Parts<Expr>,
) -> Result<Parts<Expr>, Stop>
    requires limit { 2 ≤ limit }
    requires depth { fields.depth < limit }
    ensures { ReadsSuch (Below limit)
        (spec.next_field the_limits (spec.expression_below limit) fields)
        tokens.old tokens.new result }
{
    let count = fields.len();
    let fields = after_comma(tokens, count, MAX_FIELDS, fields)?;
    field(alloc, tokens, limit, fields)
}

/// The fields after the first.
#[cycle(expressions)]
fn more_fields(
    alloc: Global,
    tokens: &mut Cursor,
    limit: u32,
    first: Parts<Expr>,
) -> Result<Parts<Expr>, Stop>
    requires limit { 2 ≤ limit }
    requires depth { first.depth < limit }
    ensures { PassesSuch (Below limit)
        (all_of at_comma (spec.next_field the_limits (spec.expression_below limit)) first)
        tokens.old tokens.new result }
{
    let mut fields = first;
    'more: while tokens.is_at_sign(Sign::Comma) {
        fields = next_field(alloc, tokens, limit, fields)?;
    }
    Ok(fields)
}

#[cycle(expressions)]
fn record(alloc: Global, tokens: &mut Cursor, limit: u32) -> Result<SoFar, Stop>
    requires { 2 ≤ limit }
    ensures { ReadsSuch (FitsSoFar limit) (spec.record_ the_limits (spec.expression_below limit))
        tokens.old tokens.new result }
{
    let first = field(alloc, tokens, limit, Parts::new(alloc))?;
    let fields = more_fields(alloc, tokens, limit, first)?;
    recorded(tokens, fields)
}

/// A comma and one more member.
#[cycle(expressions)]
fn next_member(
    alloc: Global,
    tokens: &mut Cursor,
    limit: u32,
    members: (Pile<Expr>, u32),
) -> Result<(Pile<Expr>, u32), Stop>
    requires limit { 2 ≤ limit }
    requires depth { members.1 < limit }
    ensures { ReadsSuch (λ m. m.1 < limit)
        (spec.next_member the_limits (spec.expression_below limit) members)
        tokens.old tokens.new result }
{
    let count = members.0.len();
    let members = after_comma(tokens, count, MAX_MEMBERS, members)?;
    let (member, depth) = expression(alloc, tokens, limit - 1, ANY)?;
    Ok(with_member(members, member, depth)?)
}

/// The members after the first, and the depth of the deepest.
#[cycle(expressions)]
fn more_members(
    alloc: Global,
    tokens: &mut Cursor,
    limit: u32,
    first: (Pile<Expr>, u32),
) -> Result<(Pile<Expr>, u32), Stop>
    requires limit { 2 ≤ limit }
    requires depth { first.1 < limit }
    ensures { PassesSuch (λ m. m.1 < limit)
        (all_of at_comma (spec.next_member the_limits (spec.expression_below limit)) first)
        tokens.old tokens.new result }
{
    let mut members = first;
    'more: while tokens.is_at_sign(Sign::Comma) {
        members = next_member(alloc, tokens, limit, members)?;
    }
    Ok(members)
}

#[cycle(expressions)]
fn list(alloc: Global, tokens: &mut Cursor, limit: u32) -> Result<SoFar, Stop>
    requires { 2 ≤ limit }
    ensures { ReadsSuch (FitsSoFar limit) (spec.list the_limits (spec.expression_below limit))
        tokens.old tokens.new result }
{
    let (first, depth) = expression(alloc, tokens, limit - 1, ANY)?;
    let first = alone(alloc, first)?;
    let members = more_members(alloc, tokens, limit, (first, depth))?;
    listed(tokens, members)
}

#[cycle(expressions)]
fn prefix(alloc: Global, tokens: &mut Cursor, limit: u32, unary: Unary) -> Result<SoFar, Stop>
    requires { 2 ≤ limit }
    ensures { ReadsSuch (FitsSoFar limit) (spec.prefix (spec.expression_below limit) unary)
        tokens.old tokens.new result }
{
    let rank = prefix_rank(unary);
    let (expr, depth) = part(alloc, tokens, limit, rank)?;
    Ok(SoFar {
        rank,
        expr: Expr::Unary(unary, expr),
        depth: depth + 1,
    })
}

/// The parentheses that open here are passed, and counted.
fn opened(tokens: &mut Cursor) -> Result<usize, Stop>
    ensures ok { IfOk result (λ n. spec.Opens the_limits n tokens.old tokens.new) }
    ensures err { IfErr result (λ e. e ≡ Stop.Memory) }
    ensures shorter { OnOk result (length tokens.new ≤ length tokens.old) }
{
    let before = tokens.len();
    'open: while tokens.is_at_sign(Sign::Open) {
        sign(tokens, Sign::Open)?;
    }
    Ok(before - tokens.len())
}

fn next_start(tokens: &mut Cursor, limit: u32, least: u32) -> Result<Start, Stop>
    ensures { ReadsSuch (λ s. spec.HasRoom s limit) (one (spec.operand_start limit least))
        tokens.old tokens.new result }
{
    let token = tokens.token()?;
    operand_start(token, limit, least)
}

/// The fields with one more.
fn with_value(
    fields: Parts<Expr>,
    name: Str,
    value: Expr,
    depth: u32,
) -> Result<Parts<Expr>, AllocError>
    ensures { IfOk result (λ p. p ≡ with_named_part fields name value depth) }
{
    let mut fields = fields;
    fields.put(name, value, depth)?;
    Ok(fields)
}

/// The members with one more, and the depth of the deepest.
fn with_member(
    members: (Pile<Expr>, u32),
    member: Expr,
    depth: u32,
) -> Result<(Pile<Expr>, u32), AllocError>
    ensures { IfOk result (λ m. (m.0 ≡ members.0 ++ member ∷ []) × (m.1 ≡ max members.1 depth)) }
{
    let (mut exprs, deepest) = members;
    exprs.push(member)?;
    Ok((exprs, deepest.max(depth)))
}

/// A list of this member alone.
fn alone(alloc: Global, member: Expr) -> Result<Pile<Expr>, AllocError>
    ensures { IfOk result (λ es. es ≡ member ∷ []) }
{
    let mut members = Pile::new(alloc);
    members.push(member)?;
    Ok(members)
}

/// The rank of an operator before its operand, and of the operand.
fn prefix_rank(unary: Unary) -> u32
    ensures { result ≡ spec.prefix_rank unary }
{
    match unary {
        Unary::Not => NOT,
        _ => NEGATION,
    }
}
