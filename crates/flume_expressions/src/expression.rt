// Expressions: an operand, and the fields, members and operators that go on with it.
ghost use Rattle.std.specs.Prelude.{◌≡◌, ◌<◌, ◌≤◌, ◌+◌, ◌^◌, option_copied};
ghost use Rattle.flume_grammar.specs.Limits.{the_limits};
ghost use Rattle.flume_grammar.specs.inner.Out.{one};
ghost use Rattle.flume_grammar.specs.inner.Reads.{Reads, ReadsSuch, PassesSuch, Fits, Grows};
ghost use Rattle.flume_grammar.specs.inner.Expressions as spec;
ghost use Rattle.flume_expressions.specs.inner.Pieces as pieces;

use crate::calls::argument;
use crate::operand::operand;
use crate::operator::{ANY, OPERAND, left_rank, operator_of, rank};
use flume_grammar::parts::{SoFar, Suffix};
use flume_grammar::{Binary, Expr, ScriptKind, Stop};
use flume_reading::Cursor;
use flume_reading::reading::{at, word};
use flume_tokens::{Sign, Token, TokenKind};
use flume_value::Held;
use std::alloc::Global;

/// An operand, of the greatest rank.
pub fn whole(expr: Expr, depth: u32) -> SoFar
    ensures { result ≡ spec.so_far 8 expr depth }
{
    SoFar {
        rank: OPERAND,
        expr,
        depth,
    }
}

/// What the token goes on with, after an expression of this rank that is to be of at least that.
fn suffix_of(kind: Option<&TokenKind>, own: u32, least: u32) -> Option<Suffix>
    ensures { result ≡ spec.suffix_of (option_copied kind.entry) own least }
{
    match kind {
        Some(TokenKind::Sign(Sign::Dot)) if own == OPERAND => Some(Suffix::Field),
        Some(TokenKind::Sign(Sign::OpenBracket)) if own == OPERAND => Some(Suffix::Index),
        Some(kind) => match operator_of(kind) {
            Some(o) if least <= rank(o) && left_rank(o) <= own => Some(Suffix::Operator(o)),
            _ => None,
        },
        None => None,
    }
}

/// The fault TooDeep at the next token.
fn too_deep(tokens: &mut Cursor) -> Stop
    ensures { one spec.deep_at tokens.old ≡ Err result }
{
    match tokens.token() {
        Ok(Token { kind, line }) => {
            drop(kind);
            at(line, ScriptKind::TooDeep)
        }
        Err(stop) => stop,
    }
}

fn pass(tokens: &mut Cursor) -> Result<(), Stop>
    ensures { Reads (one spec.passing) tokens.old tokens.new result }
{
    drop(tokens.token()?);
    Ok(())
}

/// The expression with what goes on with it: a field, an index, or an operator and its operand.
#[cycle(expressions)]
fn extended(
    alloc: Global,
    tokens: &mut Cursor,
    limit: u32,
    left: SoFar,
    suffix: Suffix,
) -> Result<SoFar, Stop>
    requires limit { 1 ≤ limit }
    requires room { (1 ≤ left.depth) × (left.depth ≤ limit) }
    ensures { ReadsSuch (Grows left limit)
        (spec.with_suffix limit (spec.expression_below limit) left (Some suffix))
        tokens.old tokens.new result }
{
    let SoFar { expr, depth, .. } = left;
    let left = Held::new(alloc, expr)?;
    if depth >= limit {
        return Err(too_deep(tokens));
    }
    pass(tokens)?;
    match suffix {
        Suffix::Field => with_field(alloc, tokens, left, depth),
        Suffix::Index => with_index(alloc, tokens, limit, left, depth),
        Suffix::Operator(o) => with_operator(alloc, tokens, limit, left, depth, o),
    }
}

/// A field of the expression.
fn with_field(
    alloc: Global,
    tokens: &mut Cursor,
    left: Held<Expr>,
    depth: u32,
) -> Result<SoFar, Stop>
    requires { depth + 1 < 2 ^ 32 }
    ensures { ReadsSuch (λ x. x.depth ≡ depth + 1) (pieces.with_field left depth)
        tokens.old tokens.new result }
{
    let name = word(alloc, tokens)?;
    Ok(whole(Expr::Field(left, name), depth + 1))
}

/// A member of the expression.
#[cycle(expressions)]
fn with_index(
    alloc: Global,
    tokens: &mut Cursor,
    limit: u32,
    left: Held<Expr>,
    depth: u32,
) -> Result<SoFar, Stop>
    requires limit { 2 ≤ limit }
    requires room { depth < limit }
    ensures { ReadsSuch (λ x. (depth < x.depth) × (x.depth ≤ limit))
        (spec.extend (spec.expression_below limit) (spec.so_far 8 left depth) Suffix.Index)
        tokens.old tokens.new result }
{
    let (at, a) = argument(alloc, tokens, limit, Sign::CloseBracket)?;
    Ok(whole(Expr::Index(left, at), depth.max(a) + 1))
}

/// The expression, the operator and its right operand.
#[cycle(expressions)]
fn with_operator(
    alloc: Global,
    tokens: &mut Cursor,
    limit: u32,
    left: Held<Expr>,
    depth: u32,
    o: Binary,
) -> Result<SoFar, Stop>
    requires limit { 2 ≤ limit }
    requires room { depth < limit }
    ensures { ReadsSuch (λ x. (depth < x.depth) × (x.depth ≤ limit))
        (spec.extend (spec.expression_below limit) (spec.so_far 8 left depth) (Suffix.Operator o))
        tokens.old tokens.new result }
{
    let rank = rank(o);
    let (right, a) = part(alloc, tokens, limit, rank + 1)?;
    Ok(SoFar {
        rank,
        expr: Expr::Binary(o, left, right),
        depth: depth.max(a) + 1,
    })
}

/// The whole expression of at least that rank that begins with this, and its depth.
#[cycle(expressions)]
pub fn continued(
    alloc: Global,
    tokens: &mut Cursor,
    limit: u32,
    least: u32,
    first: SoFar,
) -> Result<(Expr, u32), Stop>
    requires limit { 1 ≤ limit }
    requires depth { (1 ≤ first.depth) × (first.depth ≤ limit) }
    ensures { PassesSuch (Fits limit)
        (spec.continued limit (spec.expression_below limit) least first)
        tokens.old tokens.new result }
{
    let mut left = first;
    'more: while let Some(suffix) = suffix_of(tokens.peek(), left.rank, least) {
        left = extended(alloc, tokens, limit, left, suffix)?;
    }
    let SoFar { expr, depth, .. } = left;
    Ok((expr, depth))
}

/// An expression of at least that rank and at most that depth, and its depth.
#[cycle(expressions)]
#[tactic(auto, using(flume_grammar::proofs::Steps::expression_step))]
pub fn expression(
    alloc: Global,
    tokens: &mut Cursor,
    limit: u32,
    least: u32,
) -> Result<(Expr, u32), Stop>
    requires { 1 ≤ limit }
    ensures { ReadsSuch (Fits limit) (spec.expression_within the_limits limit least)
        tokens.old tokens.new result }
{
    let first = operand(alloc, tokens, limit, least)?;
    continued(alloc, tokens, limit, least, first)
}

/// An expression of at least that rank and of less depth, held.
#[cycle(expressions)]
pub(crate) fn part(
    alloc: Global,
    tokens: &mut Cursor,
    limit: u32,
    least: u32,
) -> Result<(Held<Expr>, u32), Stop>
    requires { 2 ≤ limit }
    ensures { ReadsSuch (λ x. (1 ≤ x.1) × (x.1 < limit)) (spec.expression_below limit least)
        tokens.old tokens.new result }
{
    let (expr, depth) = expression(alloc, tokens, limit - 1, least)?;
    Ok((Held::new(alloc, expr)?, depth))
}
