//! Operands with an argument in parentheses, and the empty list.

ghost use Rattle.std.specs.Prelude.{◌≡◌, ◌<◌, ◌≤◌};
ghost use Rattle.flume_grammar.specs.Limits.{the_limits};
ghost use Rattle.flume_grammar.specs.inner.Reads.{Reads, ReadsSuch, FitsSoFar};
ghost use Rattle.flume_grammar.specs.inner.Expressions as spec;
ghost use Rattle.flume_expressions.specs.inner.Pieces as pieces;

use crate::expression::{part, whole};
use crate::operator::ANY;
use flume_grammar::parts::SoFar;
use flume_grammar::{Expr, Side, Stop, Type, Unary};
use flume_reading::following::ended;
use flume_reading::reading::sign;
use flume_reading::{Cursor, whole_type};
use flume_tokens::Sign;
use flume_value::Held;
use std::alloc::Global;

/// What stands after `empty`.
pub fn empty(alloc: Global, tokens: &mut Cursor) -> Result<SoFar, Stop>
    ensures { ReadsSuch (λ x. x.depth ≡ 1) (spec.empty the_limits) tokens.old tokens.new result }
{
    sign(tokens, Sign::Less)?;
    let member = whole_type(alloc, tokens)?;
    let member = ended(tokens, Sign::Greater, member)?;
    Ok(whole(Expr::Empty(member), 1))
}

/// The type of the other side, and what opens the parentheses after it.
fn other_side(alloc: Global, tokens: &mut Cursor) -> Result<Type, Stop>
    ensures { Reads pieces.other_side tokens.old tokens.new result }
{
    sign(tokens, Sign::Less)?;
    let other = whole_type(alloc, tokens)?;
    let other = ended(tokens, Sign::Greater, other)?;
    ended(tokens, Sign::Open, other)
}

/// An argument, and what ends it.
#[cycle(expressions)]
pub fn argument(
    alloc: Global,
    tokens: &mut Cursor,
    limit: u32,
    end: Sign,
) -> Result<(Held<Expr>, u32), Stop>
    requires { 2 ≤ limit }
    ensures { ReadsSuch (λ x. (1 ≤ x.1) × (x.1 < limit))
        (spec.argument (spec.expression_below limit) end)
        tokens.old tokens.new result }
{
    let (expr, depth) = part(alloc, tokens, limit, ANY)?;
    Ok((ended(tokens, end, expr)?, depth))
}

#[cycle(expressions)]
pub fn call(alloc: Global, tokens: &mut Cursor, limit: u32, unary: Unary) -> Result<SoFar, Stop>
    requires { 2 ≤ limit }
    ensures { ReadsSuch (FitsSoFar limit) (spec.call (spec.expression_below limit) unary)
        tokens.old tokens.new result }
{
    sign(tokens, Sign::Open)?;
    let (expr, depth) = argument(alloc, tokens, limit, Sign::Close)?;
    Ok(whole(Expr::Unary(unary, expr), depth + 1))
}

#[cycle(expressions)]
pub fn sided(alloc: Global, tokens: &mut Cursor, limit: u32, side: Side) -> Result<SoFar, Stop>
    requires { 2 ≤ limit }
    ensures { ReadsSuch (FitsSoFar limit) (pieces.sided (spec.expression_below limit) side)
        tokens.old tokens.new result }
{
    let other = other_side(alloc, tokens)?;
    let (expr, depth) = argument(alloc, tokens, limit, Sign::Close)?;
    Ok(whole(Expr::Side(side, other, expr), depth + 1))
}

#[cycle(expressions)]
pub fn concat(alloc: Global, tokens: &mut Cursor, limit: u32) -> Result<SoFar, Stop>
    requires { 2 ≤ limit }
    ensures { ReadsSuch (FitsSoFar limit) (spec.concat (spec.expression_below limit))
        tokens.old tokens.new result }
{
    sign(tokens, Sign::Open)?;
    let (first, a) = argument(alloc, tokens, limit, Sign::Comma)?;
    let (second, b) = argument(alloc, tokens, limit, Sign::Close)?;
    Ok(whole(Expr::Concat(first, second), a.max(b) + 1))
}

#[cycle(expressions)]
pub fn pick(alloc: Global, tokens: &mut Cursor, limit: u32) -> Result<SoFar, Stop>
    requires { 2 ≤ limit }
    ensures { ReadsSuch (FitsSoFar limit) (spec.pick (spec.expression_below limit))
        tokens.old tokens.new result }
{
    sign(tokens, Sign::Open)?;
    let (test, a) = argument(alloc, tokens, limit, Sign::Comma)?;
    let (first, b) = argument(alloc, tokens, limit, Sign::Comma)?;
    let (second, c) = argument(alloc, tokens, limit, Sign::Close)?;
    Ok(whole(Expr::Pick(test, first, second), a.max(b).max(c) + 1))
}
