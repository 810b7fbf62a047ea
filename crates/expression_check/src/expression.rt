// From an expression with names to one with slots and its type, or its first fault.
ghost use Rattle.std.specs.Prelude.{◌≡◌, ◌<◌, [], length, IfOk};
ghost use Rattle.type_table.specs.Table.{Extends};
ghost use Rattle.expression_types.specs.of_written_types.Answer.{Gives};
ghost use Rattle.expression_types.specs.Held.{AreTypes};
ghost use Rattle.expression_check.specs.Slots as spec;

use crate::forms::{
    binary, empty, field, index, list, number, pick, record, sided, text, truth, unary, variable,
};
use crate::typed::{AllTyped, Operand, Pair, Typed};
use dofn_eval::Binary;
use expression_types::{Half, Operator, Scope, operator_of};
use flume_grammar::{Expr, ScriptFault, Side, Type, Unary};
use flume_value::{Pile, Str};
use std::alloc::Global;

/// The expression with slots in place of names, and its type; or its first fault, on this line.
/// What is in sight stays.
#[cycle(resolve)]
#[tactic(auto, using(crate::proofs::SlotLemmas::slots_rules))]
pub fn resolve(alloc: Global, line: u32, e: &Expr, scope: &mut Scope) -> Result<Typed, ScriptFault>
    ensures gives { Gives (spec.slots_typed scope.new.types) result
        (spec.slots_of line e.now scope.old.sight) }
    ensures within { IfOk result (λ made. made.ty < length scope.new.types) }
    ensures extends { Extends scope.old.types scope.new.types }
    ensures sight { scope.new.sight ≡ scope.old.sight }
{
    match e {
        Expr::Number(digits) => number(line, digits, scope),
        Expr::Text(bytes) => text(alloc, bytes, scope),
        Expr::Bool(b) => truth(*b, scope),
        Expr::Name(name) => variable(line, name, scope),
        Expr::Empty(written) => empty(alloc, line, written, scope),
        Expr::Unary(op, part) => operated(alloc, line, *op, part.get(), scope),
        Expr::Field(part, name) => dotted(alloc, line, part.get(), name, scope),
        Expr::Binary(op, a, b) => two(alloc, line, operator_of(*op), a.get(), b.get(), scope),
        Expr::Concat(a, b) => {
            let concat = Operator::Two(Binary::Concat);
            two(alloc, line, concat, a.get(), b.get(), scope)
        }
        Expr::Index(a, b) => indexed(alloc, line, a.get(), b.get(), scope),
        Expr::Record(names, parts) => recorded(alloc, line, names, parts, scope),
        Expr::List(parts) => listed(alloc, line, parts, scope),
        Expr::Side(s, written, part) => one_side(alloc, line, *s, written, part.get(), scope),
        Expr::Pick(c, a, b) => picked(alloc, line, c.get(), a.get(), b.get(), scope),
    }
}

#[cycle(resolve)]
fn operated(
    alloc: Global,
    line: u32,
    op: Unary,
    part: &Expr,
    scope: &mut Scope,
) -> Result<Typed, ScriptFault>
    ensures gives { Gives (spec.slots_typed scope.new.types) result
        (spec.unary_slots line (spec.slots_of line) op part.now scope.old.sight) }
    ensures within { IfOk result (λ made. made.ty < length scope.new.types) }
    ensures extends { Extends scope.old.types scope.new.types }
    ensures sight { scope.new.sight ≡ scope.old.sight }
{
    let x = operand_of(alloc, line, part, scope)?;
    unary(line, op, x, scope)
}

#[cycle(resolve)]
fn dotted(
    alloc: Global,
    line: u32,
    part: &Expr,
    name: &Str,
    scope: &mut Scope,
) -> Result<Typed, ScriptFault>
    ensures gives { Gives (spec.slots_typed scope.new.types) result
        (spec.field_slots line (spec.slots_of line) part.now name.now scope.old.sight) }
    ensures within { IfOk result (λ made. made.ty < length scope.new.types) }
    ensures extends { Extends scope.old.types scope.new.types }
    ensures sight { scope.new.sight ≡ scope.old.sight }
{
    let x = operand_of(alloc, line, part, scope)?;
    field(line, x, name, scope.types())
}

#[cycle(resolve)]
fn recorded(
    alloc: Global,
    line: u32,
    names: &Pile<Str>,
    parts: &Pile<Expr>,
    scope: &mut Scope,
) -> Result<Typed, ScriptFault>
    ensures gives { Gives (spec.slots_typed scope.new.types) result
        (spec.record_slots line (spec.slots_of line) names.now parts.now scope.old.sight) }
    ensures within { IfOk result (λ made. made.ty < length scope.new.types) }
    ensures extends { Extends scope.old.types scope.new.types }
    ensures sight { scope.new.sight ≡ scope.old.sight }
{
    let all = all_parts(alloc, line, parts.as_slice(), scope)?;
    record(alloc, line, names.as_slice(), all, scope)
}

#[cycle(resolve)]
fn listed(
    alloc: Global,
    line: u32,
    parts: &Pile<Expr>,
    scope: &mut Scope,
) -> Result<Typed, ScriptFault>
    ensures gives { Gives (spec.slots_typed scope.new.types) result
        (spec.list_slots line (spec.slots_of line) parts.now scope.old.sight) }
    ensures within { IfOk result (λ made. made.ty < length scope.new.types) }
    ensures extends { Extends scope.old.types scope.new.types }
    ensures sight { scope.new.sight ≡ scope.old.sight }
{
    let all = all_parts(alloc, line, parts.as_slice(), scope)?;
    list(line, all, scope)
}

#[cycle(resolve)]
fn two(
    alloc: Global,
    line: u32,
    op: Operator,
    a: &Expr,
    b: &Expr,
    scope: &mut Scope,
) -> Result<Typed, ScriptFault>
    ensures gives { Gives (spec.slots_typed scope.new.types) result
        (spec.two_slots line (spec.slots_of line) op a.now b.now scope.old.sight) }
    ensures within { IfOk result (λ made. made.ty < length scope.new.types) }
    ensures extends { Extends scope.old.types scope.new.types }
    ensures sight { scope.new.sight ≡ scope.old.sight }
{
    let both = pair(alloc, line, a, b, scope)?;
    binary(line, op, both, scope)
}

#[cycle(resolve)]
fn indexed(
    alloc: Global,
    line: u32,
    a: &Expr,
    b: &Expr,
    scope: &mut Scope,
) -> Result<Typed, ScriptFault>
    ensures gives { Gives (spec.slots_typed scope.new.types) result
        (spec.index_slots line (spec.slots_of line) a.now b.now scope.old.sight) }
    ensures within { IfOk result (λ made. made.ty < length scope.new.types) }
    ensures extends { Extends scope.old.types scope.new.types }
    ensures sight { scope.new.sight ≡ scope.old.sight }
{
    let both = pair(alloc, line, a, b, scope)?;
    index(line, both.first, both.second, scope.types())
}

#[cycle(resolve)]
fn one_side(
    alloc: Global,
    line: u32,
    s: Side,
    written: &Type,
    part: &Expr,
    scope: &mut Scope,
) -> Result<Typed, ScriptFault>
    ensures gives { Gives (spec.slots_typed scope.new.types) result
        (spec.side_slots line (spec.slots_of line) s written.now part.now scope.old.sight) }
    ensures within { IfOk result (λ made. made.ty < length scope.new.types) }
    ensures extends { Extends scope.old.types scope.new.types }
    ensures sight { scope.new.sight ≡ scope.old.sight }
{
    let other = scope.written(alloc, line, written)?;
    let x = operand_of(alloc, line, part, scope)?;
    sided(line, Half { side: s, other }, x, scope)
}

#[cycle(resolve)]
fn picked(
    alloc: Global,
    line: u32,
    c: &Expr,
    a: &Expr,
    b: &Expr,
    scope: &mut Scope,
) -> Result<Typed, ScriptFault>
    ensures gives { Gives (spec.slots_typed scope.new.types) result
        (spec.pick_slots line (spec.slots_of line) c.now a.now b.now scope.old.sight) }
    ensures within { IfOk result (λ made. made.ty < length scope.new.types) }
    ensures extends { Extends scope.old.types scope.new.types }
    ensures sight { scope.new.sight ≡ scope.old.sight }
{
    let test = operand_of(alloc, line, c, scope)?;
    let both = pair(alloc, line, a, b, scope)?;
    pick(line, test, both, scope.types())
}

// A part as an operand.
#[cycle(resolve)]
fn operand_of(alloc: Global, line: u32, e: &Expr, scope: &mut Scope) -> Result<Operand, ScriptFault>
    ensures gives { Gives (spec.operand scope.new.types) result
        (spec.slots_of line e.now scope.old.sight) }
    ensures within { IfOk result (λ made. made.ty < length scope.new.types) }
    ensures extends { Extends scope.old.types scope.new.types }
    ensures sight { scope.new.sight ≡ scope.old.sight }
{
    let x = resolve(alloc, line, e, scope)?;
    Ok(Operand::new(alloc, x)?)
}

// Two parts, from the left.
#[cycle(resolve)]
fn pair(
    alloc: Global,
    line: u32,
    a: &Expr,
    b: &Expr,
    scope: &mut Scope,
) -> Result<Pair, ScriptFault>
    ensures gives { Gives (spec.both_typed scope.new.types) result
        (spec.pair_slots (spec.slots_of line) a.now b.now scope.old.sight) }
    ensures first { IfOk result (λ both. both.first.ty < length scope.new.types) }
    ensures second { IfOk result (λ both. both.second.ty < length scope.new.types) }
    ensures extends { Extends scope.old.types scope.new.types }
    ensures sight { scope.new.sight ≡ scope.old.sight }
{
    let first = operand_of(alloc, line, a, scope)?;
    let second = operand_of(alloc, line, b, scope)?;
    Ok(Pair { first, second })
}

// Parts, from the left.
#[cycle(resolve)]
fn all_parts(
    alloc: Global,
    line: u32,
    parts: &[Expr],
    scope: &mut Scope,
) -> Result<AllTyped, ScriptFault>
    ensures gives { Gives (spec.all_typed scope.new.types) result
        (spec.all_slots (spec.slots_of line) parts.now scope.old.sight [] []) }
    ensures within { IfOk result (λ all. AreTypes (length scope.new.types) all.types) }
    ensures extends { Extends scope.old.types scope.new.types }
    ensures sight { scope.new.sight ≡ scope.old.sight }
{
    let mut exprs = Pile::new(alloc);
    let mut types = Pile::new(alloc);
    for part in parts {
        let x = resolve(alloc, line, part, scope)?;
        exprs.push(x.expr)?;
        types.push(x.ty)?;
    }
    Ok(AllTyped { exprs, types })
}
