// What an expression gives, part after part from the left.
#![tactic(auto, using(dofn_eval::proofs::MeaningLemmas::value_rules))]

ghost use Rattle.std.specs.Prelude.{[]};
ghost use Rattle.dofn_eval.specs.Outcome.{IsSafe};
ghost use Rattle.dofn_eval.specs.Meaning.{expression_value, part_values};
ghost use Rattle.dofn_calls.specs.inner.Operands.{content, values};
ghost use Rattle.dofn_calls.specs.inner.Evaluates as inner;
ghost use Rattle.dofn_calls.specs.inner.Evaluates.{Evaluates, Returns, value_in};

use crate::operand::Operand;
use crate::parts::{apply_one, apply_two, field, is_true, member};
use crate::scope::{Scope, look_up};
use dofn_eval::{Binary, Expr};
use flume_value::{CallFault, Pile, Value};
use std::alloc::Global;

/// What is made of two values.
#[derive(Clone, Copy)]
pub enum Pairing {
    Operation(Binary),
    /// The member of the first, a list, at the second.
    Member,
}

/// What a test chooses.
#[derive(Clone, Copy)]
pub enum Branch<'a> {
    Truth(bool),
    Part(&'a Expr),
}

/// What the expression gives.
#[cycle(eval)]
pub fn eval<'a>(alloc: Global, e: &'a Expr, scope: &'a Scope<'a>) -> Result<Operand<'a>, CallFault>
    requires { IsSafe (value_in scope.now e.now) }
    ensures { Evaluates content result (value_in scope.now e.now) }
{
    match e {
        Expr::Literal(value) => Ok(Operand::Borrowed(value)),
        Expr::Variable(slot) => Ok(Operand::Borrowed(look_up(scope, *slot))),
        Expr::Field(a, at) => {
            let x = eval(alloc, a.get(), scope)?;
            Ok(field(x, *at))
        }
        Expr::Record(parts) => {
            let items = eval_all(alloc, parts.as_slice(), scope)?;
            Ok(Operand::Owned(Value::Rec(items)))
        }
        Expr::List(parts) => {
            let items = eval_all(alloc, parts.as_slice(), scope)?;
            Ok(Operand::Owned(Value::List(items)))
        }
        Expr::Unary(op, a) => {
            let x = eval(alloc, a.get(), scope)?;
            Ok(Operand::Owned(apply_one(alloc, *op, x)?))
        }
        Expr::Binary(op, a, b) => eval_two(alloc, Pairing::Operation(*op), a.get(), b.get(), scope),
        Expr::Index(a, b) => eval_two(alloc, Pairing::Member, a.get(), b.get(), scope),
        Expr::And(a, b) => {
            let on_true = Branch::Part(b.get());
            eval_chosen(alloc, a.get(), on_true, Branch::Truth(false), scope)
        }
        Expr::Or(a, b) => {
            let on_false = Branch::Part(b.get());
            eval_chosen(alloc, a.get(), Branch::Truth(true), on_false, scope)
        }
        Expr::Pick(c, a, b) => {
            let on_true = Branch::Part(a.get());
            let on_false = Branch::Part(b.get());
            eval_chosen(alloc, c.get(), on_true, on_false, scope)
        }
    }
}

#[cycle(eval)]
fn eval_two<'a>(
    alloc: Global,
    pairing: Pairing,
    a: &'a Expr,
    b: &'a Expr,
    scope: &'a Scope<'a>,
) -> Result<Operand<'a>, CallFault>
    requires { IsSafe (inner.two scope.now pairing a.now b.now) }
    ensures { Evaluates content result (inner.two scope.now pairing a.now b.now) }
{
    let x = eval(alloc, a, scope)?;
    match eval(alloc, b, scope) {
        Ok(y) => match pairing {
            Pairing::Operation(op) => Ok(Operand::Owned(apply_two(alloc, op, x, y)?)),
            Pairing::Member => member(x, y),
        },
        Err(fault) => {
            drop(x);
            Err(fault)
        }
    }
}

#[cycle(eval)]
fn eval_chosen<'a>(
    alloc: Global,
    test: &'a Expr,
    on_true: Branch<'a>,
    on_false: Branch<'a>,
    scope: &'a Scope<'a>,
) -> Result<Operand<'a>, CallFault>
    requires { IsSafe (inner.one_of scope.now test.now on_true on_false) }
    ensures { Evaluates content result
        (inner.one_of scope.now test.now on_true.entry on_false.entry) }
{
    let x = eval(alloc, test, scope)?;
    if is_true(x) {
        eval_branch(alloc, on_true, scope)
    } else {
        eval_branch(alloc, on_false, scope)
    }
}

#[cycle(eval)]
fn eval_branch<'a>(
    alloc: Global,
    branch: Branch<'a>,
    scope: &'a Scope<'a>,
) -> Result<Operand<'a>, CallFault>
    requires { IsSafe (inner.branch scope.now branch) }
    ensures { Evaluates content result (inner.branch scope.now branch.entry) }
{
    match branch {
        Branch::Truth(b) => Ok(Operand::Owned(Value::Bool(b))),
        Branch::Part(e) => eval(alloc, e, scope),
    }
}

#[cycle(eval)]
fn eval_all<'a>(
    alloc: Global,
    parts: &'a [Expr],
    scope: &'a Scope<'a>,
) -> Result<Pile<Value>, CallFault>
    requires { IsSafe (part_values expression_value parts.now (values scope.now) []) }
    ensures { Returns result (part_values expression_value parts.now (values scope.now) []) }
{
    let mut items = Vec::with_capacity(alloc, parts.len())?;
    for part in parts {
        let x = eval(alloc, part, scope)?;
        items.push(x.into_owned(alloc)?)?;
    }
    Ok(Pile::from_vec(items))
}
