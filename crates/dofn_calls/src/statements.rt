// How a block runs, statement after statement.
#![tactic(auto, using(crate::proofs::StatementLemmas::statement_rules))]

ghost use Rattle.dofn_eval.specs.Outcome.{IsSafe};
ghost use Rattle.dofn_eval.specs.Run.{run_statements, each};
ghost use Rattle.dofn_calls.specs.inner.Operands.{values, named};
ghost use Rattle.dofn_calls.specs.inner.Evaluates as inner;
ghost use Rattle.dofn_calls.specs.inner.Evaluates.{Evaluates, run_in};

use crate::evaluate::eval;
use crate::lists::Lists;
use crate::parts::{is_true, members};
use crate::passing::{pass_on, passes_to};
use crate::scope::Scope;
use dofn_eval::{Block, Expr, Stmt};
use flume_value::{CallFault, Value};
use std::alloc::Global;

/// Runs a block, and emits behind what is there.
#[cycle(run)]
pub fn run_block<'a>(
    alloc: Global,
    block: &'a Block,
    scope: &'a Scope<'a>,
    out: &mut Lists,
) -> Result<(), CallFault>
    requires { IsSafe (run_in scope.now block.now out.old) }
    ensures { Evaluates (λ _. out.new) result (run_in scope.now block.now out.old) }
{
    let stmts = block.as_slice();
    let mut names = Vec::new(alloc);
    for stmt in stmts {
        run_stmt(alloc, stmt, scope, &mut names, out)?;
    }
    Ok(())
}

// Runs a statement where the block has named these values.
#[cycle(run)]
fn run_stmt<'a>(
    alloc: Global,
    stmt: &'a Stmt,
    outer: &'a Scope<'a>,
    names: &mut Vec<Value>,
    out: &mut Lists,
) -> Result<(), CallFault>
    requires { IsSafe (inner.run_one outer.now stmt.now names.old.items out.old) }
    ensures { Evaluates (λ _. inner.state_in outer.now names.new.items out.new) result
        (inner.run_one outer.now stmt.now names.old.items out.old) }
{
    match stmt {
        Stmt::Let(e) => name(alloc, e, outer, names),
        Stmt::Emit(output, e) => emit(
            alloc,
            *output,
            &*e,
            &Scope::Block(names.as_slice(), &*outer),
            out,
        ),
        Stmt::If(c, a, b) => run_if(
            alloc,
            &*c,
            &*a,
            &*b,
            &Scope::Block(names.as_slice(), &*outer),
            out,
        ),
        Stmt::For(e, body) => run_for(
            alloc,
            &*e,
            &*body,
            &Scope::Block(names.as_slice(), &*outer),
            out,
        ),
        Stmt::Case(e, a, b) => run_case(
            alloc,
            &*e,
            &*a,
            &*b,
            &Scope::Block(names.as_slice(), &*outer),
            out,
        ),
    }
}

fn name<'a>(
    alloc: Global,
    e: &'a Expr,
    outer: &'a Scope<'a>,
    names: &mut Vec<Value>,
) -> Result<(), CallFault>
    requires { IsSafe (inner.value_behind outer.now names.old.items e.now) }
    ensures { Evaluates (λ _. named names.new.items (values outer.now)) result
        (inner.name outer.now names.old.items e.now) }
{
    let value = eval(alloc, &*e, &Scope::Block(names.as_slice(), &*outer))?.into_owned(alloc)?;
    names.push(value)?;
    Ok(())
}

fn emit<'a>(
    alloc: Global,
    output: usize,
    e: &'a Expr,
    scope: &'a Scope<'a>,
    out: &mut Lists,
) -> Result<(), CallFault>
    requires { IsSafe (inner.emit scope.now output e.now out.old) }
    ensures { Evaluates (λ _. out.new) result (inner.emit scope.now output e.now out.old) }
{
    let x = eval(alloc, e, scope)?;
    out.emit(output, x.into_owned(alloc)?)
}

#[cycle(run)]
fn run_if<'a>(
    alloc: Global,
    c: &'a Expr,
    a: &'a Block,
    b: &'a Block,
    scope: &'a Scope<'a>,
    out: &mut Lists,
) -> Result<(), CallFault>
    requires { IsSafe (inner.run_if scope.now c.now a.now b.now out.old) }
    ensures { Evaluates (λ _. out.new) result
        (inner.run_if scope.now c.now a.now b.now out.old) }
{
    let x = eval(alloc, c, scope)?;
    if is_true(x) {
        run_block(alloc, a, scope, out)
    } else {
        run_block(alloc, b, scope, out)
    }
}

#[cycle(run)]
fn run_for<'a>(
    alloc: Global,
    e: &'a Expr,
    body: &'a Block,
    scope: &'a Scope<'a>,
    out: &mut Lists,
) -> Result<(), CallFault>
    requires { IsSafe (inner.run_for scope.now e.now body.now out.old) }
    ensures { Evaluates (λ _. out.new) result
        (inner.run_for scope.now e.now body.now out.old) }
{
    let x = eval(alloc, e, scope)?;
    match passes_to(body) {
        Some(output) => pass_on(alloc, output, x, out),
        None => {
            let ran = run_each(alloc, members(x.get()), &*body, &*scope, out);
            drop(x);
            ran
        }
    }
}

#[cycle(run)]
fn run_each<'a>(
    alloc: Global,
    members: &'a [Value],
    body: &'a Block,
    scope: &'a Scope<'a>,
    out: &mut Lists,
) -> Result<(), CallFault>
    requires { IsSafe (each (run_statements body.now) members.now (values scope.now) out.old) }
    ensures { Evaluates (λ _. out.new) result
        (each (run_statements body.now) members.now (values scope.now) out.old) }
{
    for member in members {
        let inner = Scope::Bound(member, scope);
        run_block(alloc, body, &inner, out)?;
    }
    Ok(())
}

#[cycle(run)]
fn run_case<'a>(
    alloc: Global,
    e: &'a Expr,
    a: &'a Block,
    b: &'a Block,
    scope: &'a Scope<'a>,
    out: &mut Lists,
) -> Result<(), CallFault>
    requires { IsSafe (inner.run_case scope.now e.now a.now b.now out.old) }
    ensures { Evaluates (λ _. out.new) result
        (inner.run_case scope.now e.now a.now b.now out.old) }
{
    let x = eval(alloc, e, scope)?;
    let ran = run_side(alloc, x.get(), &*a, &*b, &*scope, out);
    drop(x);
    ran
}

#[cycle(run)]
fn run_side<'a>(
    alloc: Global,
    x: &'a Value,
    a: &'a Block,
    b: &'a Block,
    scope: &'a Scope<'a>,
    out: &mut Lists,
) -> Result<(), CallFault>
    requires { IsSafe (inner.run_side scope.now x.now a.now b.now out.old) }
    ensures { Evaluates (λ _. out.new) result
        (inner.run_side scope.now x.now a.now b.now out.old) }
{
    match x {
        Value::Left(part) => run_block(alloc, &*a, &Scope::Bound(part.get(), &*scope), out),
        Value::Right(part) => run_block(alloc, &*b, &Scope::Bound(part.get(), &*scope), out),
        _ => unreachable!(),
    }
}
