// What a step answers of an element.
ghost use Rattle.std.specs.Prelude.{◌≡◌, Ok, IfOk, IfErr};
ghost use Rattle.keyed_steps.specs.Keyed.{IsGroup};
ghost use Rattle.exec_graph.specs.Calls.{called};
ghost use Rattle.exec_graph.specs.World.{World};
ghost use Rattle.exec_graph.specs.declared.step.Does.TheVariants as does;
ghost use Rattle.forest_steps.specs.Functions.{IsTrapOf, world_of};
ghost use Rattle.forest_steps.specs.Safety.{CanCall};
ghost use Rattle.forest_steps.specs.Answers.{lists_of};
ghost use Rattle.forest_steps.specs.inner.Deriving.{IsDerived};

use crate::derived::{left_tagged, right_tagged, split, spread, under_zero, with_one};
use crate::emissions::Answer;
use crate::fault::StepFault;
use crate::functions::Functions;
use combine_table::Comb;
use exec_graph::Does;
use flume_collection::Trap;
use flume_value::{CallFault, Value};
use keyed_steps::{KeyFault, combine_group};
use std::alloc::{AllocError, Global};

/// What a step of a script node answers of an element, or its trap.
pub(crate) fn answer<F: Functions>(
    alloc: Global,
    functions: &F,
    origin: u32,
    does: Does,
    x: &Value,
) -> Result<Answer, StepFault>
    requires { CanCall (F.can_call functions.now) does x.now }
    ensures given { IfOk result (λ answer.
        called (world_of (F.called functions.now)) does x.now ≡ Ok (lists_of answer)) }
    ensures trap { IfErr result
        (IsTrapOf origin (called (world_of (F.called functions.now)) does x.now)) }
{
    match does {
        Does::Call(number) => call_function(alloc, functions, origin, number, x),
        Does::Combine(comb) => combine(alloc, origin, comb, x),
        _ => Ok(derive(alloc, does, x.copy(alloc)?)?),
    }
}

/// What a step answers of an element that no other step reads: a derived function takes it apart.
#[inline(always)]
pub(crate) fn answer_moved<F: Functions>(
    alloc: Global,
    functions: &F,
    origin: u32,
    does: Does,
    x: Value,
) -> Result<Answer, StepFault>
    requires { CanCall (F.can_call functions.now) does x }
    ensures given { IfOk result (λ answer.
        called (world_of (F.called functions.now)) does x ≡ Ok (lists_of answer)) }
    ensures trap { IfErr result
        (IsTrapOf origin (called (world_of (F.called functions.now)) does x)) }
{
    match does {
        Does::Call(_) | Does::Combine(_) => {
            let answered = answer(alloc, functions, origin, does, &x);
            drop(x);
            answered
        }
        _ => Ok(derive(alloc, does, x)?),
    }
}

fn call_function<F: Functions>(
    alloc: Global,
    functions: &F,
    origin: u32,
    number: u32,
    x: &Value,
) -> Result<Answer, StepFault>
    requires { F.can_call functions.now number x.now }
    ensures given { IfOk result (λ answer.
        called (world_of (F.called functions.now)) (does.Call number) x.now
        ≡ Ok (lists_of answer)) }
    ensures trap { IfErr result
        (IsTrapOf origin (called (world_of (F.called functions.now)) (does.Call number) x.now)) }
{
    match functions.call(alloc, number, x) {
        Ok(answer) => Ok(answer),
        Err(CallFault::Trap(kind)) => Err(StepFault::Trap(Trap {
            origin,
            element: x.copy(alloc)?,
            kind,
        })),
        Err(CallFault::Memory) => Err(StepFault::Memory),
    }
}

fn combine(alloc: Global, origin: u32, comb: Comb, x: &Value) -> Result<Answer, StepFault>
    requires { IsGroup comb x.now }
    ensures given { (w : World) →
        IfOk result (λ answer. called w (does.Combine comb) x.now ≡ Ok (lists_of answer)) }
    ensures trap { (w : World) →
        IfErr result (IsTrapOf origin (called w (does.Combine comb) x.now)) }
{
    match combine_group(alloc, comb, x) {
        Ok(pair) => Ok(Answer::One(pair)),
        Err(KeyFault::Trap { kind, key }) => Err(StepFault::Trap(Trap {
            origin,
            element: key,
            kind,
        })),
        Err(KeyFault::Memory) => Err(StepFault::Memory),
    }
}

/// What a derived function answers.
#[inline(always)]
fn derive(alloc: Global, does: Does, x: Value) -> Result<Answer, AllocError>
    requires { IsDerived does }
    ensures { (w : World) → IfOk result (λ answer. called w does x ≡ Ok (lists_of answer)) }
{
    match does {
        Does::Pair => Ok(with_one(x)),
        Does::TagLeft => left_tagged(alloc, x),
        Does::TagRight => right_tagged(alloc, x),
        Does::Split => split(alloc, x),
        Does::Solo => Ok(under_zero(x)),
        Does::Spread => spread(alloc, x),
        Does::Call(_) | Does::Combine(_) => unreachable!(),
    }
}
