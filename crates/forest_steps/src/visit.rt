// The steps of a forest on one element.
ghost use Rattle.std.specs.Prelude.{◌≡◌, ◌∷◌, [], IfOk, length, slice_get, drop};
ghost use Rattle.std.specs.List.{AllByRecursion};
ghost use Rattle.flume_collection.specs.Calls.{or_none};
ghost use Rattle.exec_graph.specs.Forests.{Bare, grown, limb};
ghost use Rattle.forest_steps.specs.Functions.{world_of};
ghost use Rattle.forest_steps.specs.Safety.{Safe};
ghost use Rattle.forest_steps.specs.Running.{run, run_each, run_out, run_twigs, below, next_behind, behind_all, IsRun, SafeTwigs};
ghost use Rattle.forest_steps.specs.Answers.{lists_of};

use crate::answer::{answer, answer_moved};
use crate::emissions::{Answer, one_in_lists};
use crate::fault::StepFault;
use crate::functions::Functions;
use crate::once::{keep_once, pairs_alone};
use crate::outputs::Outputs;
use exec_graph::{Output, Step};
use flume_value::{Items, Pile, Value};
use key_order::Couple;
use std::alloc::Global;
use std::vec::IntoIter;

/// The steps on an element, each in order. What a step emits to an output is counted, goes, each
/// emission in order, to the steps on that output, and then into the output's list, where it is
/// kept. The first output of the steps is at place `at`.
pub fn visit_steps<F: Functions>(
    alloc: Global,
    functions: &F,
    sizes: &[usize],
    steps: &[Step],
    at: usize,
    x: &Value,
    outputs: &mut Outputs,
) -> Result<(), StepFault>
    requires { Safe (world_of (F.called functions.now)) (F.can_call functions.now)
        (grown steps.now) x.now }
    ensures { IsRun (run (world_of (F.called functions.now)) sizes.now at (grown steps.now) x.now
        outputs.old) outputs.new result }
{
    let mut next = at;
    for step in steps {
        next = visit_step(alloc, functions, sizes, step, next, x, outputs)?;
    }
    Ok(())
}

/// The steps on an element that is handed over, each in order. Where there is but one, it takes the
/// element.
pub fn move_to_steps<F: Functions>(
    alloc: Global,
    functions: &F,
    sizes: &[usize],
    steps: &[Step],
    at: usize,
    x: Value,
    outputs: &mut Outputs,
) -> Result<(), StepFault>
    requires { Safe (world_of (F.called functions.now)) (F.can_call functions.now)
        (grown steps.now) x }
    ensures { IsRun (run (world_of (F.called functions.now)) sizes.now at (grown steps.now) x
        outputs.old) outputs.new result }
{
    if steps.len() != 1 {
        let ran = visit_steps(alloc, functions, sizes, steps, at, &x, outputs);
        drop(x);
        return ran;
    }
    visit_moved(alloc, functions, sizes, &steps[0], at, x, outputs)?;
    Ok(())
}

/// One emission that a step has answered, to its first output. It gives the place behind the step's
/// outputs.
#[cycle(visit)]
pub fn visit_one<F: Functions>(
    alloc: Global,
    functions: &F,
    sizes: &[usize],
    step: &Step,
    at: usize,
    value: Value,
    outputs: &mut Outputs,
) -> Result<usize, StepFault>
    requires { SafeTwigs (world_of (F.called functions.now)) (F.can_call functions.now)
        ((value ∷ []) ∷ []) (step.now.first ∷ step.now.more) }
    ensures ran { IsRun (run_twigs (world_of (F.called functions.now)) sizes.now at
        ((value ∷ []) ∷ []) (step.now.first ∷ step.now.more) outputs.old) outputs.new result }
    ensures place { IfOk result (λ next.
        next ≡ behind_all sizes.now at (step.now.first ∷ step.now.more)) }
{
    if step.more.is_empty() {
        visit_emission(alloc, functions, sizes, &step.first, at, value, outputs)?;
        return Ok(behind(sizes, at));
    }
    let lists = one_in_lists(alloc, value)?;
    visit_outputs(alloc, functions, sizes, step, at, lists, outputs)
}

/// What a step answered, to each of its outputs in order. It gives the place behind them.
#[cycle(visit)]
fn visit_outputs<F: Functions>(
    alloc: Global,
    functions: &F,
    sizes: &[usize],
    step: &Step,
    at: usize,
    answers: Vec<Items>,
    outputs: &mut Outputs,
) -> Result<usize, StepFault>
    requires { SafeTwigs (world_of (F.called functions.now)) (F.can_call functions.now)
        answers.items (step.now.first ∷ step.now.more) }
    ensures ran { IsRun (run_twigs (world_of (F.called functions.now)) sizes.now at answers.items
        (step.now.first ∷ step.now.more) outputs.old) outputs.new result }
    ensures place { IfOk result (λ next.
        next ≡ behind_all sizes.now at (step.now.first ∷ step.now.more)) }
{
    let mut answers = answers.into_iter();
    let emitted = next_list(alloc, &mut answers);
    visit_output(alloc, functions, sizes, &step.first, at, emitted, outputs)?;
    let mut next = behind(sizes, at);
    for output in &step.more {
        let emitted = next_list(alloc, &mut answers);
        visit_output(alloc, functions, sizes, output, next, emitted, outputs)?;
        next = behind(sizes, next);
    }
    Ok(next)
}

#[cycle(visit)]
fn visit_step<F: Functions>(
    alloc: Global,
    functions: &F,
    sizes: &[usize],
    step: &Step,
    at: usize,
    x: &Value,
    outputs: &mut Outputs,
) -> Result<usize, StepFault>
    requires { Safe (world_of (F.called functions.now)) (F.can_call functions.now)
        (limb step.now Bare) x.now }
    ensures ran { IsRun (run (world_of (F.called functions.now)) sizes.now at (limb step.now Bare)
        x.now outputs.old) outputs.new result }
    ensures place { IfOk result (λ next.
        next ≡ behind_all sizes.now at (step.now.first ∷ step.now.more)) }
{
    let answered = answer(alloc, functions, step.origin, step.does, x)?;
    visit_answer(alloc, functions, sizes, step, at, answered, outputs)
}

/// What a step answered, to its outputs. It gives the place behind them.
#[cycle(visit)]
#[inline(always)]
fn visit_answer<F: Functions>(
    alloc: Global,
    functions: &F,
    sizes: &[usize],
    step: &Step,
    at: usize,
    answered: Answer,
    outputs: &mut Outputs,
) -> Result<usize, StepFault>
    requires { SafeTwigs (world_of (F.called functions.now)) (F.can_call functions.now)
        (lists_of answered) (step.now.first ∷ step.now.more) }
    ensures ran { IsRun (run_twigs (world_of (F.called functions.now)) sizes.now at
        (lists_of answered) (step.now.first ∷ step.now.more) outputs.old) outputs.new result }
    ensures place { IfOk result (λ next.
        next ≡ behind_all sizes.now at (step.now.first ∷ step.now.more)) }
{
    match answered {
        Answer::One(value) => visit_one(alloc, functions, sizes, step, at, value, outputs),
        Answer::Pair(couple) => visit_couple(alloc, functions, sizes, step, at, couple, outputs),
        Answer::Lists(lists) => visit_outputs(alloc, functions, sizes, step, at, lists, outputs),
    }
}

/// One pair that a step has answered, to its first output. Where no step reads it, it is kept as it
/// is, and else a record is made of it.
#[cycle(visit)]
#[inline(always)]
fn visit_couple<F: Functions>(
    alloc: Global,
    functions: &F,
    sizes: &[usize],
    step: &Step,
    at: usize,
    couple: Couple,
    outputs: &mut Outputs,
) -> Result<usize, StepFault>
    requires { SafeTwigs (world_of (F.called functions.now)) (F.can_call functions.now)
        ((couple ∷ []) ∷ []) (step.now.first ∷ step.now.more) }
    ensures ran { IsRun (run_twigs (world_of (F.called functions.now)) sizes.now at
        ((couple ∷ []) ∷ []) (step.now.first ∷ step.now.more) outputs.old) outputs.new result }
    ensures place { IfOk result (λ next.
        next ≡ behind_all sizes.now at (step.now.first ∷ step.now.more)) }
{
    if step.more.is_empty() && step.first.kids.is_empty() {
        outputs.count(at, 1);
        outputs.keep_couple(step.first.number, couple)?;
        return Ok(behind(sizes, at));
    }
    let pair = couple.into_value(alloc)?;
    visit_one(alloc, functions, sizes, step, at, pair, outputs)
}

#[cycle(visit)]
fn visit_output<F: Functions>(
    alloc: Global,
    functions: &F,
    sizes: &[usize],
    output: &Output,
    at: usize,
    emitted: Items,
    outputs: &mut Outputs,
) -> Result<(), StepFault>
    requires { AllByRecursion (Safe (world_of (F.called functions.now)) (F.can_call functions.now)
        (grown output.now.kids.items)) emitted }
    ensures { IsRun (run_out output.now.number at (run (world_of (F.called functions.now))
        sizes.now (below at) (grown output.now.kids.items)) emitted outputs.old)
        outputs.new result }
{
    outputs.count(at, emitted.len());
    let first = below(at);
    if output.number.is_none() && output.kids.len() == 1 {
        return move_to_kid(alloc, functions, sizes, output, first, emitted, outputs);
    }
    for y in emitted.as_slice() {
        visit_kids(alloc, functions, sizes, output, first, y, outputs)?;
    }
    outputs.keep(alloc, output.number, emitted)?;
    Ok(())
}

/// One emission to an output, and it alone. Where one step reads it and it is not kept, that takes
/// it.
#[cycle(visit)]
fn visit_emission<F: Functions>(
    alloc: Global,
    functions: &F,
    sizes: &[usize],
    output: &Output,
    at: usize,
    value: Value,
    outputs: &mut Outputs,
) -> Result<(), StepFault>
    requires { Safe (world_of (F.called functions.now)) (F.can_call functions.now)
        (grown output.now.kids.items) value }
    ensures { IsRun (run_out output.now.number at (run (world_of (F.called functions.now))
        sizes.now (below at) (grown output.now.kids.items)) (value ∷ []) outputs.old)
        outputs.new result }
{
    outputs.count(at, 1);
    let first = below(at);
    if output.number.is_none() && output.kids.len() == 1 {
        visit_moved(
            alloc,
            functions,
            sizes,
            &output.kids[0],
            first,
            value,
            outputs,
        )?;
        return Ok(());
    }
    match visit_kids(alloc, functions, sizes, output, first, &value, outputs) {
        Ok(()) => {
            outputs.keep_one(alloc, output.number, value)?;
            Ok(())
        }
        Err(fault) => {
            drop(value);
            Err(fault)
        }
    }
}

/// The one step on an output that is not kept, on each emission to it, in order.
#[cycle(visit)]
fn move_to_kid<F: Functions>(
    alloc: Global,
    functions: &F,
    sizes: &[usize],
    output: &Output,
    at: usize,
    emitted: Items,
    outputs: &mut Outputs,
) -> Result<(), StepFault>
    requires one { length output.now.kids.items ≡ 1 }
    requires safe { AllByRecursion (Safe (world_of (F.called functions.now))
        (F.can_call functions.now) (grown output.now.kids.items)) emitted }
    ensures { IsRun (run_each (run (world_of (F.called functions.now)) sizes.now at
        (grown output.now.kids.items)) emitted outputs.old) outputs.new result }
{
    let kid = &output.kids[0];
    for y in emitted.into_vec() {
        visit_moved(alloc, functions, sizes, kid, at, y, outputs)?;
    }
    Ok(())
}

/// A step on an element that no other step reads.
#[cycle(visit)]
fn visit_moved<F: Functions>(
    alloc: Global,
    functions: &F,
    sizes: &[usize],
    step: &Step,
    at: usize,
    x: Value,
    outputs: &mut Outputs,
) -> Result<usize, StepFault>
    requires { Safe (world_of (F.called functions.now)) (F.can_call functions.now)
        (limb step.now Bare) x }
    ensures { IsRun (run (world_of (F.called functions.now)) sizes.now at (limb step.now Bare)
        x outputs.old) outputs.new result }
{
    if pairs_alone(step) {
        keep_once(step, at, x, outputs)?;
        return Ok(at);
    }
    let answered = answer_moved(alloc, functions, step.origin, step.does, x)?;
    visit_answer(alloc, functions, sizes, step, at, answered, outputs)
}

/// The steps on an output, on one emission to it.
#[cycle(visit)]
fn visit_kids<F: Functions>(
    alloc: Global,
    functions: &F,
    sizes: &[usize],
    output: &Output,
    at: usize,
    y: &Value,
    outputs: &mut Outputs,
) -> Result<(), StepFault>
    requires { Safe (world_of (F.called functions.now)) (F.can_call functions.now)
        (grown output.now.kids.items) y.now }
    ensures { IsRun (run (world_of (F.called functions.now)) sizes.now at
        (grown output.now.kids.items) y.now outputs.old) outputs.new result }
{
    let mut next = at;
    for kid in &output.kids {
        next = visit_step(alloc, functions, sizes, kid, next, y, outputs)?;
    }
    Ok(())
}

/// The next list, or none where there are no more: where a step has more outputs than it answered
/// to, they get nothing.
pub fn next_list(alloc: Global, answers: &mut IntoIter<Items>) -> Items
    ensures next { result ≡ or_none (slice_get answers.old.rest.items 0) }
    ensures rest { answers.new.rest.items ≡ drop 1 answers.old.rest.items }
{
    match answers.next() {
        Some(list) => list,
        None => Pile::new(alloc),
    }
}

/// The place of the first output on the one at this place.
fn below(at: usize) -> usize
    ensures { result ≡ below at }
{
    at.saturating_add(1)
}

/// The place of the first output behind the one at this place and all on it.
fn behind(sizes: &[usize], at: usize) -> usize
    ensures { result ≡ next_behind sizes.now at }
{
    match sizes.get(at) {
        Some(size) => at.saturating_add(*size),
        None => at,
    }
}
