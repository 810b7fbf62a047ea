// A function that is called once, on the values of objects.
ghost use Rattle.std.specs.Prelude.{◌≡◌, IfOk, List, Ok, Some, length, slice_get};
ghost use Rattle.flume_collection.specs.Calls.{or_none};
ghost use Rattle.flume_collection.specs.Collection.{Collection};
ghost use Rattle.exec_graph.specs.declared.graph.Act.TheVariants as act;
ghost use Rattle.exec_graph.specs.Objects.{act_result, argument, one_answer, only, values_in};
ghost use Rattle.exec_graph.specs.World.{World};
ghost use Rattle.forest_steps.specs.Answers.{lists_of};
ghost use Rattle.operate_step.specs.Results.{object_of};

use flume_collection::Trap;
use flume_value::{CallFault, Items, Kind, Pile, Value};
use forest_steps::{Answer, Functions};
use std::alloc::{AllocError, Global};

/// What a function gives, for a script node, that is called once on the values of objects: on the
/// value of one, or on the record of the values of several. It is what the call emits, where that
/// is one value; where it is not, or where the call traps, the trap names what the call was on.
pub fn operate<F: Functions>(
    alloc: Global,
    functions: &F,
    origin: u32,
    function: u32,
    values: Items,
) -> Result<Result<Value, Trap>, AllocError>
    requires { F.can_call functions.now function (argument values) }
    ensures { (w : World) (objects : List Collection) → w.called ≡ F.called functions.now →
        values_in objects ≡ Some values →
        IfOk result (λ made.
        act_result w origin (act.Operate function) objects ≡ object_of made) }
{
    call_on(alloc, functions, origin, function, argument_of(values))
}

// What the call is on.
fn argument_of(values: Items) -> Value
    ensures { result ≡ argument values }
{
    if values.len() == 1 {
        first_of(values)
    } else {
        Value::Rec(values)
    }
}

// The one value of one.
fn first_of(values: Items) -> Value
    requires { length values ≡ 1 }
    ensures { result ≡ argument values }
{
    let mut values = values.into_vec();
    match values.pop() {
        Some(value) => value,
        None => unreachable!(),
    }
}

fn call_on<F: Functions>(
    alloc: Global,
    functions: &F,
    origin: u32,
    function: u32,
    x: Value,
) -> Result<Result<Value, Trap>, AllocError>
    requires { F.can_call functions.now function x }
    ensures { IfOk result (λ made.
        one_answer origin x (F.called functions.now function x) ≡ object_of made) }
{
    match functions.call(alloc, function, &x) {
        Ok(answer) => answered(alloc, origin, x, answer),
        Err(fault) => match fault {
            CallFault::Trap(kind) => Ok(Err(trap(origin, x, kind))),
            CallFault::Memory => {
                drop(x);
                Err(AllocError)
            }
        },
    }
}

fn trap(origin: u32, element: Value, kind: Kind) -> Trap
    ensures { result ≡ record { origin = origin; element = element; kind = kind } }
{
    Trap {
        origin,
        element,
        kind,
    }
}

// What a call has emitted that did not trap.
fn answered(
    alloc: Global,
    origin: u32,
    x: Value,
    answer: Answer,
) -> Result<Result<Value, Trap>, AllocError>
    ensures { IfOk result (λ made. one_answer origin x (Ok (lists_of answer)) ≡ object_of made) }
{
    match only_emission(alloc, answer) {
        Ok(one) => match one {
            Some(value) => {
                drop(x);
                Ok(Ok(value))
            }
            None => Ok(Err(trap(origin, x, Kind::NotOne))),
        },
        Err(fault) => {
            drop(x);
            Err(fault)
        }
    }
}

// The one emission to the first output.
fn only_emission(alloc: Global, answer: Answer) -> Result<Option<Value>, AllocError>
    ensures { IfOk result (λ one. one ≡ only (or_none (slice_get (lists_of answer) 0))) }
{
    match answer {
        Answer::One(value) => Ok(Some(value)),
        Answer::Pair(couple) => Ok(Some(couple.into_value(alloc)?)),
        Answer::Lists(lists) => Ok(first_emission(lists)),
    }
}

// The one emission of the first list.
fn first_emission(lists: Vec<Items>) -> Option<Value>
    ensures { result ≡ only (or_none (slice_get lists.items 0)) }
{
    let mut lists = lists.into_iter();
    match lists.next() {
        Some(first) => only_member(first),
        None => None,
    }
}

fn only_member(list: Items) -> Option<Value>
    ensures { result ≡ only list }
{
    if list.len() != 1 {
        return None;
    }
    let mut members = list.into_vec();
    members.pop()
}
