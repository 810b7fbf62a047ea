// A function called once, on the values of objects.
ghost use Rattle.std.specs.Prelude.{◌≡◌, ◌<◌, ◌^◌, IfOk, List, Some, length, map};
ghost use Rattle.std.specs.Option.{option_map};
ghost use Rattle.flume_types.specs.Typing.{Has};
ghost use Rattle.flume_value.specs.declared.value.Value.{Value as Value_};
ghost use Rattle.flume_value.specs.declared.value.Value.TheVariants as variant;
ghost use Rattle.dofn_eval.specs.Function.{CanBeCalledOn};
ghost use Rattle.script_program.specs.Script.{Function as Function_};
ghost use Rattle.script_laws.specs.WellFormed.{function_at};
ghost use Rattle.direct_meaning.specs.Calls.{answer_of};
ghost use Rattle.direct_meaning.specs.Objects.{answered_once as once, argument_of, emission_on as one_is, only};
ghost use Rattle.direct_meaning.specs.inner.Objects.{IsOperated, values_in};
ghost use Rattle.direct_meaning.specs.inner.Slots.{slots_answer};

use crate::calls::emitted;
use crate::flatten::any_trapped;
use crate::kept::Kept;
use crate::objects::{nothing, object, trap, value_at};
use dofn_calls::call;
use dofn_eval::Fun;
use flume_collection::Trap;
use flume_value::{CallFault, Items, Kind, Pile, Value};
use script_program::Program;
use std::alloc::{AllocError, Global};

/// The object that a function of a program makes of the objects of these numbers; nothing where one
/// of them has no value. Its trap, where it is one, goes behind those found.
pub(crate) fn operated(
    alloc: Global,
    program: &Program,
    number: usize,
    table: &[Option<Kept>],
    objects: &[usize],
    function: usize,
    traps: &mut Vec<Trap>,
) -> Result<Kept, AllocError>
    requires few { number < 2 ^ 32 }
    requires below { function < length program.now.script.functions }
    requires typed { (f : Function_) (vs : List Value_) →
        function_at program.now.script.functions function ≡ Some f →
        values_in table.now objects.now ≡ Some vs → Has f.signature.takes (argument_of vs) }
    ensures { (f : Function_) → function_at program.now.script.functions function ≡ Some f →
        IfOk result (λ kept. IsOperated number (answer_of f) table.now objects.now kept
        traps.old.items traps.new.items) }
{
    match values(alloc, table, objects)? {
        Some(values) => {
            let fun = &program.function(function).fun;
            let single = answered_on(alloc, number as u32, fun, values.as_slice())?;
            object(alloc, single, traps)
        }
        None => Ok(nothing(alloc, any_trapped(table, objects))),
    }
}

/// The values of the objects of these numbers, where each has one.
fn values<'a>(
    alloc: Global,
    table: &'a [Option<Kept>],
    objects: &[usize],
) -> Result<Option<Vec<&'a Value>>, AllocError>
    ensures { IfOk result (λ values.
        option_map (λ all. map (λ value. value.now) all.items) values
        ≡ values_in table.now objects.now) }
{
    let mut values = Vec::with_capacity(alloc, objects.len())?;
    for object in objects {
        match value_at(table, *object) {
            Some(value) => values.push(value)?,
            None => return Ok(None),
        }
    }
    Ok(Some(values))
}

/// What the call on these values comes to: on the one, or on the record of several.
fn answered_on(
    alloc: Global,
    origin: u32,
    fun: &Fun,
    values: &[&Value],
) -> Result<Result<Value, Trap>, AllocError>
    requires { CanBeCalledOn fun.now (argument_of (map (λ value. value.now) values.now)) }
    ensures { IfOk result (λ single. option_map
        (once origin (argument_of (map (λ value. value.now) values.now)))
        (slots_answer fun.now (argument_of (map (λ value. value.now) values.now)))
        ≡ Some single) }
{
    if values.len() == 1 {
        answered_once(alloc, origin, fun, values[0])
    } else {
        let argument = record_of(alloc, values)?;
        answered_once(alloc, origin, fun, &argument)
    }
}

/// The record of copies of these values.
fn record_of(alloc: Global, values: &[&Value]) -> Result<Value, AllocError>
    ensures { IfOk result (λ it. it ≡ variant.Rec (map (λ value. value.now) values.now)) }
{
    let mut fields = Vec::with_capacity(alloc, values.len())?;
    for value in values {
        fields.push(value.copy(alloc)?)?;
    }
    Ok(Value::Rec(Pile::from_vec(fields)))
}

/// What one call comes to: its one emission, or its trap.
fn answered_once(
    alloc: Global,
    origin: u32,
    fun: &Fun,
    argument: &Value,
) -> Result<Result<Value, Trap>, AllocError>
    requires { CanBeCalledOn fun.now argument.now }
    ensures { IfOk result (λ single.
        option_map (once origin argument.now) (slots_answer fun.now argument.now)
        ≡ Some single) }
{
    match call(alloc, fun, argument) {
        Ok(lists) => one_of(alloc, origin, argument, emitted(alloc, lists, 0)),
        Err(CallFault::Trap(kind)) => Ok(Err(trap(alloc, origin, argument, kind)?)),
        Err(CallFault::Memory) => Err(AllocError),
    }
}

/// The one emission of a call on a value; where there is not just one, a trap that has the value.
fn one_of(
    alloc: Global,
    origin: u32,
    argument: &Value,
    emissions: Items,
) -> Result<Result<Value, Trap>, AllocError>
    ensures { IfOk result (λ single. single ≡ one_is origin argument.now (only emissions)) }
{
    match into_only(emissions.into_vec()) {
        Some(value) => Ok(Ok(value)),
        None => Ok(Err(trap(alloc, origin, argument, Kind::NotOne)?)),
    }
}

/// The member of a list of just one.
fn into_only(mut members: Vec<Value>) -> Option<Value>
    ensures { result ≡ only members.items }
{
    if members.len() == 1 {
        Some(members.swap_remove(0))
    } else {
        None
    }
}
