// A function called on each member of a collection beside the value of an object.
ghost use Rattle.std.specs.Prelude.{◌≡◌, ◌<◌, ◌^◌, ◌||◌, ◌++◌, All, IfOk, OnOk, Some, length};
ghost use Rattle.std.specs.List.{flat_map};
ghost use Rattle.std.specs.Option.{option_map};
ghost use Rattle.flume_types.specs.Typing.{Has};
ghost use Rattle.flume_value.specs.Bag.{bag_of};
ghost use Rattle.flume_value.specs.declared.value.Value.{Value as Value_};
ghost use Rattle.bag_groups.specs.Pairs.{IsPair, pair as pair_of, value_of as second_of};
ghost use Rattle.dofn_eval.specs.Function.{CanBeCalledOn};
ghost use Rattle.script_program.specs.Script.{Function as Function_};
ghost use Rattle.script_laws.specs.WellFormed.{function_at};
ghost use Rattle.direct_meaning.specs.Calls.{answer_of};
ghost use Rattle.direct_meaning.specs.Objects.{answer_beside, naming};
ghost use Rattle.direct_meaning.specs.inner.Kept.{has_traps};
ghost use Rattle.direct_meaning.specs.inner.Objects.{IsDoneBeside, value_kept};
ghost use Rattle.direct_meaning.specs.inner.Slots.{emitted_by, slots_answer, trapped_by};

use crate::calls::emitted;
use crate::kept::Kept;
use crate::objects::{nothing, trap, value_of};
use bag_groups::pair;
use dofn_calls::call;
use dofn_eval::Fun;
use flume_collection::Trap;
use flume_value::{CallFault, Pile, Value, sorted};
use script_program::Program;
use std::alloc::{AllocError, Global};

/// What a function of a program emits, called on each member of a collection beside the value of
/// an object; nothing where it has none. The traps go behind those found.
pub(crate) fn done_beside(
    alloc: Global,
    program: &Program,
    number: usize,
    function: usize,
    source: &Kept,
    object: &Kept,
    traps: &mut Vec<Trap>,
) -> Result<Kept, AllocError>
    requires few { number < 2 ^ 32 }
    requires below { function < length program.now.script.functions }
    requires typed { (f : Function_) (v : Value_) →
        function_at program.now.script.functions function ≡ Some f →
        value_kept object.now ≡ Some v →
        All (λ x. Has f.signature.takes (pair_of x v)) source.now.members }
    ensures { (f : Function_) → function_at program.now.script.functions function ≡ Some f →
        IfOk result (λ kept. IsDoneBeside number (answer_of f) source.now object.now kept
        traps.old.items traps.new.items) }
{
    match value_of(object) {
        Some(value) => {
            let fun = &program.function(function).fun;
            called_beside(alloc, number as u32, fun, value, source, traps)
        }
        None => Ok(nothing(alloc, source.trapped || object.trapped)),
    }
}

/// What the calls on the members of a collection emit, beside a value. Their traps go behind those
/// found.
fn called_beside(
    alloc: Global,
    origin: u32,
    fun: &Fun,
    value: &Value,
    source: &Kept,
    traps: &mut Vec<Trap>,
) -> Result<Kept, AllocError>
    requires { All (λ x. CanBeCalledOn fun.now (pair_of x value.now)) source.now.members }
    ensures members { IfOk result (λ kept. kept.members ≡ bag_of (flat_map
        (λ x. emitted_by 0 (answer_beside (slots_answer fun.now) value.now x))
        source.now.members)) }
    ensures traps { OnOk result (traps.new.items ≡ traps.old.items ++ flat_map
        (λ x. trapped_by origin (answer_beside (slots_answer fun.now) value.now x))
        source.now.members) }
    ensures trapped { IfOk result (λ kept. kept.trapped ≡ (source.now.trapped || has_traps (flat_map
        (λ x. trapped_by origin (answer_beside (slots_answer fun.now) value.now x))
        source.now.members))) }
{
    let before = traps.len();
    let values = call_all_beside(alloc, origin, fun, value, source.members.as_slice(), traps)?;
    Ok(Kept {
        members: Pile::from_vec(sorted(values)?),
        trapped: source.trapped || before < traps.len(),
    })
}

/// What the calls emit, one after another. The value is copied once.
fn call_all_beside(
    alloc: Global,
    origin: u32,
    fun: &Fun,
    value: &Value,
    elements: &[Value],
    traps: &mut Vec<Trap>,
) -> Result<Vec<Value>, AllocError>
    requires { All (λ x. CanBeCalledOn fun.now (pair_of x value.now)) elements.now }
    ensures values { IfOk result (λ values. values.items ≡ flat_map
        (λ x. emitted_by 0 (answer_beside (slots_answer fun.now) value.now x)) elements.now) }
    ensures traps { OnOk result (traps.new.items ≡ traps.old.items ++ flat_map
        (λ x. trapped_by origin (answer_beside (slots_answer fun.now) value.now x))
        elements.now) }
{
    let mut argument = pair(alloc, Value::Int(0), value.copy(alloc)?)?;
    let mut values = Vec::new(alloc);
    for element in elements {
        argument = with_first(argument, element.copy(alloc)?);
        call_beside(alloc, origin, fun, &argument, element, &mut values, traps)?;
    }
    Ok(values)
}

/// The pair with another value in the first place.
fn with_first(argument: Value, first: Value) -> Value
    requires { IsPair argument }
    ensures { (v : Value_) → second_of argument ≡ Some v → result ≡ pair_of first v }
{
    match argument {
        Value::Rec(fields) => {
            let mut fields = fields.into_vec();
            fields[0] = first;
            Value::Rec(Pile::from_vec(fields))
        }
        _ => unreachable!(),
    }
}

/// Puts what the call on an argument emits behind the values, or its trap, which names the element,
/// behind the traps.
fn call_beside(
    alloc: Global,
    origin: u32,
    fun: &Fun,
    argument: &Value,
    element: &Value,
    values: &mut Vec<Value>,
    traps: &mut Vec<Trap>,
) -> Result<(), AllocError>
    requires { CanBeCalledOn fun.now argument.now }
    ensures values { OnOk result (values.new.items ≡ values.old.items
        ++ emitted_by 0 (option_map (naming element.now) (slots_answer fun.now argument.now))) }
    ensures traps { OnOk result (traps.new.items ≡ traps.old.items ++ trapped_by origin
        (option_map (naming element.now) (slots_answer fun.now argument.now))) }
{
    match call(alloc, fun, argument) {
        Ok(lists) => {
            values.append(&mut emitted(alloc, lists, 0).into_vec())?;
            Ok(())
        }
        Err(CallFault::Trap(kind)) => {
            traps.push(trap(alloc, origin, element, kind)?)?;
            Ok(())
        }
        Err(CallFault::Memory) => Err(AllocError),
    }
}
