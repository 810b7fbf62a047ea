// The calls of a function on the members of a collection.
ghost use Rattle.std.specs.Prelude.{◌≡◌, ◌-◌, ◌<◌, ◌^◌, ◌||◌, ◌++◌, All, IfOk, OnOk, Some, length, slice_get};
ghost use Rattle.std.specs.List.{flat_map};
ghost use Rattle.flume_value.specs.Bag.{bag_of};
ghost use Rattle.dofn_eval.specs.Function.{CanBeCalledOn};
ghost use Rattle.flume_types.specs.Typing.{AllHave};
ghost use Rattle.script_program.specs.Script.{Function as Function_};
ghost use Rattle.script_laws.specs.WellFormed.{function_at};
ghost use Rattle.flume_collection.specs.Calls.{or_none};
ghost use Rattle.direct_meaning.specs.inner.Kept.{has_traps};
ghost use Rattle.direct_meaning.specs.inner.Slots.{IsDone, emitted_by, slots_answer, trapped_by};

use crate::kept::Kept;
use dofn_calls::{Lists, call};
use dofn_eval::Fun;
use flume_collection::Trap;
use flume_value::{CallFault, Items, Pile, Value, sorted};
use script_program::Program;
use std::alloc::{AllocError, Global};

/// What a function of a program emits to one output, called on the members of a collection. The
/// traps go behind those found.
pub(crate) fn done(
    alloc: Global,
    program: &Program,
    number: usize,
    function: usize,
    output: usize,
    source: &Kept,
    traps: &mut Vec<Trap>,
) -> Result<Kept, AllocError>
    requires few { number < 2 ^ 32 }
    requires below { function < length program.now.script.functions }
    requires typed { (f : Function_) → function_at program.now.script.functions function ≡ Some f
        → AllHave f.signature.takes source.now.members }
    ensures { (f : Function_) → function_at program.now.script.functions function ≡ Some f
        → IsDone (number - output) output f source.now traps.old.items result traps.new.items }
{
    let origin = number.saturating_sub(output) as u32;
    called(
        alloc,
        origin,
        &program.function(function).fun,
        output,
        source,
        traps,
    )
}

/// What the calls of a function on the members of a collection emit to one output. Their traps go
/// behind those found.
fn called(
    alloc: Global,
    origin: u32,
    fun: &Fun,
    output: usize,
    source: &Kept,
    traps: &mut Vec<Trap>,
) -> Result<Kept, AllocError>
    requires { All (CanBeCalledOn fun.now) source.now.members }
    ensures members { IfOk result (λ kept. kept.members ≡ bag_of (flat_map
        (λ element. emitted_by output (slots_answer fun.now element)) source.now.members)) }
    ensures traps { OnOk result (traps.new.items ≡ traps.old.items ++ flat_map
        (λ element. trapped_by origin (slots_answer fun.now element)) source.now.members) }
    ensures trapped { IfOk result (λ kept. kept.trapped ≡ (source.now.trapped || has_traps (flat_map
        (λ element. trapped_by origin (slots_answer fun.now element))
        source.now.members))) }
{
    let before = traps.len();
    let values = call_all(alloc, origin, fun, output, source.members.as_slice(), traps)?;
    Ok(Kept {
        members: Pile::from_vec(sorted(values)?),
        trapped: source.trapped || before < traps.len(),
    })
}

/// What the calls emit, one after another.
fn call_all(
    alloc: Global,
    origin: u32,
    fun: &Fun,
    output: usize,
    elements: &[Value],
    traps: &mut Vec<Trap>,
) -> Result<Vec<Value>, AllocError>
    requires { All (CanBeCalledOn fun.now) elements.now }
    ensures values { IfOk result (λ values. values.items
        ≡ flat_map (λ element. emitted_by output (slots_answer fun.now element)) elements.now) }
    ensures traps { OnOk result (traps.new.items ≡ traps.old.items
        ++ flat_map (λ element. trapped_by origin (slots_answer fun.now element)) elements.now) }
{
    let mut values = Vec::new(alloc);
    for element in elements {
        call_one(alloc, origin, fun, output, element, &mut values, traps)?;
    }
    Ok(values)
}

/// Puts what the call emits behind the values, or its trap behind the traps.
fn call_one(
    alloc: Global,
    origin: u32,
    fun: &Fun,
    output: usize,
    element: &Value,
    values: &mut Vec<Value>,
    traps: &mut Vec<Trap>,
) -> Result<(), AllocError>
    requires { CanBeCalledOn fun.now element.now }
    ensures values { OnOk result (values.new.items
        ≡ values.old.items ++ emitted_by output (slots_answer fun.now element.now)) }
    ensures traps { OnOk result (traps.new.items
        ≡ traps.old.items ++ trapped_by origin (slots_answer fun.now element.now)) }
{
    match call(alloc, fun, element) {
        Ok(lists) => {
            values.append(&mut emitted(alloc, lists, output).into_vec())?;
            Ok(())
        }
        Err(CallFault::Trap(kind)) => {
            traps.push(Trap {
                origin,
                element: element.copy(alloc)?,
                kind,
            })?;
            Ok(())
        }
        Err(CallFault::Memory) => Err(AllocError),
    }
}

/// What was emitted to the output of that number, if there is one.
pub(crate) fn emitted(alloc: Global, lists: Lists, output: usize) -> Items
    ensures { result ≡ or_none (slice_get lists output) }
{
    let (first, mut others) = lists.into_parts();
    if output == 0 {
        return first;
    }
    if output <= others.len() {
        return others.swap_remove(output - 1);
    }
    Pile::new(alloc)
}
