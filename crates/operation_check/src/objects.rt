// The check of operations with objects: what makes one, of all members of a collection or of the
// values of objects, and a call beside one.
ghost use Rattle.std.specs.Prelude.{◌≡◌, ℕ, ◌<◌, List, length, map, IfOk};
ghost use Rattle.std.specs.List.{All};
ghost use Rattle.flume_types.specs.declared.types.Ty.{Ty, out-Ty};
ghost use Rattle.type_table.specs.Table.{type_at, field_at, AreWithin, Extends};
ghost use Rattle.script_program.specs.of_written_types.Answer.{Gives, or_fault};
ghost use Rattle.script_program.specs.of_expression_types.Held.{AreTypes};
ghost use Rattle.script_rules.specs.Arguments as arguments;
ghost use Rattle.script_rules.specs.Operations as spec;
ghost use Rattle.script_program.specs.Program.{HasTypes, making_in};
ghost use Rattle.script_state.specs.Held.{operand_in, callee_in};

use crate::combiner::{comb_of, combined};
use crate::flatten::{collections, numbers};
use crate::operation::{callee, collection, plain};
use combine_table::Comb;
use flume_grammar::{Combiner, ScriptFault, ScriptKind};
use flume_value::Str;
use script_program::written_types::refused;
use script_program::{Made, Making};
use script_state::{Callee, Operand, State};
use std::alloc::Global;
use type_table::{Part, Shape, TypeId, Types};

/// What a combiner makes of all members of a collection, by its name.
pub fn combined_whole(
    line: u32,
    source: &Str,
    combiner: &Combiner,
    state: &mut State,
) -> Result<Making, ScriptFault>
    ensures gives { Gives (making_in state.new.types) result
        (spec.combine_all_rule line source.now combiner.now state.old.state) }
    ensures within { IfOk result (λ making. making.ty < length state.new.types) }
    ensures extends { Extends state.old.types state.new.types }
    ensures state { state.new.state ≡ state.old.state }
{
    let source = collection(line, source, state)?;
    let by = comb_of(line, combiner)?;
    combine_all_of(line, source, by, state)
}

/// What a combiner makes of all members of a collection.
fn combine_all_of(
    line: u32,
    source: Operand,
    by: Comb,
    state: &mut State,
) -> Result<Making, ScriptFault>
    requires { source.ty < length state.old.types }
    ensures gives { Gives (making_in state.new.types) result
        (spec.combine_all_of line (operand_in state.old.types source) by) }
    ensures within { IfOk result (λ making. making.ty < length state.new.types) }
    ensures extends { Extends state.old.types state.new.types }
    ensures state { state.new.state ≡ state.old.state }
{
    plain(line, source.is_object)?;
    let ty = combined(line, by, source.ty, state)?;
    let made = Made::CombineAll {
        source: source.number,
        by,
    };
    Ok(Making { made, ty })
}

/// What a function emits, called on the values of objects, by their names.
pub fn operated(
    alloc: Global,
    line: u32,
    objects: &[Str],
    function: &Str,
    state: &State,
) -> Result<Making, ScriptFault>
    ensures gives { Gives (making_in state.now.types) result
        (spec.operate_rule line objects.now function.now state.now.state) }
    ensures within { IfOk result (λ making. making.ty < length state.now.types) }
{
    let objects = collections(alloc, line, objects, state)?;
    let function = callee(line, function, state)?;
    operate_of(alloc, line, objects.as_slice(), function, state)
}

/// What a function emits, called on the values of objects.
fn operate_of(
    alloc: Global,
    line: u32,
    objects: &[Operand],
    function: Callee<'_>,
    state: &State,
) -> Result<Making, ScriptFault>
    requires objects { All (λ source. source.ty < length state.now.types) objects.now }
    requires function { HasTypes state.now.types function.signature.now }
    ensures gives { Gives (making_in state.now.types) result (spec.operate_of line
        (map (operand_in state.now.types) objects.now)
        (callee_in state.now.types function.entry)) }
    ensures within { IfOk result (λ making. making.ty < length state.now.types) }
{
    if !takes_objects(objects, function.signature.takes, state.types()) {
        return Err(refused(line, ScriptKind::Mistyped));
    }
    let ty = sole(line, function.signature.gives.as_slice())?;
    let objects = numbers(alloc, objects)?;
    let made = Made::Operate {
        objects,
        function: function.number,
    };
    Ok(Making { made, ty })
}

/// What a function emits from each member of a collection beside the value of an object, by their
/// names.
pub fn done_beside(
    line: u32,
    source: &Str,
    function: &Str,
    object: &Str,
    state: &State,
) -> Result<Making, ScriptFault>
    ensures gives { Gives (making_in state.now.types) result
        (spec.do_with_rule line source.now function.now object.now state.now.state) }
    ensures within { IfOk result (λ making. making.ty < length state.now.types) }
{
    let source = collection(line, source, state)?;
    let function = callee(line, function, state)?;
    let object = collection(line, object, state)?;
    do_with_of(line, source, function, object, state)
}

/// What a function emits from each member beside the value of an object.
fn do_with_of(
    line: u32,
    source: Operand,
    function: Callee<'_>,
    object: Operand,
    state: &State,
) -> Result<Making, ScriptFault>
    requires source { source.ty < length state.now.types }
    requires function { HasTypes state.now.types function.signature.now }
    requires object { object.ty < length state.now.types }
    ensures gives { Gives (making_in state.now.types) result (spec.do_with_of line
        (operand_in state.now.types source) (callee_in state.now.types function.entry)
        (operand_in state.now.types object)) }
    ensures within { IfOk result (λ making. making.ty < length state.now.types) }
{
    if source.is_object || !object.is_object {
        return Err(refused(line, ScriptKind::Mistyped));
    }
    if !takes_pair(
        source.ty,
        object.ty,
        function.signature.takes,
        state.types(),
    ) {
        return Err(refused(line, ScriptKind::Mistyped));
    }
    let ty = sole(line, function.signature.gives.as_slice())?;
    let made = Made::DoWith {
        source: source.number,
        function: function.number,
        object: object.number,
    };
    Ok(Making { made, ty })
}

/// The type of a function's only output.
fn sole(line: u32, gives: &[TypeId]) -> Result<TypeId, ScriptFault>
    ensures gives { (types : List Ty) → Gives (type_at types) result
        (or_fault line ScriptKind.Mistyped (arguments.sole (map (type_at types) gives.now))) }
    ensures within { (n : ℕ) → AreTypes n gives.now → IfOk result (λ id. id < n) }
{
    match gives {
        [only] => Ok(*only),
        _ => Err(refused(line, ScriptKind::Mistyped)),
    }
}

/// Whether a function that takes this type can be called on the values of these, which are objects
/// then.
fn takes_objects(objects: &[Operand], takes: TypeId, types: &Types) -> bool
    requires objects { All (λ source. source.ty < length types.now) objects.now }
    requires takes { takes < length types.now }
    ensures { result ≡ arguments.takes_objects (map (operand_in types.now) objects.now)
        (type_at types.now takes) }
{
    are_objects(objects) && takes_values(objects, takes, types)
}

fn are_objects(operands: &[Operand]) -> bool
    ensures { (types : List Ty) →
        result ≡ arguments.are_objects (map (operand_in types) operands.now) }
{
    for one in operands {
        if !one.is_object {
            return false;
        }
    }
    true
}

/// Whether this is the type of one object's value, or of a record of the values of several.
fn takes_values(objects: &[Operand], takes: TypeId, types: &Types) -> bool
    requires objects { All (λ source. source.ty < length types.now) objects.now }
    requires takes { takes < length types.now }
    ensures { result ≡ arguments.takes_values (map (operand_in types.now) objects.now)
        (type_at types.now takes) }
{
    match objects {
        [] => false,
        [one] => types.same(one.ty, takes),
        [_one, _other, _others @ ..] => is_record_of(objects, takes, types),
    }
}

/// Whether a type is a record of two fields of these types.
fn takes_pair(member: TypeId, value: TypeId, takes: TypeId, types: &Types) -> bool
    requires member { member < length types.now }
    requires value { value < length types.now }
    requires takes { takes < length types.now }
    ensures { result ≡ arguments.takes_pair (type_at types.now member) (type_at types.now value)
        (out-Ty (type_at types.now takes)) }
{
    match types.shape(takes) {
        Shape::Rec(parts) => are_both(member, value, parts.as_slice(), types),
        _ => false,
    }
}

/// Whether these are two fields of these types.
fn are_both(member: TypeId, value: TypeId, parts: &[Part], types: &Types) -> bool
    requires member { member < length types.now }
    requires value { value < length types.now }
    requires parts { AreWithin (length types.now) parts.now }
    ensures { result ≡ arguments.are_both (type_at types.now member) (type_at types.now value)
        (map (field_at types.now) parts.now) }
{
    match parts {
        [first, second] => types.same(member, first.ty) && types.same(value, second.ty),
        _ => false,
    }
}

/// Whether a type is a record of fields of these types, in order.
fn is_record_of(operands: &[Operand], id: TypeId, types: &Types) -> bool
    requires operands { All (λ source. source.ty < length types.now) operands.now }
    requires id { id < length types.now }
    ensures { result ≡ arguments.is_record_of (map (operand_in types.now) operands.now)
        (out-Ty (type_at types.now id)) }
{
    match types.shape(id) {
        Shape::Rec(parts) => each_fits(operands, parts.as_slice(), types),
        _ => false,
    }
}

/// Whether these are as many as the fields, each of its field's type.
fn each_fits(operands: &[Operand], parts: &[Part], types: &Types) -> bool
    requires operands { All (λ source. source.ty < length types.now) operands.now }
    requires parts { AreWithin (length types.now) parts.now }
    ensures { result ≡ arguments.each_fits (map (operand_in types.now) operands.now)
        (map (field_at types.now) parts.now) }
{
    if operands.len() != parts.len() {
        return false;
    }
    for place in 0..operands.len() {
        if !types.same(operands[place].ty, parts[place].ty) {
            return false;
        }
    }
    true
}
