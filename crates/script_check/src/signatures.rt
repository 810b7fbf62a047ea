// The rules of a function: its types, its scale and its body.
ghost use Rattle.std.specs.Prelude.{◌≡◌, ◌≤◌, ◌+◌, [], ◌∷◌, false, is_some, length, map, IfOk, OnOk};
ghost use Rattle.operation_check.specs.of_expression_types.Held.{AreTypes};
ghost use Rattle.type_table.specs.Table.{type_at, Extends};
ghost use Rattle.operation_check.specs.of_written_types.Answer.{Gives};
ghost use Rattle.operation_check.specs.of_written_types.Named.{find};
ghost use Rattle.script_program.specs.Program.{signature_in, HasTypes, DoesAsWritten};
ghost use Rattle.script_program.specs.Script.{function_from, with_function};
ghost use Rattle.script_rules.specs.Rules as spec;

use crate::scales::scale;
use dofn_eval::Fun;
use flume_grammar::{Function as Written, ScriptFault, ScriptKind, Type};
use flume_value::Pile;
use let_check::{fresh, room};
use operation_check::written_types::refused;
use script_program::{MOST_FUNCTIONS, MOST_OUTPUTS, Signature};
use script_state::State;
use std::alloc::Global;
use type_table::TypeId;

/// What a function that may be defined here takes and gives, and its slots.
pub fn checked(
    alloc: Global,
    line: u32,
    function: &Written,
    state: &mut State,
) -> Result<(Signature, Fun), ScriptFault>
    ensures gives { Gives (λ it. with_function function.now.name (function_from function.now
        (signature_in state.new.types it.0) state.old.state) state.old.state) result
        (spec.rule_function line function.now state.old.state) }
    ensures new { OnOk result
        (is_some (find function.now.name state.old.state.functions) ≡ false) }
    ensures within { IfOk result (λ it. HasTypes state.new.types it.0) }
    ensures does { IfOk result (λ it. DoesAsWritten it.1 (function_from function.now
        (signature_in state.new.types it.0) state.old.state)) }
    ensures state { state.new.state ≡ state.old.state }
{
    let signature = signature_of(alloc, line, function, state)?;
    let fun = state.fun_of(alloc, function, &signature)?;
    Ok((signature, fun))
}

/// What a function that may be defined here takes and gives.
fn signature_of(
    alloc: Global,
    line: u32,
    function: &Written,
    state: &mut State,
) -> Result<Signature, ScriptFault>
    ensures gives { Gives (signature_in state.new.types) result
        (spec.signature_of line function.now state.old.state) }
    ensures new { OnOk result
        (is_some (find function.now.name state.old.state.functions) ≡ false) }
    ensures within { IfOk result (λ signature. HasTypes state.new.types signature) }
    ensures some { IfOk result (λ signature. 1 ≤ length signature.gives) }
    ensures few { IfOk result (λ signature. length signature.gives ≤ 8) }
    ensures state { state.new.state ≡ state.old.state }
{
    room(line, 1, state.function_count(), MOST_FUNCTIONS)?;
    fresh(line, state.has_function(&function.name))?;
    let takes = state.whole_type(alloc, line, &function.takes)?;
    let gives = types_given(alloc, line, function, state)?;
    let scale = scale(line, &function.scale)?;
    Ok(Signature {
        takes,
        gives,
        scale,
    })
}

/// The types of what a function gives to its outputs, not more of them than it may have.
fn types_given(
    alloc: Global,
    line: u32,
    function: &Written,
    state: &mut State,
) -> Result<Pile<TypeId>, ScriptFault>
    ensures gives { Gives (map (type_at state.new.types)) result
        (spec.types_given line function.now state.old.state.types) }
    ensures within { IfOk result (AreTypes (length state.new.types)) }
    ensures some { IfOk result (λ gives. 1 ≤ length gives) }
    ensures few { IfOk result (λ gives. length gives ≤ 8) }
    ensures extends { Extends state.old.types state.new.types }
    ensures state { state.new.state ≡ state.old.state }
{
    let gives = types_of(
        alloc,
        line,
        &function.gives,
        function.more.as_slice(),
        state,
    )?;
    if gives.len() <= MOST_OUTPUTS {
        Ok(gives)
    } else {
        Err(refused(line, ScriptKind::TooMany))
    }
}

/// The types that are written, from the left.
fn types_of(
    alloc: Global,
    line: u32,
    first: &Type,
    more: &[Type],
    state: &mut State,
) -> Result<Pile<TypeId>, ScriptFault>
    ensures gives { Gives (map (type_at state.new.types)) result
        (spec.types_behind line [] (first.now ∷ more.now) state.old.state.types) }
    ensures within { IfOk result (AreTypes (length state.new.types)) }
    ensures some { IfOk result (λ ids. 1 ≤ length ids) }
    ensures extends { Extends state.old.types state.new.types }
    ensures state { state.new.state ≡ state.old.state }
{
    let mut ids = Pile::new(alloc);
    push_type(alloc, line, first, &mut ids, state)?;
    for ty in more {
        push_type(alloc, line, ty, &mut ids, state)?;
    }
    Ok(ids)
}

/// The type that is written, behind those so far.
fn push_type(
    alloc: Global,
    line: u32,
    ty: &Type,
    ids: &mut Pile<TypeId>,
    state: &mut State,
) -> Result<(), ScriptFault>
    requires { AreTypes (length state.old.types) ids.old }
    ensures gives { Gives (λ _. map (type_at state.new.types) ids.new) result
        (spec.type_behind line (map (type_at state.old.types) ids.old) ty.now
        state.old.state.types) }
    ensures within { OnOk result (AreTypes (length state.new.types) ids.new) }
    ensures many { OnOk result (length ids.new ≡ length ids.old + 1) }
    ensures extends { Extends state.old.types state.new.types }
    ensures state { state.new.state ≡ state.old.state }
{
    let id = state.whole_type(alloc, line, ty)?;
    ids.push(id)?;
    Ok(())
}
