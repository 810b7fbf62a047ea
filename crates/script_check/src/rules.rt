// The rules of each kind of statement, in order.
ghost use Rattle.std.specs.Prelude.{◌≡◌, ◌<◌, false, is_some, length, IfOk, OnOk};
ghost use Rattle.type_table.specs.Table.{type_at};
ghost use Rattle.operation_check.specs.of_written_types.Answer.{Gives};
ghost use Rattle.operation_check.specs.of_written_types.Named.{find};
ghost use Rattle.script_program.specs.Script.{with_named_type};
ghost use Rattle.script_rules.specs.Rules as spec;

use crate::inputs::{rows_for, rows_of};
use crate::outputs::{output_of, read_for};
use crate::signatures::checked;
use flume_grammar::{Form, Function as Written, ScriptFault, Statement, TurnLet, Type};
use flume_value::Str;
use let_check::{add_let, fresh, room, rule_repeat};
use operation_check::written_types::shallow;
use script_program::MOST_COLLECTIONS;
use script_state::State;
use std::alloc::Global;
use type_table::TypeId;

/// A statement's rules, in order.
pub fn rule(alloc: Global, statement: Statement, state: &mut State) -> Result<(), ScriptFault>
    ensures { Gives (λ _. state.new.state) result
        (spec.rule statement.line statement.form state.old.state) }
{
    let Statement { line, form } = statement;
    match form {
        Form::Type(name, ty) => {
            let ruled = rule_type(alloc, line, name, &ty, state);
            drop(ty);
            ruled
        }
        Form::Input(name, ty, file) => {
            let ruled = rule_input(alloc, line, name, &ty, file, state);
            drop(ty);
            ruled
        }
        Form::Function(function) => rule_function(alloc, line, function, state),
        Form::Let(names, by) => rule_let(alloc, TurnLet { line, names, by }, state),
        Form::Repeat(names, written) => rule_repeat(alloc, line, names, written, state),
        Form::Output(name, file) => rule_output(alloc, line, name, file, state),
    }
}

fn rule_type(
    alloc: Global,
    line: u32,
    name: Str,
    ty: &Type,
    state: &mut State,
) -> Result<(), ScriptFault>
    ensures { Gives (λ _. state.new.state) result
        (spec.rule_type line name ty.now state.old.state) }
{
    let id = type_for(alloc, line, &name, ty, state)?;
    state.add_type(name, id)?;
    Ok(())
}

/// The type that a name may stand for.
fn type_for(
    alloc: Global,
    line: u32,
    name: &Str,
    ty: &Type,
    state: &mut State,
) -> Result<TypeId, ScriptFault>
    ensures gives { Gives
        (λ id. with_named_type name.now (type_at state.new.types id) state.old.state) result
        (spec.rule_type line name.now ty.now state.old.state) }
    ensures new { OnOk result (is_some (find name.now state.old.state.types) ≡ false) }
    ensures within { IfOk result (λ id. id < length state.new.types) }
    ensures state { state.new.state ≡ state.old.state }
{
    fresh(line, state.has_type(name))?;
    state.whole_type(alloc, line, ty)
}

fn rule_input(
    alloc: Global,
    line: u32,
    name: Str,
    ty: &Type,
    file: Str,
    state: &mut State,
) -> Result<(), ScriptFault>
    ensures { Gives (λ _. state.new.state) result
        (spec.rule_input line name ty.now file state.old.state) }
{
    let rows = rows_for(alloc, line, &name, ty, state)?;
    state.add_node(alloc, name, rows_of(file, rows))?;
    Ok(())
}

fn rule_function(
    alloc: Global,
    line: u32,
    function: Written,
    state: &mut State,
) -> Result<(), ScriptFault>
    ensures { Gives (λ _. state.new.state) result
        (spec.rule_function line function state.old.state) }
{
    match checked(alloc, line, &function, state) {
        Ok((signature, fun)) => {
            state.add_function(function, signature, fun)?;
            Ok(())
        }
        Err(fault) => {
            drop(function);
            Err(fault)
        }
    }
}

fn rule_let(alloc: Global, it: TurnLet, state: &mut State) -> Result<(), ScriptFault>
    ensures { Gives (λ _. state.new.state) result
        (spec.rule_let it.line it.names it.by state.old.state) }
{
    match room(
        it.line,
        it.names.len(),
        state.node_count(),
        MOST_COLLECTIONS,
    ) {
        Ok(()) => add_let(alloc, it, state),
        Err(fault) => {
            drop(it);
            Err(fault)
        }
    }
}

fn rule_output(
    alloc: Global,
    line: u32,
    name: Str,
    file: Str,
    state: &mut State,
) -> Result<(), ScriptFault>
    ensures { Gives (λ _. state.new.state) result
        (spec.rule_output line name file state.old.state) }
{
    let read = read_for(alloc, line, &name, &file, state)?;
    state.add_output(file, output_of(name, read))?;
    Ok(())
}
