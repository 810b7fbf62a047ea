// The rules of a let: its names, what its operation makes of them, and their types.
ghost use Rattle.std.specs.Prelude.{◌≡◌, ◌<◌, ◌++◌, length, map, IfOk, OnOk};
ghost use Rattle.std.specs.List.{All, list_any};
ghost use Rattle.std.specs.Map.{keys_of};
ghost use Rattle.std.specs.Str.{bytes_eq};
ghost use Rattle.type_table.specs.Table.{Extends};
ghost use Rattle.operation_check.specs.of_written_types.Answer.{Gives};
ghost use Rattle.script_program.specs.Program.{making_in};
ghost use Rattle.script_program.specs.Script.{with_nodes};
ghost use Rattle.script_rules.specs.Rules as spec;
ghost use Rattle.let_check.specs.inner.Names.{AreNew};

use crate::definitions::fresh;
use flume_grammar::{Operation, ScriptFault, ScriptKind, TurnLet};
use flume_value::{Pile, Str};
use operation_check::made_by;
use operation_check::written_types::{refused, shallow};
use script_program::Making;
use script_state::State;
use std::alloc::{AllocError, Global};
use type_table::Types;

/// A let on its line, where there is room for what it names.
pub fn add_let(alloc: Global, it: TurnLet, state: &mut State) -> Result<(), ScriptFault>
    ensures gives { Gives (λ _. state.new.state) result
        (spec.let_rule it.line it.names it.by state.old.state) }
    ensures extends { Extends state.old.types state.new.types }
{
    let TurnLet { line, names, by } = it;
    let makings = makings_for(alloc, line, names.as_slice(), &by, state);
    drop(by);
    add_all(alloc, names, makings?, state)?;
    Ok(())
}

/// The collections that these names may stand for, one for each.
fn makings_for(
    alloc: Global,
    line: u32,
    names: &[Str],
    by: &Operation,
    state: &mut State,
) -> Result<Pile<Making>, ScriptFault>
    ensures gives { Gives (λ makings. with_nodes names.now
        (map (making_in state.new.types) makings) state.old.state) result
        (spec.let_rule line names.now by.now state.old.state) }
    ensures new { IfOk result (λ makings. AreNew names.now
        (map (making_in state.new.types) makings) state.old.state) }
    ensures within { IfOk result (All (λ making. making.ty < length state.new.types)) }
    ensures extends { Extends state.old.types state.new.types }
    ensures state { state.new.state ≡ state.old.state }
{
    all_fresh(line, names, state)?;
    let makings = made_by(alloc, line, by, state)?;
    all_fit(line, names.len(), makings.as_slice(), state.types())?;
    Ok(makings)
}

/// For each name a collection more, in order.
pub fn add_all(
    alloc: Global,
    names: Pile<Str>,
    makings: Pile<Making>,
    state: &mut State,
) -> Result<(), AllocError>
    requires new { AreNew names (map (making_in state.old.types) makings) state.old.state }
    requires within { All (λ making. making.ty < length state.old.types) makings }
    ensures state { OnOk result (state.new.state
        ≡ with_nodes names (map (making_in state.old.types) makings) state.old.state) }
    ensures types { state.new.types ≡ state.old.types }
{
    for (name, making) in names.into_vec().into_iter().zip(makings.into_vec()) {
        state.add_node(alloc, name, making)?;
    }
    Ok(())
}

/// Names that stand for nothing yet, none of them twice.
pub fn all_fresh(line: u32, names: &[Str], state: &State) -> Result<(), ScriptFault>
    ensures { Gives (λ _. tt) result
        (spec.all_fresh line (keys_of state.now.state.names) names.now) }
{
    for (number, name) in names.iter().enumerate() {
        fresh(line, is_taken(name, &names[..number], state))?;
    }
    Ok(())
}

/// Whether a name stands for something, or is among these.
fn is_taken(name: &Str, before: &[Str], state: &State) -> bool
    ensures { result
        ≡ list_any (bytes_eq name.now) (keys_of state.now.state.names ++ before.now) }
{
    state.has_name(name) || is_among(name, before)
}

fn is_among(name: &Str, names: &[Str]) -> bool
    ensures { result ≡ list_any (bytes_eq name.now) names.now }
{
    names.iter().any(|other| name.is(other.as_bytes()))
}

/// As many collections as names, of types that are at most 8 deep.
fn all_fit(line: u32, count: usize, makings: &[Making], types: &Types) -> Result<(), ScriptFault>
    requires { All (λ making. making.ty < length types.now) makings.now }
    ensures { Gives (λ _. tt) result
        (spec.all_fit line count (map (making_in types.now) makings.now)) }
{
    if makings.len() != count {
        return Err(refused(line, ScriptKind::Mistyped));
    }
    for making in makings {
        shallow(line, making.ty, types)?;
    }
    Ok(())
}
