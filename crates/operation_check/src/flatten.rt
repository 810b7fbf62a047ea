// The check of a flatten: its sources are collections of one type.
ghost use Rattle.std.specs.Prelude.{◌≡◌, ◌<◌, List, [], length, map, IfOk};
ghost use Rattle.std.specs.List.{All};
ghost use Rattle.flume_types.specs.declared.types.Ty.{Ty};
ghost use Rattle.type_table.specs.Table.{type_at};
ghost use Rattle.script_program.specs.of_written_types.Answer.{Gives};
ghost use Rattle.script_rules.specs.Operations as spec;
ghost use Rattle.script_program.specs.Program.{making_in};
ghost use Rattle.script_state.specs.Held.{operand_in};

use crate::operation::collection;
use flume_grammar::{ScriptFault, ScriptKind};
use flume_value::{Pile, Str};
use script_program::written_types::refused;
use script_program::{Made, Making};
use script_state::{Operand, State};
use std::alloc::{AllocError, Global};
use type_table::{TypeId, Types};

/// The members of collections of one type.
pub fn flatten(
    alloc: Global,
    line: u32,
    sources: &[Str],
    state: &State,
) -> Result<Making, ScriptFault>
    ensures gives { Gives (making_in state.now.types) result
        (spec.flattened line sources.now state.now.state) }
    ensures within { IfOk result (λ making. making.ty < length state.now.types) }
{
    let sources = collections(alloc, line, sources, state)?;
    flatten_of(alloc, line, sources.as_slice(), state.types())
}

/// The members of these collections, of one type.
fn flatten_of(
    alloc: Global,
    line: u32,
    sources: &[Operand],
    types: &Types,
) -> Result<Making, ScriptFault>
    requires { All (λ source. source.ty < length types.now) sources.now }
    ensures gives { Gives (making_in types.now) result
        (spec.flatten_of line (map (operand_in types.now) sources.now)) }
    ensures within { IfOk result (λ making. making.ty < length types.now) }
{
    let ty = one_type(line, sources, types)?;
    let sources = numbers(alloc, sources)?;
    Ok(Making {
        made: Made::Flatten { sources },
        ty,
    })
}

/// The collections of names, from the left.
pub fn collections(
    alloc: Global,
    line: u32,
    names: &[Str],
    state: &State,
) -> Result<Pile<Operand>, ScriptFault>
    ensures gives { Gives (λ sources. map (operand_in state.now.types) sources) result
        (spec.collections_behind line [] names.now state.now.state) }
    ensures within { IfOk result (λ sources.
        All (λ source. source.ty < length state.now.types) sources) }
{
    let mut sources = Pile::new(alloc);
    for name in names {
        let source = collection(line, name, state)?;
        sources.push(source)?;
    }
    Ok(sources)
}

/// The one type of collections.
fn one_type(line: u32, sources: &[Operand], types: &Types) -> Result<TypeId, ScriptFault>
    requires { All (λ source. source.ty < length types.now) sources.now }
    ensures gives { Gives (type_at types.now) result
        (spec.one_type line (map (operand_in types.now) sources.now)) }
    ensures within { IfOk result (λ id. id < length types.now) }
{
    match sources {
        [first, _others @ ..] if all_same(first.ty, sources, types) => Ok(first.ty),
        _ => Err(refused(line, ScriptKind::Mistyped)),
    }
}

/// Whether all have this type and none is an object.
fn all_same(id: TypeId, sources: &[Operand], types: &Types) -> bool
    requires first { id < length types.now }
    requires sources { All (λ source. source.ty < length types.now) sources.now }
    ensures { result
        ≡ spec.all_same (type_at types.now id) (map (operand_in types.now) sources.now) }
{
    for source in sources {
        if source.is_object || !types.same(id, source.ty) {
            return false;
        }
    }
    true
}

/// The numbers of collections.
pub fn numbers(alloc: Global, sources: &[Operand]) -> Result<Pile<usize>, AllocError>
    ensures { (types : List Ty) → IfOk result (λ numbers.
        numbers ≡ spec.operand_numbers (map (operand_in types) sources.now)) }
{
    let mut numbers = Pile::new(alloc);
    for source in sources {
        numbers.push(source.number)?;
    }
    Ok(numbers)
}
