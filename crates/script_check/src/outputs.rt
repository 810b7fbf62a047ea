// The rules of an output: its collection, the columns of that, and its file.
ghost use Rattle.std.specs.Prelude.{◌≡◌, ◌<◌, false, is_some, length, OnOk};
ghost use Rattle.flume_types.specs.Columns.{columns_of};
ghost use Rattle.type_table.specs.Table.{type_at};
ghost use Rattle.operation_check.specs.of_written_types.Answer.{Gives, or_fault};
ghost use Rattle.operation_check.specs.of_written_types.Named.{find};
ghost use Rattle.script_program.specs.Script.{with_output};
ghost use Rattle.script_rules.specs.Rules as spec;

use flume_grammar::{ScriptFault, ScriptKind};
use flume_types::{ColumnFault, Columns};
use flume_value::Str;
use let_check::{fresh, room};
use operation_check::collection;
use operation_check::written_types::refused;
use script_program::{MOST_FILES, Output};
use script_state::State;
use std::alloc::Global;
use type_table::{TypeId, columns};

/// What an output reads: the number of its collection, and the columns of that.
#[derive(Drop)]
pub struct Read {
    pub number: usize,
    pub columns: Columns,
}

/// What an output of this name to this file may read.
pub fn read_for(
    alloc: Global,
    line: u32,
    name: &Str,
    file: &Str,
    state: &State,
) -> Result<Read, ScriptFault>
    ensures gives { Gives (λ read. with_output file.now (record {
      name = name.now;
      reads = read.number;
      columns = read.columns;
    }) state.now.state) result (spec.rule_output line name.now file.now state.now.state) }
    ensures new { OnOk result (is_some (find file.now state.now.state.outputs) ≡ false) }
{
    room(line, 1, state.output_count(), MOST_FILES)?;
    let source = collection(line, name, state)?;
    let columns = flat_columns(alloc, line, source.ty, state)?;
    fresh(line, state.has_output(file))?;
    Ok(Read {
        number: source.number,
        columns,
    })
}

/// The output of this name that reads this.
pub fn output_of(name: Str, read: Read) -> Output
    ensures name { result.name ≡ name }
    ensures reads { result.reads ≡ read.number }
    ensures columns { result.columns ≡ read.columns }
{
    let Read { number, columns } = read;
    Output {
        name,
        reads: number,
        columns,
    }
}

/// The columns of a flat type.
fn flat_columns(alloc: Global, line: u32, id: TypeId, state: &State) -> Result<Columns, ScriptFault>
    requires { id < length state.now.types }
    ensures { Gives (λ columns. columns) result
        (or_fault line ScriptKind.NotFlat (columns_of (type_at state.now.types id))) }
{
    match columns(alloc, state.types(), id) {
        Ok(columns) => Ok(columns),
        Err(ColumnFault::NotFlat) => Err(refused(line, ScriptKind::NotFlat)),
        Err(ColumnFault::Memory) => Err(ScriptFault::Memory),
    }
}
