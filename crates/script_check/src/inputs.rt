// The rules of an input: its name, and the type and the columns of its rows.
ghost use Rattle.std.specs.Prelude.{◌≡◌, ◌<◌, ℕ, List, false, is_some, length, IfOk, OnOk};
ghost use Rattle.flume_types.specs.Columns.{input_columns_of};
ghost use Rattle.type_table.specs.Table.{type_at};
ghost use Rattle.operation_check.specs.of_written_types.Answer.{Gives, or_fault};
ghost use Rattle.operation_check.specs.of_written_types.Named.{find};
ghost use Rattle.script_program.specs.Script.{with_node};
ghost use Rattle.script_rules.specs.Rules as spec;

use flume_grammar::{ScriptFault, ScriptKind, Type};
use flume_types::{ColumnFault, Columns};
use flume_value::Str;
use let_check::{fresh, room};
use operation_check::written_types::refused;
use script_program::{MOST_COLLECTIONS, Made, Making};
use script_state::State;
use std::alloc::Global;
use type_table::{TypeId, input_columns};

/// The rows of an input: their type, and its columns.
#[derive(Drop)]
pub struct Rows {
    pub ty: TypeId,
    pub columns: Columns,
}

/// The rows that an input of this name may have.
pub fn rows_for(
    alloc: Global,
    line: u32,
    name: &Str,
    ty: &Type,
    state: &mut State,
) -> Result<Rows, ScriptFault>
    ensures gives { (file : List ℕ) → Gives (λ rows. with_node name.now (record {
      made = Made.Input file rows.columns;
      type = type_at state.new.types rows.ty;
    }) state.old.state) result
        (spec.rule_input line name.now ty.now file state.old.state) }
    ensures new { OnOk result (is_some (find name.now state.old.state.names) ≡ false) }
    ensures within { IfOk result (λ rows. rows.ty < length state.new.types) }
    ensures state { state.new.state ≡ state.old.state }
{
    room(line, 1, state.node_count(), MOST_COLLECTIONS)?;
    fresh(line, state.has_name(name))?;
    let ty = state.whole_type(alloc, line, ty)?;
    let columns = row_columns(alloc, line, ty, state)?;
    Ok(Rows { ty, columns })
}

/// The collection of the rows of a file.
pub fn rows_of(file: Str, rows: Rows) -> Making
    ensures made { result.made ≡ Made.Input file rows.columns }
    ensures ty { result.ty ≡ rows.ty }
{
    let Rows { ty, columns } = rows;
    Making {
        made: Made::Input { file, columns },
        ty,
    }
}

/// The columns of a record of int, bool and text.
fn row_columns(alloc: Global, line: u32, id: TypeId, state: &State) -> Result<Columns, ScriptFault>
    requires { id < length state.now.types }
    ensures { Gives (λ columns. columns) result
        (or_fault line ScriptKind.NotFlat (input_columns_of (type_at state.now.types id))) }
{
    match input_columns(alloc, state.types(), id) {
        Ok(columns) => Ok(columns),
        Err(ColumnFault::NotFlat) => Err(refused(line, ScriptKind::NotFlat)),
        Err(ColumnFault::Memory) => Err(ScriptFault::Memory),
    }
}
