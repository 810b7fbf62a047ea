// The outputs of a function by the numbers that `emit`s write.
ghost use Rattle.std.specs.Prelude.{◌<◌, Some, length, slice_get, IfOk};
ghost use Rattle.flume_grammar.specs.declared.fault.ScriptKind.TheVariants.{BadNumber as Bad};
ghost use Rattle.expression_check.specs.of_type_table.Table.{type_at};
ghost use Rattle.expression_check.specs.of_written_types.Answer.{Gives, or_fault};
ghost use Rattle.body_check.specs.Outputs.{output_written as output_meant};

use crate::frame::Frame;
use expression_check::number_within;
use expression_check::type_table::TypeId;
use expression_check::written_types::refused;
use flume_grammar::{ScriptFault, ScriptKind};
use flume_value::Str;

/// The number, from 0, of the output to which an `emit` emits.
pub(crate) fn output_of(
    line: u32,
    to: &Option<Str>,
    frame: &Frame<'_>,
) -> Result<usize, ScriptFault>
    ensures { Gives (λ output. output) result
        (or_fault line Bad (output_meant (length frame.now.gives) to.now)) }
{
    match to {
        None => Ok(0),
        Some(digits) => numbered(line, digits, frame.outputs()),
    }
}

// The output with the number that digits write, counted from 1.
fn numbered(line: u32, digits: &Str, outputs: u32) -> Result<usize, ScriptFault>
    ensures { Gives (λ output. output) result
        (or_fault line Bad (output_meant outputs (Some digits.now))) }
{
    match number_within(1, outputs, digits) {
        Some(number) => Ok(number.saturating_sub(1) as usize),
        None => Err(refused(line, ScriptKind::BadNumber)),
    }
}

/// The type of what is emitted to the output of this number.
pub(crate) fn wanted(line: u32, output: usize, frame: &Frame<'_>) -> Result<TypeId, ScriptFault>
    ensures gives { Gives (type_at frame.now.types) result
        (or_fault line Bad (slice_get frame.now.gives output)) }
    ensures within { IfOk result (λ id. id < length frame.now.types) }
{
    match frame.output(output) {
        Some(id) => Ok(id),
        None => Err(refused(line, ScriptKind::BadNumber)),
    }
}
