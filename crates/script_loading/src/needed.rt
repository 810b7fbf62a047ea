// The input that a node of a script is, where it is needed.
ghost use Rattle.std.specs.Prelude.{◌≡◌, ◌<◌, [], IfNone, IfSome, length};
ghost use Rattle.script_loading.specs.inner.Reading.{IsNeededInput, inputs_at};

use crate::ready::ReadyProgram;
use flume_types::Column;
use flume_value::Str;
use script_program::Made;

/// An input that is needed: its file, and the columns that its rows have.
#[derive(Clone, Copy)]
pub struct Needed<'a> {
    pub file: &'a Str,
    pub columns: &'a [Column],
}

/// The input that the node of that number is, where it is one that is needed.
pub(crate) fn needed_input(program: &ReadyProgram, number: usize) -> Option<Needed<'_>>
    requires within { number < length program.now.script.nodes }
    ensures some { IfSome result (λ it.
        IsNeededInput program.now.script number it.file.now it.columns.now) }
    ensures none { IfNone result (inputs_at program.now.script number ≡ []) }
{
    let held = program.as_program();
    if !held.is_needed(number) {
        return None;
    }
    match &held.node(number).made {
        Made::Input { file, columns } => Some(Needed {
            file,
            columns: columns.as_slice(),
        }),
        _ => None,
    }
}
