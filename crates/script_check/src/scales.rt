// The scale of a function: how many emissions are expected of a hundred calls.
ghost use Rattle.std.specs.Prelude.{Some};
ghost use Rattle.operation_check.specs.of_written_types.Answer.{Gives};
ghost use Rattle.script_rules.specs.Rules.{scale_written};

use flume_grammar::{ScriptFault, ScriptKind};
use flume_value::Str;
use operation_check::expression_check::number_within;
use operation_check::written_types::refused;

/// How many emissions are expected of a hundred calls, from 0 to 10000: as many, where nothing is
/// said.
pub fn scale(line: u32, digits: &Option<Str>) -> Result<u32, ScriptFault>
    ensures { Gives (λ number. number) result (scale_written line digits.now) }
{
    match digits {
        None => Ok(100),
        Some(digits) => written_scale(line, digits),
    }
}

fn written_scale(line: u32, digits: &Str) -> Result<u32, ScriptFault>
    ensures { Gives (λ number. number) result (scale_written line (Some digits.now)) }
{
    match number_within(0, 10000, digits) {
        Some(number) => Ok(number),
        None => Err(refused(line, ScriptKind::BadNumber)),
    }
}
