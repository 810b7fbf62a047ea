// How many of the greatest are asked for.
ghost use Rattle.script_program.specs.of_written_types.Answer.{Gives};
ghost use Rattle.script_rules.specs.Operations.{top_number as top_of};

use expression_check::number_within;
use flume_grammar::{ScriptFault, ScriptKind};
use flume_value::Str;
use script_program::written_types::refused;

/// How many of the greatest are asked for, from 1 to 1000.
pub fn top_number(line: u32, digits: &Str) -> Result<u32, ScriptFault>
    ensures { Gives (λ number. number) result (top_of line digits.now) }
{
    match number_within(1, 1000, digits) {
        Some(number) => Ok(number),
        None => Err(refused(line, ScriptKind::BadNumber)),
    }
}
