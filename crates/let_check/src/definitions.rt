// Two rules of each definition: there is room for it, and its name is new.
ghost use Rattle.flume_grammar.specs.declared.fault.ScriptKind.TheVariants.{TooMany};
ghost use Rattle.std.specs.Prelude.{◌≡◌, ◌+◌, false, nat_le, not, OnOk};
ghost use Rattle.operation_check.specs.of_written_types.Answer.{Gives, unless};

use flume_grammar::{ScriptFault, ScriptKind};
use operation_check::written_types::refused;

/// Room for so many more.
pub fn room(line: u32, more: usize, count: usize, limit: usize) -> Result<(), ScriptFault>
    ensures { Gives (λ _. tt) result (unless line TooMany (nat_le (count + more) limit)) }
{
    if count <= limit && more <= limit - count {
        Ok(())
    } else {
        Err(refused(line, ScriptKind::TooMany))
    }
}

/// A name that stands for nothing yet: whether it does is told.
pub fn fresh(line: u32, stands: bool) -> Result<(), ScriptFault>
    ensures gives { Gives (λ _. tt) result (unless line ScriptKind.Twice (not stands)) }
    ensures new { OnOk result (stands ≡ false) }
{
    if stands {
        Err(refused(line, ScriptKind::Twice))
    } else {
        Ok(())
    }
}
