// The fault with which a line of a script is refused.
ghost use Rattle.std.specs.Prelude.{◌≡◌};

use flume_grammar::{ScriptFault, ScriptKind};

/// The fault of this kind on this line.
pub fn refused(line: u32, kind: ScriptKind) -> ScriptFault
    ensures { result ≡ ScriptFault.Refused line kind }
{
    ScriptFault::Refused { line, kind }
}
