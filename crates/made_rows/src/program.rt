// The program of the sums.
ghost use Rattle.std.specs.Prelude.{◌≡◌, IfErr, IfOk};
ghost use Rattle.made_rows.specs.Sums.{sums_script};

use crate::tree::sums_tree;
use flume_grammar::ScriptFault;
use script_check::check;
use script_program::Program;
use std::alloc::{AllocError, Global};

/// The program of the script of the sums.
pub fn sums_program(alloc: Global) -> Result<Program, AllocError>
    ensures { IfOk result (λ program. program.script ≡ sums_script) }
{
    match checked(alloc) {
        Ok(program) => Ok(program),
        Err(ScriptFault::Memory) => Err(AllocError),
        Err(ScriptFault::Refused { .. }) => unreachable!(),
    }
}

// The same, as the checker answers: it does not refuse the script.
fn checked(alloc: Global) -> Result<Program, ScriptFault>
    ensures script { IfOk result (λ program. program.script ≡ sums_script) }
    ensures memory { IfErr result (λ fault. fault ≡ ScriptFault.Memory) }
{
    let tree = sums_tree(alloc)?;
    check(alloc, tree)
}
