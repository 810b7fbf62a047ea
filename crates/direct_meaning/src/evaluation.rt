// The direct evaluation of a program.
ghost use Rattle.std.specs.Prelude.{IfOk};
ghost use Rattle.script_laws.specs.WellFormed.{IsWellFormed};
ghost use Rattle.script_program.specs.Saved.{HasNoSaved};
ghost use Rattle.direct_meaning.specs.Evaluated.{IsDirect};
ghost use Rattle.direct_meaning.specs.Inputs.{AreInputs};

use crate::node::make;
use crate::told::{Direct, told};
use flume_value::{Items, Pile};
use script_program::Program;
use std::alloc::{AllocError, Global};

/// Evaluates a program over the rows of its needed inputs, node by node. Its collections are made
/// as its text says: none is one that an earlier run has kept.
#[tactic(auto, using(crate::proofs::EndLemmas::begins))]
pub fn direct(alloc: Global, program: &Program, inputs: Pile<Items>) -> Result<Direct, AllocError>
    requires well_formed { IsWellFormed program.now.script }
    requires written { HasNoSaved program.now.script }
    requires inputs { AreInputs program.now.script inputs }
    ensures { IfOk result (IsDirect program.now.script inputs) }
{
    let mut rows = inputs.into_vec().into_iter();
    let mut traps = Vec::new(alloc);
    let mut table = Vec::new(alloc);
    for number in 0..program.node_count() {
        let kept = if program.is_needed(number) {
            let kept = make(
                alloc,
                program,
                number,
                table.as_slice(),
                &mut rows,
                &mut traps,
            )?;
            Some(kept)
        } else {
            None
        };
        table.push(kept)?;
    }
    told(alloc, program, table, traps)
}
