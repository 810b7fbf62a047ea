// What the root of a lifted reducer answers of a key, by its accumulator.
ghost use Rattle.std.specs.Prelude.{◌≡◌, ◌∷◌, [], Ok, IfOk, IfErr};
ghost use Rattle.partial_tables.specs.Tables.{IsPartialOf};
ghost use Rattle.forest_steps.specs.Functions.{IsTrapOf};
ghost use Rattle.lifted_root.specs.Lifted.{partial_answer};

use bag_groups::pair;
use combine_table::{Comb, finish};
use flume_collection::Trap;
use flume_value::{CallFault, Value};
use forest_steps::StepFault;
use partial_tables::Partial;
use std::alloc::Global;

/// The one emission of the root: the pair of the key and what its accumulator finishes as; or a
/// trap, which names the key.
#[tactic(auto, using(crate::proofs::Finishing::gives, crate::proofs::Finishing::traps))]
pub(crate) fn finish_root(
    alloc: Global,
    origin: u32,
    comb: Comb,
    partial: Partial,
) -> Result<Value, StepFault>
    requires { IsPartialOf comb partial }
    ensures given { IfOk result (λ emitted.
        partial_answer comb partial ≡ Ok ((emitted ∷ []) ∷ [])) }
    ensures trap { IfErr result (IsTrapOf origin (partial_answer comb partial)) }
{
    let (key, accumulator) = partial;
    match finish(comb, accumulator) {
        Ok(value) => Ok(pair(alloc, key, value)?),
        Err(fault) => match fault {
            CallFault::Trap(kind) => Err(StepFault::Trap(Trap {
                origin,
                element: key,
                kind,
            })),
            CallFault::Memory => {
                drop(key);
                Err(StepFault::Memory)
            }
        },
    }
}
