// Outs that were made, and the first that was a trap.
ghost use Rattle.std.specs.Prelude.{◌≡◌, ◌++◌, ◌∷◌, [], IfOk, IfErr, OnOk};
ghost use Rattle.phase_outs.specs.inner.Made.{AreMadeOf, IsTrapped};

use crate::stop::PhaseStop;
use crew::KeptOut;
use flume_collection::Trap;
use std::alloc::{AllocError, Global};

/// The outs of the tasks of a phase, and the attempts that made them, in order of tasks.
#[derive(Drop)]
pub struct PhaseOuts<O> {
    /// What the tasks have made.
    pub outs: Vec<O>,
    /// The attempts, counted from 1, that have won them.
    pub attempts: Vec<u32>,
}

impl<O: Drop> PhaseOuts<O> {
    fn new(alloc: Global) -> PhaseOuts<O>
        ensures outs { result.outs.items ≡ [] }
        ensures attempts { result.attempts.items ≡ [] }
    {
        PhaseOuts {
            outs: Vec::new(alloc),
            attempts: Vec::new(alloc),
        }
    }

    fn add(&mut self, out: O, attempt: u32) -> Result<(), AllocError>
        ensures outs { OnOk result (self.new.outs.items ≡ self.old.outs.items ++ out ∷ []) }
        ensures attempts { OnOk result
            (self.new.attempts.items ≡ self.old.attempts.items ++ attempt ∷ []) }
    {
        self.outs.push(out)?;
        self.attempts.push(attempt)?;
        Ok(())
    }
}

/// All that was made, or the first trap. It takes outs in order of tasks.
pub(crate) fn made_outs<O: Drop>(
    alloc: Global,
    kept: Vec<KeptOut<Result<O, Trap>>>,
) -> Result<PhaseOuts<O>, PhaseStop>
    ensures made { IfOk result (AreMadeOf kept.items) }
    ensures stop { IfErr result (IsTrapped kept.items) }
{
    let mut made = PhaseOuts::new(alloc);
    for won in kept {
        let KeptOut { task, attempt, out } = won;
        match out {
            Ok(out) => made.add(out, attempt)?,
            Err(trap) => return Err(PhaseStop::Trap { task, trap }),
        }
    }
    Ok(made)
}
