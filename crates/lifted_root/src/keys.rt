// Accumulators in place of groups: the root of a lifted reducer finishes each, and the steps on the
// root's outputs go on with what comes of it.
use crate::finish::finish_root;
use combine_table::Comb;
use exec_graph::Step;
use forest_steps::{Elements, Functions, Outputs, StepFault, visit_one};
use partial_tables::Partial;
use std::alloc::Global;
use std::vec::IntoIter;

/// Keys with their accumulators, and the steps of the reducer of their channel, which has this
/// root.
#[derive(Drop)]
pub struct Keys<'a, F: Functions> {
    pub functions: &'a F,
    pub sizes: &'a [usize],
    pub root: &'a Step,
    pub comb: Comb,
    pub partials: IntoIter<Partial>,
}

impl<'a, F: Functions> Elements for Keys<'a, F> {
    ghost use Rattle.std.specs.Prelude.{map};
    ghost use Rattle.std.specs.List.{AllByRecursion};
    ghost use Rattle.forest_steps.specs.Functions.{world_of};
    ghost use Rattle.lifted_root.specs.Lifted.{run_partial, SafePartial};

    ghost turns = { λ k. map
        (run_partial (world_of (F.called k.functions.now)) k.sizes.now k.root.now k.comb)
        k.partials.rest.items };

    ghost are_safe = { λ k. AllByRecursion
        (SafePartial (world_of (F.called k.functions.now)) (F.can_call k.functions.now)
        k.root.now k.comb) k.partials.rest.items };

    fn count(&self) -> usize {
        self.partials.len()
    }

    fn step(&mut self, alloc: Global, outputs: &mut Outputs) -> Result<(), StepFault> {
        match self.partials.next() {
            None => Ok(()),
            Some(partial) => {
                let root = self.root;
                let emitted = finish_root(alloc, root.origin, self.comb, partial)?;
                visit_one(alloc, self.functions, self.sizes, root, 0, emitted, outputs)?;
                Ok(())
            }
        }
    }
}
