// The steps of a forest on the elements of a task, on a host.
ghost use Rattle.std.specs.Prelude.{◌≡◌, ◌∷◌, [], ◌^◌, ◌<◌, ◌+◌, IfOk, OnOk, length, None};
ghost use Rattle.std.specs.List.{AllByRecursion};
ghost use Rattle.crew.specs.Attempts.{MadeHas};
ghost use Rattle.crew.specs.Drills.{attempt_at};
ghost use Rattle.exec_graph.specs.Forests.{next_after};
ghost use Rattle.exec_graph.specs.World.{World};
ghost use Rattle.exec_plan.specs.Wellformed.{IsNumbered};
ghost use Rattle.forest_courses.specs.Courses.{IsCourse};
ghost use Rattle.forest_steps.specs.Fresh.{none_given};
ghost use Rattle.forest_steps.specs.Functions.{world_of};
ghost use Rattle.forest_steps.specs.Places.{outputs_in, sizes_in};
ghost use Rattle.forest_steps.specs.Safety.{SafeOf};
ghost use Rattle.forest_run.specs.Asked.{WasAsked};

use crate::ask::ask_all;
use crate::walking::{Course, walk};
use crew::{Attempt, Spot};
use exec_graph::{Roots, count_outputs};
use flume_value::{Pile, Value};
use forest_steps::{Functions, Outputs, Owned, sizes_of};
use outside::{Down, Host};
use std::alloc::{AllocError, Global};

/// Runs the steps on each of the elements in order, on a host. The elements are handed over.
/// Without steps the one output is given all of them at once.
pub fn run_owned<F: Functions, H: Host>(
    alloc: Global,
    functions: &F,
    does: &Option<Roots>,
    elements: Vec<Value>,
    host: &mut H,
    spot: &Spot,
    task: u32,
) -> Result<Attempt<Course>, AllocError>
    requires numbered { IsNumbered does.now }
    requires safe { AllByRecursion (SafeOf (world_of (F.called functions.now))
        (F.can_call functions.now) does.now) elements.items }
    ensures value { IfOk result (MadeHas
        (IsCourse (world_of (F.called functions.now)) does.now elements.items)) }
    ensures asked { WasAsked (attempt_at spot.now task) (length elements.items)
        (H.account host.old) (H.account host.new) result }
{
    match does {
        None => run_whole(alloc, elements, host, spot, task),
        Some(roots) => {
            let (sizes, outputs) = begin(alloc, roots)?;
            let owned = Owned {
                functions,
                sizes: &sizes,
                steps: roots.steps(),
                elements: elements.into_iter(),
            };
            walk(alloc, owned, outputs, host, spot, task)
        }
    }
}

/// What the steps of a task begin with: the table of sizes, and outputs to which nothing was given.
pub fn begin(alloc: Global, roots: &Roots) -> Result<(Vec<usize>, Outputs), AllocError>
    ensures sizes { IfOk result (λ begun. begun.0.items ≡ sizes_in roots.now) }
    ensures fresh { IfOk result (λ begun.
        begun.1 ≡ none_given (next_after 0 roots.now) (outputs_in roots.now)) }
    ensures few { OnOk result (outputs_in roots.now < 2 ^ 64) }
{
    let sizes = sizes_of(alloc, roots)?;
    let outputs = Outputs::new(alloc, count_outputs(alloc, roots)?, sizes.len())?;
    Ok((sizes, outputs))
}

// Without steps the one output is given all elements.
fn run_whole<H: Host>(
    alloc: Global,
    elements: Vec<Value>,
    host: &mut H,
    spot: &Spot,
    task: u32,
) -> Result<Attempt<Course>, AllocError>
    ensures value { (w : World) → IfOk result (MadeHas (IsCourse w None elements.items)) }
    ensures asked { WasAsked (attempt_at spot.now task) (length elements.items)
        (H.account host.old) (H.account host.new) result }
{
    let count = elements.len();
    let given = whole(alloc, elements)?;
    match ask_all(host, spot, task, 0, count as u64 + 1) {
        Ok(()) => Ok(Attempt::Made(Ok(given))),
        Err(Down) => {
            drop(given);
            Ok(Attempt::Down)
        }
    }
}

/// The outputs of a task without steps, whose one output is given all elements.
pub(crate) fn whole(alloc: Global, elements: Vec<Value>) -> Result<Outputs, AllocError>
    ensures lists { IfOk result (λ given. given.lists ≡ elements.items ∷ []) }
    ensures counts { IfOk result (λ given. given.counts ≡ []) }
{
    let mut outputs = Outputs::new(alloc, 1, 0)?;
    outputs.keep(alloc, Some(0), Pile::from_vec(elements))?;
    Ok(outputs)
}
