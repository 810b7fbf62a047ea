// A task whose elements are taken in parts: the host is asked for all of them first, and then part
// after part goes through the steps.
ghost use Rattle.std.specs.Prelude.{◌≡◌, IfOk, OnOk, OnErr, Some, length};
ghost use Rattle.std.specs.List.{AllByRecursion};
ghost use Rattle.crew.specs.Attempts.{Ran, StoppedDown};
ghost use Rattle.crew.specs.Drills.{attempt_at};
ghost use Rattle.exec_graph.specs.Forests.{numbered};
ghost use Rattle.exec_plan.specs.Wellformed.{IsNumbered};
ghost use Rattle.forest_courses.specs.Courses.{IsCourse};
ghost use Rattle.forest_steps.specs.Functions.{world_of};
ghost use Rattle.forest_steps.specs.Safety.{Safe, SafeOf};
ghost use Rattle.forest_steps.specs.Turns.{in_turn};

use crate::ask::ask_all;
use crate::run::{begin, whole};
use crate::walking::Course;
use crew::Spot;
use exec_graph::Roots;
use flume_value::{Value, copy_all};
use forest_steps::{Borrowed, Elements, Functions, Outputs, StepFault};
use outside::{Down, Host};
use std::alloc::{AllocError, Global};

/// Asks the host at the start of an attempt and for each of its elements, in order.
pub fn ask_for<H: Host>(
    elements: &[Value],
    host: &mut H,
    spot: &Spot,
    task: u32,
) -> Result<(), Down>
    ensures all { OnOk result (Ran (attempt_at spot.now task) (length elements.now)
        (H.account host.old) (H.account host.new)) }
    ensures down { OnErr result (StoppedDown (attempt_at spot.now task) (length elements.now)
        (H.account host.old) (H.account host.new)) }
{
    let count = elements.len();
    match ask_all(host, spot, task, 0, count as u64 + 1) {
        Ok(()) => Ok(()),
        Err(Down) => Err(Down),
    }
}

/// Runs the steps on each of these elements in order. The elements stay where they are. Without
/// steps the one output is given copies of them.
pub fn run_part<F: Functions>(
    alloc: Global,
    functions: &F,
    does: &Option<Roots>,
    elements: &[Value],
) -> Result<Course, AllocError>
    requires numbered { IsNumbered does.now }
    requires safe { AllByRecursion (SafeOf (world_of (F.called functions.now))
        (F.can_call functions.now) does.now) elements.now }
    ensures { IfOk result (IsCourse (world_of (F.called functions.now)) does.now elements.now) }
{
    match does {
        None => {
            let copies = copy_all(alloc, elements)?.into_vec();
            Ok(Ok(whole(alloc, copies)?))
        }
        Some(roots) => run_steps(alloc, functions, roots, elements),
    }
}

fn run_steps<F: Functions>(
    alloc: Global,
    functions: &F,
    roots: &Roots,
    elements: &[Value],
) -> Result<Course, AllocError>
    requires numbered { numbered 0 roots.now ≡ roots.now }
    requires safe { AllByRecursion (Safe (world_of (F.called functions.now))
        (F.can_call functions.now) roots.now) elements.now }
    ensures { IfOk result
        (IsCourse (world_of (F.called functions.now)) (Some roots.now) elements.now) }
{
    let (sizes, outputs) = begin(alloc, roots)?;
    let borrowed = Borrowed {
        functions,
        sizes: &sizes,
        steps: roots.steps(),
        elements,
    };
    go_through(alloc, borrowed, outputs)
}

// Takes elements through their steps, one after another, up to the first trap.
fn go_through<E: Elements + Drop>(
    alloc: Global,
    mut elements: E,
    mut outputs: Outputs,
) -> Result<Course, AllocError>
    requires { E.are_safe elements }
    ensures { IfOk result (λ end. in_turn (E.turns elements) outputs ≡ end) }
{
    let count = elements.count();
    for _place in 0..count {
        match elements.step(alloc, &mut outputs) {
            Ok(()) => {}
            Err(fault) => {
                drop(outputs);
                return match fault {
                    StepFault::Trap(trap) => Ok(Err(trap)),
                    StepFault::Memory => Err(AllocError),
                };
            }
        }
    }
    Ok(Ok(outputs))
}
