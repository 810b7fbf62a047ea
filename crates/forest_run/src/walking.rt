// One walk over the elements of a task, on a host.
ghost use Rattle.std.specs.Prelude.{◌≡◌, ◌+◌, ◌≤◌, IfOk, length};
ghost use Rattle.crew.specs.Attempts.{MadeHas};
ghost use Rattle.crew.specs.Drills.{attempt_at};
ghost use Rattle.forest_steps.specs.Turns.{in_turn};
ghost use Rattle.forest_run.specs.Asked.{WasAsked};
ghost use Rattle.forest_run.specs.inner.Ends.{IsRest};

use crate::ask::ask_all;
use crew::{Attempt, Spot};
use flume_collection::Trap;
use forest_steps::{Elements, Outputs, StepFault};
use outside::{Down, Host};
use std::alloc::{AllocError, Global};

/// What a task's elements come to: what the outputs of the steps are given, or the first trap.
pub type Course = Result<Outputs, Trap>;

/// Takes elements through their steps, one after another, on a host, which is asked at the start
/// and before each element, and also where an earlier element traps.
pub fn walk<E: Elements + Drop, H: Host>(
    alloc: Global,
    mut elements: E,
    mut outputs: Outputs,
    host: &mut H,
    spot: &Spot,
    task: u32,
) -> Result<Attempt<Course>, AllocError>
    requires { E.are_safe elements }
    ensures value { IfOk result (MadeHas (λ end. in_turn (E.turns elements) outputs ≡ end)) }
    ensures asked { WasAsked (attempt_at spot.now task) (length (E.turns elements))
        (H.account host.old) (H.account host.new) result }
{
    match ask_all(host, spot, task, 0, 1) {
        Ok(()) => {}
        Err(Down) => {
            drop(outputs);
            return Ok(Attempt::Down);
        }
    }
    let end = elements.count() as u64 + 1;
    for place in 1..end {
        match ask_all(host, spot, task, place, place + 1) {
            Ok(()) => {}
            Err(Down) => {
                drop(outputs);
                return Ok(Attempt::Down);
            }
        }
        match elements.step(alloc, &mut outputs) {
            Ok(()) => {}
            Err(fault) => {
                drop(outputs);
                return match fault {
                    StepFault::Trap(trap) => { Ok(trapped(host, spot, task, place + 1, end, trap)) }
                    StepFault::Memory => Err(AllocError),
                };
            }
        }
    }
    Ok(Attempt::Made(Ok(outputs)))
}

// The end of a task after its first trap: the host is asked for the places that are left, from
// `from` on below `to`, one by one, and the task ends by the trap, or with a host that was down.
fn trapped<H: Host>(
    host: &mut H,
    spot: &Spot,
    task: u32,
    from: u64,
    to: u64,
    trap: Trap,
) -> Attempt<Course>
    requires { from ≤ to }
    ensures { IsRest (attempt_at spot.now task) trap from to
        (H.account host.old) (H.account host.new) result }
{
    match ask_all(host, spot, task, from, to) {
        Ok(()) => Attempt::Made(Err(trap)),
        Err(Down) => {
            drop(trap);
            Attempt::Down
        }
    }
}
