// A phase of a stage, and its winners.
ghost use Rattle.std.specs.Prelude.{◌≡◌, ◌*◌, ◌^◌, ◌<◌, ◌≤◌, ◌∷◌, ◌++◌, [], length, map, IfOk, OnOk};
ghost use Rattle.std.specs.List.{AllZip};
ghost use Rattle.crew.specs.Hosts.{Grew};
ghost use Rattle.exec_graph.specs.World.{World};
ghost use Rattle.plan_phases.specs.Phases.{OfTasks, PhaseTasks};
ghost use Rattle.stage_phases.specs.Runs.{HaveEnded};
ghost use Rattle.stage_phases.specs.inner.Tasks.{AreValues, IsPhaseOf, fault_at};

use crew::{PhaseSettings, Tasks};
use flume_collection::Trap;
use flume_value::Pile;
use outside::{Host, Phase};
use phase_outs::{PhaseStop, run_to_end};
use plan_phases::{PhaseWinners, RunFault};
use std::alloc::{AllocError, Global};
use std::thread::Threads;

/// Runs a phase to its end: what its tasks have made, in order. It tells the winners behind those
/// of earlier phases.
pub(crate) fn outs_of<
    R: Threads + Sync,
    O: Send + Drop,
    T: Tasks<Out = Result<O, Trap>>,
    H: Host + Send,
>(
    rt: &R,
    alloc: Global,
    tasks: &T,
    hosts: &mut [H],
    phase: &PhaseSettings<'_>,
    winners: &mut Vec<PhaseWinners>,
) -> Result<Vec<O>, RunFault>
    requires tasks { 0 < T.count_of tasks.now }
    requires tries { (0 < phase.now.tries) × (phase.now.tries ≤ 8) }
    requires hosts { (0 < length hosts.old) × (length hosts.old ≤ 16) }
    requires limit { T.count_of tasks.now * phase.now.tries < 2 ^ 31 }
    ensures grew { AllZip Grew (map H.account hosts.old) (map H.account hosts.new) }
    ensures values { IfOk result (λ outs.
        AreValues (T.count_of tasks.now) (T.is_value tasks.now) outs.items) }
    ensures ended { (w : World) (ph : PhaseTasks) → IsPhaseOf w ph phase.now
        (T.count_of tasks.now) (T.is_value tasks.now) (T.places tasks.now) → HaveEnded
        phase.now.tries phase.now.drill w (OfTasks ph ∷ []) (map H.account hosts.old)
        (map H.account hosts.new) winners.old.items winners.new.items result }
{
    match run_to_end(rt, alloc, tasks, hosts, phase) {
        Ok(made) => {
            tell(phase, made.attempts, winners)?;
            Ok(made.outs)
        }
        Err(stop) => Err(fault_at(phase.stage(), phase.phase(), stop)),
    }
}

// Tells the winners of the phase behind the others.
fn tell(
    phase: &PhaseSettings<'_>,
    attempts: Vec<u32>,
    winners: &mut Vec<PhaseWinners>,
) -> Result<(), AllocError>
    ensures { OnOk result (winners.new.items ≡ winners.old.items ++ (record {
      stage = phase.now.stage;
      phase = phase.now.phase;
      attempts = attempts.items;
    } ∷ [])) }
{
    winners.push(PhaseWinners {
        stage: phase.stage(),
        phase: phase.phase(),
        attempts: Pile::from_vec(attempts),
    })?;
    Ok(())
}

// Why the run stops where a phase does.
fn fault_at(stage: u32, phase: Phase, stop: PhaseStop) -> RunFault
    ensures { result ≡ fault_at stage phase stop }
{
    match stop {
        PhaseStop::Trap { task: _, trap } => RunFault::Trap(trap),
        PhaseStop::GaveUp { task } => RunFault::GaveUp { stage, phase, task },
        PhaseStop::Memory => RunFault::Memory,
    }
}
