// A phase, run to its end.
ghost use Rattle.std.specs.Prelude.{◌≡◌, ◌*◌, ◌^◌, ◌<◌, ◌≤◌, length, map, IfOk, IfErr};
ghost use Rattle.std.specs.List.{AllZip};
ghost use Rattle.crew.specs.Hosts.{Grew};
ghost use Rattle.crew.specs.Phases.{AreAskedOnce};
ghost use Rattle.phase_outs.specs.Outs.{HaveMadeOuts, IsStop};

use crate::made::{PhaseOuts, made_outs};
use crate::stop::PhaseStop;
use crew::{PhaseFault, PhaseSettings, Tasks, run_phase};
use flume_collection::Trap;
use outside::Host;
use std::alloc::Global;
use std::thread::Threads;

/// Runs all tasks of a phase, and gives what they have made, in order, or why the phase stopped.
pub fn run_to_end<
    R: Threads + Sync,
    O: Send + Drop,
    T: Tasks<Out = Result<O, Trap>>,
    H: Host + Send,
>(
    rt: &R,
    alloc: Global,
    tasks: &T,
    hosts: &mut [H],
    phase: &PhaseSettings<'_>,
) -> Result<PhaseOuts<O>, PhaseStop>
    requires tasks { 0 < T.count_of tasks.now }
    requires tries { (0 < phase.now.tries) × (phase.now.tries ≤ 8) }
    requires hosts { (0 < length hosts.old) × (length hosts.old ≤ 16) }
    requires limit { T.count_of tasks.now * phase.now.tries < 2 ^ 31 }
    ensures grew { AllZip Grew (map H.account hosts.old) (map H.account hosts.new) }
    ensures asked { AreAskedOnce (T.count_of tasks.now) phase.now (T.places tasks.now)
        (map H.account hosts.old) (map H.account hosts.new) }
    ensures made { IfOk result (HaveMadeOuts (T.count_of tasks.now) phase.now (T.is_value tasks.now)
        (T.places tasks.now) (map H.account hosts.old) (map H.account hosts.new)) }
    ensures stop { IfErr result (IsStop (T.count_of tasks.now) phase.now (T.is_value tasks.now)
        (T.places tasks.now) (map H.account hosts.old) (map H.account hosts.new)) }
{
    match run_phase(rt, alloc, tasks, hosts, phase) {
        Ok(outs) => made_outs(alloc, outs.into_vec()),
        Err(PhaseFault::GaveUp { task, below }) => {
            made_outs(alloc, below.into_vec())?;
            Err(PhaseStop::GaveUp { task })
        }
        Err(PhaseFault::Memory) => Err(PhaseStop::Memory),
    }
}
