// A phase: all its tasks, by all its workers.
ghost use Rattle.std.specs.Prelude.{◌≡◌, ◌≢◌, ℕ, ◌*◌, ◌^◌, ◌<◌, ◌≤◌, length, map, slice_index, IfOk, IfErr, IfSome, IfNone};
ghost use Rattle.std.specs.List.{AllZip};
ghost use Rattle.crew.specs.Hosts.{Grew};
ghost use Rattle.crew.specs.Phases.{AreAskedOnce, CanFinish, Settled, IsPhaseFault, IsMemory};

use crate::halves::work_all;
use crate::kept::Kept;
use crate::settings::PhaseSettings;
use crate::tasks::Tasks;
use claim_board::{Board, Tally, protocol_laws};
use outside::Host;
use std::alloc::{AllocError, Global};
use std::thread::Threads;

/// Why a phase has no out of some task.
#[derive(Drop)]
pub enum PhaseFault<O> {
    /// The least task of which no attempt has won: each try was in the drill, or its host was
    /// down. The smaller tasks have an out each, in order.
    GaveUp {
        /// The task.
        task: u32,
        /// The outs of the smaller tasks.
        below: Kept<O>,
    },
    /// Want of memory.
    Memory,
}

impl<O> From<AllocError> for PhaseFault<O> {
    ghost use Rattle.std.specs.Prelude.{◌≡◌};
    ghost use Rattle.crew.specs.declared.phase.PhaseFault.TheVariants.{Memory};

    ghost from_gives = { λ _ e. e ≡ Memory };

    fn from(_e: AllocError) -> PhaseFault<O> {
        PhaseFault::Memory
    }
}

/// Runs all tasks of a phase, each host with a worker of its own, side by side: `work_all` over a
/// board that is closed behind it.
///
/// It gives the out of each task, in order, or names the least task that no attempt has won. The
/// workers wait for one another's end alone.
pub fn run_phase<R: Threads + Sync, T: Tasks, H: Host + Send>(
    rt: &R,
    alloc: Global,
    tasks: &T,
    hosts: &mut [H],
    phase: &PhaseSettings<'_>,
) -> Result<Kept<T::Out>, PhaseFault<T::Out>>
    requires tasks { 0 < T.count_of tasks.now }
    requires tries { (0 < phase.now.tries) × (phase.now.tries ≤ 8) }
    requires hosts { (0 < length hosts.old) × (length hosts.old ≤ 16) }
    requires limit { T.count_of tasks.now * phase.now.tries < 2 ^ 31 }
    ensures grew { AllZip Grew (map H.account hosts.old) (map H.account hosts.new) }
    ensures asked { AreAskedOnce (T.count_of tasks.now) phase.now (T.places tasks.now)
        (map H.account hosts.old) (map H.account hosts.new) }
    ensures settled { IfOk result (Settled (T.count_of tasks.now) phase.now (T.is_value tasks.now)
        (T.places tasks.now) (map H.account hosts.old) (map H.account hosts.new)) }
    ensures fault { IfErr result (IsPhaseFault (T.count_of tasks.now) phase.now
        (T.is_value tasks.now) (T.places tasks.now)
        (map H.account hosts.old) (map H.account hosts.new)) }
    ensures complete { CanFinish (T.count_of tasks.now) phase.now (map H.account hosts.old)
        (map H.account hosts.new) → IfErr result IsMemory }
{
    let count = tasks.count();
    let (board, mut passes) = Board::new(alloc, count, phase.tries(), hosts.len() as u32)?;
    let worked = work_all(
        rt,
        &alloc,
        &board,
        tasks,
        phase,
        hosts,
        passes.as_mut_slice(),
    );
    let tally = board.close(passes);
    protocol_laws();
    let kept = worked?;
    match first_without_winner(&tally, count) {
        Some(task) => Err(PhaseFault::GaveUp {
            task,
            below: kept.below(task).in_order(),
        }),
        None => Ok(kept.in_order()),
    }
}

// The least task that no attempt has won.
fn first_without_winner(tally: &Tally, count: u32) -> Option<u32>
    requires { count ≡ length tally.now.winners }
    ensures none { IfNone result ((t : ℕ) → t < count → slice_index tally.now.winners t ≢ 0) }
    ensures some { IfSome result (λ task. (task < count) × (slice_index tally.now.winners task ≡ 0)
        × ((t : ℕ) → t < task → slice_index tally.now.winners t ≢ 0)) }
{
    for task in 0..count {
        if tally.winner(task) == 0 {
            return Some(task);
        }
    }
    None
}
