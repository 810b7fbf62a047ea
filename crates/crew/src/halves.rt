// Several workers, forked and joined over halves.
ghost use Rattle.std.specs.Prelude.{◌≡◌, ◌++◌, length, map, IfOk, IsOkAnd};
ghost use Rattle.std.specs.List.{AllZip};
ghost use Rattle.std.specs.Thread.{IsSync, IsSend};
ghost use Rattle.claim_board.specs.Boards.{AreOfBoard};
ghost use Rattle.crew.specs.Hosts.{Grew};
ghost use Rattle.crew.specs.Workers.{CanStart, AllTook, Phased};

use crate::kept::Kept;
use crate::settings::PhaseSettings;
use crate::tasks::Tasks;
use crate::worker::work;
use claim_board::{Board, Pass};
use outside::Host;
use std::alloc::{AllocError, Global};
use std::thread::{Threads, join_mut};

/// Works on a board with all its passes: each host with the pass at its place, side by side, until
/// no pass has a draw left.
///
/// It keeps the outs of the draws that won. The winners are the board's: whoever made it closes it,
/// with these passes.
// Halves of the hosts run side by side: where no thread can be started `join_mut` runs both here.
#[cycle(halves)]
pub fn work_all<R: Threads + Sync, T: Tasks, H: Host + Send>(
    rt: &R,
    alloc: &Global,
    board: &Board,
    tasks: &T,
    phase: &PhaseSettings<'_>,
    hosts: &mut [H],
    passes: &mut [Pass],
) -> Result<Kept<T::Out>, AllocError>
    requires start { CanStart board.now (T.count_of tasks.now) phase.now.tries
        (length hosts.old) passes.old }
    ensures same { AreOfBoard board.now passes.new }
    ensures grew { AllZip Grew (map H.account hosts.old) (map H.account hosts.new) }
    ensures asked { AllTook (T.count_of tasks.now) phase.now (T.places tasks.now) passes.new
        (map H.account hosts.old) (map H.account hosts.new) }
    ensures phased { IfOk result (Phased (T.count_of tasks.now) phase.now (T.is_value tasks.now)
        (T.places tasks.now) passes.new (map H.account hosts.old) (map H.account hosts.new)) }
{
    if passes.len() == 1 {
        return work_alone(alloc, board, tasks, phase, hosts, passes);
    }
    let half = passes.len() / 2;
    let (first_hosts, last_hosts) = hosts.split_at_mut(half);
    let (first_passes, last_passes) = passes.split_at_mut(half);
    both_halves(
        rt,
        alloc,
        board,
        tasks,
        phase,
        first_hosts,
        first_passes,
        last_hosts,
        last_passes,
    )
}

#[cycle(halves)]
fn both_halves<R: Threads + Sync, T: Tasks, H: Host + Send>(
    rt: &R,
    alloc: &Global,
    board: &Board,
    tasks: &T,
    phase: &PhaseSettings<'_>,
    first_hosts: &mut [H],
    first_passes: &mut [Pass],
    last_hosts: &mut [H],
    last_passes: &mut [Pass],
) -> Result<Kept<T::Out>, AllocError>
    requires first { CanStart board.now (T.count_of tasks.now) phase.now.tries
        (length first_hosts.old) first_passes.old }
    requires last { CanStart board.now (T.count_of tasks.now) phase.now.tries
        (length last_hosts.old) last_passes.old }
    ensures same { AreOfBoard board.now first_passes.new × AreOfBoard board.now last_passes.new }
    ensures first { AllZip Grew (map H.account first_hosts.old) (map H.account first_hosts.new) }
    ensures last { AllZip Grew (map H.account last_hosts.old) (map H.account last_hosts.new) }
    ensures first_asked { AllTook (T.count_of tasks.now) phase.now (T.places tasks.now)
        first_passes.new (map H.account first_hosts.old) (map H.account first_hosts.new) }
    ensures last_asked { AllTook (T.count_of tasks.now) phase.now (T.places tasks.now)
        last_passes.new (map H.account last_hosts.old) (map H.account last_hosts.new) }
    ensures phased { IfOk result (Phased (T.count_of tasks.now) phase.now (T.is_value tasks.now)
        (T.places tasks.now) (first_passes.new ++ last_passes.new)
        (map H.account first_hosts.old ++ map H.account last_hosts.old)
        (map H.account first_hosts.new ++ map H.account last_hosts.new)) }
{
    let mut front = || -> Result<Kept<T::Out>, AllocError>
        requires { IsSync R.row × IsSync T.row × IsSend H.row × IsSend T.Out.row
            × CanStart board.now (T.count_of tasks.now) phase.now.tries
            (length first_hosts.now) first_passes.now }
        ensures { AreOfBoard board.entry.now first_passes.exit.now × AllZip Grew
            (map H.account first_hosts.entry.now) (map H.account first_hosts.exit.now) × AllTook
            (T.count_of tasks.entry.now) phase.entry.now (T.places tasks.entry.now)
            first_passes.exit.now (map H.account first_hosts.entry.now)
            (map H.account first_hosts.exit.now) × IfOk result (Phased (T.count_of tasks.entry.now)
            phase.entry.now (T.is_value tasks.entry.now) (T.places tasks.entry.now)
            first_passes.exit.now (map H.account first_hosts.entry.now)
            (map H.account first_hosts.exit.now)) }
    { work_all(rt, alloc, board, tasks, phase, first_hosts, first_passes) };
    let mut back = || -> Result<Kept<T::Out>, AllocError>
        requires { IsSync R.row × IsSync T.row × IsSend H.row × IsSend T.Out.row
            × CanStart board.now (T.count_of tasks.now) phase.now.tries
            (length last_hosts.now) last_passes.now }
        ensures { AreOfBoard board.entry.now last_passes.exit.now × AllZip Grew
            (map H.account last_hosts.entry.now) (map H.account last_hosts.exit.now) × AllTook
            (T.count_of tasks.entry.now) phase.entry.now (T.places tasks.entry.now)
            last_passes.exit.now (map H.account last_hosts.entry.now)
            (map H.account last_hosts.exit.now) × IfOk result (Phased (T.count_of tasks.entry.now)
            phase.entry.now (T.is_value tasks.entry.now) (T.places tasks.entry.now)
            last_passes.exit.now (map H.account last_hosts.entry.now)
            (map H.account last_hosts.exit.now)) }
    { work_all(rt, alloc, board, tasks, phase, last_hosts, last_passes) };
    let (first, last) = join_mut(rt, &mut front, &mut back);
    both_kept(first, last)
}

// What both halves keep, the outs of the last behind those of the first.
fn both_kept<O: Drop>(
    first: Result<Kept<O>, AllocError>,
    last: Result<Kept<O>, AllocError>,
) -> Result<Kept<O>, AllocError>
    ensures { IfOk result (λ all.
        IsOkAnd first (λ one. IsOkAnd last (λ other. all ≡ one ++ other))) }
{
    let mut all = first?;
    let rest = last?;
    all.append(rest)?;
    Ok(all)
}

// One host, with one pass.
fn work_alone<T: Tasks, H: Host>(
    alloc: &Global,
    board: &Board,
    tasks: &T,
    phase: &PhaseSettings<'_>,
    hosts: &mut [H],
    passes: &mut [Pass],
) -> Result<Kept<T::Out>, AllocError>
    requires start { CanStart board.now (T.count_of tasks.now) phase.now.tries
        (length hosts.old) passes.old }
    requires one { length passes.old ≡ 1 }
    ensures same { AreOfBoard board.now passes.new }
    ensures grew { AllZip Grew (map H.account hosts.old) (map H.account hosts.new) }
    ensures asked { AllTook (T.count_of tasks.now) phase.now (T.places tasks.now) passes.new
        (map H.account hosts.old) (map H.account hosts.new) }
    ensures phased { IfOk result (Phased (T.count_of tasks.now) phase.now (T.is_value tasks.now)
        (T.places tasks.now) passes.new (map H.account hosts.old) (map H.account hosts.new)) }
{
    work(*alloc, board, &mut passes[0], tasks, &mut hosts[0], phase)
}
