// The course of `make`: every growth comes first, then the files, then the screen.
ghost use Rattle.std.specs.Prelude.{◌≡◌, ◌≤◌, IfErr, IfOk, Some, codes, drop, length, map, slice_get};
ghost use Rattle.std.specs.List.{AllZip};
ghost use Rattle.command_words.specs.Workloads.{IsWithinLimits};
ghost use Rattle.crew.specs.Hosts.{Grew};
ghost use Rattle.made_course.specs.Files.{files_for, line_for, sums_for};
ghost use Rattle.made_course.specs.Makes.{Makes};
ghost use Rattle.made_course.specs.Runs.{AsksHosts, WasSummed};
ghost use Rattle.made_course.specs.inner.Stops.{IsStop};
ghost use Rattle.made_rows.specs.Rows.{made_text};
ghost use Rattle.made_rows.specs.Sums.{sums_script};
ghost use Rattle.outside.specs.Saves.{output_file};
ghost use Rattle.outside.specs.Seen.{SeenSource};
ghost use Rattle.run_course.specs.Outside.{world};
ghost use Rattle.run_settings.specs.Settings.{standard};

use crate::summing::{sums_ready, sums_run};
use command_words::Workload;
use flume_value::Items;
use made_rows::{made_total, text_made};
use outside::{FileName, Host, Output, Screen, Shelf};
use plan_phases::RunFault;
use run_course::script_loading::ReadyProgram;
use run_course::script_run::Ran;
use run_course::{Written, deliver, file_of};
use run_texts::{Status, made_line, tell};
use std::alloc::{AllocError, Global};
use std::thread::Threads;

/// Writes a made input and its sums, and answers how that ended. Its run is lent the first hosts.
/// The source of a call, whatever it is, is asked for nothing.
pub fn make<X: Threads + Sync, H: Host + Send, K: Shelf, P: Screen>(
    rt: &X,
    alloc: Global,
    workload: Workload,
    hosts: &mut [H],
    shelf: &mut K,
    screen: &mut P,
) -> Status
    requires within { IsWithinLimits workload }
    requires sixteen { length hosts.old ≡ 16 }
    ensures promises { (source : SeenSource) → Makes workload
        (world source (K.seen shelf.old) (P.seen screen.old) (map H.account hosts.old))
        (world source (K.seen shelf.new) (P.seen screen.new) (map H.account hosts.new)) result }
    ensures hosts { drop standard.workers hosts.new ≡ drop standard.workers hosts.old }
{
    match prepare(rt, alloc, workload, hosts) {
        Ok(written) => deliver(written, shelf, screen),
        Err(status) => {
            tell(screen, &status);
            status
        }
    }
}

// Does all but the writing. Every growth of a call is here.
#[tactic(auto, using(crew::proofs::Accounts::all_grew_not))]
fn prepare<X: Threads + Sync, H: Host + Send>(
    rt: &X,
    alloc: Global,
    workload: Workload,
    hosts: &mut [H],
) -> Result<Written, Status>
    requires within { IsWithinLimits workload }
    requires sixteen { length hosts.old ≡ 16 }
    ensures files { IfOk result (λ it. map output_file it.outputs.items ≡ files_for workload) }
    ensures line { IfOk result (λ it. it.screen.items ≡ line_for workload) }
    ensures ran { IfOk result (λ it. WasSummed workload
        (map H.account hosts.old) (map H.account hosts.new)) }
    ensures stop { IfErr result (IsStop workload (map H.account hosts.old)
        (map H.account hosts.new)) }
    ensures asked { AsksHosts workload (map H.account hosts.old) (map H.account hosts.new) }
    ensures grew { AllZip Grew (map H.account hosts.old) (map H.account hosts.new) }
    ensures hosts { drop standard.workers hosts.new ≡ drop standard.workers hosts.old }
{
    let program = sums_ready(alloc)?;
    match sums_run(rt, alloc, &program, workload, hosts) {
        Ok(ran) => {
            let sums = first_of(outputs_of(ran));
            let written = written_out(alloc, &program, workload, &sums);
            program.let_go();
            let out = written?;
            Ok(out)
        }
        Err(fault) => {
            program.let_go();
            match fault {
                RunFault::GaveUp { stage, phase, task } => {
                    Err(Status::GaveUp { stage, phase, task })
                }
                RunFault::Memory => Err(Status::WantOfMemory),
                RunFault::Trap(_) => unreachable!(),
            }
        }
    }
}

// The lists that a run has made. It takes no memory.
fn outputs_of(ran: Ran) -> Vec<Items>
    ensures { result.items ≡ ran.outputs.items }
{
    let Ran {
        outputs,
        sizes: _,
        winners: _,
    } = ran;
    outputs
}

// The first of some lists. It takes no memory.
fn first_of(mut lists: Vec<Items>) -> Items
    requires { 1 ≤ length lists.items }
    ensures { slice_get lists.items 0 ≡ Some result }
{
    lists.swap_remove(0)
}

// The two files, and the line of the screen.
fn written_out(
    alloc: Global,
    program: &ReadyProgram,
    workload: Workload,
    sums: &Items,
) -> Result<Written, AllocError>
    requires within { IsWithinLimits workload }
    requires script { program.now.script ≡ sums_script }
    requires sums { sums.now ≡ sums_for workload }
    ensures files { IfOk result (λ it. map output_file it.outputs.items ≡ files_for workload) }
    ensures line { IfOk result (λ it. it.screen.items ≡ line_for workload) }
{
    let Workload { start, rows } = workload;
    let screen = made_line(alloc, rows, sums.len(), made_total(start, rows))?;
    let mut outputs = Vec::new(alloc);
    outputs.push(made_file(alloc, workload)?)?;
    outputs.push(file_of(alloc, program, 0, sums.as_slice())?)?;
    Ok(Written { outputs, screen })
}

// The file of the made input.
fn made_file(alloc: Global, workload: Workload) -> Result<Output, AllocError>
    requires { IsWithinLimits workload }
    ensures { IfOk result (λ file. output_file file ≡ record {
      name = codes "made.csv";
      bytes = made_text workload.start workload.rows;
    }) }
{
    let text = text_made(alloc, workload.start, workload.rows)?;
    Ok(Output {
        name: FileName::new(alloc, "made.csv")?,
        text,
    })
}
