// What each command writes of a script, or why it writes nothing.
ghost use Rattle.std.specs.Prelude.{◌≡◌, ◌≤◌, ◌<◌, ◌++◌, [], IfErr, IfOk, codes, drop, length, map};
ghost use Rattle.std.specs.List.{AllZip};
ghost use Rattle.command_words.specs.declared.words.Command.TheVariants.{Direct, Run};
ghost use Rattle.crew.specs.Hosts.{Grew};
ghost use Rattle.script_loading.specs.of_direct_meaning.Inputs.{inputs_of};
ghost use Rattle.outside.specs.Saves.{output_file};
ghost use Rattle.run_course.specs.Asked as spec;
ghost use Rattle.run_course.specs.Asks.{files_behind, plan_file};
ghost use Rattle.run_course.specs.Lent.{lends};
ghost use Rattle.run_course.specs.Written.{ShowsPlan, Writes, WritesMeaning, WritesRun};
ghost use Rattle.script_loading.specs.Loads.{file_names};
ghost use Rattle.script_program.specs.Saved.{HasNoSaved};
ghost use Rattle.run_course.specs.inner.Course.{AsksHostsUntil, AsksUntil, IsCommandStop, IsMeaningStop};

use crate::evaluation::written_meaning;
use crate::files::Written;
use crate::limits::TRIES;
use crate::plans::plan_for;
use crate::running::written_run;
use crate::showing::shown;
use crate::stop::Stop;
use command_words::{Command, PlanForm};
use outside::{FileName, Host, Source};
use run_settings::Settings;
use script_loading::{ReadyProgram, rows_of_inputs};
use std::alloc::{AllocError, Global};
use std::thread::Threads;

/// How often a file is loaded for a command before the source's failure is the answer.
pub fn tries_of(command: &Command) -> u32
    ensures value { result ≡ spec.tries_of command.now }
    ensures some { 0 < result }
{
    match command {
        Command::Run(settings, _) => settings.tries(),
        _ => TRIES,
    }
}

/// What a command writes of a script, or why it writes nothing. A run is lent the first hosts.
#[tactic(auto, using(crew::proofs::Accounts::all_grew_not))]
pub fn carried_out<X: Threads + Sync, R: Source, H: Host + Send>(
    rt: &X,
    alloc: Global,
    command: &Command,
    program: &ReadyProgram,
    source: &mut R,
    hosts: &mut [H],
) -> Result<Written, Stop>
    requires written { HasNoSaved program.now.script }
    requires sixteen { length hosts.old ≡ 16 }
    ensures written { IfOk result (λ it. Writes command.now (R.seen source.old).files
        (map H.account hosts.old) (map H.account hosts.new)
        program.now.script (map output_file it.outputs.items) it.screen.items) }
    ensures stop { IfErr result (IsCommandStop command.now (R.seen source.old) (R.seen source.new)
        (map H.account hosts.old) (map H.account hosts.new) program.now.script) }
    ensures asked { AsksUntil (spec.tries_of command.now)
        (files_behind command.now program.now.script)
        (R.seen source.old) (R.seen source.new) result }
    ensures asked_hosts { AsksHostsUntil command.now (R.seen source.old).files program.now.script
        (map H.account hosts.old) (map H.account hosts.new) result }
    ensures files { (R.seen source.new).files ≡ (R.seen source.old).files }
    ensures later { (R.seen source.old).faults ≤ (R.seen source.new).faults }
    ensures grew { AllZip Grew (map H.account hosts.old) (map H.account hosts.new) }
    ensures hosts { drop (lends command.now) hosts.new ≡ drop (lends command.now) hosts.old }
{
    match command {
        Command::Check => Ok(accepted(alloc)?),
        Command::Plan(form) => Ok(planned(alloc, program, *form)?),
        Command::Direct => meant(rt, alloc, program, source),
        Command::Run(settings, from) => run_on(rt, alloc, program, source, hosts, settings, from),
    }
}

// What `check` writes of a script that is accepted.
fn accepted(alloc: Global) -> Result<Written, AllocError>
    ensures files { IfOk result (λ it. map output_file it.outputs.items ≡ []) }
    ensures text { IfOk result (λ it. it.screen.items ≡ codes "ok\n") }
{
    Ok(Written {
        outputs: Vec::new(alloc),
        screen: Vec::from_slice(alloc, b"ok\n")?,
    })
}

// What `plan` writes of a script.
fn planned(alloc: Global, program: &ReadyProgram, form: PlanForm) -> Result<Written, AllocError>
    ensures files { IfOk result (λ it. map output_file it.outputs.items ≡ []) }
    ensures text { IfOk result (λ it. ShowsPlan form program.now.script it.screen.items) }
{
    let screen = shown(alloc, program, form)?;
    Ok(Written {
        outputs: Vec::new(alloc),
        screen,
    })
}

// What the meaning of a script writes.
fn meant<X: Threads + Sync, R: Source>(
    rt: &X,
    alloc: Global,
    program: &ReadyProgram,
    source: &mut R,
) -> Result<Written, Stop>
    requires written { HasNoSaved program.now.script }
    ensures written { IfOk result (λ it. WritesMeaning (R.seen source.old).files program.now.script
        [] (map output_file it.outputs.items) it.screen.items) }
    ensures stop { IfErr result (IsMeaningStop (R.seen source.old)
        (R.seen source.new) program.now.script) }
    ensures asked { AsksUntil (spec.tries_of Direct) (files_behind Direct program.now.script)
        (R.seen source.old) (R.seen source.new) result }
    ensures files { (R.seen source.new).files ≡ (R.seen source.old).files }
    ensures later { (R.seen source.old).faults ≤ (R.seen source.new).faults }
{
    let inputs = rows_of_inputs(rt, alloc, program, source, TRIES, 1)?;
    written_meaning(alloc, program, inputs)
}

// What a run writes, with the script's graph and the plan that is run first.
#[tactic(auto, using(crew::proofs::Accounts::all_grew_not))]
fn run_on<X: Threads + Sync, R: Source, H: Host + Send>(
    rt: &X,
    alloc: Global,
    program: &ReadyProgram,
    source: &mut R,
    hosts: &mut [H],
    settings: &Settings,
    from: &Option<FileName>,
) -> Result<Written, Stop>
    requires written { HasNoSaved program.now.script }
    requires sixteen { length hosts.old ≡ 16 }
    ensures written { IfOk result (λ it. WritesRun settings.now from.now (R.seen source.old).files
        (map H.account hosts.old) (map H.account hosts.new)
        program.now.script (map output_file it.outputs.items) it.screen.items) }
    ensures stop { IfErr result (IsCommandStop (Run settings.now from.now) (R.seen source.old)
        (R.seen source.new) (map H.account hosts.old) (map H.account hosts.new)
        program.now.script) }
    ensures asked { AsksUntil settings.now.tries
        (file_names (inputs_of program.now.script) ++ plan_file from.now)
        (R.seen source.old) (R.seen source.new) result }
    ensures asked_hosts { AsksHostsUntil (Run settings.now from.now) (R.seen source.old).files
        program.now.script (map H.account hosts.old) (map H.account hosts.new) result }
    ensures files { (R.seen source.new).files ≡ (R.seen source.old).files }
    ensures later { (R.seen source.old).faults ≤ (R.seen source.new).faults }
    ensures grew { AllZip Grew (map H.account hosts.old) (map H.account hosts.new) }
    ensures hosts { drop settings.now.workers hosts.new ≡ drop settings.now.workers hosts.old }
{
    let tries = settings.tries();
    let threads = settings.workers() as usize;
    let inputs = rows_of_inputs(rt, alloc, program, source, tries, threads)?;
    let shown = plan_for(alloc, program, from, source, tries)?;
    written_run(rt, alloc, program, shown, inputs, hosts, settings)
}
