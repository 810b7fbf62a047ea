// What the run of a plan of a script writes, or why it writes nothing.
ghost use Rattle.std.specs.Prelude.{◌≡◌, ◌++◌, IfErr, IfOk, codes, drop, length, map};
ghost use Rattle.std.specs.List.{AllZip};
ghost use Rattle.crew.specs.Hosts.{Grew};
ghost use Rattle.script_loading.specs.of_direct_meaning.Inputs.{AreInputs};
ghost use Rattle.outside.specs.Saves.{output_file};
ghost use Rattle.run_texts.specs.Texts.{size_lines};
ghost use Rattle.script_run.specs.Runs.{AsksSomePhases, IsPlanOf, IsRan, IsRunFault, phases_of};
ghost use Rattle.run_course.specs.Lent.{lent};
ghost use Rattle.run_course.specs.Written.{AllTasksRan};
ghost use Rattle.run_course.specs.inner.Course.{GivesFiles, IsRunStop, files_with};

use crate::files::{Written, file_of, trapped, with_sizes};
use crate::showing::ShownPlan;
use crate::stop::Stop;
use exec_plan::Plan;
use flume_value::{Items, Pile};
use outside::{Host, Output};
use plan_phases::RunFault;
use run_settings::Settings;
use run_texts::Status;
use script_loading::ReadyProgram;
use script_run::{Ran, run_script};
use std::alloc::{AllocError, Global};
use std::thread::Threads;

/// What the run of a plan of a script writes over the rows of its inputs, with the plan's text
/// first.
pub fn written_run<X: Threads + Sync, H: Host + Send>(
    rt: &X,
    alloc: Global,
    program: &ReadyProgram,
    shown: ShownPlan,
    inputs: Pile<Items>,
    hosts: &mut [H],
    settings: &Settings,
) -> Result<Written, Stop>
    requires typed { AreInputs program.now.script inputs }
    requires of_script { IsPlanOf program.now.script shown.plan }
    requires sixteen { length hosts.old ≡ 16 }
    ensures written { IfOk result (λ it. GivesFiles program.now.script inputs shown.text.items
        (map output_file it.outputs.items) it.screen.items) }
    ensures ran { IfOk result (λ it. AllTasksRan settings.now program.now.script inputs shown.plan
        (lent settings.now (map H.account hosts.old))
        (lent settings.now (map H.account hosts.new))) }
    ensures asked { AsksSomePhases settings.now
        (phases_of settings.now program.now.script inputs shown.plan)
        (lent settings.now (map H.account hosts.old))
        (lent settings.now (map H.account hosts.new)) }
    ensures stop { IfErr result (IsRunStop settings.now program.now.script inputs shown.plan
        (lent settings.now (map H.account hosts.old))
        (lent settings.now (map H.account hosts.new))) }
    ensures grew { AllZip Grew (map H.account hosts.old) (map H.account hosts.new) }
    ensures hosts { drop settings.now.workers hosts.new ≡ drop settings.now.workers hosts.old }
{
    let ShownPlan { plan, text } = shown;
    match ran_through(rt, alloc, program, &plan, inputs, hosts, settings) {
        Ok(ran) => {
            drop(plan);
            let written = write_out(alloc, program, &ran, text);
            drop(ran);
            let out = written?;
            Ok(out)
        }
        Err(why) => {
            drop(text);
            drop(plan);
            Err(why)
        }
    }
}

/// The run of a plan, or why a call that came so far writes nothing.
pub fn ran_through<X: Threads + Sync, H: Host + Send>(
    rt: &X,
    alloc: Global,
    program: &ReadyProgram,
    plan: &Plan,
    inputs: Pile<Items>,
    hosts: &mut [H],
    settings: &Settings,
) -> Result<Ran, Stop>
    requires typed { AreInputs program.now.script inputs }
    requires of_script { IsPlanOf program.now.script plan.now }
    requires sixteen { length hosts.old ≡ 16 }
    ensures ran { IfOk result (IsRan settings.now program.now.script inputs plan.now
        (lent settings.now (map H.account hosts.old))
        (lent settings.now (map H.account hosts.new))) }
    ensures stop { IfErr result (IsRunStop settings.now program.now.script inputs plan.now
        (lent settings.now (map H.account hosts.old))
        (lent settings.now (map H.account hosts.new))) }
    ensures asked { AsksSomePhases settings.now
        (phases_of settings.now program.now.script inputs plan.now)
        (lent settings.now (map H.account hosts.old))
        (lent settings.now (map H.account hosts.new)) }
    ensures grew { AllZip Grew (map H.account hosts.old) (map H.account hosts.new) }
    ensures hosts { drop settings.now.workers hosts.new ≡ drop settings.now.workers hosts.old }
{
    let held = program.as_program();
    match ran_on(rt, alloc, program, plan, inputs, hosts, settings) {
        Ok(ran) => Ok(ran),
        Err(fault) => match fault {
            RunFault::Trap(trap) => Err(trapped(alloc, held, trap)?),
            RunFault::GaveUp { stage, phase, task } => {
                Err(Stop::Refused(Status::GaveUp { stage, phase, task }))
            }
            RunFault::Memory => Err(Stop::Refused(Status::WantOfMemory)),
        },
    }
}

/// The run of a plan on the first hosts, one for each worker.
pub fn ran_on<X: Threads + Sync, H: Host + Send>(
    rt: &X,
    alloc: Global,
    program: &ReadyProgram,
    plan: &Plan,
    inputs: Pile<Items>,
    hosts: &mut [H],
    settings: &Settings,
) -> Result<Ran, RunFault>
    requires typed { AreInputs program.now.script inputs }
    requires of_script { IsPlanOf program.now.script plan.now }
    requires sixteen { length hosts.old ≡ 16 }
    ensures asked { AsksSomePhases settings.now
        (phases_of settings.now program.now.script inputs plan.now)
        (lent settings.now (map H.account hosts.old))
        (lent settings.now (map H.account hosts.new)) }
    ensures ran { IfOk result (IsRan settings.now program.now.script inputs plan.now
        (lent settings.now (map H.account hosts.old))
        (lent settings.now (map H.account hosts.new))) }
    ensures fault { IfErr result (IsRunFault settings.now program.now.script inputs plan.now
        (lent settings.now (map H.account hosts.old))
        (lent settings.now (map H.account hosts.new))) }
    ensures grew { AllZip Grew (map H.account hosts.old) (map H.account hosts.new) }
    ensures hosts { drop settings.now.workers hosts.new ≡ drop settings.now.workers hosts.old }
{
    let held = program.as_program();
    let (lent, _spare) = hosts.split_at_mut(settings.workers() as usize);
    run_script(rt, alloc, held, plan, inputs, lent, settings)
}

// The files of the outputs, and the sizes behind the text that stands first.
fn write_out(
    alloc: Global,
    program: &ReadyProgram,
    ran: &Ran,
    front: Vec<u8>,
) -> Result<Written, AllocError>
    requires count { length ran.now.outputs.items ≡ length program.now.script.outputs }
    ensures files { IfOk result (λ it. map output_file it.outputs.items
        ≡ files_with program.now.script.outputs ran.now.outputs.items) }
    ensures text { IfOk result (λ it. it.screen.items
        ≡ front.items ++ (size_lines ran.now.sizes.items ++ codes "done\n")) }
{
    let outputs = output_files(alloc, program, &ran.outputs)?;
    let screen = with_sizes(front, &ran.sizes)?;
    Ok(Written { outputs, screen })
}

/// The files of the outputs, which write these members.
pub fn output_files(
    alloc: Global,
    program: &ReadyProgram,
    members: &[Items],
) -> Result<Vec<Output>, AllocError>
    requires count { length members.now ≡ length program.now.script.outputs }
    ensures { IfOk result (λ files. map output_file files.items
        ≡ files_with program.now.script.outputs members.now) }
{
    let held = program.as_program();
    let mut files = Vec::new(alloc);
    for number in 0..held.output_count() {
        files.push(file_of(alloc, program, number, members[number].as_slice())?)?;
    }
    Ok(files)
}
