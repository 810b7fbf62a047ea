// The run of the script of the sums over made rows.
ghost use Rattle.std.specs.Prelude.{◌≡◌, ◌∷◌, [], IfOk, drop, length, map};
ghost use Rattle.std.specs.List.{AllZip};
ghost use Rattle.command_words.specs.Workloads.{IsWithinLimits};
ghost use Rattle.crew.specs.Hosts.{Grew};
ghost use Rattle.made_course.specs.Files.{workload_rows};
ghost use Rattle.made_course.specs.Runs.{AsksHosts};
ghost use Rattle.made_course.specs.inner.Stops.{ComesTo};
ghost use Rattle.made_rows.specs.Sums.{sums_script};
ghost use Rattle.run_settings.specs.Settings.{standard};
ghost use Rattle.run_course.specs.of_script_plans.Plans.{IsScriptPlan};
ghost use Rattle.run_course.specs.of_script_run.Runs.{IsPlanOf};

use command_words::Workload;
use exec_plan::Plan;
use flume_value::{Items, Pile};
use made_rows::{made_rows_law, rows_made, sums_law, sums_program};
use outside::Host;
use plan_phases::RunFault;
use run_course::script_loading::ReadyProgram;
use run_course::script_run::Ran;
use run_course::{ShownPlan, plan_shown, ran_on};
use run_settings::Settings;
use std::alloc::{AllocError, Global};
use std::thread::Threads;

/// The program of the script of the sums, which is ready to be run.
pub fn sums_ready(alloc: Global) -> Result<ReadyProgram, AllocError>
    ensures { IfOk result (λ program. program.script ≡ sums_script) }
{
    sums_law();
    let program = sums_program(alloc)?;
    Ok(ReadyProgram::new(program))
}

/// The run of the script over the rows of a workload, by the usual settings.
#[tactic(auto, using(crew::proofs::Accounts::all_grew_not))]
pub fn sums_run<X: Threads + Sync, H: Host + Send>(
    rt: &X,
    alloc: Global,
    program: &ReadyProgram,
    workload: Workload,
    hosts: &mut [H],
) -> Result<Ran, RunFault>
    requires script { program.now.script ≡ sums_script }
    requires within { IsWithinLimits workload }
    requires sixteen { length hosts.old ≡ 16 }
    ensures comes { ComesTo workload (map H.account hosts.old) (map H.account hosts.new) result }
    ensures asked { AsksHosts workload (map H.account hosts.old) (map H.account hosts.new) }
    ensures grew { AllZip Grew (map H.account hosts.old) (map H.account hosts.new) }
    ensures hosts { drop standard.workers hosts.new ≡ drop standard.workers hosts.old }
{
    made_rows_law();
    sums_law();
    let (inputs, plan) = to_run(alloc, program, workload)?;
    let settings = Settings::standard(alloc);
    let ran = ran_on(rt, alloc, program, &plan, inputs, hosts, &settings);
    drop(plan);
    ran
}

// The rows of the script's one input, and its plan.
fn to_run(
    alloc: Global,
    program: &ReadyProgram,
    workload: Workload,
) -> Result<(Pile<Items>, Plan), AllocError>
    requires { IsWithinLimits workload }
    ensures inputs { IfOk result (λ it. it.0 ≡ workload_rows workload ∷ []) }
    ensures optimised { IfOk result (λ it. IsScriptPlan program.now.script it.1) }
    ensures of_script { IfOk result (λ it. IsPlanOf program.now.script it.1) }
{
    let mut inputs = Pile::new(alloc);
    inputs.push(rows_made(alloc, workload.start, workload.rows)?)?;
    let ShownPlan { plan, text } = plan_shown(alloc, program)?;
    drop(text);
    Ok((inputs, plan))
}
