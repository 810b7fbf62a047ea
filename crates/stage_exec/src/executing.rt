// A plan, executed stage by stage.
ghost use Rattle.std.specs.Prelude.{◌≡◌, ◌<◌, ◌≤◌, IfErr, IfOk, length, map};
ghost use Rattle.std.specs.List.{AllZip};
ghost use Rattle.crew.specs.Hosts.{Grew};
ghost use Rattle.exec_plan.specs.Wellformed.{IsPlanOk};
ghost use Rattle.forest_steps.specs.Fresh.{zeros};
ghost use Rattle.stage_results.specs.of_map_shard.Tables.{table};
ghost use Rattle.plan_phases.specs.Phases.{phases, with_tasks};
ghost use Rattle.plan_phases.specs.Told.{AskedFront, CanFinishAll, IsNotGivenUp};
ghost use Rattle.stage_exec.specs.Executions.{IsExecuted, IsExecutionFault, split_of};
ghost use Rattle.stage_results.specs.of_stage_phases.Stages.{run_world};
ghost use Rattle.stage_results.specs.of_task_safety.Stages.{IsTypedRun};

use crate::executed::Executed;
use crate::outputs::output_lists;
use crate::stages::run_stages;
use exec_plan::Plan;
use flume_value::{Items, Pile};
use forest_steps::Functions;
use outside::Host;
use plan_phases::{RunFault, phases_law};
use run_settings::Settings;
use stage_results::stage_phases::Inputs;
use std::alloc::{AllocError, Global};
use std::thread::Threads;
use task_lists::{tasks_law, typed_law};

/// Executes a plan over the rows of its sources, one list for each, with a worker on each of the
/// hosts. It counts for the first so many script nodes. The rows of a source are let go behind the
/// last tasks that read them.
///
/// It stops at the first task, by phases in order and by tasks in order within one, that traps or
/// of which no attempt has won: with its first trap, or naming it. What gives an object is made
/// between the phases, and traps as a phase by itself.
pub fn execute<R: Threads + Sync, F: Functions + Sync, H: Host + Send>(
    rt: &R,
    alloc: Global,
    functions: &F,
    plan: &Plan,
    sources: Vec<Items>,
    nodes: usize,
    hosts: &mut [H],
    settings: &Settings,
) -> Result<Executed, RunFault>
    requires plan { IsPlanOk plan.now }
    requires sources { length sources.items ≡ plan.now.sources }
    requires typed { IsTypedRun (run_world (F.called functions.now) sources.items)
        (F.can_call functions.now) plan.now }
    requires some { 1 ≤ length hosts.old }
    requires most { length hosts.old ≤ 16 }
    ensures grew { AllZip Grew (map H.account hosts.old) (map H.account hosts.new) }
    // However it ends, no phase is made twice, and none behind the one where it stops.
    ensures asked { AskedFront settings.now.tries settings.now.drill (with_tasks (phases
        (run_world (F.called functions.now) sources.items) (split_of settings.now) plan.now))
        (map H.account hosts.old) (map H.account hosts.new) }
    ensures done { IfOk result (IsExecuted settings.now
        (run_world (F.called functions.now) sources.items) plan.now nodes
        (map H.account hosts.old) (map H.account hosts.new)) }
    ensures fault { IfErr result (IsExecutionFault settings.now
        (run_world (F.called functions.now) sources.items) plan.now
        (map H.account hosts.old) (map H.account hosts.new)) }
    // No task is given up, where each has a try that is neither in the drill nor accounted for by
    // the losses of the hosts.
    ensures complete { CanFinishAll settings.now.tries settings.now.drill (with_tasks (phases
        (run_world (F.called functions.now) sources.items) (split_of settings.now) plan.now))
        (map H.account hosts.old) (map H.account hosts.new) → IfErr result IsNotGivenUp }
{
    cut_law(settings);
    tasks_law();
    typed_law();
    phases_law();
    let inputs = Inputs {
        functions,
        settings,
    };
    let mut rows = sources;
    let mut sizes = no_sizes(alloc, nodes)?;
    let mut winners = Vec::new(alloc);
    let stages = plan.stages.as_slice();
    let counted = sizes.as_mut_slice();
    let outputs = plan.outputs.as_slice();
    let results = run_stages(
        rt,
        alloc,
        &inputs,
        &mut rows,
        stages,
        outputs,
        hosts,
        counted,
        &mut winners,
    )?;
    let outputs = output_lists(alloc, rows, results, outputs)?;
    Ok(Executed {
        outputs,
        counts: Pile::from_vec(sizes),
        winners: Pile::from_vec(winners),
    })
}

// A run cuts its inputs and its groups.
fn cut_law(settings: &Settings)
    ensures { (0 < settings.now.shards) × (0 < settings.now.partitions) }
{
    settings.shards();
    settings.partitions();
}

// So many sizes of nothing.
fn no_sizes(alloc: Global, nodes: usize) -> Result<Vec<u64>, AllocError>
    ensures { IfOk result (λ sizes. sizes.items ≡ zeros nodes) }
{
    let mut sizes = Vec::with_capacity(alloc, nodes)?;
    for _node in 0..nodes {
        sizes.push(0)?;
    }
    Ok(sizes)
}
