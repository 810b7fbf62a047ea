// The stages of a plan, one after another.
ghost use Rattle.std.specs.Prelude.{◌≡◌, ◌∷◌, ◌++◌, [], ◌<◌, ◌≤◌, ◌^◌, length, map, IfOk, OnOk};
ghost use Rattle.std.specs.List.{AllZip};
ghost use Rattle.crew.specs.Hosts.{Grew};
ghost use Rattle.stage_results.specs.of_map_shard.Tables.{table};
ghost use Rattle.stage_exec.specs.inner.Along.{CanGoOn, all_counted, all_lists, all_phases};
ghost use Rattle.stage_exec.specs.inner.Reads.{AgreeOn};
ghost use Rattle.stage_results.specs.of_stage_phases.Runs.{RunHasEnded};
ghost use Rattle.stage_results.specs.of_stage_phases.Stages.{run_world};
ghost use Rattle.stage_results.specs.of_step_counts.Sizes.{HaveGrown};
ghost use Rattle.task_lists.specs.Lists.{source_lists};

use crate::dropping::drop_read;
use crate::stage::run_stage;
use exec_plan::{PlanPlace, Stage};
use flume_value::{Items, Pile};
use forest_steps::Functions;
use outside::Host;
use plan_phases::{PhaseWinners, RunFault};
use stage_results::stage_phases::Inputs;
use std::alloc::{AllocError, Global};
use std::thread::Threads;

/// Runs stages in order, and gives the results of each that are read by outputs. Rows of sources
/// and results that are read no more are dropped.
pub(crate) fn run_stages<R: Threads + Sync, F: Functions + Sync, H: Host + Send>(
    rt: &R,
    alloc: Global,
    inputs: &Inputs<'_, F>,
    sources: &mut Vec<Items>,
    stages: &[Stage],
    outputs: &[PlanPlace],
    hosts: &mut [H],
    sizes: &mut [u64],
    winners: &mut Vec<PhaseWinners>,
) -> Result<Vec<Pile<Items>>, RunFault>
    requires hosts { (0 < length hosts.old) × (length hosts.old ≤ 16) }
    requires few { length stages.now < 2 ^ 32 }
    requires ready { let w = run_world (F.called inputs.now.functions.now) sources.old.items in
        CanGoOn w (F.can_call inputs.now.functions.now) 1 stages.now (source_lists w) }
    ensures grew { AllZip Grew (map H.account hosts.old) (map H.account hosts.new) }
    ensures lists { let w = run_world (F.called inputs.now.functions.now) sources.old.items in
        IfOk result (λ results. AgreeOn outputs.now (table sources.new.items results.items)
        (all_lists inputs.now.settings.now w stages.now)) }
    ensures sizes { let w = run_world (F.called inputs.now.functions.now) sources.old.items in
        OnOk result (HaveGrown (all_counted inputs.now.settings.now w stages.now)
        sizes.old sizes.new) }
    ensures ended { let w = run_world (F.called inputs.now.functions.now) sources.old.items in
        RunHasEnded inputs.now.settings.now w (all_phases inputs.now.settings.now w stages.now)
        (map H.account hosts.old) (map H.account hosts.new)
        winners.old.items winners.new.items result }
{
    let mut results = Vec::new(alloc);
    for (k, stage) in stages.iter().enumerate() {
        let number = k as u32 + 1;
        let lists = run_stage(
            rt,
            alloc,
            inputs,
            sources,
            &mut results,
            stage,
            number,
            &stages[k + 1..],
            outputs,
            hosts,
            sizes,
            winners,
        )?;
        push_results(&mut results, lists)?;
        drop_read(
            alloc,
            sources,
            &mut results,
            stage,
            &stages[k + 1..],
            outputs,
        );
    }
    Ok(results)
}

fn push_results(results: &mut Vec<Pile<Items>>, lists: Pile<Items>) -> Result<(), AllocError>
    ensures { OnOk result (results.new.items ≡ results.old.items ++ lists ∷ []) }
{
    results.push(lists)?;
    Ok(())
}
