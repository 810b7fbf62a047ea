// The phases of a stage, one after the other.
ghost use Rattle.std.specs.Prelude.{◌<◌, ◌≤◌, length, map, IfOk};
ghost use Rattle.std.specs.List.{AllZip};
ghost use Rattle.crew.specs.Hosts.{Grew};
ghost use Rattle.exec_plan.specs.declared.plan.Stage.TheVariants as stages;
ghost use Rattle.stage_results.specs.of_map_shard.Tables.{table};
ghost use Rattle.plan_phases.specs.Phases.{stage_phases};
ghost use Rattle.stage_results.specs.of_stage_phases.Outs.{AreStageOuts};
ghost use Rattle.stage_results.specs.of_stage_phases.Runs.{InEachWorld, InSomeWorld};
ghost use Rattle.stage_results.specs.of_stage_phases.Runs.{RunHasEnded, split_of};
ghost use Rattle.stage_exec.specs.inner.Reads.{KeepsLater};
ghost use Rattle.stage_results.specs.of_task_safety.Stages.{CanRunStage};

use crate::dropping::drop_inputs;
use exec_plan::{Mscr, PlanPlace, Stage};
use flume_value::{Items, Pile};
use forest_steps::Functions;
use outside::Host;
use plan_phases::{PhaseWinners, RunFault};
use shuffle_parts::MapOut;
use stage_results::reduce_part::ReduceOut;
use stage_results::stage_phases::{Inputs, map_outs, reduce_outs};
use std::alloc::Global;
use std::thread::Threads;

/// What the tasks of a stage have made: the outs of its map tasks, and of its reduce tasks.
#[derive(Drop)]
pub(crate) struct StageOuts {
    pub(crate) maps: Vec<MapOut>,
    pub(crate) reduces: Vec<ReduceOut>,
}

/// Runs the map phase of stage `number`, and where it groups its reduce phase. In between it drops
/// what the stage has read, and no later stage and no output reads.
pub(crate) fn stage_outs<R: Threads + Sync, F: Functions + Sync, H: Host + Send>(
    rt: &R,
    alloc: Global,
    inputs: &Inputs<'_, F>,
    sources: &mut Vec<Items>,
    results: &mut Vec<Pile<Items>>,
    stage: &Mscr,
    number: u32,
    later: &[Stage],
    outputs: &[PlanPlace],
    hosts: &mut [H],
    winners: &mut Vec<PhaseWinners>,
) -> Result<StageOuts, RunFault>
    requires hosts { (0 < length hosts.old) × (length hosts.old ≤ 16) }
    requires cut { (0 < inputs.now.settings.now.shards)
        × (0 < inputs.now.settings.now.partitions) }
    requires ready { InSomeWorld (F.called inputs.now.functions.now) (λ w. CanRunStage w
        (F.can_call inputs.now.functions.now) number
        (table sources.old.items results.old.items) (stages.Mscr stage.now)) }
    ensures grew { AllZip Grew (map H.account hosts.old) (map H.account hosts.new) }
    ensures made { InEachWorld (F.called inputs.now.functions.now) (λ w. IfOk result (λ outs.
        AreStageOuts w (split_of inputs.now.settings.now)
        (table sources.old.items results.old.items) stage.now outs.maps.items outs.reduces.items)) }
    ensures ended { InEachWorld (F.called inputs.now.functions.now) (λ w. RunHasEnded
        inputs.now.settings.now w (stage_phases w number (split_of inputs.now.settings.now)
        (table sources.old.items results.old.items) (stages.Mscr stage.now))
        (map H.account hosts.old) (map H.account hosts.new)
        winners.old.items winners.new.items result) }
    ensures kept { KeepsLater later.now outputs.now sources.old.items results.old.items
        sources.new.items results.new.items }
{
    let rows = sources.as_slice();
    let lists = results.as_slice();
    let maps = map_outs(
        rt, alloc, inputs, rows, lists, stage, number, hosts, winners,
    )?;
    drop_inputs(alloc, sources, results, &stage.inputs, later, outputs);
    let reduces = reduce_outs(rt, alloc, inputs, stage, number, &maps, hosts, winners)?;
    Ok(StageOuts { maps, reduces })
}
