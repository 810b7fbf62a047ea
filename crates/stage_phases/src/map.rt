// The map phase of a stage.
ghost use Rattle.std.specs.Prelude.{◌≡◌, ◌<◌, ◌≤◌, ◌^◌, ◌∷◌, [], length, map, IfOk};
ghost use Rattle.std.specs.List.{AllZip};
ghost use Rattle.crew.specs.Hosts.{Grew};
ghost use Rattle.exec_plan.specs.declared.plan.Stage.TheVariants as stages;
ghost use Rattle.task_lists.specs.Outs.{AreMapOuts};
ghost use Rattle.map_shard.specs.Tables.{table};
ghost use Rattle.map_shard.specs.Work.{work_count};
ghost use Rattle.plan_phases.specs.Phases.{OfTasks, map_phase_of};
ghost use Rattle.map_shard.specs.of_task_safety.Stages.{CanRunStage};
ghost use Rattle.stage_phases.specs.Runs.{InEachWorld, InSomeWorld, RunHasEnded, split_of};
ghost use Rattle.stage_phases.specs.inner.Tasks.{work_of};

use crate::inputs::Inputs;
use crate::outs::outs_of;
use exec_plan::Mscr;
use flume_value::{Items, Pile};
use forest_steps::Functions;
use map_shard::{MapTasks, map_tasks_law};
use outside::{Host, Phase};
use plan_phases::{PhaseWinners, RunFault};
use shuffle_parts::MapOut;
use std::alloc::Global;
use std::thread::Threads;

/// The outs of the map tasks of stage `number`, over the rows of sources and the results of earlier
/// stages. It tells the winners behind those of earlier phases.
pub fn map_outs<R: Threads + Sync, F: Functions + Sync, H: Host + Send>(
    rt: &R,
    alloc: Global,
    inputs: &Inputs<'_, F>,
    sources: &[Items],
    results: &[Pile<Items>],
    stage: &Mscr,
    number: u32,
    hosts: &mut [H],
    winners: &mut Vec<PhaseWinners>,
) -> Result<Vec<MapOut>, RunFault>
    requires hosts { (0 < length hosts.old) × (length hosts.old ≤ 16) }
    requires ready { InSomeWorld (F.called inputs.now.functions.now) (λ w. CanRunStage w
        (F.can_call inputs.now.functions.now) number (table sources.now results.now)
        (stages.Mscr stage.now)) }
    ensures grew { AllZip Grew (map H.account hosts.old) (map H.account hosts.new) }
    ensures outs { InEachWorld (F.called inputs.now.functions.now) (λ w. IfOk result (λ outs.
        AreMapOuts w (split_of inputs.now.settings.now) (table sources.now results.now) stage.now
        outs.items)) }
    ensures ended { InEachWorld (F.called inputs.now.functions.now) (λ w. RunHasEnded
        inputs.now.settings.now w (OfTasks (map_phase_of number (split_of inputs.now.settings.now)
        (table sources.now results.now) stage.now) ∷ []) (map H.account hosts.old)
        (map H.account hosts.new) winners.old.items winners.new.items result) }
{
    let tasks = map_tasks(inputs, sources, results, stage, number);
    let phase = inputs.phase(number, Phase::Map);
    outs_of(rt, alloc, &tasks, hosts, &phase, winners)
}

// The map tasks of the stage, which are not too many for a crew.
fn map_tasks<'a, F: Functions>(
    inputs: &Inputs<'a, F>,
    sources: &'a [Items],
    results: &'a [Pile<Items>],
    stage: &'a Mscr,
    _number: u32,
) -> MapTasks<'a, F>
    requires ready { InSomeWorld (F.called inputs.now.functions.now) (λ w. CanRunStage w
        (F.can_call inputs.now.functions.now) _number (table sources.now results.now)
        (stages.Mscr stage.now)) }
    ensures tasks { result ≡ work_of inputs.now.functions.now sources.now results.now stage.now
        inputs.now.settings.now }
    ensures count { (0 < work_count result) × (work_count result ≤ 2 ^ 27) }
{
    map_tasks_law(inputs.functions);
    MapTasks::new(
        inputs.functions,
        sources,
        results,
        stage,
        inputs.settings.shards(),
        inputs.settings.partitions(),
    )
}
