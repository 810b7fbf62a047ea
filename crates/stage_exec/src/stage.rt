// One stage.
ghost use Rattle.std.specs.Prelude.{◌≡◌, ◌<◌, ◌≤◌, ◌*◌, ◌∷◌, [], length, map, IfOk};
ghost use Rattle.std.specs.List.{AllZip, flat_map};
ghost use Rattle.crew.specs.Hosts.{Grew};
ghost use Rattle.exec_graph.specs.World.{World};
ghost use Rattle.exec_plan.specs.declared.plan.Stage.TheVariants as stages;
ghost use Rattle.stage_results.specs.of_map_shard.Tables.{split_into, table};
ghost use Rattle.plan_phases.specs.Phases.{stage_phases};
ghost use Rattle.stage_exec.specs.inner.Objects.{GivesObject};
ghost use Rattle.stage_exec.specs.inner.Reads.{KeepsLater};
ghost use Rattle.stage_exec.specs.inner.Stages.{IsStageGiven};
ghost use Rattle.stage_results.specs.of_stage_phases.Outs.{AreStageOuts};
ghost use Rattle.stage_results.specs.of_stage_phases.Runs.{InEachWorld, InSomeWorld};
ghost use Rattle.stage_results.specs.of_stage_phases.Runs.{RunHasEnded, split_of};
ghost use Rattle.stage_results.specs.of_task_safety.Stages.{CanRunStage};
ghost use Rattle.task_lists.specs.Tasks.{Lists};

use crate::flatten::flatten_lists;
use crate::objects::object_lists;
use crate::phases::{StageOuts, stage_outs};
use exec_plan::{Mscr, PlanPlace, Stage};
use flume_value::{Items, Pile};
use forest_steps::Functions;
use outside::Host;
use plan_phases::{PhaseWinners, RunFault};
use stage_results::stage_phases::Inputs;
use stage_results::{add_map_counts, stage_lists};
use std::alloc::{AllocError, Global};
use std::thread::Threads;

/// Runs stage `number` over the results of the stages before it, and gives its results. What its
/// tasks have counted is added to the sizes of script nodes, and their winners are told. Between
/// its phases it drops what it has read, and no later stage and no output reads.
pub(crate) fn run_stage<R: Threads + Sync, F: Functions + Sync, H: Host + Send>(
    rt: &R,
    alloc: Global,
    inputs: &Inputs<'_, F>,
    sources: &mut Vec<Items>,
    results: &mut Vec<Pile<Items>>,
    stage: &Stage,
    number: u32,
    later: &[Stage],
    outputs: &[PlanPlace],
    hosts: &mut [H],
    sizes: &mut [u64],
    winners: &mut Vec<PhaseWinners>,
) -> Result<Pile<Items>, RunFault>
    requires hosts { (0 < length hosts.old) × (length hosts.old ≤ 16) }
    requires ready { InSomeWorld (F.called inputs.now.functions.now) (λ w. CanRunStage w
        (F.can_call inputs.now.functions.now) number
        (table sources.old.items results.old.items) stage.now) }
    requires object { GivesObject stage.now }
    ensures grew { AllZip Grew (map H.account hosts.old) (map H.account hosts.new) }
    ensures given { InEachWorld (F.called inputs.now.functions.now) (λ w. IfOk result
        (IsStageGiven w (split_of inputs.now.settings.now)
        (table sources.old.items results.old.items) stage.now sizes.old sizes.new)) }
    ensures ended { InEachWorld (F.called inputs.now.functions.now) (λ w. RunHasEnded
        inputs.now.settings.now w (stage_phases w number (split_of inputs.now.settings.now)
        (table sources.old.items results.old.items) stage.now)
        (map H.account hosts.old) (map H.account hosts.new)
        winners.old.items winners.new.items result) }
    ensures kept { KeepsLater later.now outputs.now sources.old.items results.old.items
        sources.new.items results.new.items }
{
    match stage {
        Stage::Mscr(mscr) => {
            let shards = inputs.settings.shards();
            let partitions = inputs.settings.partitions();
            let outs = stage_outs(
                rt, alloc, inputs, sources, results, mscr, number, later, outputs, hosts, winners,
            )?;
            Ok(mscr_lists(alloc, mscr, shards, partitions, outs, sizes)?)
        }
        Stage::Flatten(takes) => match flat_lists(alloc, &*sources, &*results, takes) {
            Ok(lists) => Ok(lists),
            Err(AllocError) => Err(RunFault::Memory),
        },
        Stage::Operate(takes, origin, last, act) => {
            let rows = sources.as_slice();
            let lists = results.as_slice();
            object_lists(
                alloc, inputs, rows, lists, takes, *origin, *last, *act, number, sizes,
            )
        }
    }
}

// A Flatten stage has no tasks.
fn flat_lists(
    alloc: Global,
    sources: &Vec<Items>,
    results: &Vec<Pile<Items>>,
    takes: &Pile<PlanPlace>,
) -> Result<Pile<Items>, AllocError>
    ensures { IfOk result (λ lists.
        lists ≡ flat_map (table sources.now.items results.now.items) takes.now ∷ []) }
{
    let rows = sources.as_slice();
    let mut lists = Vec::new(alloc);
    lists.push(flatten_lists(alloc, rows, results.as_slice(), takes.as_slice())?)?;
    Ok(Pile::from_vec(lists))
}

// The results of the stage, of what its tasks have made.
fn mscr_lists(
    alloc: Global,
    stage: &Mscr,
    shards: u32,
    partitions: u32,
    outs: StageOuts,
    sizes: &mut [u64],
) -> Result<Pile<Items>, AllocError>
    requires cut { (0 < shards) × (0 < partitions) }
    requires count { length outs.maps.items ≡ length stage.now.inputs * shards }
    ensures { (w : World) (t : Lists) → AreStageOuts w (split_into shards partitions) t stage.now
        outs.maps.items outs.reduces.items → IfOk result (IsStageGiven w
        (split_into shards partitions) t (stages.Mscr stage.now) sizes.old sizes.new) }
{
    let StageOuts { maps, reduces } = outs;
    add_map_counts(alloc, stage, shards, &maps, sizes)?;
    let lists = stage_lists(alloc, stage, maps, reduces, partitions, sizes)?;
    Ok(Pile::from_vec(lists))
}
