// The reduce phase of a stage.
ghost use Rattle.std.specs.Prelude.{◌≡◌, ◌<◌, ◌≤◌, ◌^◌, length, map, IfOk};
ghost use Rattle.std.specs.List.{AllZip, list_any};
ghost use Rattle.crew.specs.Hosts.{Grew};
ghost use Rattle.task_lists.specs.Outs.{AreMapOuts};
ghost use Rattle.task_lists.specs.Tasks.{Lists, groupings};
ghost use Rattle.plan_phases.specs.Phases.{reduce_phases};
ghost use Rattle.reduce_part.specs.Reducing.{reducing_count};
ghost use Rattle.stage_phases.specs.Outs.{AreReduceOuts};
ghost use Rattle.stage_phases.specs.Runs.{InEachWorld, RunHasEnded, split_of};
ghost use Rattle.stage_phases.specs.Stages.{CanReduceStage};
ghost use Rattle.stage_phases.specs.inner.Channels.{is_group};
ghost use Rattle.stage_phases.specs.inner.Tasks.{reducing_of};

use crate::inputs::Inputs;
use crate::outs::outs_of;
use exec_plan::{Mscr, OutChannel};
use forest_steps::Functions;
use outside::{Host, Phase};
use plan_phases::{PhaseWinners, RunFault};
use reduce_part::{ReduceOut, ReduceTasks, reduce_tasks_law, reducing_law};
use shuffle_parts::MapOut;
use std::alloc::Global;
use std::thread::Threads;

/// The outs of the reduce tasks of stage `number`, over the outs of its map tasks: none where it
/// has no grouping channel. It tells the winners behind those of earlier phases.
pub fn reduce_outs<R: Threads + Sync, F: Functions + Sync, H: Host + Send>(
    rt: &R,
    alloc: Global,
    inputs: &Inputs<'_, F>,
    stage: &Mscr,
    number: u32,
    maps: &[MapOut],
    hosts: &mut [H],
    winners: &mut Vec<PhaseWinners>,
) -> Result<Vec<ReduceOut>, RunFault>
    requires hosts { (0 < length hosts.old) × (length hosts.old ≤ 16) }
    requires ready { CanReduceStage (F.called inputs.now.functions.now)
        (F.can_call inputs.now.functions.now) (split_of inputs.now.settings.now) number stage.now
        maps.now }
    ensures grew { AllZip Grew (map H.account hosts.old) (map H.account hosts.new) }
    ensures outs { InEachWorld (F.called inputs.now.functions.now) (λ w. (t : Lists) →
        AreMapOuts w (split_of inputs.now.settings.now) t stage.now maps.now → IfOk result (λ outs.
        AreReduceOuts w (split_of inputs.now.settings.now) t stage.now outs.items)) }
    ensures ended { InEachWorld (F.called inputs.now.functions.now) (λ w. (t : Lists) →
        AreMapOuts w (split_of inputs.now.settings.now) t stage.now maps.now → RunHasEnded
        inputs.now.settings.now w (reduce_phases w number (split_of inputs.now.settings.now) t
        stage.now (groupings stage.now.outputs)) (map H.account hosts.old)
        (map H.account hosts.new) winners.old.items winners.new.items result) }
{
    reducing_law();
    if !has_groupings(stage) {
        return Ok(Vec::new(alloc));
    }
    let tasks = reduce_tasks(inputs, stage, number, maps);
    let phase = inputs.phase(number, Phase::Reduce);
    outs_of(rt, alloc, &tasks, hosts, &phase, winners)
}

fn has_groupings(stage: &Mscr) -> bool
    ensures { result ≡ list_any is_group stage.now.outputs }
{
    stage.outputs.as_slice().iter().any(is_group)
}

fn is_group(channel: &OutChannel) -> bool
    ensures { result ≡ is_group channel.now }
{
    matches!(channel, OutChannel::Group(_))
}

// The reduce tasks of the stage, which are not too many for a crew.
fn reduce_tasks<'a, F: Functions>(
    inputs: &Inputs<'a, F>,
    stage: &'a Mscr,
    _number: u32,
    maps: &'a [MapOut],
) -> ReduceTasks<'a, F>
    requires some { 0 < length (groupings stage.now.outputs) }
    requires ready { CanReduceStage (F.called inputs.now.functions.now)
        (F.can_call inputs.now.functions.now) (split_of inputs.now.settings.now) _number stage.now
        maps.now }
    ensures tasks { result ≡ reducing_of inputs.now.functions.now stage.now maps.now
        inputs.now.settings.now }
    ensures count { (0 < reducing_count result) × (reducing_count result ≤ 2 ^ 27) }
{
    reduce_tasks_law(inputs.functions);
    ReduceTasks::new(inputs.functions, stage, maps, inputs.settings.partitions())
}
