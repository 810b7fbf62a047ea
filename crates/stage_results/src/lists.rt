// The results of a stage.
ghost use Rattle.std.specs.Prelude.{◌≡◌, ◌<◌, ◌∷◌, ◌++◌, [], ℕ, List, slice_get, drop, sum, IfOk, OnOk};
ghost use Rattle.std.specs.Vec.Iter.{into_iter_items};
ghost use Rattle.exec_graph.specs.of_flume_collection.Calls.{or_none};
ghost use Rattle.exec_graph.specs.World.{World};
ghost use Rattle.exec_plan.specs.declared.plan.InChannel.{InChannel};
ghost use Rattle.exec_plan.specs.declared.plan.Stage.TheVariants as stages;
ghost use Rattle.stage_phases.specs.of_map_shard.Tables.{split_into};
ghost use Rattle.stage_phases.specs.of_reduce_part.declared.out.ReduceOut.{ReduceOut as Out};
ghost use Rattle.stage_phases.specs.Outs.{AreStageOuts};
ghost use Rattle.step_counts.specs.Sizes.{HaveGrown};
ghost use Rattle.task_lists.specs.Lists.{given_lists, result_lists};
ghost use Rattle.task_lists.specs.Plans.{task_counts};
ghost use Rattle.task_lists.specs.Tasks.{Lists, reduce_phase};
ghost use Rattle.stage_results.specs.inner.Channels.{AreOutsAt, HavePassed, StartsWith};
ghost use Rattle.stage_results.specs.inner.Channels.{channel_counts};

use crate::channel::channel_lists;
use crate::passed::passed_lists;
use exec_plan::{Mscr, OutChannel};
use flume_value::Items;
use shuffle_parts::MapOut;
use stage_phases::map_shard::forest_steps::next_list;
use stage_phases::reduce_part::ReduceOut;
use std::alloc::{AllocError, Global};
use std::vec::IntoIter;
use task_lists::outs_law;

/// The results of a stage, of the outs of its map tasks and of its reduce tasks, in order of its
/// output channels. What the reduce tasks have counted is added to the sizes of script nodes.
pub fn stage_lists(
    alloc: Global,
    stage: &Mscr,
    maps: Vec<MapOut>,
    reduces: Vec<ReduceOut>,
    partitions: u32,
    sizes: &mut [u64],
) -> Result<Vec<Items>, AllocError>
    requires some { 0 < partitions }
    ensures lists { (w : World) (shards : ℕ) (t : Lists) → 0 < shards →
        AreStageOuts w (split_into shards partitions) t stage.now maps.items reduces.items →
        IfOk result (λ lists.
        lists.items ≡ result_lists w (split_into shards partitions) t (stages.Mscr stage.now)) }
    ensures grown { (w : World) (shards : ℕ) (t : Lists) → 0 < shards →
        AreStageOuts w (split_into shards partitions) t stage.now maps.items reduces.items →
        OnOk result (HaveGrown (λ i.
        sum (reduce_phase (task_counts w i).reduces w (split_into shards partitions) t stage.now))
        sizes.old sizes.new) }
{
    let mut passed = passed_lists(alloc, maps)?.into_iter();
    let mut outs = reduces.into_iter();
    let mut lists = Vec::new(alloc);
    for channel in stage.outputs.as_slice() {
        let here = next_list(alloc, &mut passed);
        let mut given = given_lists(alloc, channel, here, partitions, &mut outs, sizes)?;
        lists.append(&mut given)?;
    }
    Ok(lists)
}

// The results of an output channel, whose outs are the next, and through which these have passed.
fn given_lists(
    alloc: Global,
    channel: &OutChannel,
    passed: Items,
    partitions: u32,
    outs: &mut IntoIter<ReduceOut>,
    sizes: &mut [u64],
) -> Result<Vec<Items>, AllocError>
    requires some { 0 < partitions }
    ensures next { (w : World) (shards : ℕ) (t : Lists) (ins : List InChannel)
        (here behind : List Out) → into_iter_items outs.old ≡ here ++ behind →
        AreOutsAt w (split_into shards partitions) t ins channel.now here →
        OnOk result (into_iter_items outs.new ≡ behind) }
    ensures lists { (w : World) (shards : ℕ) (t : Lists) (s : Mscr) → 0 < shards → StartsWith
        (AreOutsAt w (split_into shards partitions) t s.inputs channel.now)
        (into_iter_items outs.old) →
        HavePassed w (split_into shards partitions) t s channel.now passed → IfOk result (λ lists.
        lists.items ≡ given_lists w (split_into shards partitions) t s.inputs channel.now) }
    ensures grown { (w : World) (shards : ℕ) (t : Lists) (ins : List InChannel) → StartsWith
        (AreOutsAt w (split_into shards partitions) t ins channel.now) (into_iter_items outs.old) →
        OnOk result (HaveGrown (λ i. sum (channel_counts w i (split_into shards partitions) t ins
        channel.now)) sizes.old sizes.new) }
{
    outs_law();
    match channel {
        OutChannel::Pass(_, _) => one_list(alloc, passed),
        OutChannel::Group(grouping) => channel_lists(alloc, grouping, partitions, outs, sizes),
    }
}

fn one_list(alloc: Global, list: Items) -> Result<Vec<Items>, AllocError>
    ensures { IfOk result (λ lists. lists.items ≡ list ∷ []) }
{
    let mut lists = Vec::new(alloc);
    lists.push(list)?;
    Ok(lists)
}
