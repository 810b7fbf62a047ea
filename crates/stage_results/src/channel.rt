// The results of a grouping channel.
ghost use Rattle.std.specs.Prelude.{◌≡◌, ◌<◌, ◌∷◌, ◌++◌, ◌+◌, ℕ, List, length, map, sum, IfOk, OnOk};
ghost use Rattle.std.specs.Vec.Iter.{into_iter_items};
ghost use Rattle.exec_graph.specs.World.{World};
ghost use Rattle.exec_plan.specs.Channels.{output_numbers_of};
ghost use Rattle.exec_plan.specs.declared.plan.InChannel.{InChannel};
ghost use Rattle.exec_plan.specs.declared.plan.OutChannel.TheVariants as channels;
ghost use Rattle.stage_phases.specs.of_map_shard.Tables.{split_into};
ghost use Rattle.stage_phases.specs.of_reduce_part.declared.out.ReduceOut.{ReduceOut as Out};
ghost use Rattle.step_counts.specs.Sizes.{HaveGrown};
ghost use Rattle.task_lists.specs.Lists.{reduced_lists};
ghost use Rattle.step_counts.specs.Owners.{owners_of};
ghost use Rattle.stage_phases.specs.Outs.{IsOutOf};
ghost use Rattle.task_lists.specs.Plans.{groups_count, steps_count};
ghost use Rattle.task_lists.specs.Tasks.{Lists, Task};
ghost use Rattle.stage_results.specs.inner.Channels.{AreOutsOf, StartsWith};
ghost use Rattle.stage_results.specs.inner.Channels.{channel_counts, each_joined};

use crate::joining::join_each;
use exec_plan::Grouping;
use flume_value::Items;
use stage_phases::reduce_part::ReduceOut;
use std::alloc::{AllocError, Global};
use std::vec::IntoIter;
use step_counts::{Owners, add_groups};

/// The results of a grouping channel, of the outs of its tasks, which are the next: for each output
/// of its reducer the lists of the partitions, one after another. What the tasks have counted is
/// added to the sizes.
pub(crate) fn channel_lists(
    alloc: Global,
    grouping: &Grouping,
    partitions: u32,
    outs: &mut IntoIter<ReduceOut>,
    sizes: &mut [u64],
) -> Result<Vec<Items>, AllocError>
    requires some { 0 < partitions }
    ensures next { (here behind : List Out) → length here ≡ partitions →
        into_iter_items outs.old ≡ here ++ behind →
        OnOk result (into_iter_items outs.new ≡ behind) }
    ensures lists { (w : World) (shards : ℕ) (t : Lists) (ins : List InChannel) → StartsWith
        (AreOutsOf w (split_into shards partitions) t ins grouping.now) (into_iter_items outs.old) →
        IfOk result (λ lists. lists.items
        ≡ map (reduced_lists w (split_into shards partitions) t ins grouping.now)
        (output_numbers_of grouping.now.does)) }
    ensures grown { (w : World) (shards : ℕ) (t : Lists) (ins : List InChannel) → StartsWith
        (AreOutsOf w (split_into shards partitions) t ins grouping.now) (into_iter_items outs.old) →
        OnOk result (HaveGrown (λ i. sum (channel_counts w i (split_into shards partitions) t ins
        (channels.Group grouping.now))) sizes.old sizes.new) }
{
    let owners = Owners::new(alloc, &grouping.does)?;
    let mut lists = Vec::new(alloc);
    for _p in 0..partitions {
        join_next(alloc, grouping, &owners, outs, &mut lists, sizes)?;
    }
    Ok(lists)
}

// Takes the next out, puts its lists behind the others, and adds what its task has counted.
fn join_next(
    alloc: Global,
    grouping: &Grouping,
    owners: &Owners,
    outs: &mut IntoIter<ReduceOut>,
    lists: &mut Vec<Items>,
    sizes: &mut [u64],
) -> Result<(), AllocError>
    ensures next { (out : Out) (behind : List Out) → into_iter_items outs.old ≡ out ∷ behind →
        into_iter_items outs.new ≡ behind }
    ensures lists { (out : Out) (behind : List Out) → into_iter_items outs.old ≡ out ∷ behind →
        OnOk result (lists.new.items ≡ each_joined lists.old.items out.outputs) }
    ensures grown { (w : World) (task : Task) (out : Out) (behind : List Out) →
        into_iter_items outs.old ≡ out ∷ behind → owners.now ≡ owners_of task.does →
        IsOutOf w task out →
        HaveGrown (λ i. groups_count i grouping.now task + steps_count w i task)
        sizes.old sizes.new }
{
    match outs.next() {
        None => Ok(()),
        Some(out) => {
            add_groups(grouping, out.groups, sizes);
            owners.add_steps(out.counts.as_slice(), sizes);
            join_each(alloc, lists, out.outputs)
        }
    }
}
