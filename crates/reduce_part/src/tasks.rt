// The reduce tasks of a stage.
ghost use Rattle.std.specs.Prelude.{◌≡◌, length};
ghost use Rattle.lifted_root.specs.of_task_lists.Tasks.{groupings};
ghost use Rattle.forest_steps.specs.Functions.{world_of};
ghost use Rattle.reduce_part.specs.Reducing.{CanReduce, reducing_of};

use crate::out::Reduced;
use crate::reduce::reduce_partition;
use crew::{Attempt, Spot, Tasks};
use exec_plan::{Mscr, OutChannel};
use forest_steps::Functions;
use outside::Host;
use shuffle_parts::MapOut;
use std::alloc::{AllocError, Global};
use std::marker::Model;

/// The reduce tasks of a stage: partition p of grouping channel r is task r * partitions + p.
/// Contracts see all that they read as a `Reducing`, whose tasks can be made.
#[derive(Drop)]
pub struct ReduceTasks<'a, F: Functions> {
    functions: &'a F,
    stage: &'a Mscr,
    outs: &'a [MapOut],
    partitions: u32,
}

impl<'a, F: Functions> Model for ReduceTasks<'a, F> {
    ghost use Rattle.forest_steps.specs.Functions.{world_of};
    ghost use Rattle.reduce_part.specs.Reducing.{CanReduce, Reducing, reducing_code, reducing_of};

    ghost Value = { Reducing F };

    ghost coded = { reducing_code F.code };

    ghost view = { λ r. reducing_of r.functions.now r.stage.now r.outs.now r.partitions };

    ghost invariant = { λ r.
        CanReduce (world_of (F.called r.functions.now)) (F.can_call r.functions.now)
        (reducing_of r.functions.now r.stage.now r.outs.now r.partitions) };
}

impl<'a, F: Functions> ReduceTasks<'a, F> {
    /// The reduce tasks of a stage over the outs of its map tasks, of so many partitions.
    pub fn new(
        functions: &'a F,
        stage: &'a Mscr,
        outs: &'a [MapOut],
        partitions: u32,
    ) -> ReduceTasks<'a, F>
        requires { CanReduce (world_of (F.called functions.now)) (F.can_call functions.now)
            (reducing_of functions.now stage.now outs.now partitions) }
        ensures { result ≡ reducing_of functions.now stage.now outs.now partitions }
    {
        ReduceTasks {
            functions,
            stage,
            outs,
            partitions,
        }
    }
}

impl<'a, F: Functions + Sync> Tasks for ReduceTasks<'a, F> {
    ghost use Rattle.reduce_part.specs.Reducing.{IsReducingValue, reducing_count, reducing_places};

    type Out = Reduced;

    ghost count_of = { reducing_count };

    ghost is_value = { λ r. IsReducingValue (F.called r.functions) r };

    ghost places = { reducing_places };

    fn count(&self) -> u32 {
        count_groupings(self.stage.outputs.as_slice()) as u32 * self.partitions
    }

    fn attempt<H: Host>(
        &self,
        alloc: Global,
        task: u32,
        host: &mut H,
        at: &Spot,
    ) -> Result<Attempt<Reduced>, AllocError> {
        let channel = (task / self.partitions) as usize;
        let partition = (task % self.partitions) as usize;
        match &self.stage.outputs.as_slice()[channel] {
            OutChannel::Group(grouping) => reduce_partition(
                alloc,
                self.functions,
                grouping,
                self.outs,
                channel,
                partition,
                host,
                at,
                task,
            ),
            OutChannel::Pass(_, _) => unreachable!(),
        }
    }
}

/// How many of the channels group.
fn count_groupings(channels: &[OutChannel]) -> usize
    ensures { result ≡ length (groupings channels.now) }
{
    let mut count = 0;
    for channel in channels {
        if matches!(channel, OutChannel::Group(_)) {
            count += 1;
        }
    }
    count
}
