// What the steps of map tasks have counted.
ghost use Rattle.std.specs.Prelude.{◌≡◌, ◌<◌, ◌*◌, ℕ, length, map, sum, IfOk, OnOk};
ghost use Rattle.exec_graph.specs.World.{World};
ghost use Rattle.stage_phases.specs.of_map_shard.Tables.{split_into};
ghost use Rattle.step_counts.specs.Owners.{owners_of};
ghost use Rattle.step_counts.specs.Sizes.{HaveGrown};
ghost use Rattle.task_lists.specs.Outs.{AreMapOuts};
ghost use Rattle.task_lists.specs.Plans.{task_counts};
ghost use Rattle.task_lists.specs.Tasks.{Lists, map_phase};

use exec_plan::{InChannel, Mscr};
use shuffle_parts::MapOut;
use std::alloc::{AllocError, Global};
use step_counts::Owners;
use task_lists::numbers_law;

/// Adds what the steps of the map tasks of a stage have counted to the sizes of script nodes.
pub fn add_map_counts(
    alloc: Global,
    stage: &Mscr,
    shards: u32,
    outs: &[MapOut],
    sizes: &mut [u64],
) -> Result<(), AllocError>
    requires some { 0 < shards }
    requires count { length outs.now ≡ length stage.now.inputs * shards }
    ensures { (w : World) (partitions : ℕ) (t : Lists) →
        AreMapOuts w (split_into shards partitions) t stage.now outs.now →
        OnOk result (HaveGrown
        (λ i. sum (map_phase (task_counts w i).maps (split_into shards partitions) t stage.now))
        sizes.old sizes.new) }
{
    numbers_law();
    let owners = owners_of_inputs(alloc, stage.inputs.as_slice())?;
    for (k, out) in outs.iter().enumerate() {
        owners[k / shards as usize].add_steps(out.counts.as_slice(), sizes);
    }
    Ok(())
}

// Whose own bags the outputs of the steps of each input channel are.
fn owners_of_inputs(alloc: Global, inputs: &[InChannel]) -> Result<Vec<Owners>, AllocError>
    ensures { IfOk result (λ owners. owners.items ≡ map (λ c. owners_of c.does) inputs.now) }
{
    let mut owners = Vec::new(alloc);
    for channel in inputs {
        owners.push(Owners::new(alloc, &channel.does)?)?;
    }
    Ok(owners)
}
