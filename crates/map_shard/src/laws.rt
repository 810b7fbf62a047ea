// When the map tasks of a stage can be made, and what their outs are together.
ghost use Rattle.std.specs.Prelude.{◌≡◌, ◌*◌, ◌<◌, ◌≤◌, ℕ, List, Ok, Some, length, slice_get};
ghost use Rattle.exec_graph.specs.World.{World};
ghost use Rattle.exec_plan.specs.declared.plan.Mscr.{Mscr};
ghost use Rattle.exec_plan.specs.declared.plan.Stage.TheVariants as stage;
ghost use Rattle.flume_value.specs.declared.value.Value.{Value};
ghost use Rattle.forest_steps.specs.Functions.{world_of};
ghost use Rattle.shuffle_parts.specs.declared.out.MapOut.{MapOut};
ghost use Rattle.task_safety.specs.of_task_lists.Outs.{AreMapOuts};
ghost use Rattle.task_safety.specs.Stages.{CanRunStage};
ghost use Rattle.map_shard.specs.Tables.{split_into, table};
ghost use Rattle.map_shard.specs.Work.{CanWork, IsWorkValue, work_of};

use forest_steps::Functions;
use task_safety::task_lists::typed_law;
use task_safety::{safe_law, taken_law};

/// The map tasks of a stage that can be run over the lists that it finds can be made; and outs that
/// are values of these tasks are outs of the stage's map tasks.
pub fn map_tasks_law<F: Functions>(functions: &F)
    ensures can_work { (w : World) (sources : List (List Value))
        (results : List (List (List Value))) (s : Mscr) (k shards partitions : ℕ) →
        w.called ≡ F.called functions.now → 0 < shards → shards ≤ 1024 → 0 < partitions →
        CanRunStage w (F.can_call functions.now) k (table sources results) (stage.Mscr s) →
        CanWork (world_of (F.called functions.now)) (F.can_call functions.now)
        (work_of functions.now sources results s shards partitions) }
    ensures outs { (w : World) (sources : List (List Value)) (results : List (List (List Value)))
        (s : Mscr) (shards partitions : ℕ) (outs : List MapOut) →
        w.called ≡ F.called functions.now → length outs ≡ length s.inputs * shards →
        ((k : ℕ) (out : MapOut) → slice_get outs k ≡ Some out →
        IsWorkValue (F.called functions.now)
        (work_of functions.now sources results s shards partitions) k (Ok out)) →
        AreMapOuts w (split_into shards partitions) (table sources results) s outs }
{
    typed_law();
    safe_law();
    taken_law(functions);
}
