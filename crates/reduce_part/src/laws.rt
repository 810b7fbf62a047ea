// What the reduce tasks of a stage may rely on, and when they can be made.
ghost use Rattle.std.specs.Prelude.{◌≡◌, ◌<◌, ◌≤◌, ℕ, List, Option, Some, length};
ghost use Rattle.flume_value.specs.declared.value.Value.{Value};
ghost use Rattle.bag_groups.specs.Groups.{grouped};
ghost use Rattle.combine_table.specs.declared.comb.Comb.{Comb};
ghost use Rattle.shuffle_parts.specs.declared.out.MapOut.{MapOut};
ghost use Rattle.exec_plan.specs.declared.plan.Mscr.{Mscr};
ghost use Rattle.exec_plan.specs.declared.plan.Stage.{Stage};
ghost use Rattle.exec_graph.specs.World.{World};
ghost use Rattle.exec_plan.specs.declared.plan.Stage.TheVariants as stage;
ghost use Rattle.exec_plan.specs.Wellformed.{IsMscrOk};
ghost use Rattle.forest_steps.specs.Functions.{world_of};
ghost use Rattle.lifted_root.specs.of_task_lists.Outs.{AreMapOuts};
ghost use Rattle.lifted_root.specs.of_task_lists.Tasks.{Lists, Split};
ghost use Rattle.task_safety.specs.Stages.{CanRunStage};
ghost use Rattle.reduce_part.specs.Reducing.{AreGroupsFirst, CanReduce, IsGathered, group_count, reducing_of};

use forest_steps::Functions;
use lifted_root::task_lists::typed_law;
use task_safety::{safe_law, taken_law};

/// In a stage of a well-formed plan the grouping channels stand before the others, as the reduce
/// tasks ask. A task has as many places as whichever pairs are gathered there have groups.
pub fn reducing_law()
    ensures first { (sources : ℕ) (before : List Stage) (s : Mscr) →
        IsMscrOk sources before s → AreGroupsFirst s.outputs }
    ensures count { (lifted : Option Comb) (outs : List MapOut) (r p : ℕ) (pairs : List Value) →
        IsGathered lifted outs r p pairs →
        group_count lifted outs r p ≡ Some (length (grouped pairs)) }
{}

/// The reduce tasks of a stage that can be run over the lists that it finds can be made, over outs
/// of its map tasks.
pub fn reduce_tasks_law<F: Functions>(functions: &F)
    ensures can_reduce { (w : World) (n : Split) (t : Lists) (s : Mscr) (outs : List MapOut)
        (k : ℕ) → w.called ≡ F.called functions.now → 0 < n.shards → 0 < n.partitions →
        n.partitions ≤ 64 → CanRunStage w (F.can_call functions.now) k t (stage.Mscr s) →
        AreMapOuts w n t s outs →
        CanReduce (world_of (F.called functions.now)) (F.can_call functions.now)
        (reducing_of functions.now s outs n.partitions) }
{
    typed_law();
    safe_law();
    taken_law(functions);
    reducing_law();
}
