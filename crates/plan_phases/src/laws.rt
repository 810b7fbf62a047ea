// What holds of a plan's phases: their traps are those of its tasks and acts.
ghost use Rattle.std.specs.Prelude.{◌≡◌, ◌<◌, Some, None};
ghost use Rattle.std.specs.List.{AllByRecursion, flat_map};
ghost use Rattle.flume_collection.specs.declared.trap.Trap.{Trap};
ghost use Rattle.exec_graph.specs.World.{World};
ghost use Rattle.task_lists.specs.of_exec_plan.declared.plan.Plan.{Plan};
ghost use Rattle.task_lists.specs.Tasks.{Split};
ghost use Rattle.task_lists.specs.Plans.{all_tasks, first_trap, task_traps};
ghost use Rattle.plan_phases.specs.Phases.{phases, phase_traps};
ghost use Rattle.plan_phases.specs.Told.{IsCalmPhase, IsFirstOf};

use task_lists::numbers_law;

/// The traps of the phases of a plan are those of its tasks, and of its acts that make objects.
pub fn phases_law()
    ensures traps { (w : World) (n : Split) (p : Plan) → 0 < n.shards → 0 < n.partitions →
        flat_map (phase_traps w) (phases w n p) ≡ all_tasks (task_traps w) w n p }
    // Where no phase has a trap, no task and no act of the plan has one.
    ensures calm { (w : World) (n : Split) (p : Plan) → 0 < n.shards → 0 < n.partitions →
        AllByRecursion (IsCalmPhase w) (phases w n p) → first_trap w n p ≡ None }
    // The first is that of the least trapping task, or of the act, of the first phase that has one.
    ensures first { (w : World) (n : Split) (p : Plan) (trap : Trap) → 0 < n.shards →
        0 < n.partitions → IsFirstOf w (phases w n p) trap → first_trap w n p ≡ Some trap }
{
    numbers_law();
}
