// What holds of a typed run: each step of a task may be called, and each stage can be run.
ghost use Rattle.std.specs.Prelude.{◌≡◌, ◌+◌, ℕ, Bool, List, map, Option, Some, slice_get};
ghost use Rattle.std.specs.List.{AllByRecursion};
ghost use Rattle.flume_value.specs.declared.value.Value.{Value};
ghost use Rattle.exec_graph.specs.declared.graph.Act.TheVariants as act;
ghost use Rattle.exec_graph.specs.Forests.{Forest};
ghost use Rattle.exec_graph.specs.Objects.{argument, world_beside, values_in};
ghost use Rattle.exec_graph.specs.Typing.{Signatures, IsWorldTyped};
ghost use Rattle.exec_graph.specs.World.{World};
ghost use Rattle.exec_plan.specs.declared.plan.Plan.{Plan};
ghost use Rattle.exec_plan.specs.declared.plan.PlanPlace.{PlanPlace};
ghost use Rattle.exec_plan.specs.declared.plan.Stage.{Stage};
ghost use Rattle.exec_plan.specs.declared.plan.Stage.TheVariants as stage;
ghost use Rattle.exec_plan.specs.Wellformed.{IsPlanOk};
ghost use Rattle.forest_courses.specs.of_forest_steps.Functions.{world_of};
ghost use Rattle.forest_courses.specs.of_forest_steps.Safety.{SafeOf};
ghost use Rattle.forest_courses.specs.of_task_lists.Lists.{calm_list};
ghost use Rattle.forest_courses.specs.of_task_lists.Tasks.{Lists, Split, Task, world_for};
ghost use Rattle.forest_courses.specs.of_task_lists.Typing.{IsTaskTyped};
ghost use Rattle.task_safety.specs.Stages.{AreSoFar, CanRunStage, IsTypedRun};
ghost use Rattle.task_safety.specs.Taking.{Takes, taking};

use forest_courses::forest_steps::Functions;

/// Over a typed world the steps of a task that fits its types may be called on its elements, beside
/// the value of its object where there is one.
pub fn safe_law()
    ensures { (s : Signatures) (w : World) (task : Task) → IsWorldTyped s w → IsTaskTyped s task →
        AllByRecursion (SafeOf (world_for w task) (taking task.beside (Takes s)) task.does)
        task.elements }
{}

/// Steps that may be called by the signatures may be called of functions that take what these say,
/// and answer as the world does.
pub fn taken_law<F: Functions>(functions: &F)
    ensures { (s : Signatures) (w : World) (v : Option Value) (does : Option Forest)
        (xs : List Value) → w.called ≡ F.called functions.now →
        ((f : ℕ) (x : Value) → Takes s f x → F.can_call functions.now f x) →
        AllByRecursion (SafeOf (world_beside v w) (taking v (Takes s)) does) xs →
        AllByRecursion (SafeOf (world_beside v (world_of (F.called functions.now)))
        (taking v (F.can_call functions.now)) does) xs }
{}

/// In a stage that can be run, a function of objects may be called on what it is called on.
pub fn act_law<F: Functions>(functions: &F)
    ensures { (w : World) (k origin f : ℕ) (last : Bool) (t : Lists) (takes : List PlanPlace)
        (values : List Value) → CanRunStage w (F.can_call functions.now) k t
        (stage.Operate takes origin last (act.Operate f)) →
        values_in (map (calm_list t) takes) ≡ Some values →
        F.can_call functions.now f (argument values) }
{}

/// Each stage of a well-formed plan, in a typed run, can be run over the lists so far: it is stage
/// k + 1 where k stages have run before it.
pub fn stage_law<F: Functions>(functions: &F)
    ensures ready { (w : World) (n : Split) (p : Plan) (k : ℕ) (s : Stage) (t : Lists) →
        IsPlanOk p → IsTypedRun w (F.can_call functions.now) p →
        slice_get p.stages k ≡ Some s → AreSoFar w n p k t →
        CanRunStage w (F.can_call functions.now) (k + 1) t s }
{}
