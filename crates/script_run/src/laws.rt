// The law that leads from a plan to what its script means.
ghost use Rattle.std.specs.Prelude.{◌≡◌, ◌<◌, ℕ, [], List, Option, Some, length, map, slice_get};
ghost use Rattle.std.specs.List.{AllZip, Contains};
ghost use Rattle.run_sizes.specs.of_build_law.Means.{IsMeaning};
ghost use Rattle.run_sizes.specs.of_direct_meaning.Direct.{traps_of};
ghost use Rattle.exec_graph.specs.World.{World};
ghost use Rattle.exec_plan.specs.Meaning.{emitted_by, plan_collection, plan_traps};
ghost use Rattle.exec_plan.specs.declared.plan.Plan.{Plan};
ghost use Rattle.flume_collection.specs.Collection.{Collection};
ghost use Rattle.flume_collection.specs.declared.trap.Trap.{Trap};
ghost use Rattle.flume_value.specs.declared.value.Value.{Value};
ghost use Rattle.run_sizes.specs.of_graph_build.Graphs.{graph_of};
ghost use Rattle.plan_laws.specs.Operations.{SamePlan};
ghost use Rattle.run_sizes.specs.Counts.{AreOwnCounts};
ghost use Rattle.run_sizes.specs.of_script_program.Script.{Script};
ghost use Rattle.task_lists.specs.Runs.{kept_count};
ghost use Rattle.script_run.specs.Comes.{AreMembersOf};

/// What a plan comes to is what its script means, where the plan means what the script's graph
/// means, and that what the script means: its traps, the members that outputs write, and what is
/// counted for each collection.
pub fn plan_law()
    ensures through { (w : World) (script : Script) (plan : Plan)
        (made : List (Option Collection)) → IsMeaning w script made (graph_of script) →
        SamePlan w (graph_of script) plan → plan_traps w plan ≡ [] → traps_of made ≡ [] }
    ensures among { (w : World) (script : Script) (plan : Plan)
        (made : List (Option Collection)) (trap : Trap) →
        IsMeaning w script made (graph_of script) → SamePlan w (graph_of script) plan →
        Contains (plan_traps w plan) trap → Contains (traps_of made) trap }
    ensures written { (w : World) (script : Script) (plan : Plan)
        (made : List (Option Collection)) (bags : List (List Value)) →
        IsMeaning w script made (graph_of script) → SamePlan w (graph_of script) plan →
        bags ≡ map (λ c. (plan_collection w plan c).bag) plan.outputs →
        AllZip (λ output bag. AreMembersOf made output.1.reads bag) script.outputs bags }
    ensures counts { (w : World) (script : Script) (plan : Plan)
        (made : List (Option Collection)) (counts : List ℕ) →
        IsMeaning w script made (graph_of script) → SamePlan w (graph_of script) plan →
        ((i : ℕ) → i < length script.nodes →
        slice_get counts i ≡ Some (kept_count (length (emitted_by w plan i)))) →
        AreOwnCounts script made counts }
{}
