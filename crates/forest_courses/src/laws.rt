// What the steps give of a task's elements is what the task's meaning says of it.
ghost use Rattle.std.specs.Prelude.{◌≡◌, ◌<◌, ◌^◌, ◌∷◌, [], ℕ, List, Option, Some, None, Ok, Err};
ghost use Rattle.flume_value.specs.declared.value.Value.{Value};
ghost use Rattle.flume_collection.specs.declared.trap.Trap.{Trap};
ghost use Rattle.forest_steps.specs.of_exec_graph.Forests.{Forest, next_after, numbered};
ghost use Rattle.forest_steps.specs.of_exec_graph.World.{World};
ghost use Rattle.task_lists.specs.Runs.{all_emissions, counts_of, traps_in_order};
ghost use Rattle.forest_steps.specs.Fresh.{none_given};
ghost use Rattle.forest_steps.specs.Places.{outputs_in, sizes_in};
ghost use Rattle.forest_steps.specs.Running.{Given, run, run_each};
ghost use Rattle.forest_courses.specs.Courses.{IsCourse};

/// Of a world nothing but its functions matters to the steps of a forest: what they give and
/// count, and what traps.
pub fn worlds_law()
    ensures given { (v w : World) (f : Option Forest) (xs : List Value) → v.called ≡ w.called →
        all_emissions v f xs ≡ all_emissions w f xs }
    ensures traps { (v w : World) (f : Option Forest) (xs : List Value) → v.called ≡ w.called →
        traps_in_order v f xs ≡ traps_in_order w f xs }
    ensures counts { (v w : World) (f : Option Forest) (xs : List Value) → v.called ≡ w.called →
        counts_of v f xs ≡ counts_of w f xs }
{}

/// The steps of a forest on elements, one after another, where nothing was given before: they give
/// what the task's outputs are given, with the counts, or end by the first trap. Without steps the
/// one output is given the elements.
pub fn course_law()
    ensures made { (w : World) (f : Forest) (xs : List Value) (given : Given) →
        numbered 0 f ≡ f → outputs_in f < 2 ^ 64 →
        run_each (run w (sizes_in f) 0 f) xs (none_given (next_after 0 f) (outputs_in f)) ≡ Ok given
        →
        IsCourse w (Some f) xs (Ok given) }
    ensures trapped { (w : World) (sizes : List ℕ) (f : Forest) (xs : List Value) (start : Given)
        (trap : Trap) → run_each (run w sizes 0 f) xs start ≡ Err trap →
        IsCourse w (Some f) xs (Err trap) }
    ensures whole { (w : World) (xs : List Value) (given : Given) → given.lists ≡ xs ∷ [] →
        given.counts ≡ [] → IsCourse w None xs (Ok given) }
{}
