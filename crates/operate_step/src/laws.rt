// What acts give where an object that they take has no value.
ghost use Rattle.std.specs.Prelude.{◌≡◌, ℕ, List, None};
ghost use Rattle.flume_collection.specs.Collection.{Collection};
ghost use Rattle.exec_graph.specs.declared.graph.Act.TheVariants as act;
ghost use Rattle.exec_graph.specs.Objects.{act_result, none_of, values_in};
ghost use Rattle.exec_graph.specs.World.{World};

/// Where an object has no value, no function is called on its value or beside it. What is given is
/// empty, with the traps behind all that is taken.
pub fn no_value_law()
    ensures { (w : World) (origin f : ℕ) (objects : List Collection) → values_in objects ≡ None →
        act_result w origin (act.Operate f) objects ≡ none_of objects }
{}
