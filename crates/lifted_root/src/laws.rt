// What the accumulators of keys answer is what the groups of the keys answer.
ghost use Rattle.std.specs.Prelude.{◌≡◌, ℕ, List, length};
ghost use Rattle.flume_value.specs.declared.value.Value.{Value};
ghost use Rattle.bag_groups.specs.Groups.{grouped};
ghost use Rattle.bag_groups.specs.Pairs.{pairs_of};
ghost use Rattle.combine_table.specs.declared.comb.Comb.{Comb};
ghost use Rattle.partial_tables.specs.Merges.{StandFor, merged_by_key};
ghost use Rattle.partial_tables.specs.Tables.{Pairs};
ghost use Rattle.exec_graph.specs.declared.step.Does.TheVariants as does;
ghost use Rattle.exec_graph.specs.Forests.{Branch, Bare, limb};
ghost use Rattle.exec_graph.specs.World.{World};
ghost use Rattle.forest_steps.specs.Running.{Given, run, run_each};
ghost use Rattle.lifted_root.specs.Lifted.{run_partial};

/// Where accumulators stand for pairs and a step combines, the step on the accumulators, merged by
/// key, does what it does on the groups of the pairs, one after another. There are as many of them.
pub fn keys_law()
    ensures runs { (w : World) (sizes : List ℕ) (b : Branch) (c : Comb) (partials : Pairs)
        (pairs : List Value) (g : Given) → b.does ≡ does.Combine c →
        StandFor c partials (pairs_of pairs) →
        run_each (run_partial w sizes b c) (merged_by_key c partials) g
        ≡ run_each (run w sizes 0 (limb b Bare)) (grouped pairs) g }
    ensures count { (c : Comb) (partials : Pairs) (pairs : List Value) →
        StandFor c partials (pairs_of pairs) →
        length (merged_by_key c partials) ≡ length (grouped pairs) }
{}
