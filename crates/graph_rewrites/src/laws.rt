// What a list of rewrites leads to.
ghost use Rattle.std.specs.Prelude.{◌≡◌, ◌<◌, ◌^◌, ℕ, List};
ghost use Rattle.graph_bounds.specs.of_exec_graph.Meaning.{SameMeaning};
ghost use Rattle.graph_bounds.specs.of_exec_graph.ObjectFree.{IsObjectFree};
ghost use Rattle.graph_bounds.specs.of_exec_graph.Typing.{KeepsTypes};
ghost use Rattle.graph_bounds.specs.of_exec_graph.Wellformed.{IsBlockedOk, IsGraphOk};
ghost use Rattle.graph_bounds.specs.of_exec_graph.declared.graph.Blocked.{Blocked};
ghost use Rattle.graph_bounds.specs.of_exec_graph.declared.graph.Graph.{Graph};
ghost use Rattle.fusion_blocks.specs.Blocks.{unmarked};
ghost use Rattle.graph_bounds.specs.Sources.{AreOfKinds};
ghost use Rattle.graph_bounds.specs.of_plan_rules.Fitting.{HasSourcesBelow, IsInBounds};
ghost use Rattle.graph_rewrites.specs.Replays.{HasNarrowForests, Leads, StopsAt};
ghost use Rattle.graph_rewrites.specs.Rewrites.{CanApply, after_kid, kid_under_other, rewritten};
ghost use Rattle.graph_rewrites.specs.declared.rewrite.Rewrite.{Rewrite};

/// A rewrite of a well-formed graph that may be made keeps it well-formed, its meaning the same,
/// and its types; so does one that gives the joined Pdo the lesser of both numbers.
pub fn rewrite_law()
    ensures well_formed { (b : Blocked) (r : Rewrite) → IsGraphOk b.graph → CanApply b r →
        IsGraphOk (rewritten b.graph r) }
    ensures same { (b : Blocked) (r : Rewrite) → IsGraphOk b.graph → CanApply b r →
        SameMeaning b.graph (rewritten b.graph r) }
    ensures types { (b : Blocked) (r : Rewrite) → IsGraphOk b.graph → CanApply b r →
        KeepsTypes b.graph (rewritten b.graph r) }
    ensures lesser { (g : Graph) (p k q : ℕ) → q < p →
        after_kid g p k q ≡ kid_under_other g p k q }
{}

/// What rewrites lead to from a well-formed graph is well-formed with its marks, means the same,
/// keeps types, and stays within the bounds of plans. A list leads to one graph, or it stops at one
/// rewrite, and not both.
pub fn replay_law()
    ensures well_formed { (rs : List Rewrite) (g : Graph) (b : Blocked) → IsGraphOk g →
        Leads 0 rs (unmarked g) b → IsBlockedOk b }
    ensures same { (rs : List Rewrite) (g : Graph) (b : Blocked) → IsGraphOk g →
        Leads 0 rs (unmarked g) b → SameMeaning g b.graph }
    ensures types { (rs : List Rewrite) (g : Graph) (b : Blocked) → IsGraphOk g →
        Leads 0 rs (unmarked g) b → KeepsTypes g b.graph }
    ensures bounds { (sources : ℕ) (rs : List Rewrite) (g : Graph) (b : Blocked) → IsGraphOk g →
        Leads 0 rs (unmarked g) b → HasSourcesBelow sources g → AreOfKinds g →
        HasNarrowForests g → b.graph.next < 2 ^ 32 → IsInBounds sources b.graph }
    ensures object_free { (rs : List Rewrite) (g : Graph) (b : Blocked) →
        Leads 0 rs (unmarked g) b → IsObjectFree g → IsObjectFree b.graph }
    ensures one { (group : ℕ) (rs : List Rewrite) (a b c : Blocked) → Leads group rs a b →
        Leads group rs a c → b ≡ c }
    ensures first { (group : ℕ) (rs : List Rewrite) (a : Blocked) (i j : ℕ) →
        StopsAt group rs a i → StopsAt group rs a j → i ≡ j }
    ensures either { (group : ℕ) (rs : List Rewrite) (a b : Blocked) (i : ℕ) →
        Leads group rs a b → StopsAt group rs a i → ⊥ }
{}
