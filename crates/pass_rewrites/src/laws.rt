// That the passes but forming are lists of rewrites.
ghost use Rattle.std.specs.Prelude.{ℕ, List};
ghost use Rattle.exec_graph.specs.Wellformed.{IsGraphOk};
ghost use Rattle.exec_graph.specs.declared.graph.Blocked.{Blocked};
ghost use Rattle.exec_graph.specs.declared.graph.Graph.{Graph};
ghost use Rattle.fusion_blocks.specs.Blocks.{IsBlocked, unmarked};
ghost use Rattle.graph_laws.specs.Lifting.{lifted};
ghost use Rattle.graph_laws.specs.Single.{HasNarrowSteps, IsUnfused};
ghost use Rattle.graph_rewrites.specs.Replays.{Leads};
ghost use Rattle.graph_rewrites.specs.declared.rewrite.Rewrite.{Rewrite};
ghost use Rattle.optimise.specs.Optimised.{IsRefined};
ghost use Rattle.fuse_chain.specs.of_pardo_fuse.Fusing.{fused};
ghost use Rattle.fuse_chain.specs.of_pardo_fuse.Wellformed.{IsFusible};
ghost use Rattle.pass_rewrites.specs.Passes.{ByFusing, ByRewrites};
ghost use Rattle.sink_laws.specs.Chain.{IsSunk};

/// Each pass but forming is a list of rewrites of its own group, each of which may be made where
/// those before it lead: sinking of merges and sinks, lifting of lifts, fusing of siblings and then
/// kids, in both parts in ascending order of the numbers that the Pdos that go had before, and
/// marking of marks. What comes of two Pdos has the lesser of their numbers.
pub fn passes_law()
    ensures sink { (g h : Graph) → IsGraphOk g → IsSunk g h →
        ByRewrites 0 (unmarked g) (unmarked h) }
    ensures lift { (g : Graph) → IsGraphOk g → ByRewrites 1 (unmarked g) (unmarked (lifted g)) }
    ensures fuse { (b : Blocked) → IsFusible b → ByFusing b.graph (fused b).graph }
    ensures mark { (scales : List ℕ) (b : Blocked) → IsGraphOk b.graph → IsBlocked scales b →
        ByRewrites 3 (unmarked b.graph) b }
    ensures fused_marks { (b : Blocked) (scales : List ℕ) → IsFusible b → IsBlocked scales b →
        ByRewrites 3 (unmarked (fused b).graph) (fused b) }
{}

/// What the passes before forming make of a graph is what one list of rewrites leads to: merges and
/// sinks, then lifts, then siblings and kids, then marks.
pub fn refined_law()
    ensures { (scales : List ℕ) (g : Graph) (b : Blocked) → IsGraphOk g → IsUnfused g →
        HasNarrowSteps g → IsRefined scales g b →
        (rs : List Rewrite) × Leads 0 rs (unmarked g) b }
{}
