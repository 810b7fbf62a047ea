// The laws that the passes keep a graph within the bounds of plans.
ghost use Rattle.std.specs.Prelude.{◌<◌, ◌^◌, ℕ, Bool};
ghost use Rattle.sink_laws.specs.of_exec_graph.declared.graph.Blocked.{Blocked};
ghost use Rattle.sink_laws.specs.of_exec_graph.declared.graph.Graph.{Graph};
ghost use Rattle.sink_laws.specs.of_graph_laws.Lifting.{lifted};
ghost use Rattle.pardo_fuse.specs.Fusing.{fused};
ghost use Rattle.pardo_fuse.specs.Wellformed.{IsFusible};
ghost use Rattle.sink_laws.specs.of_graph_laws.Single.{HasNarrowSteps};
ghost use Rattle.plan_rules.specs.Fitting.{HasSourcesBelow, IsInBounds};
ghost use Rattle.sink_laws.specs.Chain.{IsSunk};
ghost use Rattle.sink_laws.specs.of_exec_graph.ObjectFree.{IsObjectFree};
ghost use Rattle.graph_bounds.specs.Sources.{AreOfKinds, HasKinds};
ghost use Rattle.sink_laws.specs.Kept.{KeepsSteps};

/// Sinking, lifting and fusing read no other sources.
pub fn sources_law()
    ensures sunk { (sources : ℕ) (g h : Graph) → IsSunk g h → HasSourcesBelow sources g →
        HasSourcesBelow sources h }
    ensures lifted { (sources : ℕ) (g : Graph) → HasSourcesBelow sources g →
        HasSourcesBelow sources (lifted g) }
    ensures fused { (sources : ℕ) (b : Blocked) → IsFusible b → HasSourcesBelow sources b.graph →
        HasSourcesBelow sources (fused b).graph }
{}

/// And the same of them are objects.
pub fn kinds_law()
    ensures sunk { (kind : ℕ → Bool) (g h : Graph) → IsSunk g h → HasKinds kind g →
        HasKinds kind h }
    ensures lifted { (kind : ℕ → Bool) (g : Graph) → HasKinds kind g → HasKinds kind (lifted g) }
    ensures fused { (kind : ℕ → Bool) (b : Blocked) → IsFusible b → HasKinds kind b.graph →
        HasKinds kind (fused b).graph }
{}

/// A graph without objects stays one, and the sources of one number are of one kind in it.
pub fn object_free_law()
    ensures sunk { (g h : Graph) → IsSunk g h → IsObjectFree g → IsObjectFree h }
    ensures lifted { (g : Graph) → IsObjectFree g → IsObjectFree (lifted g) }
    ensures fused { (b : Blocked) → IsFusible b → IsObjectFree b.graph →
        IsObjectFree (fused b).graph }
    ensures kinds { (g : Graph) → IsObjectFree g → AreOfKinds g }
{}

/// Sinking, which makes no other steps, and lifting leave the steps as wide as they were.
pub fn narrow_law()
    ensures sunk { (g h : Graph) → KeepsSteps g h → HasNarrowSteps g → HasNarrowSteps h }
    ensures lifted { (g : Graph) → HasNarrowSteps g → HasNarrowSteps (lifted g) }
{}

/// A graph that is fused of Pdos of one step with few outputs is within the bounds of plans, where
/// its numbers have 32 bits.
pub fn bounds_law()
    ensures { (sources : ℕ) (kind : ℕ → Bool) (b : Blocked) → IsFusible b →
        HasSourcesBelow sources b.graph → HasKinds kind b.graph →
        (fused b).graph.next < 2 ^ 32 → IsInBounds sources (fused b).graph }
{}
