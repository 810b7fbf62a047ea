// That the passes leave one result.
ghost use Rattle.std.specs.Prelude.{◌≡◌, ℕ, List};
ghost use Rattle.exec_graph.specs.Readers.{among};
ghost use Rattle.exec_graph.specs.Wellformed.{IsGraphOk};
ghost use Rattle.exec_graph.specs.declared.graph.Blocked.{Blocked};
ghost use Rattle.exec_graph.specs.declared.graph.Graph.{Graph};
ghost use Rattle.exec_graph.specs.declared.graph.Place.{Place};
ghost use Rattle.exec_plan.specs.declared.plan.Plan.{Plan};
ghost use Rattle.optimise.specs.Optimised.{CanOptimise, IsOptimised, IsRefined};

/// A graph that the passes can take has a plan, and just one. The passes before forming leave one
/// graph of a well-formed one, and the same collections marked in it, in whichever list these are
/// told; and there always is what they leave.
pub fn one_law()
    ensures some { (scales : List ℕ) (g : Graph) → CanOptimise g →
        (p : Plan) × IsOptimised scales g p }
    ensures plan { (scales : List ℕ) (g : Graph) (p q : Plan) → CanOptimise g →
        IsOptimised scales g p → IsOptimised scales g q → p ≡ q }
    ensures graph { (scales : List ℕ) (g : Graph) (a b : Blocked) → IsGraphOk g →
        IsRefined scales g a → IsRefined scales g b → a.graph ≡ b.graph }
    ensures marks { (scales : List ℕ) (g : Graph) (a b : Blocked) → IsGraphOk g →
        IsRefined scales g a → IsRefined scales g b → (d : Place) →
        among d a.marks ≡ among d b.marks }
    ensures refined { (scales : List ℕ) (g : Graph) → IsGraphOk g →
        (b : Blocked) × IsRefined scales g b }
{}
