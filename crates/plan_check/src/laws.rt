// That a file has one answer.
ghost use Rattle.std.specs.Prelude.{◌≡◌, ℕ, List, Result, Err};
ghost use Rattle.exec_graph.specs.Wellformed.{IsGraphOk};
ghost use Rattle.exec_graph.specs.declared.graph.Graph.{Graph};
ghost use Rattle.exec_plan.specs.declared.plan.Plan.{Plan};
ghost use Rattle.plan_writing.specs.Naming.{Naming};
ghost use Rattle.plan_check.specs.Checked.{IsChecked};
ghost use Rattle.plan_faults.specs.declared.fault.PlanFault.{PlanFault};
ghost use Rattle.plan_faults.specs.declared.fault.PlanFault.TheVariants.{Memory};

/// Of a graph and the bytes of a file there is one answer, want of memory aside: so each plan is
/// taken, and each refusal comes, exactly where it is told so.
pub fn answer_law()
    ensures { (names : Naming) (g : Graph) (bytes : List ℕ) (a b : Result Plan PlanFault) →
        IsGraphOk g → IsChecked names g bytes a → IsChecked names g bytes b →
        (a ≡ Err Memory → ⊥) → (b ≡ Err Memory → ⊥) → a ≡ b }
{}
