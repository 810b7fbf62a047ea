// That the file of a plan and of its rewrites is taken.
ghost use Rattle.std.specs.Prelude.{◌≡◌, ◌++◌, List, Ok, Err, Result, codes};
ghost use Rattle.std.specs.List.{AllByRecursion};
ghost use Rattle.exec_graph.specs.Wellformed.{IsGraphOk};
ghost use Rattle.exec_graph.specs.declared.graph.Graph.{Graph};
ghost use Rattle.exec_plan.specs.declared.plan.Plan.{Plan};
ghost use Rattle.graph_rewrites.specs.declared.rewrite.Rewrite.{Rewrite};
ghost use Rattle.plan_check.specs.Checked.{Forms, IsChecked};
ghost use Rattle.plan_faults.specs.declared.fault.PlanFault.{PlanFault};
ghost use Rattle.plan_faults.specs.declared.fault.PlanFault.TheVariants.{Memory};
ghost use Rattle.plan_file_law.specs.Files.{plan_file_text};
ghost use Rattle.plan_file_law.specs.of_plan_files.Written.{HasSmallNumbers};
ghost use Rattle.plan_writing.specs.Naming.{Naming};

use plan_check::answer_law;
use plan_file_law::file_law;

/// The file of a plan and of rewrites that lead to it is taken, with that very plan: what is told
/// of it is the plan, or there was no memory. So it is as a line, with its line feed.
pub fn accepted_law()
    ensures text { (names : Naming) (g : Graph) (rewrites : List Rewrite) (plan : Plan)
        (answer : Result Plan PlanFault) → IsGraphOk g → AllByRecursion HasSmallNumbers rewrites →
        Forms g rewrites plan → IsChecked names g (plan_file_text names plan rewrites) answer →
        (answer ≡ Err Memory → ⊥) → answer ≡ Ok plan }
    ensures line { (names : Naming) (g : Graph) (rewrites : List Rewrite) (plan : Plan)
        (answer : Result Plan PlanFault) → IsGraphOk g → AllByRecursion HasSmallNumbers rewrites →
        Forms g rewrites plan →
        IsChecked names g (plan_file_text names plan rewrites ++ codes "\n") answer →
        (answer ≡ Err Memory → ⊥) → answer ≡ Ok plan }
{
    answer_law();
    file_law();
}
