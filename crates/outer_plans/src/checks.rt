// A plan from outside, by the names of its program.
ghost use Rattle.std.specs.Prelude.{IfOk};
ghost use Rattle.exec_graph.specs.Typing.{IsTyped, Signatures};
ghost use Rattle.exec_graph.specs.World.{World};
ghost use Rattle.exec_plan.specs.Typing.{IsPlanTyped};
ghost use Rattle.exec_plan.specs.Wellformed.{IsPlanOk};
ghost use Rattle.script_plans.specs.of_optimise.Optimised.{CanOptimise};
ghost use Rattle.plan_tracing.specs.of_plan_check.Checked.{IsChecked};
ghost use Rattle.plan_laws.specs.Operations.{SamePlan};
ghost use Rattle.plan_texts.specs.Texts.{naming_of};

use exec_graph::Graph;
use exec_plan::Plan;
use plan_faults::PlanFault;
use plan_texts::ProgramNames;
use plan_texts::script_program::Program;
use std::alloc::Global;

/// The plan that a file tells under the names of a program, whose rewrites lead from the graph to
/// it. Whatever the file says, it is well-formed and means what the graph means.
pub(crate) fn check_plan(
    alloc: Global,
    program: &Program,
    graph: Graph,
    bytes: &[u8],
) -> Result<Plan, PlanFault>
    requires { CanOptimise graph }
    ensures checked { IsChecked (naming_of program.now.script) graph bytes.now result }
    ensures same { IfOk result (λ plan. (w : World) → SamePlan w graph plan) }
    ensures well_formed { IfOk result (λ plan. IsPlanOk plan) }
    ensures types { IfOk result (λ plan. (s : Signatures) → IsTyped s graph →
        IsPlanTyped s plan) }
{
    plan_tracing::plan_check::check_plan(alloc, &ProgramNames { program }, graph, bytes)
}
