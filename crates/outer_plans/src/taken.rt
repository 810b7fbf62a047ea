// A plan from outside, as one of a program.
ghost use Rattle.std.specs.Prelude.{◌≡◌, IfOk};
ghost use Rattle.exec_graph.specs.Wellformed.{IsGraphOk};
ghost use Rattle.plan_texts.specs.of_graph_build.Graphs.{graph_of};
ghost use Rattle.script_plans.specs.of_script_laws.WellFormed.{IsWellFormed};
ghost use Rattle.script_plans.specs.Plans.{MeansGraph};
ghost use Rattle.outer_plans.specs.Plans.{IsAnswer};

use crate::checks::check_plan;
use exec_graph::Graph;
use exec_plan::Plan;
use plan_faults::PlanFault;
use plan_texts::script_program::Program;
use script_plans::passes_law;
use std::alloc::Global;

/// The plan that the bytes of a file tell, as one of a program, whose execution graph this is.
/// Whatever they say, it means what the graph means.
pub fn taken_plan(
    alloc: Global,
    program: &Program,
    graph: Graph,
    bytes: &[u8],
) -> Result<Plan, PlanFault>
    requires well_formed { IsWellFormed program.now.script }
    requires built { graph ≡ graph_of program.now.script }
    requires ok { IsGraphOk graph }
    ensures answer { IsAnswer program.now.script bytes.now result }
    ensures means { IfOk result (MeansGraph program.now.script) }
{
    passes_law();
    check_plan(alloc, program, graph, bytes)
}
