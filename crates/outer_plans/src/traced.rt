// The plan of a program, with rewrites that lead to it.
ghost use Rattle.std.specs.Prelude.{◌≡◌, IfOk};
ghost use Rattle.std.specs.List.{AllByRecursion};
ghost use Rattle.exec_graph.specs.Wellformed.{IsGraphOk};
ghost use Rattle.plan_texts.specs.of_graph_build.Graphs.{graph_of};
ghost use Rattle.plan_tracing.specs.of_plan_files.Written.{HasSmallNumbers};
ghost use Rattle.script_plans.specs.of_script_laws.WellFormed.{IsWellFormed};
ghost use Rattle.script_plans.specs.Plans.{IsScriptPlan};
ghost use Rattle.outer_plans.specs.Plans.{LeadTo, StandInOrder};

use exec_graph::Graph;
use plan_texts::script_program::Program;
use plan_tracing::{Traced, optimise_traced};
use script_plans::{passes_law, scales_of};
use std::alloc::{AllocError, Global};

/// The plan of a program, whose execution graph this is, with rewrites that lead from the graph to
/// it.
pub fn traced_plan(alloc: Global, program: &Program, graph: Graph) -> Result<Traced, AllocError>
    requires well_formed { IsWellFormed program.now.script }
    requires built { graph ≡ graph_of program.now.script }
    requires ok { IsGraphOk graph }
    ensures optimised { IfOk result (λ it. IsScriptPlan program.now.script it.plan) }
    ensures leads { IfOk result (λ it. LeadTo program.now.script it.rewrites it.plan) }
    ensures order { IfOk result (λ it. StandInOrder program.now.script it.rewrites) }
    ensures small { IfOk result (λ it. AllByRecursion HasSmallNumbers it.rewrites) }
{
    passes_law();
    let scales = scales_of(alloc, program)?;
    optimise_traced(alloc, scales.as_slice(), graph)
}
