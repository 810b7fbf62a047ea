// The plan of a program: what its execution graph keeps is what the optimiser asks for.
ghost use Rattle.std.specs.Prelude.{◌≡◌, IfOk};
ghost use Rattle.exec_graph.specs.Wellformed.{IsGraphOk};
ghost use Rattle.build_law.specs.of_graph_build.Graphs.{graph_of};
ghost use Rattle.build_law.specs.of_script_laws.WellFormed.{IsWellFormed};
ghost use Rattle.script_plans.specs.Plans.{IsScriptPlan, MeansGraph};

use crate::laws::passes_law;
use crate::scales::scales_of;
use build_law::script_program::Program;
use exec_graph::Graph;
use exec_plan::Plan;
use optimise::optimise;
use std::alloc::{AllocError, Global};

/// The plan of a program, whose execution graph this is.
pub fn plan_of(alloc: Global, program: &Program, graph: Graph) -> Result<Plan, AllocError>
    requires well_formed { IsWellFormed program.now.script }
    requires built { graph ≡ graph_of program.now.script }
    requires ok { IsGraphOk graph }
    ensures optimised { IfOk result (λ plan. IsScriptPlan program.now.script plan) }
    ensures means { IfOk result (MeansGraph program.now.script) }
{
    passes_law();
    let scales = scales_of(alloc, program)?;
    let plan = optimise(alloc, scales.as_slice(), graph)?;
    Ok(plan)
}
