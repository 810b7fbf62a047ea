// A plan from outside, checked.
ghost use Rattle.std.specs.Prelude.{IfOk};
ghost use Rattle.exec_graph.specs.ObjectFree.{IsObjectFree};
ghost use Rattle.exec_graph.specs.Typing.{IsTyped, Signatures};
ghost use Rattle.exec_graph.specs.World.{World};
ghost use Rattle.exec_plan.specs.ObjectFree.{IsPlanObjectFree};
ghost use Rattle.exec_plan.specs.Typing.{IsPlanTyped};
ghost use Rattle.exec_plan.specs.Wellformed.{IsPlanOk};
ghost use Rattle.optimise.specs.Optimised.{CanOptimise};
ghost use Rattle.plan_laws.specs.Operations.{SamePlan};
ghost use Rattle.plan_check.specs.Checked.{IsChecked};

use crate::comparing::compared;
use crate::fault::of_file;
use crate::forming::formed;
use exec_graph::Graph;
use exec_plan::Plan;
use plan_faults::PlanFault;
use plan_files::read_file;
use plan_writing::Names;
use std::alloc::Global;

/// The plan that a file tells, whose rewrites lead from the graph to it. Whatever the file says, it
/// is well-formed and means what the graph means.
pub fn check_plan<N: Names>(
    alloc: Global,
    names: &N,
    graph: Graph,
    bytes: &[u8],
) -> Result<Plan, PlanFault>
    requires { CanOptimise graph }
    ensures checked { IsChecked (N.naming names.now) graph bytes.now result }
    ensures same { IfOk result (λ plan. (w : World) → SamePlan w graph plan) }
    ensures well_formed { IfOk result (λ plan. IsPlanOk plan) }
    ensures types { IfOk result (λ plan. (s : Signatures) → IsTyped s graph →
        IsPlanTyped s plan) }
    ensures object_free { IfOk result (λ plan. IsObjectFree graph → IsPlanObjectFree plan) }
{
    match read_file(alloc, bytes) {
        Ok(file) => match formed(alloc, graph, file.rewrites.as_slice()) {
            Ok(plan) => compared(alloc, names, plan, &file),
            Err(fault) => Err(fault),
        },
        Err(fault) => Err(of_file(fault)),
    }
}
