// The plan that rewrites lead to.
ghost use Rattle.std.specs.Prelude.{◌≡◌, ◌<◌, ◌^◌, IfOk};
ghost use Rattle.exec_graph.specs.ObjectFree.{IsObjectFree};
ghost use Rattle.exec_graph.specs.Typing.{IsTyped, Signatures};
ghost use Rattle.exec_graph.specs.World.{World};
ghost use Rattle.exec_plan.specs.ObjectFree.{IsPlanObjectFree};
ghost use Rattle.exec_plan.specs.Typing.{IsPlanTyped};
ghost use Rattle.exec_plan.specs.Wellformed.{IsPlanOk};
ghost use Rattle.optimise.specs.Optimised.{CanOptimise};
ghost use Rattle.plan_laws.specs.Operations.{SamePlan};
ghost use Rattle.plan_check.specs.Checked.{IsFormedOf};

use crate::fault::of_replay;
use exec_graph::{Blocked, Graph};
use exec_plan::Plan;
use graph_rewrites::{Rewrite, replay_law};
use graph_rewriting::replay;
use optimise::count_sources;
use optimise::mscr_form::form;
use plan_faults::PlanFault;
use std::alloc::Global;

/// The plan of what the rewrites lead to.
pub(crate) fn formed(alloc: Global, graph: Graph, rewrites: &[Rewrite]) -> Result<Plan, PlanFault>
    requires { CanOptimise graph }
    ensures formed { IsFormedOf graph rewrites.now result }
    ensures same { IfOk result (λ plan. (w : World) → SamePlan w graph plan) }
    ensures well_formed { IfOk result (λ plan. IsPlanOk plan) }
    ensures types { IfOk result (λ plan. (s : Signatures) → IsTyped s graph →
        IsPlanTyped s plan) }
    ensures object_free { IfOk result (λ plan. IsObjectFree graph → IsPlanObjectFree plan) }
{
    replay_law();
    let sources = count_sources(graph.nodes.as_slice())?;
    let blocked = match replay(alloc, graph, rewrites) {
        Ok(blocked) => blocked,
        Err(fault) => return Err(of_replay(fault)),
    };
    let _next = next_number(&blocked);
    let plan = form(alloc, sources, &blocked)?;
    Ok(plan)
}

/// The graph's next number, which has 32 bits.
fn next_number(blocked: &Blocked) -> u32
    ensures same { result ≡ blocked.now.graph.next }
    ensures small { result < 2 ^ 32 }
{
    blocked.graph.next
}
