// The passes on graphs, with their rewrites.
ghost use Rattle.std.specs.Prelude.{IfOk};
ghost use Rattle.exec_graph.specs.Wellformed.{IsGraphOk};
ghost use Rattle.graph_laws.specs.Single.{HasNarrowSteps, IsUnfused};
ghost use Rattle.plan_tracing.specs.Refined.{IsRefinedBy};

use crate::fusing::{Refined, fuse_traced};
use crate::lifting::lift_traced;
use crate::lists::joined;
use crate::sinking::sink_traced;
use exec_graph::Graph;
use fusion_blocks::block;
use graph_tracing::Trace;
use std::alloc::{AllocError, Global};

/// What `optimise::refine` gives, with its marks in order, and the rewrites that lead to it.
pub(crate) fn refine_traced(
    alloc: Global,
    scales: &[u32],
    graph: Graph,
) -> Result<Refined, AllocError>
    requires ok { IsGraphOk graph }
    requires unfused { IsUnfused graph }
    requires narrow { HasNarrowSteps graph }
    ensures { IfOk result (λ r. IsRefinedBy scales.now graph r.rewrites r.blocked) }
{
    let sunk = sink_traced(alloc, graph)?;
    let Trace {
        graph: below,
        rewrites: sinks,
    } = sunk;
    let lifted = lift_traced(alloc, below)?;
    let Trace {
        graph: raised,
        rewrites: lifts,
    } = lifted;
    let before = joined(sinks, lifts.as_slice())?;
    let blocked = block(alloc, scales, raised)?;
    let fused = fuse_traced(alloc, blocked)?;
    let Refined {
        blocked: last,
        rewrites: behind,
    } = fused;
    let rewrites = joined(before, behind.as_slice())?;
    Ok(Refined {
        blocked: last,
        rewrites,
    })
}
