// Fusing, with its rewrites and the marks behind them.
ghost use Rattle.std.specs.Prelude.{◌≡◌, ◌++◌, IfOk, map};
ghost use Rattle.std.specs.List.{AllByRecursion};
ghost use Rattle.exec_graph.specs.declared.graph.Blocked.{Blocked as GhostBlocked};
ghost use Rattle.fusion_blocks.specs.Blocks.{CanMark};
ghost use Rattle.graph_tracing.specs.Fusions.{IsFusion};
ghost use Rattle.pardo_fuse.specs.Fusing.{fused};
ghost use Rattle.pardo_fuse.specs.Wellformed.{IsFusible};
ghost use Rattle.plan_tracing.specs.Lists.{mark_of};
ghost use Rattle.plan_tracing.specs.Refined.{IsFusedBy};

use crate::lists::joined;
use crate::marking::{ascending, marks_of};
use exec_graph::Blocked;
use flume_value::Pile;
use graph_rewrites::Rewrite;
use graph_tracing::{copy_graph, fusions_of};
use pardo_fuse::fuse;
use std::alloc::{AllocError, Global};

/// A graph with its marks, and the rewrites that led to it.
#[derive(Drop)]
pub(crate) struct Refined {
    pub(crate) blocked: Blocked,
    pub(crate) rewrites: Pile<Rewrite>,
}

/// The fused graph with its marks in order, and the siblings, the kids and the marks that lead to
/// it.
pub(crate) fn fuse_traced(alloc: Global, blocked: Blocked) -> Result<Refined, AllocError>
    requires fusible { IsFusible blocked }
    requires marks { AllByRecursion (CanMark (fused blocked).graph) (fused blocked).marks }
    ensures { IfOk result (λ r. IsFusedBy blocked.graph (fused blocked) r.rewrites r.blocked) }
{
    let copy = copy_graph(alloc, &blocked.graph)?;
    let fusions = fusions_of(alloc, copy, blocked.marks.as_slice())?;
    let fused = fuse(alloc, blocked)?;
    let refined = with_marks(alloc, fused, fusions)?;
    Ok(refined)
}

/// The graph with its marks in order, and these rewrites with the marks behind them.
fn with_marks(
    alloc: Global,
    blocked: Blocked,
    fusions: Pile<Rewrite>,
) -> Result<Refined, AllocError>
    requires { AllByRecursion (CanMark blocked.graph) blocked.marks }
    ensures { IfOk result (λ r. (b : GhostBlocked) → IsFusion b fusions →
        blocked ≡ fused b → IsFusedBy b.graph blocked r.rewrites r.blocked) }
{
    let Blocked { graph, marks } = blocked;
    let marks = ascending(alloc, marks.as_slice())?;
    let more = marks_of(alloc, marks.as_slice())?;
    let rewrites = joined(fusions, more.as_slice())?;
    Ok(Refined {
        blocked: Blocked { graph, marks },
        rewrites,
    })
}
