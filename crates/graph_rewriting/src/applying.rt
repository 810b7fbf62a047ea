// Whether a rewrite may be made, and what it makes.
ghost use Rattle.std.specs.Prelude.{◌≡◌, IfOk, OnOk};
ghost use Rattle.exec_graph.specs.Wellformed.{IsGraphOk};
ghost use Rattle.graph_rewrites.specs.Rewrites.{marks_with};
ghost use Rattle.graph_rewriting.specs.Applied.{IsApplied};
ghost use Rattle.graph_rewriting.specs.inner.Made.{IsMade};

use crate::joins::{kid, sibling};
use crate::lifting::lift_at;
use crate::marking::markable;
use exec_graph::{Blocked, Graph, Place};
use flatten_sink::{merge_pair, sink_pair};
use flume_value::Pile;
use graph_rewrites::Rewrite;
use sink_laws::Pair;
use std::alloc::{AllocError, Global};

/// The graph with its marks after the rewrite, or none where it may not be made.
pub fn apply(
    alloc: Global,
    blocked: Blocked,
    rewrite: Rewrite,
) -> Result<Option<Blocked>, AllocError>
    requires { IsGraphOk blocked.graph }
    ensures { IfOk result (λ made. IsApplied blocked rewrite made) }
{
    let Blocked { graph, mut marks } = blocked;
    match rewritten(alloc, graph, rewrite)? {
        Some(made) => {
            note_mark(rewrite, &mut marks)?;
            Ok(Some(Blocked { graph: made, marks }))
        }
        None => Ok(None),
    }
}

/// The graph after the rewrite, or none where it may not be made.
fn rewritten(alloc: Global, graph: Graph, rewrite: Rewrite) -> Result<Option<Graph>, AllocError>
    requires { IsGraphOk graph }
    ensures { IfOk result (λ made. IsMade graph rewrite made) }
{
    match rewrite {
        Rewrite::Merge { outer, inner } => merge_pair(alloc, graph, pair_of(outer, inner)),
        Rewrite::Sink { flatten, pdo } => sink_pair(alloc, graph, pair_of(flatten, pdo)),
        Rewrite::Lift { group } => Ok(lift_at(graph, group)),
        Rewrite::Kid {
            keeper,
            output,
            reader,
        } => kid(alloc, graph, keeper, output, reader),
        Rewrite::Sibling { keeper, other } => sibling(alloc, graph, keeper, other),
        Rewrite::Mark { node, output } => Ok(markable(graph, node, output)),
    }
}

fn pair_of(flatten: u32, other: u32) -> Pair
    ensures { result ≡ record { flatten = flatten; other = other } }
{
    Pair { flatten, other }
}

/// Adds the mark that the rewrite is, if it is one.
fn note_mark(rewrite: Rewrite, marks: &mut Pile<Place>) -> Result<(), AllocError>
    ensures { OnOk result (marks.new ≡ marks_with marks.old rewrite) }
{
    match rewrite {
        Rewrite::Mark { node, output } => {
            marks.push(Place { node, out: output })?;
            Ok(())
        }
        Rewrite::Merge { .. }
        | Rewrite::Sink { .. }
        | Rewrite::Lift { .. }
        | Rewrite::Kid { .. }
        | Rewrite::Sibling { .. } => Ok(()),
    }
}
