// The merges and the steps that sinking is.
ghost use Rattle.std.specs.Prelude.{◌≡◌, ◌++◌, ◌∷◌, [], IfOk, None, Some};
ghost use Rattle.exec_graph.specs.Wellformed.{IsGraphOk};
ghost use Rattle.exec_graph.specs.declared.graph.Graph.{Graph as GhostGraph};
ghost use Rattle.flatten_sink.specs.inner.Turns.{IsMerged};
ghost use Rattle.graph_rewrites.specs.declared.rewrite.Rewrite.TheVariants as rewrite;
ghost use Rattle.sink_laws.specs.Chain as chain;
ghost use Rattle.graph_tracing.specs.Sinks.{IsSinking};
ghost use Rattle.graph_tracing.specs.inner.Turns.{IsTurned, SinksOn};

use crate::trace::Trace;
use exec_graph::Graph;
use flatten_sink::{merge_pair, next_call, next_nest, sink_pair};
use flume_value::Pile;
use graph_rewrites::Rewrite;
use sink_laws::Pair;
use std::alloc::{AllocError, Global};

/// The merges and the steps that `flatten_sink::sink` makes of the graph, each the next one of the
/// graph as it then stands.
pub fn sinks_of(alloc: Global, graph: Graph) -> Result<Pile<Rewrite>, AllocError>
    requires { IsGraphOk graph }
    ensures { IfOk result (λ rewrites. (h : GhostGraph) → chain.IsSunk graph h →
        IsSinking graph rewrites h) }
{
    let begun = Trace {
        graph,
        rewrites: Pile::new(alloc),
    };
    let mut trace = merged(alloc, begun)?;
    'steps: loop {
        match turned(alloc, trace)? {
            Turn::More(next) => trace = next,
            Turn::Last(rewrites) => return Ok(rewrites),
        }
    }
}

/// What one more step leads to, or all rewrites, where there is none.
#[derive(Drop)]
pub(crate) enum Turn {
    More(Trace),
    Last(Pile<Rewrite>),
}

/// One more step, and the merges that follow, or the end.
fn turned(alloc: Global, trace: Trace) -> Result<Turn, AllocError>
    requires ok { IsGraphOk trace.graph }
    requires merged { chain.next_nest trace.graph.nodes ≡ None }
    ensures { IfOk result (λ turn. IsTurned trace turn) }
{
    match next_call(trace.graph.nodes.as_slice()) {
        None => Ok(ended(trace)),
        Some(call) => {
            let turn = stepped(alloc, trace, call)?;
            Ok(turn)
        }
    }
}

fn ended(trace: Trace) -> Turn
    requires { chain.next_graph trace.graph ≡ None }
    ensures { IsTurned trace result }
{
    let Trace { graph: _, rewrites } = trace;
    Turn::Last(rewrites)
}

/// The step on the least pair, and the merges that follow, or the end, where there is no room.
fn stepped(alloc: Global, trace: Trace, call: Pair) -> Result<Turn, AllocError>
    requires ok { IsGraphOk trace.graph }
    requires merged { chain.next_nest trace.graph.nodes ≡ None }
    requires next { chain.next_call trace.graph.nodes ≡ Some call }
    ensures { IfOk result (λ turn. IsTurned trace turn) }
{
    let Trace { graph, rewrites } = trace;
    match sink_pair(alloc, graph, call)? {
        None => Ok(Turn::Last(rewrites)),
        Some(sunk) => {
            let sink = Rewrite::Sink {
                flatten: call.flatten,
                pdo: call.other,
            };
            let behind = followed(sunk, rewrites, sink)?;
            let next = merged(alloc, behind)?;
            Ok(Turn::More(next))
        }
    }
}

/// The graph, with one rewrite more.
fn followed(graph: Graph, rewrites: Pile<Rewrite>, rewrite: Rewrite) -> Result<Trace, AllocError>
    ensures { IfOk result (λ t. t ≡ record {
      graph = graph;
      rewrites = rewrites ++ rewrite ∷ [];
    }) }
{
    let mut rewrites = rewrites;
    rewrites.push(rewrite)?;
    Ok(Trace { graph, rewrites })
}

/// All merges that there is room for.
fn merged(alloc: Global, trace: Trace) -> Result<Trace, AllocError>
    requires { IsGraphOk trace.graph }
    ensures merged { IfOk result (λ t. IsMerged trace.graph t.graph) }
    ensures sinks { IfOk result (λ t. SinksOn trace t) }
{
    let mut trace = trace;
    'merges: loop {
        match next_nest(trace.graph.nodes.as_slice()) {
            None => return Ok(trace),
            Some(nest) => trace = merge(alloc, trace, nest)?,
        }
    }
}

/// The merge of the least pair.
fn merge(alloc: Global, trace: Trace, nest: Pair) -> Result<Trace, AllocError>
    requires ok { IsGraphOk trace.graph }
    requires next { chain.next_nest trace.graph.nodes ≡ Some nest }
    ensures graph { IfOk result (λ t. t.graph ≡ chain.after_nest trace.graph nest) }
    ensures sinks { IfOk result (λ t. SinksOn trace t) }
{
    let Trace { graph, rewrites } = trace;
    let made = merge_pair(alloc, graph, nest)?;
    let merged = made.unwrap();
    let merge = Rewrite::Merge {
        outer: nest.flatten,
        inner: nest.other,
    };
    let next = followed(merged, rewrites, merge)?;
    Ok(next)
}
