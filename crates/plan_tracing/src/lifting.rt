// Lifting, with its rewrites.
ghost use Rattle.std.specs.Prelude.{◌≡◌, IfOk, Some};
ghost use Rattle.exec_graph.specs.Wellformed.{IsGraphOk, is_lifted};
ghost use Rattle.graph_laws.specs.Lifting.{lifted};
ghost use Rattle.graph_tracing.specs.Traces.{IsTrace};
ghost use Rattle.plan_tracing.specs.Lists.{lifts_in};

use combine_lift::lift;
use exec_graph::{Entry, Graph, Node};
use flume_value::Pile;
use graph_rewrites::Rewrite;
use graph_tracing::Trace;
use std::alloc::{AllocError, Global};

/// The graph with its groups lifted, and the lifts that lead to it.
pub(crate) fn lift_traced(alloc: Global, graph: Graph) -> Result<Trace, AllocError>
    requires { IsGraphOk graph }
    ensures lifted { IfOk result (λ t. t.graph ≡ lifted graph) }
    ensures well_formed { IfOk result (λ t. IsGraphOk t.graph) }
    ensures traced { IfOk result (λ t. IsTrace 1 graph t.rewrites t.graph) }
    ensures lifts { IfOk result (λ t. t.rewrites ≡ lifts_in t.graph.nodes) }
{
    let graph = lift(alloc, graph)?;
    let rewrites = lifts_of(alloc, graph.nodes.as_slice())?;
    Ok(Trace { graph, rewrites })
}

fn lifts_of(alloc: Global, nodes: &[Entry]) -> Result<Pile<Rewrite>, AllocError>
    ensures { IfOk result (λ rewrites. rewrites ≡ lifts_in nodes.now) }
{
    let mut rewrites = Pile::new(alloc);
    for entry in nodes {
        if is_lifted(&entry.node) {
            rewrites.push(Rewrite::Lift {
                group: entry.number,
            })?;
        }
    }
    Ok(rewrites)
}

fn is_lifted(node: &Node) -> bool
    ensures { result ≡ is_lifted (Some node.now) }
{
    match node {
        Node::Gbk { lifted, .. } => match lifted {
            Some(_) => true,
            None => false,
        },
        Node::Source(_) | Node::Flatten(_) | Node::Pdo { .. } | Node::Barrier { .. } => false,
    }
}
