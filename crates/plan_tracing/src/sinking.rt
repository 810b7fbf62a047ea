// Sinking, with its rewrites.
ghost use Rattle.std.specs.Prelude.{IfOk};
ghost use Rattle.exec_graph.specs.Wellformed.{IsGraphOk};
ghost use Rattle.graph_tracing.specs.Sinks.{IsSinking};
ghost use Rattle.sink_laws.specs.Chain.{IsSunk};
ghost use Rattle.sink_laws.specs.Kept.{KeepsSteps};

use exec_graph::Graph;
use flatten_sink::sink;
use graph_tracing::{Trace, copy_graph, sinks_of};
use std::alloc::{AllocError, Global};

/// The sunk graph, with the merges and the steps that lead to it.
pub(crate) fn sink_traced(alloc: Global, graph: Graph) -> Result<Trace, AllocError>
    requires { IsGraphOk graph }
    ensures sunk { IfOk result (λ t. IsSunk graph t.graph) }
    ensures well_formed { IfOk result (λ t. IsGraphOk t.graph) }
    ensures steps { IfOk result (λ t. KeepsSteps graph t.graph) }
    ensures sinking { IfOk result (λ t. IsSinking graph t.rewrites t.graph) }
{
    let copy = copy_graph(alloc, &graph)?;
    let rewrites = sinks_of(alloc, copy)?;
    let graph = sink(alloc, graph)?;
    Ok(Trace { graph, rewrites })
}
