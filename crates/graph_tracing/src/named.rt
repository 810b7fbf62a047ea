// A graph under names, and how it was come to.
ghost use Rattle.std.specs.Prelude.{◌≡◌, IfOk};
ghost use Rattle.exec_graph.specs.Wellformed.{IsGraphOk};
ghost use Rattle.graph_joins.specs.Sessions.{IsSession};
ghost use Rattle.graph_tracing.specs.inner.Named.{trace_of};

use crate::trace::Trace;
use flume_value::Pile;
use graph_joins::{Joins, begin, end};
use graph_rewrites::Rewrite;
use std::alloc::{AllocError, Global};

/// A graph under names, with the rewrites that led to it.
#[derive(Drop)]
pub(crate) struct NamedTrace {
    pub(crate) joins: Joins,
    pub(crate) rewrites: Pile<Rewrite>,
}

pub(crate) fn named_trace(alloc: Global, trace: Trace) -> Result<NamedTrace, AllocError>
    requires { IsGraphOk trace.graph }
    ensures session { IfOk result (λ t. IsSession t.joins) }
    ensures same { IfOk result (λ t. trace_of t ≡ trace) }
{
    let Trace { graph, rewrites } = trace;
    let joins = begin(alloc, graph)?;
    Ok(NamedTrace { joins, rewrites })
}

pub(crate) fn unnamed_trace(alloc: Global, trace: NamedTrace) -> Result<Trace, AllocError>
    ensures { IfOk result (λ t. t ≡ trace_of trace) }
{
    let NamedTrace { joins, rewrites } = trace;
    let graph = end(alloc, joins)?;
    Ok(Trace { graph, rewrites })
}
