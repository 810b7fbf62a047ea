// Kids and siblings.
ghost use Rattle.std.specs.Prelude.{IfOk};
ghost use Rattle.exec_graph.specs.Wellformed.{IsGraphOk};
ghost use Rattle.graph_rewrites.specs.declared.rewrite.Rewrite.TheVariants as rewrite;
ghost use Rattle.graph_rewriting.specs.inner.Made.{IsMade};

use exec_graph::Graph;
use graph_joining::{Kid, can_be_kid, can_be_sibling, join_kid, join_sibling};
use std::alloc::{AllocError, Global};

/// The reader becomes a kid, if it reads that output.
pub(crate) fn kid(
    alloc: Global,
    graph: Graph,
    keeper: u32,
    output: u32,
    reader: u32,
) -> Result<Option<Graph>, AllocError>
    requires { IsGraphOk graph }
    ensures { IfOk result (λ made. IsMade graph (rewrite.Kid keeper output reader) made) }
{
    let kid = Kid {
        keeper,
        output,
        reader,
    };
    if !can_be_kid(&graph, kid) {
        return Ok(None);
    }
    let joined = join_kid(alloc, graph, kid)?;
    Ok(Some(joined))
}

/// The Pdo `other` becomes a sibling, if both read one collection and it has the greater number.
pub(crate) fn sibling(
    alloc: Global,
    graph: Graph,
    keeper: u32,
    other: u32,
) -> Result<Option<Graph>, AllocError>
    requires { IsGraphOk graph }
    ensures { IfOk result (λ made. IsMade graph (rewrite.Sibling keeper other) made) }
{
    if !can_be_sibling(&graph, keeper, other) {
        return Ok(None);
    }
    let joined = join_sibling(alloc, graph, keeper, other)?;
    Ok(Some(joined))
}
