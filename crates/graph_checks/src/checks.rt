// Whether a graph is well-formed.
ghost use Rattle.std.specs.Prelude.{◌↔◌, IsTrue, IfOk};
ghost use Rattle.exec_graph.specs.Wellformed.{IsGraphOk};

use crate::callers::are_lifted_ok;
use crate::forests::are_forests_ok;
use crate::founded::is_founded;
use crate::objects::are_objects_ok;
use crate::sizes::{are_few, are_flattens_ok};
use exec_graph::Graph;
use std::alloc::{AllocError, Global};

/// Whether the graph is well-formed. It takes time in proportion to the graph's size, but for the
/// search of each node that is read.
pub fn graph_ok(alloc: Global, graph: &Graph) -> Result<bool, AllocError>
    ensures { IfOk result (λ b. IsTrue b ↔ IsGraphOk graph.now) }
{
    let nodes = graph.nodes.as_slice();
    if !is_founded(alloc, graph)? {
        return Ok(false);
    }
    if !are_few(alloc, nodes)? {
        return Ok(false);
    }
    if !are_flattens_ok(nodes) {
        return Ok(false);
    }
    if !are_forests_ok(alloc, graph)? {
        return Ok(false);
    }
    if !are_objects_ok(alloc, nodes)? {
        return Ok(false);
    }
    let lifted = are_lifted_ok(alloc, graph)?;
    Ok(lifted)
}
