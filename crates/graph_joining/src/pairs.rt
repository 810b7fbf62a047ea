// Whether two Pdos may become one.
ghost use Rattle.std.specs.Prelude.{◌≡◌, ◌<◌, ◌↔◌, IsTrue};
ghost use Rattle.exec_graph.specs.Meaning.{node_at};
ghost use Rattle.exec_graph.specs.Wellformed.{Ascends};
ghost use Rattle.graph_rewrites.specs.Rewrites as rewrites;
ghost use Rattle.graph_joining.specs.inner.Tests as tests;

use crate::finding::{input_at, is_pdo_at};
use exec_graph::{Entry, Graph, Place};

/// A Pdo that may become a kid of an output of another one.
#[derive(Clone, Copy, Drop)]
pub struct Kid {
    /// The Pdo whose output it is.
    pub keeper: u32,
    pub output: u32,
    /// The Pdo that reads it.
    pub reader: u32,
}

/// Whether both are Pdos, and the reader reads that output of the keeper.
pub fn can_be_kid(graph: &Graph, kid: Kid) -> bool
    requires { Ascends graph.now.nodes }
    ensures { IsTrue result ↔ rewrites.CanBeKid graph.now kid.keeper kid.output kid.reader }
{
    can_kid(graph.nodes.as_slice(), kid)
}

fn can_kid(nodes: &[Entry], kid: Kid) -> bool
    requires { Ascends nodes.now }
    ensures { result ≡ tests.can_kid nodes.now kid.keeper kid.output kid.reader }
{
    if !is_pdo_at(nodes, kid.keeper) {
        return false;
    }
    let read = Place {
        node: kid.keeper,
        out: kid.output,
    };
    is_caller_at(nodes, kid.reader, read)
}

/// Whether both are Pdos that read one collection, and the other has the greater number.
pub fn can_be_sibling(graph: &Graph, keeper: u32, other: u32) -> bool
    requires { Ascends graph.now.nodes }
    ensures { IsTrue result ↔ ((keeper < other) × rewrites.CanBeSibling graph.now keeper other) }
{
    can_sibling(graph.nodes.as_slice(), keeper, other)
}

/// The same of nodes of which some may be gone.
pub fn can_sibling(nodes: &[Entry], keeper: u32, other: u32) -> bool
    requires { Ascends nodes.now }
    ensures { result ≡ tests.can_sibling nodes.now keeper other }
{
    if keeper >= other {
        return false;
    }
    if !is_pdo_at(nodes, keeper) {
        return false;
    }
    is_caller_at(nodes, other, input_at(nodes, keeper))
}

/// Whether the node of that number is a Pdo that reads the collection.
fn is_caller_at(nodes: &[Entry], number: u32, c: Place) -> bool
    requires { Ascends nodes.now }
    ensures { result ≡ tests.calls_at c (node_at nodes.now number) }
{
    if !is_pdo_at(nodes, number) {
        return false;
    }
    let input = input_at(nodes, number);
    c.node == input.node && c.out == input.out
}
