// All rewrites that fusing is.
ghost use Rattle.std.specs.Prelude.{◌≡◌, IfOk, map};
ghost use Rattle.exec_graph.specs.Places.{HasPlaces};
ghost use Rattle.exec_graph.specs.Readers.{among, those};
ghost use Rattle.exec_graph.specs.Wellformed.{Ascends, IsGraphOk};
ghost use Rattle.exec_graph.specs.declared.graph.Blocked.{Blocked};
ghost use Rattle.pardo_fuse.specs.Wellformed.{IsFusible};
ghost use Rattle.graph_tracing.specs.Fusions.{IsFusion};
ghost use Rattle.graph_tracing.specs.inner.Callers as callers;

use crate::fusing::KidTrace;
use crate::hanging::with_kids;
use crate::pairing::with_siblings;
use crate::trace::Trace;
use exec_graph::{Entry, Graph, Node, Place, code_of, set_of_places};
use flume_value::Pile;
use graph_joining::is_pdo_at;
use graph_rewrites::Rewrite;
use std::alloc::{AllocError, Global};
use std::collections::{HashMap, HashSet};

/// The siblings and then the kids that fusing makes of the graph with these marks: both in
/// ascending order of the numbers that the Pdos that go had before all kids.
pub fn fusions_of(alloc: Global, graph: Graph, marks: &[Place]) -> Result<Pile<Rewrite>, AllocError>
    requires ok { IsGraphOk graph }
    ensures { IfOk result (λ rewrites. (b : Blocked) → b.graph ≡ graph → b.marks ≡ marks.now →
        IsFusible b → IsFusion b rewrites) }
{
    let numbers = numbers_of(alloc, graph.nodes.as_slice())?;
    let readers = kid_numbers(alloc, graph.nodes.as_slice(), marks)?;
    let begun = Trace {
        graph,
        rewrites: Pile::new(alloc),
    };
    let siblings = with_siblings(alloc, begun, numbers.as_slice())?;
    let unjoined = KidTrace {
        trace: siblings,
        numbers: HashMap::new(alloc),
    };
    let kids = with_kids(alloc, unjoined, readers.as_slice())?;
    let KidTrace { trace, numbers: _ } = kids;
    let Trace { graph: _, rewrites } = trace;
    Ok(rewrites)
}

fn numbers_of(alloc: Global, nodes: &[Entry]) -> Result<Vec<u32>, AllocError>
    ensures { IfOk result (λ numbers. numbers.items ≡ map (λ e. e.number) nodes.now) }
{
    let mut numbers = Vec::new(alloc);
    for entry in nodes {
        numbers.push(entry.number)?;
    }
    Ok(numbers)
}

/// The numbers of the Pdos that read an unmarked output of a Pdo.
fn kid_numbers(alloc: Global, nodes: &[Entry], marks: &[Place]) -> Result<Vec<u32>, AllocError>
    requires { Ascends nodes.now }
    ensures { IfOk result (λ numbers. numbers.items
        ≡ those (callers.goes_by nodes.now marks.now) nodes.now) }
{
    let marked = set_of_places(alloc, marks)?;
    let mut numbers = Vec::new(alloc);
    for entry in nodes {
        if goes(nodes, marks, &marked, &entry.node) {
            numbers.push(entry.number)?;
        }
    }
    Ok(numbers)
}

fn goes(nodes: &[Entry], marks: &[Place], marked: &HashSet<u64>, node: &Node) -> bool
    requires nodes { Ascends nodes.now }
    requires marks { HasPlaces marked.now (λ c. among c marks.now) }
    ensures { result ≡ callers.goes_by nodes.now marks.now node.now }
{
    match node {
        Node::Pdo { input: c, .. } => is_unmarked(nodes, marks, marked, *c),
        Node::Source(_) | Node::Flatten(_) | Node::Gbk { .. } | Node::Barrier { .. } => false,
    }
}

/// Whether it is an unmarked output of a Pdo.
fn is_unmarked(nodes: &[Entry], marks: &[Place], marked: &HashSet<u64>, c: Place) -> bool
    requires nodes { Ascends nodes.now }
    requires marks { HasPlaces marked.now (λ c. among c marks.now) }
    ensures { result ≡ callers.unmarked_by nodes.now marks.now c }
{
    let _out = c.out;
    is_pdo_at(nodes, c.node) && !marked.contains(&code_of(c))
}
