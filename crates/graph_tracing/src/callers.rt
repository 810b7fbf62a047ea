// Which Pdo becomes part of which.
ghost use Rattle.std.specs.Prelude.{◌≡◌, ◌<◌, ◌==◌, ◌^◌, ℕ, cond, IfOk, nat_eq, None, OnOk, Some};
ghost use Rattle.std.specs.HashMap.{get};
ghost use Rattle.exec_graph.specs.Meaning.{node_at};
ghost use Rattle.exec_graph.specs.Places.{code};
ghost use Rattle.exec_graph.specs.Readers.{calls_on, same_place};
ghost use Rattle.exec_graph.specs.Wellformed.{Ascends};
ghost use Rattle.exec_graph.specs.declared.graph.Place.{Place as GhostPlace};
ghost use Rattle.pardo_fuse.specs.Readers.{is_pdo};
ghost use Rattle.graph_tracing.specs.inner.Callers as callers;

use exec_graph::{Entry, Node, Place, code_of};
use flatten_sink::find_node;
use graph_joining::is_pdo_at;
use graph_joins::NamedGraph;
use std::alloc::{AllocError, Global};
use std::collections::HashMap;

/// The first Pdo that reads what the Pdo of that number reads, if it has a lesser number.
pub(crate) fn keeper_of(graph: &NamedGraph, firsts: &HashMap<u64, u32>, number: u32) -> Option<u32>
    requires { callers.HasFirsts firsts.now graph.now.nodes }
    ensures { result ≡ callers.keeper_in graph.now.nodes number }
{
    if graph.is_pdo(number) {
        first_below(graph, firsts, graph.input(number), number)
    } else {
        None
    }
}

/// The first Pdo that reads the collection, if it has a lesser number than that.
fn first_below(
    graph: &NamedGraph,
    firsts: &HashMap<u64, u32>,
    read: Place,
    number: u32,
) -> Option<u32>
    requires { callers.HasFirsts firsts.now graph.now.nodes }
    ensures { result ≡ callers.below number (callers.first_caller read graph.now.nodes) }
{
    let _out = read.out;
    below(number, first_at(firsts, read))
}

fn below(number: u32, found: Option<u32>) -> Option<u32>
    ensures { result ≡ callers.below number found }
{
    match found {
        Some(caller) => { if caller < number { Some(caller) } else { None } }
        None => None,
    }
}

fn first_at(firsts: &HashMap<u64, u32>, read: Place) -> Option<u32>
    ensures { result ≡ get nat_eq firsts.now (code read) }
{
    match firsts.get(&code_of(read)) {
        Some(number) => Some(*number),
        None => None,
    }
}

/// The first Pdo that reads each collection, by its code.
pub(crate) fn firsts_of(alloc: Global, nodes: &[Entry]) -> Result<HashMap<u64, u32>, AllocError>
    ensures { IfOk result (λ firsts. callers.HasFirsts firsts nodes.now) }
{
    let mut firsts = HashMap::new(alloc);
    for entry in nodes {
        note_node(&entry.node, entry.number, &mut firsts)?;
    }
    Ok(firsts)
}

/// Notes what the node reads, if it is a Pdo, where it is noted of none before.
fn note_node(node: &Node, number: u32, firsts: &mut HashMap<u64, u32>) -> Result<(), AllocError>
    ensures { OnOk result ((c : GhostPlace) → c.out < 2 ^ 32 → get nat_eq firsts.new (code c)
        ≡ callers.or_else (get nat_eq firsts.old (code c))
        (cond (calls_on c node.now) (Some number) None)) }
{
    match node {
        Node::Pdo { input, .. } => note_reader(*input, number, firsts),
        Node::Source(_) | Node::Flatten(_) | Node::Gbk { .. } | Node::Barrier { .. } => Ok(()),
    }
}

fn note_reader(read: Place, number: u32, firsts: &mut HashMap<u64, u32>) -> Result<(), AllocError>
    ensures { OnOk result ((c : GhostPlace) → c.out < 2 ^ 32 → get nat_eq firsts.new (code c)
        ≡ callers.or_else (get nat_eq firsts.old (code c))
        (cond (same_place c read) (Some number) None)) }
{
    let _out = read.out;
    note_code(code_of(read), number, firsts)?;
    Ok(())
}

fn note_code(code: u64, number: u32, firsts: &mut HashMap<u64, u32>) -> Result<(), AllocError>
    ensures { OnOk result ((n : ℕ) → get nat_eq firsts.new n
        ≡ callers.or_else (get nat_eq firsts.old n) (cond (n == code) (Some number) None)) }
{
    if !firsts.contains_key(&code) {
        firsts.insert(code, number)?;
    }
    Ok(())
}

/// What the Pdo of that number reads, if that is an output of a Pdo.
pub(crate) fn read_of(nodes: &[Entry], number: u32) -> Option<Place>
    requires { Ascends nodes.now }
    ensures { result ≡ callers.read_in nodes.now number }
{
    match find_node(nodes, number) {
        Some(Node::Pdo { input, .. }) => {
            if is_pdo_at(nodes, input.node) {
                Some(*input)
            } else {
                None
            }
        }
        _ => None,
    }
}
