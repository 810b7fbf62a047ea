// Graphs under names, and without them again.
ghost use Rattle.std.specs.Prelude.{◌≡◌, ℕ, map, nat_eq, IfOk, OnOk};
ghost use Rattle.std.specs.HashMap.{get};
ghost use Rattle.exec_graph.specs.declared.graph.Place.{Place as GhostPlace};
ghost use Rattle.graph_laws.specs.Kids.{named_by};
ghost use Rattle.exec_graph.specs.Forests.{numbered};
ghost use Rattle.pardo_fuse.specs.Fusing.{with_numbers};
ghost use Rattle.pardo_fuse.specs.SingleFusing.{new_place};
ghost use Rattle.graph_walks.specs.Outs.{outs};
ghost use Rattle.graph_names.specs.Names as names;
ghost use Rattle.graph_names.specs.inner.Moves.{move_of, place_in};
ghost use Rattle.graph_names.specs.inner.Naming.{name_of};
ghost use Rattle.graph_names.specs.inner.Nodes.{moved_by, under_names, under_numbers};
ghost use Rattle.graph_names.specs.inner.Spots.{first_spot, spot_in};

use crate::kinds::pdos_of;
use crate::moves::Move;
use crate::naming::Naming;
use crate::spots::note_outs;
use exec_graph::{Entry, Graph, Node, Place, Roots};
use flume_value::Pile;
use graph_walks::{number_forest, relabel, reread_nodes, reread_places};
use std::alloc::{AllocError, Global};
use std::collections::HashMap;

/// The graph under names. It takes time in proportion to the graph's size.
pub fn named(alloc: Global, graph: Graph) -> Result<Graph, AllocError>
    ensures { IfOk result (λ h. h ≡ names.named graph) }
{
    let pdos = pdos_of(alloc, graph.nodes.as_slice())?;
    let by = Move::ToNames(pdos, graph.next);
    let under = with_names(graph)?;
    let moved = moved(alloc, under, &by)?;
    Ok(moved)
}

/// The graph with its outputs under names, before what is read is told by them.
fn with_names(graph: Graph) -> Result<Graph, AllocError>
    ensures { IfOk result (λ h. h ≡ record {
      nodes = map (under_names graph.next) graph.nodes;
      outputs = graph.outputs;
      next = graph.next;
    }) }
{
    let Graph {
        nodes,
        outputs,
        next,
    } = graph;
    let under = name_nodes(next, nodes.into_vec())?;
    Ok(Graph {
        nodes: Pile::from_vec(under),
        outputs,
        next,
    })
}

fn name_nodes(next: u32, nodes: Vec<Entry>) -> Result<Vec<Entry>, AllocError>
    ensures { IfOk result (λ v. v.items ≡ map (under_names next) nodes.items) }
{
    let mut all = nodes;
    for entry in all.iter_mut() {
        name_entry(next, entry)?;
    }
    Ok(all)
}

fn name_entry(next: u32, entry: &mut Entry) -> Result<(), AllocError>
    ensures { OnOk result (entry.new ≡ under_names next entry.old) }
{
    let by = Naming {
        node: entry.number,
        next,
    };
    name_node(by, &mut entry.node)
}

fn name_node(by: Naming, node: &mut Node) -> Result<(), AllocError>
    ensures { OnOk result (node.new ≡ names.with_names by.next by.node node.old) }
{
    match node {
        Node::Source(_) => Ok(()),
        Node::Flatten(_) => Ok(()),
        Node::Pdo { roots, .. } => name_roots(by, roots),
        Node::Gbk { .. } => Ok(()),
        Node::Barrier { .. } => Ok(()),
    }
}

#[tactic(auto, using(graph_walks::proofs::Relabeling::grown_named))]
fn name_roots(by: Naming, roots: &mut Roots) -> Result<(), AllocError>
    ensures { OnOk result (roots.new ≡ named_by (name_of by) roots.old) }
{
    relabel(&by, &mut roots.steps)?;
    Ok(())
}

/// The graph without names. It takes time in proportion to the graph's size.
pub fn unnamed(alloc: Global, graph: Graph) -> Result<Graph, AllocError>
    ensures { IfOk result (λ g. g ≡ names.unnamed graph) }
{
    let Numbered {
        graph: under,
        places,
    } = with_numbers(alloc, graph)?;
    let by = Move::ToPlaces(places);
    let moved = moved(alloc, under, &by)?;
    Ok(moved)
}

/// A graph whose outputs have numbers from 0 on in each forest, before what is read is told by
/// them, and where each name is.
#[derive(Drop)]
struct Numbered {
    graph: Graph,
    places: HashMap<u32, Place>,
}

fn with_numbers(alloc: Global, graph: Graph) -> Result<Numbered, AllocError>
    ensures graph { IfOk result (λ x. x.graph ≡ record {
      nodes = map under_numbers graph.nodes;
      outputs = graph.outputs;
      next = graph.next;
    }) }
    ensures places { IfOk result (λ x. (c : GhostPlace) → place_in x.places c
        ≡ new_place graph.nodes c) }
{
    let Graph {
        nodes,
        outputs,
        next,
    } = graph;
    let mut all = nodes.into_vec();
    let places = number_nodes(alloc, &mut all)?;
    Ok(Numbered {
        graph: Graph {
            nodes: Pile::from_vec(all),
            outputs,
            next,
        },
        places,
    })
}

fn number_nodes(alloc: Global, nodes: &mut Vec<Entry>) -> Result<HashMap<u32, Place>, AllocError>
    ensures nodes { OnOk result (nodes.new.items ≡ map under_numbers nodes.old.items) }
    ensures places { IfOk result (λ m. (c : GhostPlace) → place_in m c
        ≡ new_place nodes.old.items c) }
{
    let mut places = HashMap::new(alloc);
    for entry in nodes.iter_mut() {
        number_entry(alloc, entry, &mut places)?;
    }
    Ok(places)
}

fn number_entry(
    alloc: Global,
    entry: &mut Entry,
    places: &mut HashMap<u32, Place>,
) -> Result<(), AllocError>
    ensures entry { OnOk result (entry.new ≡ under_numbers entry.old) }
    ensures places { OnOk result ((n : ℕ) → get nat_eq places.new n
        ≡ first_spot (get nat_eq places.old n) (spot_in entry.old.number entry.old.node n)) }
{
    number_node(alloc, entry.number, &mut entry.node, places)
}

fn number_node(
    alloc: Global,
    number: u32,
    node: &mut Node,
    places: &mut HashMap<u32, Place>,
) -> Result<(), AllocError>
    ensures node { OnOk result (node.new ≡ with_numbers node.old) }
    ensures places { OnOk result ((n : ℕ) → get nat_eq places.new n
        ≡ first_spot (get nat_eq places.old n) (spot_in number node.old n)) }
{
    match node {
        Node::Source(_) => Ok(()),
        Node::Flatten(_) => Ok(()),
        Node::Pdo { roots, .. } => {
            let outs = number_roots(alloc, roots)?;
            note_outs(number, outs.as_slice(), places)?;
            Ok(())
        }
        Node::Gbk { .. } => Ok(()),
        Node::Barrier { .. } => Ok(()),
    }
}

fn number_roots(alloc: Global, roots: &mut Roots) -> Result<Vec<u32>, AllocError>
    ensures roots { OnOk result (roots.new ≡ numbered 0 roots.old) }
    ensures outs { IfOk result (λ v. v.items ≡ outs roots.old) }
{
    number_forest(alloc, &mut roots.steps)
}

/// The graph in which all is read where the rule tells.
fn moved(alloc: Global, graph: Graph, by: &Move) -> Result<Graph, AllocError>
    ensures { IfOk result (λ h. h ≡ moved_by (move_of by.now) graph) }
{
    let Graph {
        nodes,
        outputs,
        next,
    } = graph;
    let nodes = reread_nodes(alloc, nodes.into_vec(), by)?;
    let outputs = reread_places(outputs, by)?;
    Ok(Graph {
        nodes: Pile::from_vec(nodes),
        outputs,
        next,
    })
}
