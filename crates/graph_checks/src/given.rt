// The places that the nodes give.
ghost use Rattle.std.specs.Prelude.{◌≡◌, OnOk, IfOk};
ghost use Rattle.std.specs.List.{list_any, list_all};
ghost use Rattle.exec_graph.specs.Places.{HasPlaces, HasAlso};
ghost use Rattle.graph_checks.specs.inner.Numbers.{gives_place, spot_place, is_given, reads_given};

use exec_graph::{Entry, Node, Place, Spot, add_place, code_of, spots_of};
use std::alloc::{AllocError, Global};
use std::collections::HashSet;

/// The collections that nodes give.
pub(crate) fn given_places(alloc: Global, nodes: &[Entry]) -> Result<HashSet<u64>, AllocError>
    ensures { IfOk result (λ s. HasPlaces s (is_given nodes.now)) }
{
    let mut places = HashSet::new(alloc);
    for e in nodes {
        add_given(alloc, e, &mut places)?;
    }
    Ok(places)
}

#[tactic(auto, using(crate::proofs::Spotting::spots_given))]
fn add_given(alloc: Global, entry: &Entry, places: &mut HashSet<u64>) -> Result<(), AllocError>
    ensures { OnOk result (HasAlso places.old places.new (λ d. gives_place d entry.now)) }
{
    match &entry.node {
        Node::Pdo { roots, .. } => {
            let spots = spots_of(alloc, roots)?;
            add_spots(entry.number, spots.as_slice(), places)
        }
        _ => {
            add_place(
                Place {
                    node: entry.number,
                    out: 0,
                },
                places,
            )
        }
    }
}

fn add_spots(node: u32, spots: &[Spot], places: &mut HashSet<u64>) -> Result<(), AllocError>
    ensures { OnOk result
        (HasAlso places.old places.new (λ d. list_any (spot_place node d) spots.now)) }
{
    for spot in spots {
        add_spot(node, *spot, places)?;
    }
    Ok(())
}

#[tactic(auto, using(crate::proofs::Spotting::spot_some, crate::proofs::Spotting::spot_none))]
fn add_spot(node: u32, spot: Spot, places: &mut HashSet<u64>) -> Result<(), AllocError>
    ensures { OnOk result (HasAlso places.old places.new (λ d. spot_place node d spot)) }
{
    match spot.out {
        Some(out) => add_place(Place { node, out }, places),
        None => Ok(()),
    }
}

/// Whether nodes give all that nodes read.
pub(crate) fn all_reads_given(nodes: &[Entry], given: &HashSet<u64>) -> bool
    requires { HasPlaces given.now (is_given nodes.now) }
    ensures { result ≡ list_all (λ e. reads_given nodes.now e.node) nodes.now }
{
    for e in nodes {
        if !are_reads_given(nodes, given, &e.node) {
            return false;
        }
    }
    true
}

fn are_reads_given(nodes: &[Entry], given: &HashSet<u64>, node: &Node) -> bool
    requires { HasPlaces given.now (is_given nodes.now) }
    ensures { result ≡ reads_given nodes.now node.now }
{
    match node {
        Node::Source(_) => true,
        Node::Flatten(inputs) => are_given(nodes, given, inputs.as_slice()),
        Node::Barrier { inputs, .. } => are_given(nodes, given, inputs.as_slice()),
        Node::Pdo { input: c, .. } => is_place_given(nodes, given, *c),
        Node::Gbk { input: c, .. } => is_place_given(nodes, given, *c),
    }
}

/// Whether nodes give all of the collections.
pub(crate) fn are_given(nodes: &[Entry], given: &HashSet<u64>, places: &[Place]) -> bool
    requires { HasPlaces given.now (is_given nodes.now) }
    ensures { result ≡ list_all (is_given nodes.now) places.now }
{
    for c in places {
        if !is_place_given(nodes, given, *c) {
            return false;
        }
    }
    true
}

fn is_place_given(nodes: &[Entry], given: &HashSet<u64>, c: Place) -> bool
    requires { HasPlaces given.now (is_given nodes.now) }
    ensures { result ≡ is_given nodes.now c }
{
    given.contains(&code_of(c))
}
