// Whether each lifted Gbk is read by one step of its combiner alone.
ghost use Rattle.std.specs.Prelude.{◌≡◌, ◌<◌, ◌^◌, nat_eq, cond, Some, None, OnOk, IfOk};
ghost use Rattle.std.specs.List.{list_all};
ghost use Rattle.std.specs.HashMap.{get};
ghost use Rattle.exec_graph.specs.declared.graph.Place.{Place as GhostPlace};
ghost use Rattle.exec_graph.specs.Readers.{is_held, same_place};
ghost use Rattle.exec_graph.specs.Places.{HasPlaces, code};
ghost use Rattle.graph_checks.specs.inner.Checks.{HasCallers, callers_from, called_by, lifted_ok, more_callers};

use combine_table::Comb;
use exec_graph::{Entry, Graph, Node, Place, code_of, held_places, root_comb};
use std::alloc::{AllocError, Global};
use std::collections::{HashMap, HashSet};

/// The Pdos that read a collection.
#[derive(Clone, Copy)]
pub(crate) enum Callers {
    /// Just one, with the combiner of its only root, where that combines.
    One(Option<Comb>),
    /// More than one.
    Several,
}

/// The Pdos that read each collection.
fn all_callers(alloc: Global, nodes: &[Entry]) -> Result<HashMap<u64, Callers>, AllocError>
    ensures { IfOk result (λ m. HasCallers m (callers_from None nodes.now)) }
{
    let mut callers = HashMap::new(alloc);
    for e in nodes {
        if let Node::Pdo { input: c, roots } = &e.node {
            add_caller(*c, root_comb(roots), &mut callers)?;
        }
    }
    Ok(callers)
}

fn add_caller(
    c: Place,
    root: Option<Comb>,
    callers: &mut HashMap<u64, Callers>,
) -> Result<(), AllocError>
    ensures { OnOk result ((d : GhostPlace) → d.out < 2 ^ 32 → get nat_eq callers.new (code d)
        ≡ cond (same_place d c) (Some (more_callers (get nat_eq callers.old (code c)) root))
        (get nat_eq callers.old (code d))) }
{
    let now = match callers.get(&code_of(c)) {
        None => Callers::One(root),
        Some(_) => Callers::Several,
    };
    callers.insert(code_of(c), now)?;
    Ok(())
}

/// Whether the only caller's only root combines like that.
fn is_called_by(comb: Comb, callers: Option<Callers>) -> bool
    ensures { result ≡ called_by comb callers }
{
    match callers {
        Some(Callers::One(Some(root))) => root == comb,
        _ => false,
    }
}

/// Whether each lifted Gbk is read by one Pdo alone, whose only root combines as the Gbk is lifted.
pub(crate) fn are_lifted_ok(alloc: Global, graph: &Graph) -> Result<bool, AllocError>
    ensures { IfOk result (λ b. b
        ≡ list_all (λ e. lifted_ok graph.now e.number e.node) graph.now.nodes) }
{
    let held = held_places(alloc, graph)?;
    let callers = all_callers(alloc, graph.nodes.as_slice())?;
    for e in graph.nodes.as_slice() {
        if !is_lifted_ok(graph, &held, &callers, e) {
            return Ok(false);
        }
    }
    Ok(true)
}

fn is_lifted_ok(
    graph: &Graph,
    held: &HashSet<u64>,
    callers: &HashMap<u64, Callers>,
    entry: &Entry,
) -> bool
    requires held { HasPlaces held.now (is_held graph.now) }
    requires callers { HasCallers callers.now (callers_from None graph.now.nodes) }
    ensures { result ≡ lifted_ok graph.now entry.now.number entry.now.node }
{
    match &entry.node {
        Node::Gbk {
            lifted: Some(comb),
            ..
        } => {
            let at = code_of(Place {
                node: entry.number,
                out: 0,
            });
            !held.contains(&at) && is_called_by(*comb, callers.get(&at).copied())
        }
        _ => true,
    }
}
