// Fusing: the nodes that are left, and what is read where it is now.
ghost use Rattle.std.specs.Prelude.{◌≡◌, ℕ, map, IfOk};
ghost use Rattle.std.specs.List.{flat_map};
ghost use Rattle.exec_graph.specs.Meaning.{SameMeaning};
ghost use Rattle.exec_graph.specs.Typing.{KeepsTypes};
ghost use Rattle.exec_graph.specs.Wellformed.{IsBlockedOk};
ghost use Rattle.graph_laws.specs.Joining.{reread, reread_entry};
ghost use Rattle.pardo_fuse.specs.Readers.{cut_of};
ghost use Rattle.pardo_fuse.specs.Fusing.{fused, kept_of};
ghost use Rattle.pardo_fuse.specs.Wellformed.{IsFusible, IsSettled};
ghost use Rattle.exec_graph.specs.declared.graph.Place.{Place as GhostPlace};
ghost use Rattle.pardo_fuse.specs.inner.Naming.{AllShort, all_names, by_index, by_name, numbered_entry};
ghost use Rattle.pardo_fuse.specs.inner.Numbers.{least_from, number_in};

use crate::left::{Joined, joined_nodes};
use crate::names::{Naming, index_of, place_of, places_of};
use crate::numbers::least_numbers;
use crate::renumbering::{are_same, under_numbers};
use crate::tables::tables_of;
use exec_graph::{Blocked, Entry, Graph, Node, Place};
use flume_value::Pile;
use std::alloc::{AllocError, Global};
use std::collections::HashMap;
use std::mem;

/// Makes each Pdo that reads an unmarked output of a Pdo a kid on that output of its step, and Pdos
/// that then read one collection one Pdo, under the least number of those that become one. Before,
/// each Pdo has one step with few outputs.
pub fn fuse(alloc: Global, blocked: Blocked) -> Result<Blocked, AllocError>
    requires { IsFusible blocked }
    ensures fused { IfOk result (λ c. c ≡ fused blocked) }
    ensures settled { IfOk result (λ c. IsSettled c) }
    ensures same { IfOk result (λ c. SameMeaning blocked.graph c.graph) }
    ensures types { IfOk result (λ c. KeepsTypes blocked.graph c.graph) }
    ensures well_formed { IfOk result (λ c. IsBlockedOk c) }
{
    let Parts {
        nodes,
        index,
        numbers,
    } = parts_of(alloc, &blocked)?;
    let same = are_same(blocked.graph.nodes.as_slice(), &numbers);
    let by_parents = renamed(alloc, blocked, nodes, &index);
    let fused = under_numbers(alloc, by_parents, &numbers, same)?;
    Ok(fused)
}

/// What the fused graph is made of.
#[derive(Drop)]
struct Parts {
    /// The nodes that are left, with what they read as it was.
    nodes: Vec<Entry>,
    /// Where each former output of a Pdo is now, by its code.
    index: HashMap<u64, Place>,
    /// Under which number each node stands then.
    numbers: HashMap<u32, u32>,
}

fn parts_of(alloc: Global, blocked: &Blocked) -> Result<Parts, AllocError>
    requires { AllShort (cut_of blocked.now) blocked.now.graph.nodes }
    ensures nodes { IfOk result (λ p. p.nodes.items
        ≡ flat_map (λ e. map numbered_entry (kept_of (cut_of blocked.now) e.number e.node))
        blocked.now.graph.nodes) }
    ensures index { IfOk result (λ p. (c : GhostPlace) → by_index p.index c
        ≡ by_name (all_names (cut_of blocked.now)) c) }
    ensures numbers { IfOk result (λ p. (n : ℕ) → number_in p.numbers n
        ≡ least_from (cut_of blocked.now) blocked.now.graph.nodes n) }
{
    let tables = tables_of(alloc, blocked)?;
    let numbers = least_numbers(alloc, blocked, &tables)?;
    let Joined { nodes, naming } = joined_nodes(alloc, blocked, &tables)?;
    let Naming { names, next: _ } = naming;
    let index = index_of(alloc, names.as_slice())?;
    Ok(Parts {
        nodes,
        index,
        numbers,
    })
}

/// The graph of these nodes, with what is read where it is now.
fn renamed(
    alloc: Global,
    blocked: Blocked,
    nodes: Vec<Entry>,
    index: &HashMap<u64, Place>,
) -> Blocked
    ensures { result ≡ record {
      graph = record {
        nodes = map (reread_entry (by_index index.now)) nodes.items;
        outputs = map (by_index index.now) blocked.graph.outputs;
        next = blocked.graph.next;
      };
      marks = map (by_index index.now) blocked.marks;
    } }
{
    let Blocked { graph, marks } = blocked;
    let Graph {
        nodes: _,
        outputs,
        next,
    } = graph;
    Blocked {
        graph: Graph {
            nodes: reread_all(alloc, nodes, index),
            outputs: places_of(outputs, index),
            next,
        },
        marks: places_of(marks, index),
    }
}

fn reread_all(alloc: Global, nodes: Vec<Entry>, index: &HashMap<u64, Place>) -> Pile<Entry>
    ensures { result ≡ map (reread_entry (by_index index.now)) nodes.items }
{
    let mut all = nodes;
    for entry in all.iter_mut() {
        reread_entry(alloc, entry, index);
    }
    Pile::from_vec(all)
}

fn reread_entry(alloc: Global, entry: &mut Entry, index: &HashMap<u64, Place>)
    ensures { entry.new ≡ reread_entry (by_index index.now) entry.old }
{
    reread(alloc, &mut entry.node, index);
}

fn reread(alloc: Global, node: &mut Node, index: &HashMap<u64, Place>)
    ensures { node.new ≡ reread (by_index index.now) node.old }
{
    match node {
        Node::Source(_) => {}
        Node::Flatten(inputs) => {
            let former = mem::replace(inputs, Pile::new(alloc));
            *inputs = places_of(former, index);
        }
        Node::Pdo { input: c, .. } => *c = place_of(*c, index),
        Node::Gbk { input: c, .. } => *c = place_of(*c, index),
        Node::Barrier { inputs, .. } => {
            let former = mem::replace(inputs, Pile::new(alloc));
            *inputs = places_of(former, index);
        }
    }
}
