// The nodes that are left: of the Pdos that read one collection the first, with its forest.
ghost use Rattle.std.specs.Prelude.{◌≡◌, ◌++◌, ◌∷◌, [], ◌<◌, ◌^◌, length, map, true, IfOk, OnOk};
ghost use Rattle.std.specs.List.{flat_map};
ghost use Rattle.exec_graph.specs.Forests.{numbered};
ghost use Rattle.exec_graph.specs.Readers.{readers};
ghost use Rattle.pardo_fuse.specs.Readers.{cut_of};
ghost use Rattle.pardo_fuse.specs.Fusing.{forest_over, kept_of};
ghost use Rattle.pardo_fuse.specs.inner.Naming.{AllShort, LeadsShort, all_names, labels, left_names, names_from, numbered_entry};
ghost use Rattle.pardo_fuse.specs.inner.Tables.{AreTables};

use crate::names::Naming;
use crate::parents::{leads, readers_of};
use crate::tables::Tables;
use crate::trees::trees_of;
use exec_graph::{Blocked, Entry, Node, Place, Roots};
use flume_value::Pile;
use std::alloc::{AllocError, Global};

/// The nodes that are left, and the names of their outputs.
#[derive(Drop)]
pub(crate) struct Joined {
    pub(crate) nodes: Vec<Entry>,
    pub(crate) naming: Naming,
}

/// The nodes that are left, with outputs that have numbers from 0 on, and with what they read as it
/// was.
pub(crate) fn joined_nodes(
    alloc: Global,
    blocked: &Blocked,
    tables: &Tables,
) -> Result<Joined, AllocError>
    requires tables { AreTables blocked.now tables.now }
    requires short { AllShort (cut_of blocked.now) blocked.now.graph.nodes }
    ensures nodes { IfOk result (λ j. j.nodes.items
        ≡ flat_map (λ e. map numbered_entry (kept_of (cut_of blocked.now) e.number e.node))
        blocked.now.graph.nodes) }
    ensures names { IfOk result (λ j. j.naming.names.items ≡ all_names (cut_of blocked.now)) }
{
    let mut nodes = Vec::new(alloc);
    let mut naming = Naming {
        names: Vec::new(alloc),
        next: 0,
    };
    for e in blocked.graph.nodes.as_slice() {
        push_left(alloc, blocked, tables, e, &mut nodes, &mut naming)?;
    }
    Ok(Joined { nodes, naming })
}

fn push_left(
    alloc: Global,
    blocked: &Blocked,
    tables: &Tables,
    entry: &Entry,
    nodes: &mut Vec<Entry>,
    naming: &mut Naming,
) -> Result<(), AllocError>
    requires tables { AreTables blocked.now tables.now }
    requires short { LeadsShort (cut_of blocked.now) entry.now.number entry.now.node }
    ensures nodes { OnOk result (nodes.new.items ≡ nodes.old.items
        ++ map numbered_entry (kept_of (cut_of blocked.now) entry.now.number entry.now.node)) }
    ensures names { OnOk result (naming.new.names.items ≡ naming.old.names.items
        ++ left_names (cut_of blocked.now) entry.now.number entry.now.node) }
{
    let number = entry.number;
    match &entry.node {
        Node::Source(row) => push_node(number, Node::Source(*row), nodes),
        Node::Flatten(inputs) => {
            let copy = copied(alloc, inputs.as_slice())?;
            push_node(number, Node::Flatten(copy), nodes)
        }
        Node::Pdo { input: c, .. } => {
            if !leads(blocked, tables, number, *c) {
                return Ok(());
            }
            let roots = forest_of(alloc, blocked, tables, number, *c, naming)?;
            push_node(number, Node::Pdo { input: *c, roots }, nodes)?;
            Ok(())
        }
        Node::Gbk {
            input: c,
            origin,
            is_own: last,
            lifted,
        } => {
            push_node(
                number,
                Node::Gbk {
                    input: *c,
                    origin: *origin,
                    is_own: *last,
                    lifted: *lifted,
                },
                nodes,
            )
        }
        Node::Barrier {
            inputs,
            origin,
            is_own: last,
            act,
        } => {
            let copy = copied(alloc, inputs.as_slice())?;
            push_node(
                number,
                Node::Barrier {
                    inputs: copy,
                    origin: *origin,
                    is_own: *last,
                    act: *act,
                },
                nodes,
            )
        }
    }
}

/// The forest of a collection in the node `lead`, with outputs that have numbers from 0 on.
fn forest_of(
    alloc: Global,
    blocked: &Blocked,
    tables: &Tables,
    lead: u32,
    c: Place,
    naming: &mut Naming,
) -> Result<Roots, AllocError>
    requires tables { AreTables blocked.now tables.now }
    requires few { labels (forest_over (cut_of blocked.now) c) < 2 ^ 32 }
    ensures forest { IfOk result (λ f. f ≡ numbered 0 (forest_over (cut_of blocked.now) c)) }
    ensures names { OnOk result (naming.new.names.items ≡ naming.old.names.items
        ++ names_from lead 0 (forest_over (cut_of blocked.now) c)) }
{
    let roots = readers_of(blocked, tables, c);
    naming.next = 0;
    let trees = trees_of(
        alloc,
        blocked,
        tables,
        blocked.graph.nodes.len(),
        lead,
        roots,
        naming,
    )?;
    Ok(Roots::new(trees))
}

fn copied(alloc: Global, places: &[Place]) -> Result<Pile<Place>, AllocError>
    ensures { IfOk result (λ p. p ≡ places.now) }
{
    let mut copy = Pile::new(alloc);
    for c in places {
        copy.push(*c)?;
    }
    Ok(copy)
}

fn push_node(number: u32, node: Node, nodes: &mut Vec<Entry>) -> Result<(), AllocError>
    ensures { OnOk result (nodes.new.items
        ≡ nodes.old.items ++ (record { number = number; node = node }) ∷ []) }
{
    nodes.push(Entry { number, node })?;
    Ok(())
}
