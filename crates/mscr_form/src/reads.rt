// The collections that an operation reads, and those that sources give.
ghost use Rattle.std.specs.Prelude.{◌≡◌, ◌++◌, [], ◌∷◌, ℕ, Bool, IfOk, OnOk};
ghost use Rattle.std.specs.List.{flat_map};
ghost use Rattle.exec_graph.specs.Meaning.{place};
ghost use Rattle.exec_graph.specs.Places.{HasAlso, HasPlaces};
ghost use Rattle.exec_graph.specs.Readers.{among};
ghost use Rattle.plan_laws.specs.Operations as operations;

use exec_graph::{Act, Entry, Node, Place, add_place};
use flume_value::Pile;
use form_laws::plan_making::Nodes;
use plan_laws::{Key, Operation};
use std::alloc::{AllocError, Global};
use std::collections::HashSet;

/// The collections of the graph that an operation reads.
pub(crate) fn reads_of(
    alloc: Global,
    nodes: &Nodes<'_>,
    operation: &Operation,
) -> Result<Pile<Place>, AllocError>
    ensures { IfOk result (λ cs. cs ≡ operations.reads_of nodes.now operation.now) }
{
    match operation {
        Operation::Flat(number) => {
            let inputs = Vec::from_slice(alloc, nodes.flat_inputs(*number))?;
            Ok(Pile::from_vec(inputs))
        }
        Operation::Class(keys, _, _) => keys_read(alloc, nodes, keys.as_slice()),
    }
}

/// What the input channels of the keys read.
fn keys_read(alloc: Global, nodes: &Nodes<'_>, keys: &[Key]) -> Result<Pile<Place>, AllocError>
    ensures { IfOk result (λ cs. cs
        ≡ flat_map operations.reading_reads (operations.channels_of nodes.now keys.now)) }
{
    let mut all = Vec::new(alloc);
    for key in keys {
        add_key_reads(nodes, *key, &mut all)?;
    }
    Ok(Pile::from_vec(all))
}

/// Adds what an input channel reads.
fn add_key_reads(nodes: &Nodes<'_>, key: Key, all: &mut Vec<Place>) -> Result<(), AllocError>
    ensures { OnOk result (all.new.items ≡ all.old.items
        ++ operations.reading_reads (operations.channel_of nodes.now key)) }
{
    match key {
        Key::Whole(c) => {
            all.push(c)?;
            Ok(())
        }
        Key::Mapper(number) => match nodes.find(number) {
            Some(Node::Pdo { input: c, .. }) => {
                all.push(*c)?;
                Ok(())
            }
            Some(Node::Barrier { inputs, act, .. }) => {
                add_side(number, *act, inputs.as_slice(), all)
            }
            _ => add_itself(number, all),
        },
    }
}

/// Adds what a step beside an object reads.
fn add_side(number: u32, act: Act, inputs: &[Place], all: &mut Vec<Place>) -> Result<(), AllocError>
    ensures { (o : ℕ) (l : Bool) → OnOk result (all.new.items ≡ all.old.items
        ++ operations.reading_reads (operations.side_channel number o l act inputs.now)) }
{
    match act {
        Act::SideInput(_) => {
            if inputs.len() == 2 {
                all.push(inputs[0])?;
                all.push(inputs[1])?;
                Ok(())
            } else {
                add_itself(number, all)
            }
        }
        Act::Operate(_) | Act::Singleton(_) => add_itself(number, all),
    }
}

/// Adds the first output of a node.
fn add_itself(number: u32, all: &mut Vec<Place>) -> Result<(), AllocError>
    ensures { OnOk result (all.new.items ≡ all.old.items ++ place number 0 ∷ []) }
{
    all.push(Place {
        node: number,
        out: 0,
    })?;
    Ok(())
}

/// What the sources give.
pub(crate) fn sources_of(alloc: Global, nodes: &[Entry]) -> Result<HashSet<u64>, AllocError>
    ensures { IfOk result (λ s. HasPlaces s (λ d. among d (operations.source_places nodes.now))) }
{
    let mut places = HashSet::new(alloc);
    for entry in nodes {
        add_source(entry, &mut places)?;
    }
    Ok(places)
}

/// Adds what a source gives.
fn add_source(entry: &Entry, places: &mut HashSet<u64>) -> Result<(), AllocError>
    ensures { OnOk result (HasAlso places.old places.new
        (λ d. among d (operations.source_place entry.now.number entry.now.node))) }
{
    match &entry.node {
        Node::Source(_) => add_place(
            Place {
                node: entry.number,
                out: 0,
            },
            places,
        ),
        Node::Flatten(_) | Node::Pdo { .. } | Node::Gbk { .. } | Node::Barrier { .. } => { Ok(()) }
    }
}
