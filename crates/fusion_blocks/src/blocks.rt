// The marks of a graph: where the chains from groups to what feeds a group are cut.
ghost use Rattle.std.specs.Prelude.{◌≡◌, [], List, OnOk, IfOk};
ghost use Rattle.exec_graph.specs.declared.graph.Entry.{Entry as GhostEntry};
ghost use Rattle.exec_graph.specs.Wellformed.{IsBlockedOk, IsGraphOk};
ghost use Rattle.fusion_blocks.specs.Blocks.{IsBlocked};
ghost use Rattle.node_index.specs.Index.{IsIndex};
ghost use Rattle.fusion_blocks.specs.inner.Stretches.{AreBefore, AreMarks, HasCodes, HasGrouped, MarkedBy, MarkedFrom, MarksAlso, fed};
ghost use Rattle.fusion_blocks.specs.inner.Tables.{IsRanked, known};
ghost use Rattle.fusion_blocks.specs.declared.chains.Stretch.TheVariants as least;

use crate::chains::{Stretch, stretch_of};
use crate::estimates::estimates_of;
use crate::feeding::grouped_of;
use crate::marks::Marks;
use exec_graph::{Blocked, Entry, Graph, Node, Place};
use flume_value::Pile;
use node_index::index_of;
use std::alloc::{AllocError, Global};
use std::collections::{HashMap, HashSet};
use std::slice;

/// The graph with its marked collections, by the scales of functions in hundredths: a function
/// whose number is past their end has none. It takes time in proportion to the graph's size.
pub fn block(alloc: Global, scales: &[u32], graph: Graph) -> Result<Blocked, AllocError>
    requires { IsGraphOk graph }
    ensures blocked { IfOk result (λ b. IsBlocked scales.now b) }
    ensures same { IfOk result (λ b. b.graph ≡ graph) }
    ensures well_formed { IfOk result (λ b. IsBlockedOk b) }
{
    let marks = marks_in(alloc, scales, graph.nodes.as_slice())?;
    Ok(Blocked {
        graph,
        marks: Pile::from_vec(marks),
    })
}

fn marks_in(alloc: Global, scales: &[u32], nodes: &[Entry]) -> Result<Vec<Place>, AllocError>
    requires { IsRanked nodes.now }
    ensures { IfOk result (λ v. AreMarks scales.now nodes.now v.items) }
{
    let index = index_of(alloc, nodes)?;
    let estimates = estimates_of(alloc, scales, nodes, &index)?;
    let grouped = grouped_of(alloc, nodes)?;
    marks_by(alloc, nodes, &index, &estimates, &grouped)
}

/// The marks by these estimates, where it is known which collections are grouped.
fn marks_by(
    alloc: Global,
    nodes: &[Entry],
    index: &HashMap<u32, usize>,
    estimates: &HashMap<u32, u64>,
    grouped: &HashSet<u32>,
) -> Result<Vec<Place>, AllocError>
    requires index { IsIndex index.now nodes.now }
    requires ranked { IsRanked nodes.now }
    requires grouped { HasGrouped grouped.now nodes.now }
    ensures { IfOk result (λ v. MarksAlso [] v.items
        (MarkedBy nodes.now (known estimates.now) nodes.now)) }
{
    let mut marks = Marks::new(alloc);
    let mut before = HashMap::new(alloc);
    for e in nodes {
        let fed = fed_by(grouped, e);
        mark_all(nodes, index, estimates, fed, &mut before, &mut marks)?;
    }
    let Marks { places, codes } = marks;
    drop(codes);
    Ok(places)
}

/// The collections by which a node is a Gbk, or a Flatten that a Gbk groups.
fn fed_by<'a>(grouped: &HashSet<u32>, entry: &'a Entry) -> &'a [Place]
    ensures { (nodes : List GhostEntry) → HasGrouped grouped.now nodes
        → result.now ≡ fed nodes entry.now.number entry.now.node }
{
    match &entry.node {
        Node::Gbk { input: c, .. } => slice::from_ref(c),
        Node::Flatten(inputs) => {
            if grouped.contains(&entry.number) {
                inputs.as_slice()
            } else {
                &[]
            }
        }
        Node::Source(_) | Node::Pdo { .. } | Node::Barrier { .. } => &[],
    }
}

/// Marks what is to be marked of the chains to these collections.
fn mark_all(
    nodes: &[Entry],
    index: &HashMap<u32, usize>,
    estimates: &HashMap<u32, u64>,
    places: &[Place],
    before: &mut HashMap<u32, Stretch>,
    marks: &mut Marks,
) -> Result<(), AllocError>
    requires index { IsIndex index.now nodes.now }
    requires ranked { IsRanked nodes.now }
    requires before { AreBefore nodes.now (known estimates.now) before.old }
    requires codes { HasCodes marks.old.codes marks.old.places.items }
    ensures before { OnOk result (AreBefore nodes.now (known estimates.now) before.new) }
    ensures codes { OnOk result (HasCodes marks.new.codes marks.new.places.items) }
    ensures marked { OnOk result (MarksAlso marks.old.places.items marks.new.places.items
        (MarkedFrom nodes.now (known estimates.now) places.now)) }
{
    for c in places {
        let stretch = stretch_of(nodes, index, estimates, *c, before)?;
        mark_least(stretch, marks)?;
    }
    Ok(())
}

fn mark_least(stretch: Stretch, marks: &mut Marks) -> Result<(), AllocError>
    requires codes { HasCodes marks.old.codes marks.old.places.items }
    ensures codes { OnOk result (HasCodes marks.new.codes marks.new.places.items) }
    ensures marked { OnOk result (MarksAlso marks.old.places.items marks.new.places.items
        (λ d. stretch ≡ least.Least d)) }
{
    match stretch {
        Stretch::Least(d) => marks.add(d),
        Stretch::Open | Stretch::Empty => Ok(()),
    }
}
