// Which collections are read, and by what kind of reader.
ghost use Rattle.std.specs.Prelude.{◌≡◌, ◌&&◌, ◌||◌, OnOk, IfOk};
ghost use Rattle.exec_graph.specs.Meaning.{place};
ghost use Rattle.exec_graph.specs.Places.{HasAlso, HasPlaces};
ghost use Rattle.fusion_blocks.specs.Feeding.{is_flatten_of};
ghost use Rattle.plan_roles.specs.Reading.{carries_on, goes_on, goes_past, works_on};
ghost use Rattle.plan_roles.specs.Mappers.{is_stage, is_staged};
ghost use Rattle.plan_roles.specs.inner.Tables.{HasAmong, IsReading};

use exec_graph::{Blocked, Entry, Node, Place, add_place, add_places, code_of, set_of_places};
use std::alloc::{AllocError, Global};
use std::collections::HashSet;

/// Collections by who reads them.
#[derive(Drop)]
pub(crate) struct Reading {
    /// The script outputs.
    pub(crate) told: HashSet<u64>,
    /// Those that a Pdo or a Flatten reads.
    pub(crate) on: HashSet<u64>,
    /// Those with a reader that is neither a Gbk, nor a script output, nor a Flatten whose every
    /// reader is a Gbk or a script output.
    pub(crate) past: HashSet<u64>,
    /// Those that a Flatten reads that is a stage.
    pub(crate) staged: HashSet<u64>,
}

pub(crate) fn reading_of(alloc: Global, blocked: &Blocked) -> Result<Reading, AllocError>
    ensures { IfOk result (λ s. IsReading blocked.now s) }
{
    let nodes = blocked.graph.nodes.as_slice();
    let told = set_of_places(alloc, blocked.graph.outputs.as_slice())?;
    let on = on_places(alloc, nodes)?;
    let past = past_places(alloc, nodes, &on)?;
    let staged = staged_places(alloc, blocked, &told, &on)?;
    Ok(Reading {
        told,
        on,
        past,
        staged,
    })
}

fn on_places(alloc: Global, nodes: &[Entry]) -> Result<HashSet<u64>, AllocError>
    ensures { IfOk result (λ s. HasPlaces s (goes_on nodes.now)) }
{
    let mut all = HashSet::new(alloc);
    for e in nodes {
        add_on(&e.node, &mut all)?;
    }
    Ok(all)
}

fn add_on(node: &Node, all: &mut HashSet<u64>) -> Result<(), AllocError>
    ensures { OnOk result (HasAlso all.old all.new
        (λ d. works_on d node.now || is_flatten_of d node.now)) }
{
    match node {
        Node::Pdo { input: c, .. } => add_place(*c, all),
        Node::Flatten(inputs) => add_places(inputs.as_slice(), all),
        Node::Barrier { inputs, .. } => add_places(inputs.as_slice(), all),
        Node::Source(_) | Node::Gbk { .. } => Ok(()),
    }
}

/// Whether a Pdo or a Flatten reads the first output of the node.
fn is_on(nodes: &[Entry], on: &HashSet<u64>, number: u32) -> bool
    requires on { HasPlaces on.now (goes_on nodes.now) }
    ensures { result ≡ goes_on nodes.now (place number 0) }
{
    on.contains(&code_of(Place {
        node: number,
        out: 0,
    }))
}

fn past_places(
    alloc: Global,
    nodes: &[Entry],
    on: &HashSet<u64>,
) -> Result<HashSet<u64>, AllocError>
    requires on { HasPlaces on.now (goes_on nodes.now) }
    ensures { IfOk result (λ s. HasPlaces s (goes_past nodes.now)) }
{
    let mut all = HashSet::new(alloc);
    for e in nodes {
        add_past(nodes, on, e, &mut all)?;
    }
    Ok(all)
}

fn add_past(
    nodes: &[Entry],
    on: &HashSet<u64>,
    entry: &Entry,
    all: &mut HashSet<u64>,
) -> Result<(), AllocError>
    requires on { HasPlaces on.now (goes_on nodes.now) }
    ensures { OnOk result (HasAlso all.old all.new (λ d. carries_on nodes.now d entry.now)) }
{
    match &entry.node {
        Node::Pdo { input: c, .. } => add_place(*c, all),
        Node::Flatten(inputs) => {
            if !is_on(nodes, on, entry.number) {
                return Ok(());
            }
            add_places(inputs.as_slice(), all)
        }
        Node::Barrier { inputs, .. } => add_places(inputs.as_slice(), all),
        Node::Source(_) | Node::Gbk { .. } => Ok(()),
    }
}

/// Whether a script output, a Pdo or another Flatten reads the Flatten.
pub(crate) fn is_stage(
    blocked: &Blocked,
    told: &HashSet<u64>,
    on: &HashSet<u64>,
    number: u32,
) -> bool
    requires told { HasAmong told.now blocked.now.graph.outputs }
    requires on { HasPlaces on.now (goes_on blocked.now.graph.nodes) }
    ensures { result ≡ is_stage blocked.now number }
{
    let at = code_of(Place {
        node: number,
        out: 0,
    });
    told.contains(&at) || on.contains(&at)
}

fn staged_places(
    alloc: Global,
    blocked: &Blocked,
    told: &HashSet<u64>,
    on: &HashSet<u64>,
) -> Result<HashSet<u64>, AllocError>
    requires told { HasAmong told.now blocked.now.graph.outputs }
    requires on { HasPlaces on.now (goes_on blocked.now.graph.nodes) }
    ensures { IfOk result (λ s. HasPlaces s (is_staged blocked.now)) }
{
    let mut all = HashSet::new(alloc);
    for e in blocked.graph.nodes.as_slice() {
        add_staged(blocked, told, on, e, &mut all)?;
    }
    Ok(all)
}

fn add_staged(
    blocked: &Blocked,
    told: &HashSet<u64>,
    on: &HashSet<u64>,
    entry: &Entry,
    all: &mut HashSet<u64>,
) -> Result<(), AllocError>
    requires told { HasAmong told.now blocked.now.graph.outputs }
    requires on { HasPlaces on.now (goes_on blocked.now.graph.nodes) }
    ensures { OnOk result (HasAlso all.old all.new
        (λ d. is_flatten_of d entry.now.node && is_stage blocked.now entry.now.number)) }
{
    match &entry.node {
        Node::Flatten(inputs) => {
            if !is_stage(blocked, told, on, entry.number) {
                return Ok(());
            }
            add_places(inputs.as_slice(), all)
        }
        Node::Source(_) | Node::Pdo { .. } | Node::Gbk { .. } | Node::Barrier { .. } => Ok(()),
    }
}
