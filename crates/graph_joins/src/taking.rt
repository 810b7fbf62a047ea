// A Pdo takes in another one, whose name stays with its outputs.
ghost use Rattle.std.specs.Prelude.{◌≡◌, false, IfOk, true};
ghost use Rattle.exec_graph.specs.Forests.{Bare, grown};
ghost use Rattle.exec_graph.specs.Meaning.{OutsDiffer, has_out, node_at};
ghost use Rattle.graph_joining.specs.inner.Refits.{with_pdo};
ghost use Rattle.graph_laws.specs.Joining.{beside, grafted};
ghost use Rattle.graph_laws.specs.Kids.{kept_by};
ghost use Rattle.graph_states.specs.of_graph_rewrites.Rewrites.{forest_at, input_at};
ghost use Rattle.graph_states.specs.of_pardo_fuse.Readers.{is_pdo};
ghost use Rattle.graph_states.specs.States.{all_but, taken_in};
ghost use Rattle.graph_walks.specs.Outs.{outs};
ghost use Rattle.graph_joins.specs.inner.Splices.{spliced};

use crate::graphs::NamedGraph;
use crate::putting::put;
use crate::ways::{Ways, way_to};
use exec_graph::{Node, Place, Roots, Step};
use flume_value::Pile;
use graph_joining::replaced;
use std::alloc::{AllocError, Global};

/// The Pdo has the steps of the other behind its own, and the other is gone.
pub(crate) fn paired(
    alloc: Global,
    graph: NamedGraph,
    keeper: u32,
    other: u32,
) -> Result<NamedGraph, AllocError>
    requires differ { keeper ≡ other → ⊥ }
    requires keeper { is_pdo (node_at graph.nodes keeper) ≡ true }
    requires other { is_pdo (node_at graph.nodes other) ≡ true }
    ensures { IfOk result (λ h. h ≡ taken_in graph keeper other (input_at graph keeper)
        (beside (forest_at graph keeper) (forest_at graph other))) }
{
    let Parted {
        graph: left,
        input,
        mut stays,
        mut goes,
    } = take_apart(alloc, graph, keeper, other);
    stays.append(&mut goes)?;
    Ok(with_steps(alloc, left, keeper, input, stays))
}

/// A graph, and whether it is known that no steps were on the output on which some are now.
#[derive(Drop)]
pub(crate) struct Grafted {
    pub(crate) graph: NamedGraph,
    pub(crate) is_bare: bool,
}

/// The Pdo has the steps of the other on its output of that name, which is kept then or not, and
/// the other is gone.
pub(crate) fn hung(
    alloc: Global,
    graph: NamedGraph,
    keeper: u32,
    other: u32,
    name: u32,
    keep: bool,
    ways: &Ways,
) -> Result<Grafted, AllocError>
    requires differ { keeper ≡ other → ⊥ }
    requires keeper { is_pdo (node_at graph.nodes keeper) ≡ true }
    requires other { is_pdo (node_at graph.nodes other) ≡ true }
    requires outs { OutsDiffer (forest_at graph keeper) }
    requires apart { has_out name (forest_at graph other) ≡ false }
    ensures graph { IfOk result (λ h. h.graph ≡ taken_in graph keeper other
        (input_at graph keeper) (kept_by (all_but name keep)
        (grafted name (forest_at graph other) (forest_at graph keeper)))) }
    ensures outs { IfOk result (λ h. h.is_bare ≡ true → outs (kept_by (all_but name keep)
        (grafted name (forest_at graph other) (forest_at graph keeper)))
        ≡ spliced name keep (outs (forest_at graph other)) (outs (forest_at graph keeper))) }
{
    let way = way_to(alloc, name, ways)?;
    let Parted {
        graph: left,
        input,
        mut stays,
        goes,
    } = take_apart(alloc, graph, keeper, other);
    let is_bare = put(&mut stays, way.as_slice(), name, keep, goes)?;
    Ok(Grafted {
        graph: with_steps(alloc, left, keeper, input, stays),
        is_bare,
    })
}

/// A graph of which one Pdo without steps is to stand for two, and the steps of both.
#[derive(Drop)]
struct Parted {
    graph: NamedGraph,
    /// What the Pdo that is left reads.
    input: Place,
    /// Those of the Pdo that is left.
    stays: Vec<Step>,
    /// Those of the Pdo that is gone.
    goes: Vec<Step>,
}

fn take_apart(alloc: Global, graph: NamedGraph, stays: u32, goes: u32) -> Parted
    requires differ { stays ≡ goes → ⊥ }
    requires stays { is_pdo (node_at graph.nodes stays) ≡ true }
    requires goes { is_pdo (node_at graph.nodes goes) ≡ true }
    ensures graph { result.graph ≡ taken_in graph stays goes (input_at graph stays) Bare }
    ensures pdo { is_pdo (node_at result.graph.nodes stays) ≡ true }
    ensures input { result.input ≡ input_at graph stays }
    ensures stays { grown result.stays.items ≡ forest_at graph stays }
    ensures goes { grown result.goes.items ≡ forest_at graph goes }
{
    let input = graph.input(stays);
    let NamedGraph {
        nodes,
        outputs,
        next,
    } = graph;
    let none = Pile::new(alloc);
    let gone = replaced(alloc, nodes, goes, Node::Flatten(none));
    let empty = Vec::new(alloc);
    let roots = Roots::new(empty);
    let left = replaced(alloc, gone.nodes, stays, Node::Pdo { input, roots });
    let taken = NamedGraph {
        nodes: left.nodes,
        outputs,
        next,
    };
    Parted {
        graph: taken,
        input,
        stays: left.steps,
        goes: gone.steps,
    }
}

/// The graph in which the Pdo of that number has these steps.
fn with_steps(
    alloc: Global,
    graph: NamedGraph,
    number: u32,
    input: Place,
    steps: Vec<Step>,
) -> NamedGraph
    requires { is_pdo (node_at graph.nodes number) ≡ true }
    ensures { result ≡ with_pdo graph number input (grown steps.items) }
{
    let NamedGraph {
        nodes,
        outputs,
        next,
    } = graph;
    let roots = Roots::new(steps);
    let changed = replaced(alloc, nodes, number, Node::Pdo { input, roots });
    NamedGraph {
        nodes: changed.nodes,
        outputs,
        next,
    }
}
