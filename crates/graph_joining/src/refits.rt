// Another Pdo in place of two, and other places for what was read of them.
ghost use Rattle.std.specs.Prelude.{◌≡◌, ℕ, IfOk, slice_index_or, Some};
ghost use Rattle.exec_graph.specs.Forests.{Bare, grown};
ghost use Rattle.exec_graph.specs.Meaning.{node_at};
ghost use Rattle.exec_graph.specs.Wellformed.{Ascends};
ghost use Rattle.exec_graph.specs.declared.graph.Node.TheVariants as node;
ghost use Rattle.graph_laws.specs.Kids.{renewed};
ghost use Rattle.graph_rewrites.specs.Rewrites.{forest_at};
ghost use Rattle.graph_walks.specs.Outs.{place_of};
ghost use Rattle.graph_joining.specs.inner.Apart.{gone_by, place_by, rule_of};
ghost use Rattle.graph_joining.specs.inner.Joined.{IsOfOne};
ghost use Rattle.graph_joining.specs.inner.Refits.{parted, refitted_by, with_pdo};

use crate::flags::read_flags;
use crate::moves::{Apart, Placed};
use crate::nodes::{replaced, without_node};
use exec_graph::{Graph, Node, Place, Roots, Step};
use flume_value::Pile;
use graph_walks::{number_table, renumber, reread_nodes, reread_places};
use std::alloc::{AllocError, Global};

/// A graph in which one Pdo without steps stands for two, and the steps of both.
#[derive(Drop)]
pub(crate) struct Parted {
    pub(crate) graph: Graph,
    /// Those of the keeper.
    pub(crate) near: Vec<Step>,
    /// Those of the other.
    pub(crate) far: Vec<Step>,
}

/// The graph with a Pdo without steps that reads `input` in place of both.
pub(crate) fn take_apart(alloc: Global, graph: Graph, by: Apart, input: Place) -> Parted
    requires ascends { Ascends graph.nodes }
    requires differ { by.keeper ≡ by.other → ⊥ }
    requires number { IsOfOne by }
    ensures graph { result.graph ≡ parted graph by.number (gone_by by) input }
    ensures near { grown result.near.items ≡ forest_at graph by.keeper }
    ensures far { grown result.far.items ≡ forest_at graph by.other }
{
    let Graph {
        nodes,
        outputs,
        next,
    } = graph;
    let near = replaced(alloc, nodes.into_vec(), by.keeper, bare_pdo(alloc, input));
    let far = replaced(alloc, near.nodes, by.other, bare_pdo(alloc, input));
    let left = without_node(far.nodes, by.gone());
    Parted {
        graph: Graph {
            nodes: Pile::from_vec(left),
            outputs,
            next,
        },
        near: near.steps,
        far: far.steps,
    }
}

fn bare_pdo(alloc: Global, input: Place) -> Node
    ensures { result ≡ node.Pdo input Bare }
{
    let roots = Roots::new(Vec::new(alloc));
    Node::Pdo { input, roots }
}

/// The Pdo that is left has these steps. What is read of them is kept, and numbered from 0 on.
pub(crate) fn renewed(
    alloc: Global,
    graph: Graph,
    input: Place,
    steps: Vec<Step>,
    by: Apart,
) -> Result<Graph, AllocError>
    requires ascends { Ascends graph.nodes }
    requires here { node_at graph.nodes by.number ≡ Some (node.Pdo input Bare) }
    requires stays { place_by by input ≡ input }
    ensures { IfOk result (λ h. h ≡ renewed
        (refitted_by (place_by by) graph by.number input (grown steps.items))
        by.number input (grown steps.items)) }
{
    let mut steps = steps;
    let flags = read_flags(alloc, &graph, by)?;
    let outs = renumber(alloc, flags.as_slice(), &mut steps)?;
    let placed = by_places(alloc, by, outs.as_slice())?;
    let last = refit(alloc, graph, input, Roots::new(steps), &placed)?;
    Ok(last)
}

/// The outputs that are kept have the numbers of their places among these.
fn by_places(alloc: Global, apart: Apart, outs: &[u32]) -> Result<Placed, AllocError>
    ensures apart { IfOk result (λ m. m.apart ≡ apart) }
    ensures table { IfOk result (λ m. (j : ℕ) →
        slice_index_or m.table.items j m.count ≡ place_of outs.now j) }
{
    let count = u32::try_from(outs.len()).map_err(|_| AllocError)?;
    let table = number_table(alloc, outs, count)?;
    Ok(Placed {
        apart,
        table,
        count,
    })
}

/// The graph with the Pdo, in which all reads what it read where that is then.
fn refit(
    alloc: Global,
    graph: Graph,
    input: Place,
    roots: Roots,
    by: &Placed,
) -> Result<Graph, AllocError>
    requires { Ascends graph.nodes }
    ensures { IfOk result (λ h.
        h ≡ refitted_by (rule_of by.now) graph by.now.apart.number input roots) }
{
    let Graph {
        nodes,
        outputs,
        next,
    } = with_pdo(alloc, graph, by.apart.number, input, roots);
    let moved = reread_nodes(alloc, nodes.into_vec(), by)?;
    let told = reread_places(outputs, by)?;
    Ok(Graph {
        nodes: Pile::from_vec(moved),
        outputs: told,
        next,
    })
}

/// The graph with a Pdo of that number, and without changes for what was read.
fn with_pdo(alloc: Global, graph: Graph, number: u32, input: Place, roots: Roots) -> Graph
    requires { Ascends graph.nodes }
    ensures { result ≡ with_pdo graph number input roots }
{
    let Graph {
        nodes,
        outputs,
        next,
    } = graph;
    let pdo = Node::Pdo { input, roots };
    let changed = replaced(alloc, nodes.into_vec(), number, pdo);
    Graph {
        nodes: Pile::from_vec(changed.nodes),
        outputs,
        next,
    }
}
