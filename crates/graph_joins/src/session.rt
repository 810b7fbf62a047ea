// Pdos become one under names, one after another.
ghost use Rattle.std.specs.Prelude.{◌≡◌, ◌↔◌, ℕ, IfNone, IfOk, IfSome, IsTrue};
ghost use Rattle.exec_graph.specs.Meaning.{node_at};
ghost use Rattle.exec_graph.specs.Wellformed.{IsGraphOk};
ghost use Rattle.graph_states.specs.of_graph_names.Names.{unnamed};
ghost use Rattle.graph_laws.specs.Joining.{beside};
ghost use Rattle.graph_states.specs.States.{taken_in};
ghost use Rattle.graph_states.specs.of_graph_rewrites.Rewrites as rewrites;
ghost use Rattle.flatten_sink.specs.of_sink_laws.Chain.{forest_of};
ghost use Rattle.graph_walks.specs.Outs.{outs};
ghost use Rattle.graph_joins.specs.Counts.{HasCounts};
ghost use Rattle.graph_joins.specs.Lists.{HasLists};
ghost use Rattle.graph_joins.specs.Sessions as spec;
ghost use Rattle.graph_joins.specs.inner.Seeks.{is_kth};
ghost use Rattle.graph_joins.specs.inner.Tests as tests;

use crate::counts::{count_at, count_off, counts_of};
use crate::graphs::NamedGraph;
use crate::lists::{is_listed, list_both, relist, unlist};
use crate::names::Names;
use crate::seeking::is_output;
use crate::taking::{hung, paired};
use crate::ways::{Ways, note_kid, note_sibling, ways_of};
use exec_graph::{Graph, Place};
use graph_joining::{Kid, can_sibling};
use graph_states::graph_names::{named, unnamed};
use std::alloc::{AllocError, Global};
use std::collections::HashMap;

/// A graph under names. In it Pdos become one without a change of what others read; numbers and
/// places are told again at the end.
#[derive(Drop)]
pub struct Joins {
    pub graph: NamedGraph,
    pub tables: Tables,
}

/// What is told of a graph under names.
#[derive(Drop)]
pub struct Tables {
    /// How often each collection is read.
    pub counts: HashMap<u64, u32>,
    /// The names that a Pdo keeps, in preorder, of those that took others in.
    pub lists: HashMap<u32, Names>,
    /// Where names stand.
    pub(crate) ways: Ways,
}

/// The graph under names. It takes time in proportion to the graph's size.
pub fn begin(alloc: Global, graph: Graph) -> Result<Joins, AllocError>
    requires { IsGraphOk graph }
    ensures session { IfOk result (λ j. spec.IsSession j) }
    ensures same { IfOk result (λ j. unnamed j.graph ≡ graph) }
{
    let under = named(alloc, graph)?;
    let tables = tables_of(alloc, &under)?;
    Ok(Joins {
        graph: NamedGraph::new(under),
        tables,
    })
}

fn tables_of(alloc: Global, graph: &Graph) -> Result<Tables, AllocError>
    ensures counts { IfOk result (λ t. HasCounts t.counts graph.now) }
    ensures lists { IfOk result (λ t. HasLists t.lists graph.now.nodes) }
{
    let counts = counts_of(alloc, graph)?;
    let ways = ways_of(alloc, graph.nodes.as_slice())?;
    Ok(Tables {
        counts,
        lists: HashMap::new(alloc),
        ways,
    })
}

/// The graph without names. It takes time in proportion to the graph's size.
pub fn end(alloc: Global, joins: Joins) -> Result<Graph, AllocError>
    ensures { IfOk result (λ g. g ≡ unnamed joins.graph) }
{
    let Joins { graph, tables: _ } = joins;
    unnamed(alloc, graph.into_graph())
}

/// Whether both are Pdos that read one collection, and the other has the greater number.
pub fn is_pair(joins: &Joins, keeper: u32, other: u32) -> bool
    requires { spec.IsSession joins.now }
    ensures { IsTrue result ↔ spec.ArePair joins.now.graph keeper other }
{
    can_sibling(joins.graph.entries(), keeper, other)
}

/// The roots of the Pdo `other` follow those of `keeper`, which reads the same.
pub fn with_sibling(
    alloc: Global,
    joins: Joins,
    keeper: u32,
    other: u32,
) -> Result<Joins, AllocError>
    requires session { spec.IsSession joins }
    requires pair { spec.ArePair joins.graph keeper other }
    ensures session { IfOk result (λ j. spec.IsSession j) }
    ensures can { IfOk result (λ j.
        rewrites.CanBeSibling (unnamed joins.graph) keeper other) }
    ensures made { IfOk result (λ j. unnamed j.graph
        ≡ rewrites.after_sibling (unnamed joins.graph) keeper other) }
    ensures taken { IfOk result (λ j. j.graph ≡ taken_in joins.graph keeper other
        (rewrites.input_at joins.graph keeper) (beside (rewrites.forest_at joins.graph keeper)
        (rewrites.forest_at joins.graph other))) }
{
    let Joins { graph, mut tables } = joins;
    let input = graph.input(keeper);
    let _out = input.out;
    let behind = graph.steps(keeper).len();
    count_off(input, &mut tables.counts)?;
    note_sibling(other, keeper, behind, &mut tables.ways)?;
    unlist(keeper, other, &mut tables.lists);
    let taken = paired(alloc, graph, keeper, other)?;
    Ok(Joins {
        graph: taken,
        tables,
    })
}

/// The name of the keeper's output, if the reader is a Pdo of greater number that reads it.
pub fn read_name(joins: &Joins, kid: Kid) -> Option<u32>
    requires { spec.IsSession joins.now }
    ensures some { IfSome result (λ n.
        spec.IsReader joins.now.graph kid.keeper kid.output kid.reader n) }
    ensures none { IfNone result ((n : ℕ) →
        spec.IsReader joins.now.graph kid.keeper kid.output kid.reader n → ⊥) }
{
    let graph = &joins.graph;
    let read = graph.input(kid.reader);
    if !reads(graph, kid.keeper, kid.reader, read) {
        return None;
    }
    if is_told(
        &joins.tables.lists,
        graph,
        kid.keeper,
        kid.output,
        read.node,
    ) {
        Some(read.node)
    } else {
        None
    }
}

/// Whether that output of the Pdo has that name, by what is told of it, or by its steps.
fn is_told(
    lists: &HashMap<u32, Names>,
    graph: &NamedGraph,
    keeper: u32,
    output: u32,
    name: u32,
) -> bool
    requires { HasLists lists.now graph.now.nodes }
    ensures { result
        ≡ is_kth (outs (forest_of (node_at graph.now.nodes keeper))) output name }
{
    match lists.get(&keeper) {
        Some(names) => is_listed(names, output, name),
        None => is_output(graph.steps(keeper), output, name),
    }
}

/// The roots of the reader become the last kids of that output of the keeper, which has that name.
pub fn with_kid(alloc: Global, joins: Joins, kid: Kid, name: u32) -> Result<Joins, AllocError>
    requires session { spec.IsSession joins }
    requires reads { spec.IsReader joins.graph kid.keeper kid.output kid.reader name }
    ensures session { IfOk result (λ j. spec.IsSession j) }
    ensures can { IfOk result (λ j.
        rewrites.CanBeKid (unnamed joins.graph) kid.keeper kid.output kid.reader) }
    ensures made { IfOk result (λ j. unnamed j.graph
        ≡ rewrites.after_kid (unnamed joins.graph) kid.keeper kid.output kid.reader) }
{
    let Joins { graph, mut tables } = joins;
    let read = Place { node: name, out: 0 };
    count_off(read, &mut tables.counts)?;
    let keep = 0 < count_at(&tables.counts, read);
    list_both(alloc, &graph, kid.keeper, kid.reader, &mut tables.lists)?;
    let taken = hung(
        alloc,
        graph,
        kid.keeper,
        kid.reader,
        name,
        keep,
        &tables.ways,
    )?;
    note_kid(kid.reader, name, &mut tables.ways)?;
    relist(kid, keep, taken.is_bare, &mut tables.lists)?;
    Ok(Joins {
        graph: taken.graph,
        tables,
    })
}

/// Whether both are Pdos, and the reader has the greater number and reads a name.
fn reads(graph: &NamedGraph, keeper: u32, reader: u32, read: Place) -> bool
    ensures { result ≡ tests.reads graph.now.nodes keeper reader read }
{
    if keeper >= reader {
        return false;
    }
    if read.out != 0 {
        return false;
    }
    graph.is_pdo(keeper) && graph.is_pdo(reader)
}
