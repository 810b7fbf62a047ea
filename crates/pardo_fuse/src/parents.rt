// Which Pdos become kids on an output, which of them lead, and which outputs are kept.
ghost use Rattle.std.specs.Prelude.{◌≡◌, ◌<◌, ◌^◌, [], cond, Some, None};
ghost use Rattle.exec_graph.specs.Places.{code};
ghost use Rattle.exec_graph.specs.Meaning.{node_at};
ghost use Rattle.exec_graph.specs.Readers.{readers};
ghost use Rattle.pardo_fuse.specs.Readers.{cut_of, is_kept, is_pdo, is_unmarked};
ghost use Rattle.pardo_fuse.specs.Fusing.{is_first, kids_on, leads, name_for};
ghost use Rattle.pardo_fuse.specs.inner.Tables.{AreTables};

use crate::tables::Tables;
use exec_graph::{Blocked, Node, Place, code_of};
use node_index::find_node;

/// The Pdos that read the collection, in the order of the nodes.
pub(crate) fn readers_of<'a>(blocked: &Blocked, tables: &'a Tables, c: Place) -> &'a [u32]
    requires { AreTables blocked.now tables.now }
    ensures { result.now ≡ readers blocked.now.graph.nodes c }
{
    let _out = c.out;
    match tables.readers.get(&code_of(c)) {
        Some(numbers) => numbers.as_slice(),
        None => &[],
    }
}

/// The Pdos that become kids on an output of a Pdo's step.
pub(crate) fn kids_on<'a>(
    blocked: &Blocked,
    tables: &'a Tables,
    number: u32,
    out: Option<u32>,
) -> &'a [u32]
    requires { AreTables blocked.now tables.now }
    ensures { result.now ≡ kids_on (cut_of blocked.now) number out }
{
    match out {
        Some(j) => kids_of(
            blocked,
            tables,
            Place {
                node: number,
                out: j,
            },
        ),
        None => &[],
    }
}

/// The Pdos that read the collection, where it is an unmarked output of a Pdo.
fn kids_of<'a>(blocked: &Blocked, tables: &'a Tables, c: Place) -> &'a [u32]
    requires { AreTables blocked.now tables.now }
    ensures { result.now ≡ cond (is_unmarked blocked.now c) (readers blocked.now.graph.nodes c) [] }
{
    if is_inner(blocked, tables, c) {
        readers_of(blocked, tables, c)
    } else {
        &[]
    }
}

/// Whether the Pdo, which reads the collection, is the first of those that become one.
pub(crate) fn leads(blocked: &Blocked, tables: &Tables, number: u32, c: Place) -> bool
    requires { AreTables blocked.now tables.now }
    ensures { result ≡ leads (cut_of blocked.now) number c }
{
    if is_inner(blocked, tables, c) {
        false
    } else {
        is_first(number, readers_of(blocked, tables, c))
    }
}

fn is_first(number: u32, numbers: &[u32]) -> bool
    ensures { result ≡ is_first number numbers.now }
{
    match numbers.first() {
        Some(first) => number == *first,
        None => false,
    }
}

/// The code of an output of a Pdo, where it is kept.
pub(crate) fn kept_code(
    blocked: &Blocked,
    tables: &Tables,
    number: u32,
    out: Option<u32>,
) -> Option<u64>
    requires { AreTables blocked.now tables.now }
    ensures { result ≡ name_for (cut_of blocked.now) number out }
{
    match out {
        Some(j) => code_if_kept(
            blocked,
            tables,
            Place {
                node: number,
                out: j,
            },
        ),
        None => None,
    }
}

fn code_if_kept(blocked: &Blocked, tables: &Tables, c: Place) -> Option<u64>
    requires { AreTables blocked.now tables.now }
    ensures { result ≡ cond (is_kept (cut_of blocked.now) c) (Some (code c)) None }
{
    if is_kept(blocked, tables, c) {
        Some(code_of(c))
    } else {
        None
    }
}

/// Whether the collection is kept.
#[tactic(auto, using(crate::proofs::Keeping::kept_inner, crate::proofs::Keeping::kept_outer))]
fn is_kept(blocked: &Blocked, tables: &Tables, c: Place) -> bool
    requires { AreTables blocked.now tables.now }
    ensures { result ≡ is_kept (cut_of blocked.now) c }
{
    let _out = c.out;
    if is_inner(blocked, tables, c) {
        tables.held.contains(&code_of(c))
    } else {
        tables.read.contains(&code_of(c))
    }
}

/// Whether it is an unmarked output of a Pdo.
fn is_inner(blocked: &Blocked, tables: &Tables, c: Place) -> bool
    requires { AreTables blocked.now tables.now }
    ensures { result ≡ is_unmarked blocked.now c }
{
    let _out = c.out;
    is_pdo_at(blocked, tables, c.node) && !tables.marks.contains(&code_of(c))
}

fn is_pdo_at(blocked: &Blocked, tables: &Tables, number: u32) -> bool
    requires { AreTables blocked.now tables.now }
    ensures { result ≡ is_pdo (node_at blocked.now.graph.nodes number) }
{
    match find_node(blocked.graph.nodes.as_slice(), &tables.index, number) {
        Some(node) => is_pdo_node(node),
        None => false,
    }
}

fn is_pdo_node(node: &Node) -> bool
    ensures { result ≡ is_pdo (Some node.now) }
{
    match node {
        Node::Pdo { .. } => true,
        Node::Source(_) | Node::Flatten(_) | Node::Gbk { .. } | Node::Barrier { .. } => false,
    }
}
