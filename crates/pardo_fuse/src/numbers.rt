// The least number of the Pdos that become one.
ghost use Rattle.std.specs.Prelude.{◌≡◌, ◌∷◌, ℕ, cond, Some, IfOk};
ghost use Rattle.exec_graph.specs.Forests.{Bare, limb};
ghost use Rattle.pardo_fuse.specs.Readers.{cut_of};
ghost use Rattle.pardo_fuse.specs.Fusing.{kids_on, leads, least_number, least_at, lesser_number, members, members_over, over_outs};
ghost use Rattle.pardo_fuse.specs.inner.Naming.{steps_at};
ghost use Rattle.pardo_fuse.specs.inner.Numbers.{least_from, members_at, number_in};
ghost use Rattle.pardo_fuse.specs.inner.Tables.{AreTables};

use crate::parents::{kids_on, leads, readers_of};
use crate::tables::Tables;
use crate::trees::steps_at;
use exec_graph::{Blocked, Node, Place, Step};
use std::alloc::{AllocError, Global};
use std::collections::HashMap;

/// Under which number each node stands after fusing.
pub(crate) fn least_numbers(
    alloc: Global,
    blocked: &Blocked,
    tables: &Tables,
) -> Result<HashMap<u32, u32>, AllocError>
    requires { AreTables blocked.now tables.now }
    ensures { IfOk result (λ m. (n : ℕ) → number_in m n
        ≡ least_from (cut_of blocked.now) blocked.now.graph.nodes n) }
{
    let mut numbers = HashMap::new(alloc);
    for e in blocked.graph.nodes.as_slice() {
        if !numbers.contains_key(&e.number) {
            let least = least_at(blocked, tables, e.number, &e.node);
            numbers.insert(e.number, least)?;
        }
    }
    Ok(numbers)
}

fn least_at(blocked: &Blocked, tables: &Tables, number: u32, node: &Node) -> u32
    requires { AreTables blocked.now tables.now }
    ensures { result ≡ least_at (cut_of blocked.now) number (Some node.now) }
{
    match node {
        Node::Pdo { input: c, .. } => least_over(blocked, tables, number, *c),
        Node::Source(_) | Node::Flatten(_) | Node::Gbk { .. } | Node::Barrier { .. } => number,
    }
}

/// The least number of the Pdos that become one with this one, which reads the collection, where it
/// leads them.
fn least_over(blocked: &Blocked, tables: &Tables, number: u32, c: Place) -> u32
    requires { AreTables blocked.now tables.now }
    ensures { result ≡ cond (leads (cut_of blocked.now) number c)
        (least_number number (members_over (cut_of blocked.now) c)) number }
{
    if leads(blocked, tables, number, c) {
        let roots = readers_of(blocked, tables, c);
        least_in(blocked, tables, blocked.graph.nodes.len(), roots, number)
    } else {
        number
    }
}

/// The least of a number and those of the Pdos in the trees of these, down to a number of levels.
#[cycle(least)]
fn least_in(blocked: &Blocked, tables: &Tables, levels: usize, numbers: &[u32], so_far: u32) -> u32
    requires { AreTables blocked.now tables.now }
    ensures { result ≡ least_number so_far (members (cut_of blocked.now) levels numbers.now) }
{
    let mut least = so_far;
    if levels == 0 {
        return least;
    }
    for number in numbers {
        least = least_with(blocked, tables, levels - 1, *number, least);
    }
    least
}

/// The least with those in the tree of a Pdo, with kids down to a number of levels.
#[cycle(least)]
fn least_with(blocked: &Blocked, tables: &Tables, levels: usize, number: u32, so_far: u32) -> u32
    requires { AreTables blocked.now tables.now }
    ensures { result ≡ least_number so_far (number ∷ over_outs
        (members_at (cut_of blocked.now) levels number) (steps_at (cut_of blocked.now) number)) }
{
    let mut least = lesser(so_far, number);
    for step in steps_at(blocked, tables, number) {
        least = least_on(blocked, tables, levels, number, step, least);
    }
    least
}

/// The least with those in the trees on the outputs of a step of a Pdo.
#[cycle(least)]
fn least_on(
    blocked: &Blocked,
    tables: &Tables,
    levels: usize,
    number: u32,
    step: &Step,
    so_far: u32,
) -> u32
    requires { AreTables blocked.now tables.now }
    ensures { result ≡ least_number so_far
        (over_outs (members_at (cut_of blocked.now) levels number) (limb step.now Bare)) }
{
    let mut least = least_above(blocked, tables, levels, number, step.first.number, so_far);
    for output in &step.more {
        least = least_above(blocked, tables, levels, number, output.number, least);
    }
    least
}

/// The least with those in the trees on an output of a Pdo's step.
#[cycle(least)]
fn least_above(
    blocked: &Blocked,
    tables: &Tables,
    levels: usize,
    number: u32,
    out: Option<u32>,
    so_far: u32,
) -> u32
    requires { AreTables blocked.now tables.now }
    ensures { result ≡ least_number so_far (members_at (cut_of blocked.now) levels number out) }
{
    let kids = kids_on(blocked, tables, number, out);
    least_in(blocked, tables, levels, kids, so_far)
}

fn lesser(n: u32, q: u32) -> u32
    ensures { result ≡ lesser_number n q }
{
    if q < n { q } else { n }
}
