// The keys that a Gbk takes by, and its reducer.
ghost use Rattle.std.specs.Prelude.{◌≡◌, ◌||◌, ℕ, nat_eq, OnOk, IfOk};
ghost use Rattle.std.specs.HashSet.{contains};
ghost use Rattle.plan_roles.specs.Mappers.{is_mapper, is_reducer, read_key, keys_in, reduces, reducer_of};
ghost use Rattle.plan_roles.specs.inner.Tables.{AreFound, HasNumbers};

use crate::callers::only_reader;
use crate::feeding::{inputs_of, is_next};
use crate::found::Found;
use exec_graph::{Blocked, Entry, Node, Place, code_of};
use flume_value::Pile;
use plan_laws::Key;
use std::alloc::{AllocError, Global};
use std::collections::HashSet;

/// The Pdo that reduces the groups of the Gbk of that number.
pub(crate) fn reducer_of(
    blocked: &Blocked,
    found: &Found,
    mappers: &HashSet<u32>,
    gbk: u32,
) -> Option<u32>
    requires found { AreFound blocked.now found.now }
    requires mappers { HasNumbers mappers.now (is_mapper blocked.now) }
    ensures { result ≡ reducer_of blocked.now gbk }
{
    let c = Place { node: gbk, out: 0 };
    if found.marked.contains(&code_of(c)) {
        return None;
    }
    let reader = only_reader(&blocked.graph, &found.lone, c)?;
    if mappers.contains(&reader) {
        None
    } else {
        Some(reader)
    }
}

/// The numbers of the Pdos that reduce the groups of a Gbk.
pub(crate) fn reducers_of(
    alloc: Global,
    blocked: &Blocked,
    found: &Found,
    mappers: &HashSet<u32>,
) -> Result<HashSet<u32>, AllocError>
    requires found { AreFound blocked.now found.now }
    requires mappers { HasNumbers mappers.now (is_mapper blocked.now) }
    ensures { IfOk result (λ s. HasNumbers s (is_reducer blocked.now)) }
{
    let mut reducers = HashSet::new(alloc);
    for e in blocked.graph.nodes.as_slice() {
        add_reducer(blocked, found, mappers, e, &mut reducers)?;
    }
    Ok(reducers)
}

/// Adds the reducer of the node, where it is a Gbk and has one.
fn add_reducer(
    blocked: &Blocked,
    found: &Found,
    mappers: &HashSet<u32>,
    entry: &Entry,
    reducers: &mut HashSet<u32>,
) -> Result<(), AllocError>
    requires found { AreFound blocked.now found.now }
    requires mappers { HasNumbers mappers.now (is_mapper blocked.now) }
    ensures { OnOk result ((n : ℕ) → contains nat_eq reducers.new n
        ≡ (contains nat_eq reducers.old n
        || reduces blocked.now entry.now.number entry.now.node n)) }
{
    match &entry.node {
        Node::Gbk { .. } => match reducer_of(blocked, found, mappers, entry.number) {
            Some(reducer) => {
                reducers.insert(reducer)?;
                Ok(())
            }
            None => Ok(()),
        },
        Node::Source(_) | Node::Flatten(_) | Node::Pdo { .. } | Node::Barrier { .. } => Ok(()),
    }
}

/// The keys of what a Gbk of the collection takes, in order.
pub(crate) fn keys_in(
    alloc: Global,
    blocked: &Blocked,
    found: &Found,
    mappers: &HashSet<u32>,
    gbk: u32,
    c: &Place,
) -> Result<Pile<Key>, AllocError>
    requires found { AreFound blocked.now found.now }
    requires mappers { HasNumbers mappers.now (is_mapper blocked.now) }
    ensures { IfOk result (λ ks. ks ≡ keys_in blocked.now gbk c.now) }
{
    let gbk_level = found.levels.of(gbk);
    let mut keys = Pile::new(alloc);
    for input in inputs_of(blocked.graph.nodes.as_slice(), &found.levels.index, c) {
        keys.push(key_of(blocked, found, mappers, gbk_level, *input))?;
    }
    Ok(keys)
}

fn key_of(blocked: &Blocked, found: &Found, mappers: &HashSet<u32>, gbk_level: u32, c: Place) -> Key
    requires found { AreFound blocked.now found.now }
    requires mappers { HasNumbers mappers.now (is_mapper blocked.now) }
    ensures { result ≡ read_key blocked.now gbk_level c }
{
    let nodes = blocked.graph.nodes.as_slice();
    if mappers.contains(&c.node) && is_next(nodes, &found.levels, c, gbk_level) {
        Key::Mapper(c.node)
    } else {
        Key::Whole(c)
    }
}
