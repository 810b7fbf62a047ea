// What each node is for forming.
ghost use Rattle.std.specs.Prelude.{◌≡◌, cond, IfOk};
ghost use Rattle.exec_graph.specs.Meaning.{AllDiffer};
ghost use Rattle.exec_graph.specs.Wellformed.{IsBlockedOk};
ghost use Rattle.plan_roles.specs.declared.roles.Part.TheVariants as part;
ghost use Rattle.plan_roles.specs.Mappers.{is_stage};
ghost use Rattle.plan_roles.specs.Roles.{act_part, role_part, pdo_part, roles};
ghost use Rattle.plan_roles.specs.inner.Tables.{AreFound};
ghost use Rattle.plan_roles.specs.inner.Kinds.{AreKinds};

use crate::found::{Found, find_all};
use crate::groups::{keys_in, reducer_of, reducers_of};
use crate::mappers::mappers_of;
use crate::outputs::outputs_of;
use crate::passing::passes_of;
use crate::reading::is_stage;
use exec_graph::{Act, Blocked, Entry, Node, Place, Roots};
use flume_value::Pile;
use plan_laws::Key;
use std::alloc::{AllocError, Global};
use std::collections::HashSet;

/// The part of a node in forming.
#[derive(Drop)]
pub enum Part {
    /// It gives the rows of an input.
    Source,
    /// A Flatten that a script output, a Pdo or another Flatten reads: a stage by itself.
    Stage,
    /// A Flatten that Gbks alone read: they take its inputs.
    Inlined,
    /// A Pdo whose steps run in an input channel, with those of its outputs that pass through.
    Mapper(Pile<Place>),
    /// A Pdo whose steps run on the groups of the Gbk that it reads.
    Reducer,
    /// A Pdo that is neither, with its outputs, all of which pass through.
    Trivial(Pile<Place>),
    /// A barrier that gives an object: a stage by itself.
    Operate,
    /// A Gbk, with the keys of what it takes in order, and the Pdo that reduces its groups.
    Group(Pile<Key>, Option<u32>),
}

/// What a node is for forming.
#[derive(Drop)]
pub struct Role {
    /// The node's number.
    pub number: u32,
    /// The greatest number of Gbks on a path from a source to the node, itself included.
    pub level: u32,
    pub part: Part,
}

/// The numbers of the mappers, and of the reducers.
#[derive(Drop)]
pub(crate) struct Kinds {
    pub(crate) mappers: HashSet<u32>,
    pub(crate) reducers: HashSet<u32>,
}

/// What each node is for forming, in the order of the nodes. It takes time in proportion to the
/// graph's size, where the inputs of a Flatten count once more for each Gbk of it.
pub fn roles_of(alloc: Global, blocked: &Blocked) -> Result<Pile<Role>, AllocError>
    requires { IsBlockedOk blocked.now }
    ensures { IfOk result (λ rs. rs ≡ roles blocked.now) }
{
    let _next = blocked.graph.next;
    let found = find_all(alloc, blocked)?;
    let roles = roles_by(alloc, blocked, &found);
    drop(found);
    roles
}

fn roles_by(alloc: Global, blocked: &Blocked, found: &Found) -> Result<Pile<Role>, AllocError>
    requires differ { AllDiffer blocked.now.graph.nodes }
    requires found { AreFound blocked.now found.now }
    ensures { IfOk result (λ rs. rs ≡ roles blocked.now) }
{
    let mappers = mappers_of(alloc, blocked, found)?;
    let reducers = reducers_of(alloc, blocked, found, &mappers)?;
    let kinds = Kinds { mappers, reducers };
    let roles = all_roles(alloc, blocked, found, &kinds);
    drop(kinds);
    roles
}

fn all_roles(
    alloc: Global,
    blocked: &Blocked,
    found: &Found,
    kinds: &Kinds,
) -> Result<Pile<Role>, AllocError>
    requires found { AreFound blocked.now found.now }
    requires kinds { AreKinds blocked.now kinds.now }
    ensures { IfOk result (λ rs. rs ≡ roles blocked.now) }
{
    let mut all = Pile::new(alloc);
    for e in blocked.graph.nodes.as_slice() {
        let part = part_of(alloc, blocked, found, kinds, e)?;
        all.push(Role {
            number: e.number,
            level: found.levels.of(e.number),
            part,
        })?;
    }
    Ok(all)
}

fn part_of(
    alloc: Global,
    blocked: &Blocked,
    found: &Found,
    kinds: &Kinds,
    entry: &Entry,
) -> Result<Part, AllocError>
    requires found { AreFound blocked.now found.now }
    requires kinds { AreKinds blocked.now kinds.now }
    ensures { IfOk result (λ p. p ≡ role_part blocked.now entry.now.number entry.now.node) }
{
    match &entry.node {
        Node::Source(_) => Ok(Part::Source),
        Node::Flatten(_) => Ok(part_of_flatten(blocked, found, entry.number)),
        Node::Pdo { roots, .. } => {
            let part = part_of_pdo(alloc, blocked, found, kinds, entry.number, roots)?;
            Ok(part)
        }
        Node::Gbk { input: c, .. } => {
            let keys = keys_in(alloc, blocked, found, &kinds.mappers, entry.number, c)?;
            let reducer = reducer_of(blocked, found, &kinds.mappers, entry.number);
            Ok(Part::Group(keys, reducer))
        }
        Node::Barrier { act, .. } => {
            let part = part_of_act(alloc, entry.number, *act)?;
            Ok(part)
        }
    }
}

fn part_of_act(alloc: Global, node: u32, act: Act) -> Result<Part, AllocError>
    ensures { IfOk result (λ p. p ≡ act_part node act) }
{
    match act {
        Act::SideInput(_) => {
            let mut outputs = Pile::new(alloc);
            outputs.push(Place { node, out: 0 })?;
            Ok(Part::Trivial(outputs))
        }
        Act::Operate(_) | Act::Singleton(_) => Ok(Part::Operate),
    }
}

fn part_of_flatten(blocked: &Blocked, found: &Found, number: u32) -> Part
    requires found { AreFound blocked.now found.now }
    ensures { result ≡ cond (is_stage blocked.now number) part.Stage part.Inlined }
{
    if is_stage(blocked, &found.reading.told, &found.reading.on, number) {
        Part::Stage
    } else {
        Part::Inlined
    }
}

fn part_of_pdo(
    alloc: Global,
    blocked: &Blocked,
    found: &Found,
    kinds: &Kinds,
    number: u32,
    roots: &Roots,
) -> Result<Part, AllocError>
    requires found { AreFound blocked.now found.now }
    requires kinds { AreKinds blocked.now kinds.now }
    ensures { IfOk result (λ p. p ≡ pdo_part blocked.now number roots.now) }
{
    if kinds.mappers.contains(&number) {
        let passing = passes_of(alloc, blocked, found, number, roots)?;
        return Ok(Part::Mapper(passing));
    }
    if kinds.reducers.contains(&number) {
        return Ok(Part::Reducer);
    }
    let outputs = outputs_of(alloc, number, roots)?;
    Ok(Part::Trivial(Pile::from_vec(outputs)))
}
