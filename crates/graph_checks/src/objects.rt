// Whether barriers read objects where they are to read them.
ghost use Rattle.std.specs.Prelude.{◌≡◌, IfOk, map, Some};
ghost use Rattle.std.specs.List.{list_all};
ghost use Rattle.exec_graph.specs.Objects.{gives_object, takes_such};
ghost use Rattle.exec_graph.specs.Wellformed.{is_object};
ghost use Rattle.graph_checks.specs.inner.Objects.{HasObjects, are_all, is_object_in, objects_in};

use exec_graph::{Act, Entry, Node, Place};
use std::alloc::{AllocError, Global};
use std::collections::HashSet;

/// Whether the nodes read objects where they are to read them.
pub(crate) fn are_objects_ok(alloc: Global, nodes: &[Entry]) -> Result<bool, AllocError>
    ensures { IfOk result (λ b. b ≡ list_all (λ e. objects_in nodes.now e.node) nodes.now) }
{
    let objects = objects_of(alloc, nodes)?;
    for e in nodes {
        if !has_objects(nodes, &objects, &e.node) {
            return Ok(false);
        }
    }
    Ok(true)
}

/// The numbers of the nodes that give objects.
fn objects_of(alloc: Global, nodes: &[Entry]) -> Result<HashSet<u32>, AllocError>
    ensures { IfOk result (λ s. HasObjects s nodes.now) }
{
    let mut objects = HashSet::new(alloc);
    for e in nodes {
        if is_object(&e.node) {
            objects.insert(e.number)?;
        }
    }
    Ok(objects)
}

fn is_object(node: &Node) -> bool
    ensures { result ≡ is_object (Some node.now) }
{
    match node {
        Node::Source(input) => input.is_object,
        Node::Barrier { act, .. } => gives_object(*act),
        Node::Flatten(_) | Node::Pdo { .. } | Node::Gbk { .. } => false,
    }
}

fn gives_object(act: Act) -> bool
    ensures { result ≡ gives_object act }
{
    match act {
        Act::SideInput(_) => false,
        Act::Operate(_) | Act::Singleton(_) => true,
    }
}

fn has_objects(nodes: &[Entry], objects: &HashSet<u32>, node: &Node) -> bool
    requires { HasObjects objects.now nodes.now }
    ensures { result ≡ objects_in nodes.now node.now }
{
    match node {
        Node::Barrier { inputs, act, .. } => takes_such(nodes, objects, *act, inputs.as_slice()),
        Node::Source(_) | Node::Flatten(_) | Node::Pdo { .. } | Node::Gbk { .. } => true,
    }
}

/// Whether the act takes as many collections, and objects where it is to take them.
fn takes_such(nodes: &[Entry], objects: &HashSet<u32>, act: Act, inputs: &[Place]) -> bool
    requires { HasObjects objects.now nodes.now }
    ensures { result ≡ takes_such act (map (is_object_in nodes.now) inputs.now) }
{
    match act {
        Act::SideInput(_) => inputs.len() == 2 && is_object_in(nodes, objects, inputs[1]),
        Act::Operate(_) => !inputs.is_empty() && are_all_objects(nodes, objects, inputs),
        Act::Singleton(_) => inputs.len() == 1 && !is_object_in(nodes, objects, inputs[0]),
    }
}

fn are_all_objects(nodes: &[Entry], objects: &HashSet<u32>, inputs: &[Place]) -> bool
    requires { HasObjects objects.now nodes.now }
    ensures { result ≡ are_all (map (is_object_in nodes.now) inputs.now) }
{
    for c in inputs {
        if !is_object_in(nodes, objects, *c) {
            return false;
        }
    }
    true
}

fn is_object_in(nodes: &[Entry], objects: &HashSet<u32>, c: Place) -> bool
    requires { HasObjects objects.now nodes.now }
    ensures { result ≡ is_object_in nodes.now c }
{
    objects.contains(&c.node)
}
