// The plan of operations, made stage by stage.
ghost use Rattle.std.specs.Prelude.{◌≡◌, ◌<◌, ◌^◌, ◌+◌, ◌++◌, length, map, IfOk, OnOk};
ghost use Rattle.std.specs.List.{flat_map};
ghost use Rattle.plan_laws.specs.Operations as spec;
ghost use Rattle.plan_making.specs.Small.{IsSmall};
ghost use Rattle.plan_making.specs.inner.Names.{name_in};

use crate::indexed::Nodes;
use crate::names::{Names, all_named, name_results};
use crate::results::gives_of;
use crate::stages::stage_of;
use exec_graph::{Entry, Graph, Node};
use exec_plan::{Plan, Stage};
use flume_value::Pile;
use plan_laws::Operation;
use std::alloc::{AllocError, Global};
use std::collections::HashMap;

/// Stages, and where the results of them are.
#[derive(Drop)]
struct Drawn {
    stages: Pile<Stage>,
    names: Names,
}

/// The plan of operations that are carried out one after another, over so many sources.
pub fn make_plan(
    alloc: Global,
    sources: u32,
    graph: &Graph,
    operations: &[Operation],
) -> Result<Plan, AllocError>
    requires small { IsSmall graph.now.nodes operations.now }
    ensures made { IfOk result (λ plan. plan
        ≡ spec.plan_of sources graph.now.nodes graph.now.outputs operations.now) }
{
    let nodes = Nodes::new(alloc, graph.nodes.as_slice())?;
    let Drawn { stages, names } = draw(alloc, &nodes, operations)?;
    let outputs = all_named(alloc, &nodes, &names, graph.outputs.as_slice())?;
    let objects = objects_of(alloc, graph.nodes.as_slice())?;
    Ok(Plan {
        sources,
        objects,
        stages,
        outputs,
    })
}

/// The stages of the operations, in order.
fn draw(alloc: Global, nodes: &Nodes<'_>, operations: &[Operation]) -> Result<Drawn, AllocError>
    requires { IsSmall nodes.now operations.now }
    ensures stages { IfOk result (λ drawn. drawn.stages
        ≡ spec.stages_of nodes.now 1 (spec.at_source nodes.now) operations.now) }
    ensures names { IfOk result (λ drawn. name_in nodes.now drawn.names
        ≡ spec.places_of nodes.now 1 (spec.at_source nodes.now) operations.now) }
{
    let mut stages = Pile::new(alloc);
    let mut names = HashMap::new(alloc);
    for (i, operation) in operations.iter().enumerate() {
        let stage = stage_of(alloc, nodes, &names, operation)?;
        stages.push(stage)?;
        let gives = gives_of(alloc, nodes, operation)?;
        name_results(i as u32 + 1, gives.as_slice(), &mut names)?;
    }
    Ok(Drawn { stages, names })
}

/// The numbers of the sources that are objects.
fn objects_of(alloc: Global, nodes: &[Entry]) -> Result<Pile<u32>, AllocError>
    ensures { IfOk result (λ all. all ≡ flat_map (λ e. spec.object_source e.node) nodes.now) }
{
    let mut all = Pile::new(alloc);
    for e in nodes {
        push_object(&e.node, &mut all)?;
    }
    Ok(all)
}

/// Adds the number of a source that is an object.
fn push_object(node: &Node, all: &mut Pile<u32>) -> Result<(), AllocError>
    ensures { OnOk result (all.new ≡ all.old ++ spec.object_source node.now) }
{
    if let Node::Source(input) = node {
        if input.is_object {
            all.push(input.number)?;
        }
    }
    Ok(())
}
