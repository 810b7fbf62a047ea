// The stage of an operation, with its input and output channels.
ghost use Rattle.std.specs.Prelude.{◌≡◌, ◌<◌, ◌^◌, ◌++◌, length, map, IfOk, OnOk};
ghost use Rattle.exec_graph.specs.Meaning.{node_at};
ghost use Rattle.plan_laws.specs.Operations as operations;
ghost use Rattle.plan_making.specs.Small.{IsClassNarrow, IsNarrowOperation};
ghost use Rattle.plan_making.specs.inner.Names.{name_in};

use crate::channels::{channels_of, take_of};
use crate::groups::push_groups;
use crate::indexed::Nodes;
use crate::names::{Names, all_named, named};
use crate::results::numbered_outs;
use exec_graph::{Act, Does, Node, Output, Place, Roots, Step};
use exec_plan::{InChannel, Mscr, OutChannel, PlanPlace, Stage};
use flume_value::Pile;
use plan_laws::{Grouped, Key, Operation};
use std::alloc::{AllocError, Global};

/// A node whose function is called for a script node, whose own bag it gives or not.
#[derive(Clone, Copy)]
struct Call {
    node: u32,
    origin: u32,
    last: bool,
}

/// The stage of an operation.
pub(crate) fn stage_of(
    alloc: Global,
    nodes: &Nodes<'_>,
    names: &Names,
    operation: &Operation,
) -> Result<Stage, AllocError>
    requires { IsNarrowOperation nodes.now operation.now }
    ensures { IfOk result (λ stage. stage
        ≡ operations.stage_of nodes.now (name_in nodes.now names.now) operation.now) }
{
    match operation {
        Operation::Flat(number) => {
            let takes = all_named(alloc, nodes, names, nodes.flat_inputs(*number))?;
            Ok(flat_stage(nodes, *number, takes))
        }
        Operation::Class(keys, groups, passes) => {
            let keys = keys.as_slice();
            let inputs = inputs_of(alloc, nodes, names, keys)?;
            let outputs = outputs_of(alloc, nodes, keys, groups.as_slice(), passes.as_slice())?;
            Ok(Stage::Mscr(Mscr { inputs, outputs }))
        }
    }
}

/// The stage of a Flatten, or of a barrier that gives an object.
fn flat_stage(nodes: &Nodes<'_>, number: u32, takes: Pile<PlanPlace>) -> Stage
    ensures { result ≡ operations.flat_stage (node_at nodes.now number) takes }
{
    match nodes.find(number) {
        Some(
            Node::Barrier {
                origin,
                is_own: last,
                act,
                ..
            },
        ) => Stage::Operate(takes, *origin, *last, *act),
        _ => Stage::Flatten(takes),
    }
}

/// The input channels of a class.
fn inputs_of(
    alloc: Global,
    nodes: &Nodes<'_>,
    names: &Names,
    keys: &[Key],
) -> Result<Pile<InChannel>, AllocError>
    ensures { IfOk result (λ inputs. inputs ≡ map (operations.channel_named
        (name_in nodes.now names.now))
        (operations.channels_of nodes.now keys.now)) }
{
    let mut inputs = Pile::new(alloc);
    for key in keys {
        match key {
            Key::Mapper(number) => inputs.push(mapper(alloc, nodes, names, *number)?)?,
            Key::Whole(c) => inputs.push(whole(nodes, names, *c))?,
        }
    }
    Ok(inputs)
}

/// The channel of a mapper.
fn mapper(
    alloc: Global,
    nodes: &Nodes<'_>,
    names: &Names,
    number: u32,
) -> Result<InChannel, AllocError>
    ensures { IfOk result (λ channel. channel ≡ operations.channel_named
        (name_in nodes.now names.now)
        (operations.pdo_channel number (node_at nodes.now number))) }
{
    match nodes.find(number) {
        Some(Node::Pdo { input: c, roots }) => {
            let does = roots.copy(alloc)?;
            Ok(InChannel {
                reads: named(nodes, names, *c),
                beside: None,
                does: Some(does),
            })
        }
        Some(
            Node::Barrier {
                inputs,
                origin,
                is_own: last,
                act,
            },
        ) => {
            let call = Call {
                node: number,
                origin: *origin,
                last: *last,
            };
            let channel = side(alloc, nodes, names, call, *act, inputs.as_slice())?;
            Ok(channel)
        }
        _ => Ok(whole(
            nodes,
            names,
            Place {
                node: number,
                out: 0,
            },
        )),
    }
}

/// The channel of a step beside an object.
fn side(
    alloc: Global,
    nodes: &Nodes<'_>,
    names: &Names,
    call: Call,
    act: Act,
    inputs: &[Place],
) -> Result<InChannel, AllocError>
    ensures { IfOk result (λ channel. channel ≡ operations.channel_named
        (name_in nodes.now names.now)
        (operations.side_channel call.node call.origin call.last act inputs.now)) }
{
    if let Act::SideInput(function) = act {
        if inputs.len() == 2 {
            let does = one_call(alloc, call.origin, call.last, function)?;
            return Ok(InChannel {
                reads: named(nodes, names, inputs[0]),
                beside: Some(named(nodes, names, inputs[1])),
                does: Some(does),
            });
        }
    }
    let node = call.node;
    Ok(whole(nodes, names, Place { node, out: 0 }))
}

/// One step that calls the function, and whose output is kept.
fn one_call(alloc: Global, origin: u32, last: bool, function: u32) -> Result<Roots, AllocError>
    ensures { IfOk result (λ roots. roots ≡ operations.one_call origin last function) }
{
    let output = Output::new(Some(0), Vec::new(alloc));
    let step = Step::new(origin, last, Does::Call(function), output, Vec::new(alloc));
    let mut steps = Vec::new(alloc);
    steps.push(step)?;
    Ok(Roots::new(steps))
}

/// The channel of a collection as it is.
fn whole(nodes: &Nodes<'_>, names: &Names, c: Place) -> InChannel
    ensures { result
        ≡ operations.channel_named (name_in nodes.now names.now) (operations.reading_of_all c) }
{
    InChannel {
        reads: named(nodes, names, c),
        beside: None,
        does: None,
    }
}

/// The output channels of a class.
fn outputs_of(
    alloc: Global,
    nodes: &Nodes<'_>,
    keys: &[Key],
    groups: &[Grouped],
    passes: &[Place],
) -> Result<Pile<OutChannel>, AllocError>
    requires { IsClassNarrow nodes.now keys.now groups.now passes.now }
    ensures { IfOk result (λ outputs. outputs
        ≡ operations.class_outs nodes.now keys.now groups.now passes.now) }
{
    let channels = channels_of(alloc, keys)?;
    let mut outputs = Vec::new(alloc);
    push_groups(alloc, nodes, keys, &channels, groups, &mut outputs)?;
    for c in passes {
        outputs.push(OutChannel::Pass(take_of(keys, &channels, *c), 0))?;
    }
    let outputs = numbered_outs(alloc, outputs)?;
    Ok(outputs)
}
