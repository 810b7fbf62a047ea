// The text of a graph: a line for each node, and for each output of the script.
ghost use Rattle.std.specs.Prelude.{◌≡◌, ◌<◌, ◌++◌, codes, length, slice_get, slice_index, ℕ, List, Some, IfOk, OnOk};
ghost use Rattle.graph_build.specs.of_script_program.declared.made.Output.{Output};
ghost use Rattle.std.specs.List.{flat_map};
ghost use Rattle.graph_print.specs.GraphText as spec;
ghost use Rattle.graph_print.specs.Names.{printed_name};
ghost use Rattle.graph_build.specs.of_script_program.Needed.{made_of};
ghost use Rattle.graph_print.specs.Steps.{act_text};

use crate::names::{node_name, push_number};
use crate::steps::push_step;
use exec_graph::{Act, Does, Entry, Graph, Node, Place, Roots};
use graph_build::origins;
use printing::push_quoted;
use script_program::{Made, Program};
use std::alloc::{AllocError, Global};

/// The text of the graph that is built of the program.
pub fn graph_text(alloc: Global, program: &Program, graph: &Graph) -> Result<Vec<u8>, AllocError>
    ensures { IfOk result (λ text. text.items ≡ spec.graph_text program.now.script graph.now) }
{
    let origins = origins(alloc, program)?;
    let mut text = Vec::new(alloc);
    text.extend_from_slice(b"graph\n")?;
    push_nodes(
        &mut text,
        program,
        origins.as_slice(),
        graph.nodes.as_slice(),
    )?;
    push_outputs(&mut text, program, graph.outputs.as_slice())?;
    Ok(text)
}

/// Adds the lines of nodes.
fn push_nodes(
    text: &mut Vec<u8>,
    program: &Program,
    origins: &[u32],
    nodes: &[Entry],
) -> Result<(), AllocError>
    ensures { OnOk result (text.new.items ≡ text.old.items
        ++ flat_map (spec.node_line program.now.script origins.now) nodes.now) }
{
    for entry in nodes {
        push_line(text, program, origins, entry)?;
    }
    Ok(())
}

/// Adds the line of a node.
fn push_line(
    text: &mut Vec<u8>,
    program: &Program,
    origins: &[u32],
    entry: &Entry,
) -> Result<(), AllocError>
    ensures { OnOk result (text.new.items ≡ text.old.items
        ++ spec.node_line program.now.script origins.now entry.now) }
{
    push_number(text, entry.number)?;
    text.extend_from_slice(b" ")?;
    push_node(text, program, origin_at(origins, entry.number), &entry.node)?;
    text.extend_from_slice(b"\n")
}

/// The collection that the node of a number is built for.
fn origin_at(origins: &[u32], number: u32) -> u32
    ensures { result ≡ slice_index origins.now number }
{
    match origins.get(number as usize) {
        Some(origin) => *origin,
        None => 0,
    }
}

/// Adds the node of a collection.
fn push_node(
    text: &mut Vec<u8>,
    program: &Program,
    origin: u32,
    node: &Node,
) -> Result<(), AllocError>
    ensures { OnOk result (text.new.items ≡ text.old.items
        ++ spec.node_text program.now.script origin node.now) }
{
    match node {
        Node::Source(_) => push_source(text, program, origin),
        Node::Flatten(inputs) => push_flatten(text, program, origin, inputs.as_slice()),
        Node::Pdo {
            input,
            roots: steps,
        } => {
            text.extend_from_slice(b"do ")?;
            push_input(text, *input)?;
            push_root(text, program, steps)
        }
        Node::Gbk {
            input,
            origin: group,
            ..
        } => push_group(text, program, *input, *group),
        Node::Barrier {
            inputs,
            origin: own,
            act,
            ..
        } => { push_barrier(text, program, *own, *act, inputs.as_slice()) }
    }
}

fn push_source(text: &mut Vec<u8>, program: &Program, origin: u32) -> Result<(), AllocError>
    ensures { OnOk result (text.new.items ≡ text.old.items
        ++ (spec.source_word (slice_get (made_of program.now.script) origin)
        ++ printed_name program.now.script.nodes origin)) }
{
    text.extend_from_slice(source_word(program, origin as usize))?;
    text.extend_from_slice(node_name(program, origin as usize))
}

/// How a source is called: an input, or a collection that an earlier run has kept.
fn source_word(program: &Program, number: usize) -> &'static [u8]
    ensures { result.now ≡ spec.source_word (slice_get (made_of program.now.script) number) }
{
    if number < program.node_count() {
        word_of(&program.node(number).made)
    } else {
        b"source "
    }
}

fn word_of(made: &Made) -> &'static [u8]
    ensures { result.now ≡ spec.source_word (Some made.now) }
{
    match made {
        Made::Saved { .. } => b"saved ",
        _ => b"source ",
    }
}

fn push_flatten(
    text: &mut Vec<u8>,
    program: &Program,
    origin: u32,
    inputs: &[Place],
) -> Result<(), AllocError>
    ensures { OnOk result (text.new.items ≡ text.old.items
        ++ (codes "flatten "
        ++ (flat_map spec.input_text inputs.now ++ printed_name program.now.script.nodes origin))) }
{
    text.extend_from_slice(b"flatten ")?;
    push_inputs(text, inputs)?;
    text.extend_from_slice(node_name(program, origin as usize))
}

fn push_inputs(text: &mut Vec<u8>, inputs: &[Place]) -> Result<(), AllocError>
    ensures { OnOk result (text.new.items ≡ text.old.items
        ++ flat_map spec.input_text inputs.now) }
{
    for input in inputs {
        push_input(text, *input)?;
    }
    Ok(())
}

fn push_root(text: &mut Vec<u8>, program: &Program, steps: &Roots) -> Result<(), AllocError>
    ensures { OnOk result (text.new.items ≡ text.old.items
        ++ spec.root_text program.now.script steps.now) }
{
    match steps.steps() {
        [] => Ok(()),
        [step, ..] => push_step(text, program, step.origin, step.does),
    }
}

fn push_group(
    text: &mut Vec<u8>,
    program: &Program,
    input: Place,
    origin: u32,
) -> Result<(), AllocError>
    ensures { OnOk result (text.new.items ≡ text.old.items
        ++ (codes "group "
        ++ (spec.input_text input ++ printed_name program.now.script.nodes origin))) }
{
    text.extend_from_slice(b"group ")?;
    push_input(text, input)?;
    text.extend_from_slice(node_name(program, origin as usize))
}

/// Adds what is made of collections that are taken whole.
fn push_barrier(
    text: &mut Vec<u8>,
    program: &Program,
    origin: u32,
    act: Act,
    inputs: &[Place],
) -> Result<(), AllocError>
    ensures { OnOk result (text.new.items ≡ text.old.items
        ++ (spec.taken_text act inputs.now ++ act_text program.now.script origin act)) }
{
    push_taken(text, act, inputs)?;
    match act {
        Act::SideInput(function) | Act::Operate(function) => {
            push_step(text, program, origin, Does::Call(function))
        }
        Act::Singleton(_) => {
            text.extend_from_slice(node_name(program, origin as usize))?;
            text.extend_from_slice(b":%one")
        }
    }
}

/// Adds what an act takes.
fn push_taken(text: &mut Vec<u8>, act: Act, inputs: &[Place]) -> Result<(), AllocError>
    ensures { OnOk result (text.new.items ≡ text.old.items ++ spec.taken_text act inputs.now) }
{
    match act {
        Act::SideInput(_) => {
            text.extend_from_slice(b"do ")?;
            push_beside(text, inputs)
        }
        Act::Operate(_) | Act::Singleton(_) => {
            text.extend_from_slice(b"operate ")?;
            push_inputs(text, inputs)
        }
    }
}

/// Adds a collection, and the object beside it.
fn push_beside(text: &mut Vec<u8>, inputs: &[Place]) -> Result<(), AllocError>
    ensures { OnOk result (text.new.items ≡ text.old.items ++ spec.beside_text inputs.now) }
{
    match inputs {
        [] => Ok(()),
        [input, objects @ ..] => {
            push_input(text, *input)?;
            push_objects(text, objects)
        }
    }
}

fn push_objects(text: &mut Vec<u8>, objects: &[Place]) -> Result<(), AllocError>
    ensures { OnOk result (text.new.items ≡ text.old.items
        ++ flat_map spec.object_text objects.now) }
{
    for object in objects {
        text.extend_from_slice(b"with ")?;
        push_input(text, *object)?;
    }
    Ok(())
}

fn push_input(text: &mut Vec<u8>, input: Place) -> Result<(), AllocError>
    ensures { OnOk result (text.new.items ≡ text.old.items ++ spec.input_text input) }
{
    push_place(text, input)?;
    text.extend_from_slice(b" ")
}

/// Adds a collection.
fn push_place(text: &mut Vec<u8>, place: Place) -> Result<(), AllocError>
    ensures { OnOk result (text.new.items ≡ text.old.items ++ spec.place_text place) }
{
    push_number(text, place.node)?;
    if place.out == 0 {
        return Ok(());
    }
    text.extend_from_slice(b".")?;
    push_number(text, place.out)
}

/// Adds the lines of the script's outputs, which are read at these places.
fn push_outputs(text: &mut Vec<u8>, program: &Program, places: &[Place]) -> Result<(), AllocError>
    ensures { OnOk result (text.new.items ≡ text.old.items
        ++ spec.output_lines program.now.script.outputs places.now) }
{
    let count = program.output_count().min(places.len());
    for number in 0..count {
        push_output(text, program, number, places[number])?;
    }
    Ok(())
}

/// Adds the line of an output, which is read there.
fn push_output(
    text: &mut Vec<u8>,
    program: &Program,
    number: usize,
    place: Place,
) -> Result<(), AllocError>
    requires { number < length program.now.script.outputs }
    ensures { (output : List ℕ × Output) →
        slice_get program.now.script.outputs number ≡ Some output →
        OnOk result (text.new.items ≡ text.old.items
        ++ spec.output_line output place) }
{
    text.extend_from_slice(b"output ")?;
    text.extend_from_slice(program.output(number).name.as_bytes())?;
    text.extend_from_slice(b" reads ")?;
    push_place(text, place)?;
    text.extend_from_slice(b" to ")?;
    push_quoted(text, program.output_file(number).as_bytes())?;
    text.extend_from_slice(b"\n")
}
