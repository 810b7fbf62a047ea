// The graph of a program, built collection by collection in the order of the script.
ghost use Rattle.std.specs.Prelude.{◌≡◌, ◌+◌, ◌-◌, ◌<◌, ◌^◌, [], ◌∷◌, ◌++◌, true, None, Some, length, map, IfOk, OnOk};
ghost use Rattle.exec_graph.specs.declared.graph.Node.TheVariants.{Flatten, Gbk};
ghost use Rattle.exec_graph.specs.declared.step.Does.TheVariants as does;
ghost use Rattle.graph_build.specs.Built.{built, built_at as built_in};
ghost use Rattle.graph_build.specs.Graphs as spec;
ghost use Rattle.graph_build.specs.declared.nodes.Turn.TheVariants.{Last};
ghost use Rattle.graph_build.specs.Nodes.{call_in, entry, made_nodes, source_number, step_node};
ghost use Rattle.graph_build.specs.Nodes.{before_last as before_last_of, sources_made as inputs_in};
ghost use Rattle.script_program.specs.Sources.{source_numbers as numbers_in};

use crate::built::built_at;
use crate::nodes::{Turn, call, push_node, push_step, read_source};
use crate::numbers::{Start, ahead_of, before_last, inputs_of, number_of};
use crate::objects::{push_beside, push_operate, push_whole};
use crate::operations::{push_count, push_join, push_top};
use crate::places::{place_in, places, places_in};
use combine_table::Comb;
use exec_graph::{Does, Entry, Graph, Node, Place};
use flume_value::Pile;
use script_program::{Made, Program, source_at, source_numbers};
use std::alloc::{AllocError, Global};

/// The execution graph of a program.
pub fn build(alloc: Global, program: &Program) -> Result<Graph, AllocError>
    ensures { IfOk result (λ graph. graph ≡ spec.graph_of program.now.script) }
{
    let count = number_of(program.node_count())?;
    let places = places(alloc, program, count)?;
    let nodes = nodes_of(alloc, program, places.as_slice(), count)?;
    let next = number_of(nodes.len())?;
    let outputs = outputs_of(alloc, program, places.as_slice())?;
    Ok(Graph {
        nodes,
        outputs,
        next,
    })
}

/// The nodes of all collections.
#[tactic(auto, using(crate::proofs::StepLemmas::next_nodes))]
fn nodes_of(
    alloc: Global,
    program: &Program,
    places: &[Place],
    count: u32,
) -> Result<Pile<Entry>, AllocError>
    requires { count ≡ length program.now.script.nodes }
    ensures { IfOk result (λ nodes. nodes
        ≡ spec.nodes_from program.now.script (spec.place_at_number places.now) 0 0
        (built program.now.script)) }
{
    let sources = source_numbers(alloc, program)?;
    let mut nodes = Pile::new(alloc);
    let mut source = 0;
    let mut next = 0;
    for origin in 0..count {
        let start = Start {
            origin,
            source,
            node: next,
        };
        let behind = push_nodes(
            alloc,
            program,
            places,
            sources.as_slice(),
            start,
            &mut nodes,
        )?;
        source = behind.source;
        next = behind.node;
    }
    Ok(nodes)
}

/// Adds the nodes that are built at a collection. It gives where those of the next one begin.
fn push_nodes(
    alloc: Global,
    program: &Program,
    places: &[Place],
    sources: &[u32],
    start: Start,
    nodes: &mut Pile<Entry>,
) -> Result<Start, AllocError>
    requires at { start.origin < length program.now.script.nodes }
    requires sources { sources.now ≡ numbers_in program.now.script }
    ensures pushed { OnOk result (nodes.new ≡ nodes.old
        ++ spec.nodes_at program.now.script (spec.place_at_number places.now) start.source
        start.node
        (built_in program.now.script start.origin)) }
    ensures source { IfOk result (λ behind. behind.source
        ≡ spec.next_source start.source (built_in program.now.script start.origin)) }
    ensures node { IfOk result (λ behind. behind.node
        ≡ spec.number_past start.node (built_in program.now.script start.origin)) }
{
    match built_at(program, start.origin)? {
        None => Ok(start),
        Some((origin, made)) => {
            let start = Start {
                origin,
                source: start.source,
                node: start.node,
            };
            push_made(alloc, program, places, sources, start, made, nodes)
        }
    }
}

/// Adds the nodes of a collection. It gives where those of the next one begin.
fn push_made(
    alloc: Global,
    program: &Program,
    places: &[Place],
    sources: &[u32],
    start: Start,
    made: &Made,
    nodes: &mut Pile<Entry>,
) -> Result<Start, AllocError>
    requires { sources.now ≡ numbers_in program.now.script }
    ensures pushed { OnOk result (nodes.new ≡ nodes.old
        ++ made_nodes program.now.script (spec.place_at_number places.now) start.origin start.source
        start.node made.now) }
    ensures source { IfOk result (λ behind. behind.source
        ≡ start.source + inputs_in made.now) }
    ensures node { IfOk result (λ behind.
        behind.node ≡ start.node + before_last_of made.now + 1) }
{
    let last = ahead_of(start.node, before_last(made))?;
    let node = ahead_of(last, 1)?;
    let source = ahead_of(start.source, inputs_of(made))?;
    let input = source_at(sources, start.source as usize);
    push_operation(alloc, program, places, input, start, made, nodes)?;
    Ok(Start {
        origin: start.origin,
        source,
        node,
    })
}

/// Adds the nodes of a collection, which has that input where it is a source.
fn push_operation(
    alloc: Global,
    program: &Program,
    places: &[Place],
    input: u32,
    start: Start,
    made: &Made,
    nodes: &mut Pile<Entry>,
) -> Result<(), AllocError>
    requires few { start.node + before_last_of made.now + 1 < 2 ^ 32 }
    requires input { input ≡ source_number program.now.script start.source }
    ensures { OnOk result (nodes.new ≡ nodes.old
        ++ made_nodes program.now.script (spec.place_at_number places.now) start.origin start.source
        start.node made.now) }
{
    match made {
        Made::Input { .. } => push_node(nodes, start.node, read_source(input, false)),
        Made::Do {
            source,
            function,
            output,
        } => {
            let first = first_name(start.origin, *output);
            push_call(
                alloc, program, places, first, start, *source, *function, nodes,
            )
        }
        Made::Group { source } => push_groups(places, start, *source, nodes),
        Made::Combine { source, by } => push_combine(alloc, places, start, *source, *by, nodes),
        Made::Flatten { sources } => push_flatten(alloc, places, start, sources.as_slice(), nodes),
        Made::Count { source } => push_count(alloc, places, start, *source, nodes),
        Made::Join { left, right } => push_join(alloc, places, start, *left, *right, nodes),
        Made::Top { number, source } => push_top(alloc, places, start, *number, *source, nodes),
        Made::CombineAll { source, by } => push_whole(alloc, places, start, *source, *by, nodes),
        Made::Operate { objects, function } => {
            push_operate(alloc, places, start, objects.as_slice(), *function, nodes)
        }
        Made::DoWith {
            source,
            function,
            object,
        } => push_beside(alloc, places, start, *source, *function, *object, nodes),
        Made::Saved { is_object, .. } => {
            push_node(nodes, start.node, read_source(input, *is_object))
        }
    }
}

/// The first name of a call, of which the output of that place has this number.
fn first_name(number: u32, output: usize) -> u32
    ensures { result ≡ number - output }
{
    (number as usize).saturating_sub(output) as u32
}

/// Adds the call of a function, whose first name has the number `first`.
fn push_call(
    alloc: Global,
    program: &Program,
    places: &[Place],
    first: u32,
    start: Start,
    source: usize,
    function: usize,
    nodes: &mut Pile<Entry>,
) -> Result<(), AllocError>
    ensures { OnOk result (nodes.new ≡ nodes.old
        ++ entry start.node
        (call_in program.now.script first function (spec.place_at_number places.now source)) ∷ []) }
{
    let input = place_in(places, source);
    let node = call(alloc, program, first, function, input)?;
    push_node(nodes, start.node, node)
}

/// Adds the groups of a collection.
fn push_groups(
    places: &[Place],
    start: Start,
    source: usize,
    nodes: &mut Pile<Entry>,
) -> Result<(), AllocError>
    ensures { OnOk result (nodes.new ≡ nodes.old
        ++ entry start.node (Gbk (spec.place_at_number places.now source) start.origin true None) ∷
        []) }
{
    let input = place_in(places, source);
    push_node(
        nodes,
        start.node,
        Node::Gbk {
            input,
            origin: start.origin,
            is_own: true,
            lifted: None,
        },
    )
}

/// Adds the step that combines the list of each group.
fn push_combine(
    alloc: Global,
    places: &[Place],
    start: Start,
    source: usize,
    by: Comb,
    nodes: &mut Pile<Entry>,
) -> Result<(), AllocError>
    ensures { OnOk result (nodes.new ≡ nodes.old
        ++ entry start.node
        (step_node Last start.origin (does.Combine by) (spec.place_at_number places.now source)) ∷
        []) }
{
    let input = place_in(places, source);
    let combined = Does::Combine(by);
    let last = Turn::Last;
    push_step(
        alloc,
        start.origin,
        start.node,
        last,
        combined,
        input,
        nodes,
    )
}

/// Adds a node of collections together.
fn push_flatten(
    alloc: Global,
    places: &[Place],
    start: Start,
    sources: &[usize],
    nodes: &mut Pile<Entry>,
) -> Result<(), AllocError>
    ensures { OnOk result (nodes.new ≡ nodes.old
        ++ entry start.node (Flatten (map (spec.place_at_number places.now) sources.now)) ∷ []) }
{
    let inputs = places_in(alloc, places, sources)?;
    push_node(nodes, start.node, Node::Flatten(inputs))
}

/// The places of the collections that are written out.
fn outputs_of(alloc: Global, program: &Program, places: &[Place]) -> Result<Pile<Place>, AllocError>
    ensures { IfOk result (λ outputs. outputs
        ≡ map (λ output. spec.place_at_number places.now output.1.reads)
        program.now.script.outputs) }
{
    let mut outputs = Pile::new(alloc);
    for number in 0..program.output_count() {
        outputs.push(place_in(places, program.output(number).reads))?;
    }
    Ok(outputs)
}
