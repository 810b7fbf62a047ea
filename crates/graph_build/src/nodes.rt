// Single nodes: sources, steps, calls and groups.
ghost use Rattle.std.specs.Prelude.{◌≡◌, [], ◌∷◌, ◌++◌, Some, IfOk, OnOk};
ghost use Rattle.exec_graph.specs.declared.graph.Node.TheVariants.{Pdo, Source};
ghost use Rattle.exec_graph.specs.Forests.{Bare, grown};
ghost use Rattle.exec_graph.specs.Twigs.{twig};
ghost use Rattle.graph_build.specs.Nodes as spec;

use crate::numbers::number_of;
use crate::outputs::{emitted_at, next_if, other_names, output, outputs_from};
use exec_graph::{Does, Entry, Input, Node, Output, Place, Roots, Step};
use flume_value::Pile;
use script_program::Program;
use std::alloc::{AllocError, Global};

/// Adds a node under its number.
pub(crate) fn push_node(nodes: &mut Pile<Entry>, number: u32, node: Node) -> Result<(), AllocError>
    ensures { OnOk result (nodes.new ≡ nodes.old ++ spec.entry number node ∷ []) }
{
    nodes.push(Entry { number, node })
}

/// The source of that number, an object or not.
pub(crate) fn read_source(number: u32, is_object: bool) -> Node
    ensures { result ≡ Source (spec.read_source number is_object) }
{
    Node::Source(Input { number, is_object })
}

/// Which of the steps of a collection a step is: one ahead of the last, or the last, which gives
/// the collection.
#[derive(Clone, Copy)]
pub(crate) enum Turn {
    Ahead,
    Last,
}

fn is_last(turn: Turn) -> bool
    ensures { result ≡ spec.is_last turn }
{
    match turn {
        Turn::Ahead => false,
        Turn::Last => true,
    }
}

/// Adds a step of a collection.
pub(crate) fn push_step(
    alloc: Global,
    origin: u32,
    number: u32,
    turn: Turn,
    does: Does,
    input: Place,
    nodes: &mut Pile<Entry>,
) -> Result<(), AllocError>
    ensures { OnOk result (nodes.new
        ≡ nodes.old ++ spec.entry number (spec.step_node turn origin does input) ∷ []) }
{
    let output = first_output(alloc);
    let step = Step::new(origin, is_last(turn), does, output, Vec::new(alloc));
    let node = only(alloc, input, step)?;
    push_node(nodes, number, node)
}

/// The call of a function, whose first name has that number.
pub(crate) fn call(
    alloc: Global,
    program: &Program,
    first: u32,
    function: usize,
    input: Place,
) -> Result<Node, AllocError>
    ensures { IfOk result (λ node. node ≡ spec.call_in program.now.script first function input) }
{
    let does = Does::Call(number_of(function)?);
    let others = other_names(program, function)?;
    let name = first as usize;
    let needed = emitted_at(program, name);
    let next = next_if(needed, 0)?;
    let more = outputs_from(alloc, program, next, name + 1, name + 1 + others as usize)?;
    let step = Step::new(first, true, does, output(alloc, needed, 0), more);
    only(alloc, input, step)
}

/// The groups behind a step of a collection.
pub(crate) fn groups(origin: u32, input: Place) -> Node
    ensures { result ≡ spec.gbk_of origin input }
{
    Node::Gbk {
        input,
        origin,
        is_own: false,
        lifted: None,
    }
}

fn first_output(alloc: Global) -> Output
    ensures { twig result ≡ record { out = Some 0; kids = Bare } }
{
    Output::new(Some(0), Vec::new(alloc))
}

fn only(alloc: Global, input: Place, step: Step) -> Result<Node, AllocError>
    ensures { IfOk result (λ node. node ≡ Pdo input (grown (step ∷ []))) }
{
    let mut steps = Vec::new(alloc);
    steps.push(step)?;
    Ok(Node::Pdo {
        input,
        roots: Roots::new(steps),
    })
}
