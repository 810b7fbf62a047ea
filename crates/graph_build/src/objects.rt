// Objects, and what is made beside one: nodes that take collections whole.
ghost use Rattle.std.specs.Prelude.{◌≡◌, ◌+◌, ◌<◌, ◌^◌, [], ◌∷◌, ◌++◌, IfOk, OnOk, map};
ghost use Rattle.exec_graph.specs.declared.graph.Act.TheVariants.{Operate, SideInput, Singleton};
ghost use Rattle.graph_build.specs.Graphs.{place_at_number as place_of};
ghost use Rattle.graph_build.specs.Nodes as spec;

use crate::nodes::push_node;
use crate::numbers::{Start, first_of, number_of};
use crate::operations::push_combined;
use crate::places::{both, place_in, places_in};
use combine_table::Comb;
use exec_graph::{Act, Entry, Node, Place};
use flume_value::Pile;
use std::alloc::{AllocError, Global};

/// Adds the nodes of all members as one value.
pub(crate) fn push_whole(
    alloc: Global,
    places: &[Place],
    start: Start,
    source: usize,
    by: Comb,
    nodes: &mut Pile<Entry>,
) -> Result<(), AllocError>
    requires { start.node + 3 < 2 ^ 32 }
    ensures { OnOk result (nodes.new ≡ nodes.old
        ++ spec.whole_nodes by start.origin start.node (place_of places.now source)) }
{
    let n = start.node;
    let input = place_in(places, source);
    push_combined(alloc, start, input, by, nodes)?;
    let value = only_value(alloc, by, start.origin, first_of(n + 2))?;
    push_node(nodes, n + 3, value)?;
    Ok(())
}

/// The value of the only pair of a collection.
fn only_value(alloc: Global, by: Comb, origin: u32, pairs: Place) -> Result<Node, AllocError>
    ensures { IfOk result (λ node. node ≡ spec.barrier origin (Singleton by) (pairs ∷ [])) }
{
    let mut inputs = Pile::new(alloc);
    inputs.push(pairs)?;
    Ok(barrier(origin, Act::Singleton(by), inputs))
}

/// Adds the call of a function on the values of the objects of these numbers.
pub(crate) fn push_operate(
    alloc: Global,
    places: &[Place],
    start: Start,
    objects: &[usize],
    function: usize,
    nodes: &mut Pile<Entry>,
) -> Result<(), AllocError>
    ensures { OnOk result (nodes.new ≡ nodes.old
        ++ spec.entry start.node
        (spec.barrier start.origin (Operate function)
        (map (place_of places.now) objects.now)) ∷ []) }
{
    let act = Act::Operate(number_of(function)?);
    let inputs = places_in(alloc, places, objects)?;
    push_node(nodes, start.node, barrier(start.origin, act, inputs))
}

/// Adds the calls of a function on each member of a collection beside the value of an object.
pub(crate) fn push_beside(
    alloc: Global,
    places: &[Place],
    start: Start,
    source: usize,
    function: usize,
    object: usize,
    nodes: &mut Pile<Entry>,
) -> Result<(), AllocError>
    ensures { OnOk result (nodes.new ≡ nodes.old
        ++ spec.entry start.node
        (spec.barrier start.origin (SideInput function)
        (place_of places.now source ∷ place_of places.now object ∷ [])) ∷ []) }
{
    let act = Act::SideInput(number_of(function)?);
    let inputs = both(alloc, place_in(places, source), place_in(places, object))?;
    push_node(nodes, start.node, barrier(start.origin, act, inputs))
}

/// What an act makes of collections that it takes whole.
fn barrier(origin: u32, act: Act, inputs: Pile<Place>) -> Node
    ensures { result ≡ spec.barrier origin act inputs }
{
    Node::Barrier {
        inputs,
        origin,
        is_own: true,
        act,
    }
}
