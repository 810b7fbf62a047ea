// Where the collections of the graph are in the plan.
ghost use Rattle.std.specs.Prelude.{◌≡◌, ◌<◌, ◌^◌, ℕ, cond, length, map, IfOk, OnOk};
ghost use Rattle.exec_graph.specs.Readers.{same_place};
ghost use Rattle.exec_graph.specs.declared.graph.Place.{Place as GhostPlace};
ghost use Rattle.exec_plan.specs.declared.plan.PlanPlace.{PlanPlace as GhostPlanPlace};
ghost use Rattle.plan_laws.specs.Operations.{at_source, placed_results};
ghost use Rattle.plan_making.specs.inner.Names.{name_in, named_by};

use crate::indexed::Nodes;
use exec_graph::{Node, Place};
use exec_plan::PlanPlace;
use flume_value::Pile;
use std::alloc::{AllocError, Global};
use std::collections::HashMap;

/// Where collections are in the plan: the results of the stages so far, by node and output.
pub(crate) type Names = HashMap<(u32, u32), PlanPlace>;

/// Where the collection is in the plan.
pub(crate) fn named(nodes: &Nodes<'_>, names: &Names, c: Place) -> PlanPlace
    ensures { result ≡ name_in nodes.now names.now c }
{
    match names.get(&(c.node, c.out)) {
        Some(place) => *place,
        None => at_source(nodes, c),
    }
}

/// A collection as the source that its node is.
fn at_source(nodes: &Nodes<'_>, c: Place) -> PlanPlace
    ensures { result ≡ at_source nodes.now c }
{
    match nodes.find(c.node) {
        Some(Node::Source(input)) => PlanPlace::Source(input.number),
        _ => PlanPlace::Source(0),
    }
}

/// Where the collections are in the plan.
pub(crate) fn all_named(
    alloc: Global,
    nodes: &Nodes<'_>,
    names: &Names,
    places: &[Place],
) -> Result<Pile<PlanPlace>, AllocError>
    ensures { IfOk result (λ all. all ≡ map (name_in nodes.now names.now) places.now) }
{
    let mut all = Pile::new(alloc);
    for c in places {
        all.push(named(nodes, names, *c))?;
    }
    Ok(all)
}

/// Names the collections as the results of a stage. Where one comes twice its first place counts,
/// so they are named from the last to the first.
pub(crate) fn name_results(stage: u32, gives: &[Place], names: &mut Names) -> Result<(), AllocError>
    requires { length gives.now < 2 ^ 32 }
    ensures { OnOk result ((f : GhostPlace → GhostPlanPlace) (c : GhostPlace) →
        named_by names.new f c ≡ placed_results stage 0 gives.now (named_by names.old f) c) }
{
    let count = gives.len();
    for k in 0..count {
        let i = count - 1 - k;
        let place = PlanPlace::Result {
            stage,
            number: i as u32,
        };
        name_one(gives[i], place, names)?;
    }
    Ok(())
}

fn name_one(c: Place, place: PlanPlace, names: &mut Names) -> Result<(), AllocError>
    ensures { OnOk result ((f : GhostPlace → GhostPlanPlace) (d : GhostPlace) →
        named_by names.new f d ≡ cond (same_place c d) place (named_by names.old f d)) }
{
    names.insert((c.node, c.out), place)?;
    Ok(())
}
