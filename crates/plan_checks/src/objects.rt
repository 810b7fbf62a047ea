// Whether stages read objects exactly where they are to read them.
ghost use Rattle.std.specs.Prelude.{◌≡◌, ◌==◌, ◌-◌, Some, cond, false, map};
ghost use Rattle.std.specs.List.{list_all, list_any, slice_get};
ghost use Rattle.exec_graph.specs.Objects.{gives_object, takes_such};
ghost use Rattle.exec_plan.specs.Wellformed.{has_object, stage_has_objects, is_object_place, is_operate};
ghost use Rattle.plan_checks.specs.inner.Tests.{are_all};

use exec_graph::Act;
use exec_plan::{InChannel, PlanPlace, Stage};

/// Whether the stages read objects where they are to read them, and each Operate gives one.
pub(crate) fn are_objects_ok(objects: &[u32], stages: &[Stage]) -> bool
    ensures { result ≡ list_all (stage_has_objects objects.now stages.now) stages.now }
{
    stages
        .iter()
        .all(|stage| has_objects(objects, stages, stage))
}

fn has_objects(objects: &[u32], stages: &[Stage], stage: &Stage) -> bool
    ensures { result ≡ stage_has_objects objects.now stages.now stage.now }
{
    match stage {
        Stage::Mscr(mscr) => have_objects(objects, stages, mscr.inputs.as_slice()),
        Stage::Flatten(_) => true,
        Stage::Operate(takes, _, _, act) => {
            gives_object(*act) && takes_such(objects, stages, *act, takes.as_slice())
        }
    }
}

fn have_objects(objects: &[u32], stages: &[Stage], inputs: &[InChannel]) -> bool
    ensures { result ≡ list_all (λ c. has_object objects.now stages.now c.beside) inputs.now }
{
    inputs
        .iter()
        .all(|channel| has_object(objects, stages, channel.beside))
}

fn has_object(objects: &[u32], stages: &[Stage], beside: Option<PlanPlace>) -> bool
    ensures { result ≡ has_object objects.now stages.now beside }
{
    match beside {
        None => true,
        Some(place) => is_object(objects, stages, place),
    }
}

fn gives_object(act: Act) -> bool
    ensures { result ≡ gives_object act }
{
    match act {
        Act::SideInput(_) => false,
        Act::Operate(_) | Act::Singleton(_) => true,
    }
}

/// Whether the act takes as many collections, and objects where it is to take them.
fn takes_such(objects: &[u32], stages: &[Stage], act: Act, takes: &[PlanPlace]) -> bool
    ensures { result ≡ takes_such act (map (is_object_place objects.now stages.now) takes.now) }
{
    match act {
        Act::SideInput(_) => takes.len() == 2 && is_object(objects, stages, takes[1]),
        Act::Operate(_) => !takes.is_empty() && are_all_objects(objects, stages, takes),
        Act::Singleton(_) => takes.len() == 1 && !is_object(objects, stages, takes[0]),
    }
}

fn are_all_objects(objects: &[u32], stages: &[Stage], takes: &[PlanPlace]) -> bool
    ensures { result ≡ are_all (map (is_object_place objects.now stages.now) takes.now) }
{
    for place in takes {
        if !is_object(objects, stages, *place) {
            return false;
        }
    }
    true
}

fn is_among(objects: &[u32], number: u32) -> bool
    ensures { result ≡ list_any (λ k. k == number) objects.now }
{
    objects.iter().any(|object| *object == number)
}

/// Whether the place is an object: a source that is one, or the result of an Operate.
fn is_object(objects: &[u32], stages: &[Stage], place: PlanPlace) -> bool
    ensures { result ≡ is_object_place objects.now stages.now place }
{
    match place {
        PlanPlace::Source(number) => is_among(objects, number),
        PlanPlace::Result { stage, number: _ } => is_operate_at(stages, stage),
    }
}

fn is_operate_at(stages: &[Stage], stage: u32) -> bool
    ensures { result ≡ cond (stage == 0) false (is_operate (slice_get stages.now (stage - 1))) }
{
    if stage == 0 {
        return false;
    }
    match stages.get((stage - 1) as usize) {
        None => false,
        Some(stage) => is_operate(stage),
    }
}

fn is_operate(stage: &Stage) -> bool
    ensures { result ≡ is_operate (Some stage.now) }
{
    match stage {
        Stage::Operate(_, _, _, _) => true,
        Stage::Mscr(_) | Stage::Flatten(_) => false,
    }
}
