// Operate stages: the objects that acts make of collections.
ghost use Rattle.std.specs.Prelude.{◌≡◌, [], ◌∷◌, true, map, IfOk};
ghost use Rattle.exec_graph.specs.Objects.{gives_object, only, values_in};
ghost use Rattle.exec_graph.specs.World.{World};
ghost use Rattle.exec_plan.specs.declared.plan.Stage.TheVariants as stages;
ghost use Rattle.exec_graph.specs.declared.graph.Act.TheVariants as acts;
ghost use Rattle.stage_results.specs.of_map_shard.Tables.{table};
ghost use Rattle.operate_step.specs.Results.{object_of};
ghost use Rattle.stage_exec.specs.inner.Objects.{MakingHasEnded, made_object};
ghost use Rattle.stage_results.specs.of_stage_phases.Runs.{InEachWorld, InSomeWorld};
ghost use Rattle.task_lists.specs.Lists.{calm_list, object_made};
ghost use Rattle.stage_results.specs.of_task_safety.Stages.{CanRunStage};

use combine_table::Comb;
use exec_graph::Act;
use exec_plan::PlanPlace;
use flume_collection::Trap;
use flume_value::{Items, Pile, Value};
use forest_steps::Functions;
use operate_step::{no_value_law, operate, singleton};
use plan_phases::RunFault;
use stage_results::map_shard::list_of;
use stage_results::stage_phases::Inputs;
use stage_results::step_counts::add_object;
use stage_results::task_safety::act_law;
use std::alloc::{AllocError, Global};

/// The one result of an Operate stage: the object that its act makes of what it takes, for a script
/// node, whose own bag it is or not. No host is asked for it. Its member is added to the size of
/// the node; it stops where the act traps.
pub(crate) fn object_lists<F: Functions>(
    alloc: Global,
    inputs: &Inputs<'_, F>,
    sources: &[Items],
    results: &[Pile<Items>],
    takes: &Pile<PlanPlace>,
    origin: u32,
    last: bool,
    act: Act,
    _number: u32,
    sizes: &mut [u64],
) -> Result<Pile<Items>, RunFault>
    requires object { gives_object act ≡ true }
    requires ready { InSomeWorld (F.called inputs.now.functions.now) (λ w. CanRunStage w
        (F.can_call inputs.now.functions.now) _number (table sources.now results.now)
        (stages.Operate takes.now origin last act)) }
    ensures { InEachWorld (F.called inputs.now.functions.now) (λ w. MakingHasEnded w origin last
        (object_made w (table sources.now results.now) origin act takes.now)
        sizes.old sizes.new result) }
{
    let members = made(
        alloc, inputs, sources, results, takes, origin, last, act, _number,
    )?;
    kept(alloc, members, origin, last, sizes)
}

// Keeps the members of the object as a list, and adds them to the size of its script node.
fn kept(
    alloc: Global,
    made: Result<Items, Trap>,
    origin: u32,
    last: bool,
    sizes: &mut [u64],
) -> Result<Pile<Items>, RunFault>
    ensures { (w : World) →
        MakingHasEnded w origin last (made_object made) sizes.old sizes.new result }
{
    match made {
        Err(trap) => Err(RunFault::Trap(trap)),
        Ok(members) => {
            add_object(origin, last, members.len() as u64, sizes);
            Ok(one_list(alloc, members)?)
        }
    }
}

fn one_list(alloc: Global, list: Items) -> Result<Pile<Items>, AllocError>
    ensures { IfOk result (λ lists. lists ≡ list ∷ []) }
{
    let mut lists = Vec::new(alloc);
    lists.push(list)?;
    Ok(Pile::from_vec(lists))
}

// What the act makes: the members of the object, of which there are one or none, or a trap.
fn made<F: Functions>(
    alloc: Global,
    inputs: &Inputs<'_, F>,
    sources: &[Items],
    results: &[Pile<Items>],
    takes: &Pile<PlanPlace>,
    origin: u32,
    _last: bool,
    act: Act,
    _number: u32,
) -> Result<Result<Items, Trap>, AllocError>
    requires object { gives_object act ≡ true }
    requires ready { InSomeWorld (F.called inputs.now.functions.now) (λ w. CanRunStage w
        (F.can_call inputs.now.functions.now) _number (table sources.now results.now)
        (stages.Operate takes.now origin _last act)) }
    ensures { InEachWorld (F.called inputs.now.functions.now) (λ w. IfOk result (λ made.
        object_made w (table sources.now results.now) origin act takes.now ≡ made_object made)) }
{
    match act {
        Act::Operate(function) => called(
            alloc, inputs, sources, results, takes, origin, _last, function, _number,
        ),
        Act::Singleton(by) => {
            single(
                alloc,
                inputs,
                sources,
                results,
                takes.as_slice(),
                origin,
                by,
            )
        }
        Act::SideInput(_) => unreachable!(),
    }
}

// Calls a function on the values of objects, where all have one.
fn called<F: Functions>(
    alloc: Global,
    inputs: &Inputs<'_, F>,
    sources: &[Items],
    results: &[Pile<Items>],
    takes: &Pile<PlanPlace>,
    origin: u32,
    _last: bool,
    function: u32,
    _number: u32,
) -> Result<Result<Items, Trap>, AllocError>
    requires ready { InSomeWorld (F.called inputs.now.functions.now) (λ w. CanRunStage w
        (F.can_call inputs.now.functions.now) _number (table sources.now results.now)
        (stages.Operate takes.now origin _last (acts.Operate function))) }
    ensures { InEachWorld (F.called inputs.now.functions.now) (λ w. IfOk result (λ made.
        object_made w (table sources.now results.now) origin (acts.Operate function) takes.now
        ≡ made_object made)) }
{
    act_law(inputs.functions);
    no_value_law();
    match values_of(alloc, sources, results, takes)? {
        None => Ok(Ok(Pile::new(alloc))),
        Some(values) => one(
            alloc,
            operate(alloc, inputs.functions, origin, function, values)?,
        ),
    }
}

// The values of objects, where all have one.
fn values_of(
    alloc: Global,
    sources: &[Items],
    results: &[Pile<Items>],
    takes: &Pile<PlanPlace>,
) -> Result<Option<Items>, AllocError>
    ensures { IfOk result (λ values.
        values ≡ values_in (map (calm_list (table sources.now results.now)) takes.now)) }
{
    let mut values = Pile::new(alloc);
    for place in takes.as_slice() {
        match only_value(alloc, list_of(sources, results, *place))? {
            Some(value) => values.push(value)?,
            None => return Ok(None),
        }
    }
    Ok(Some(values))
}

// The value of a list of just one.
fn only_value(alloc: Global, list: &[Value]) -> Result<Option<Value>, AllocError>
    ensures { IfOk result (λ value. value ≡ only list.now) }
{
    if list.len() == 1 {
        Ok(Some(list[0].copy(alloc)?))
    } else {
        Ok(None)
    }
}

// The value of the only pair of a collection, or what the combiner makes of nothing.
fn single<F: Functions>(
    alloc: Global,
    _inputs: &Inputs<'_, F>,
    sources: &[Items],
    results: &[Pile<Items>],
    takes: &[PlanPlace],
    origin: u32,
    by: Comb,
) -> Result<Result<Items, Trap>, AllocError>
    ensures { InEachWorld (F.called _inputs.now.functions.now) (λ w. IfOk result (λ made.
        object_made w (table sources.now results.now) origin (acts.Singleton by) takes.now
        ≡ made_object made)) }
{
    if takes.len() == 1 {
        let list = list_of(sources, results, takes[0]);
        one(alloc, singleton(alloc, origin, by, list)?)
    } else {
        Ok(Ok(Pile::new(alloc)))
    }
}

// The members of an object of one value, or the trap behind it.
fn one(alloc: Global, made: Result<Value, Trap>) -> Result<Result<Items, Trap>, AllocError>
    ensures { IfOk result (λ members. made_object members ≡ object_of made) }
{
    match made {
        Err(trap) => Ok(Err(trap)),
        Ok(value) => {
            let mut members = Pile::new(alloc);
            members.push(value)?;
            Ok(Ok(members))
        }
    }
}
