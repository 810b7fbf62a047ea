// A plan as a JSON value: its stages with their channels, and the outputs of the script.
ghost use Rattle.std.specs.Prelude.{◌≡◌, ◌<◌, IfOk, Some, length, map, slice_get};
ghost use Rattle.serde_json.specs.Data.{array};
ghost use Rattle.serde_json.specs.View.{view, items_of};
ghost use Rattle.serde_json.specs.Written.{compact_text};
ghost use Rattle.plan_writing.specs.Lists.{numbered_texts, paired};
ghost use Rattle.plan_writing.specs.Naming.{Written};
ghost use Rattle.plan_json.specs.PlanJson as spec;

use crate::values::{
    act_value, alone, forest_value, given_value, lift_value, node_value, only_result, place_value,
    places_value, put_text, take_value, takes_value, text_value,
};
use exec_graph::Act;
use exec_plan::{Grouping, InChannel, Mscr, OutChannel, Plan, PlanPlace, Stage, Take};
use plan_writing::Names;
use serde_json::{Map, Value, put};
use std::alloc::{AllocError, Global};

/// The plan as JSON: its compact text, on one line without an end.
pub fn plan_json<N: Names>(alloc: Global, names: &N, plan: &Plan) -> Result<Vec<u8>, AllocError>
    ensures { IfOk result (λ text.
        text.items ≡ compact_text (spec.plan_json_of (N.naming names.now) plan.now)) }
{
    plan_value(alloc, names, plan)?.to_vec(alloc)
}

fn plan_value<N: Names>(alloc: Global, names: &N, plan: &Plan) -> Result<Value, AllocError>
    ensures { IfOk result (λ value.
        view value ≡ spec.plan_json_of (N.naming names.now) plan.now) }
{
    let mut members = Map::new(alloc);
    let outputs = outputs_value(alloc, names, plan.outputs.as_slice())?;
    put(&mut members, alloc, "outputs", outputs)?;
    let stages = stages_value(alloc, names, plan.stages.as_slice())?;
    put(&mut members, alloc, "stages", stages)?;
    Ok(Value::Object(members))
}

fn outputs_value<N: Names>(
    alloc: Global,
    names: &N,
    places: &[PlanPlace],
) -> Result<Value, AllocError>
    ensures { IfOk result (λ value. view value
        ≡ array (items_of (paired spec.output_json (N.naming names.now).outputs places.now))) }
{
    let mut values = Vec::new(alloc);
    let count = names.output_count().min(places.len());
    for number in 0..count {
        values.push(output_value(alloc, names, number, places[number])?)?;
    }
    Ok(Value::Array(values))
}

fn output_value<N: Names>(
    alloc: Global,
    names: &N,
    number: usize,
    place: PlanPlace,
) -> Result<Value, AllocError>
    requires { number < length (N.naming names.now).outputs }
    ensures { (output : Written) →
        slice_get (N.naming names.now).outputs number ≡ Some output →
        IfOk result (λ value. view value ≡ spec.output_json output place) }
{
    let mut members = Map::new(alloc);
    let file = text_value(alloc, names.output_file(number))?;
    put(&mut members, alloc, "file", file)?;
    let name = text_value(alloc, names.output_name(number))?;
    put(&mut members, alloc, "name", name)?;
    put(&mut members, alloc, "reads", place_value(alloc, place)?)?;
    Ok(Value::Object(members))
}

fn stages_value<N: Names>(alloc: Global, names: &N, stages: &[Stage]) -> Result<Value, AllocError>
    ensures { IfOk result (λ value. view value
        ≡ array (items_of (numbered_texts (spec.stage_json (N.naming names.now)) 1 stages.now))) }
{
    let mut values = Vec::new(alloc);
    for (i, stage) in stages.iter().enumerate() {
        values.push(stage_value(alloc, names, i as u64 + 1, stage)?)?;
    }
    Ok(Value::Array(values))
}

/// The stage of a number.
fn stage_value<N: Names>(
    alloc: Global,
    names: &N,
    number: u64,
    stage: &Stage,
) -> Result<Value, AllocError>
    ensures { IfOk result (λ value.
        view value ≡ spec.stage_json (N.naming names.now) number stage.now) }
{
    match stage {
        Stage::Mscr(mscr) => mscr_value(alloc, names, number, mscr),
        Stage::Flatten(takes) => flatten_value(alloc, number, takes.as_slice()),
        Stage::Operate(takes, origin, _, act) => {
            operate_value(alloc, names, number, takes.as_slice(), *origin, *act)
        }
    }
}

fn mscr_value<N: Names>(
    alloc: Global,
    names: &N,
    number: u64,
    mscr: &Mscr,
) -> Result<Value, AllocError>
    ensures { IfOk result (λ value. view value
        ≡ spec.mscr_json (N.naming names.now) number mscr.now.inputs mscr.now.outputs) }
{
    let mut members = Map::new(alloc);
    let ins = ins_value(alloc, names, mscr.inputs.as_slice())?;
    put(&mut members, alloc, "in", ins)?;
    put_text(&mut members, alloc, "kind", "mscr")?;
    let outs = outs_value(alloc, names, number, mscr.outputs.as_slice())?;
    put(&mut members, alloc, "out", outs)?;
    Ok(Value::Object(members))
}

fn flatten_value(alloc: Global, number: u64, takes: &[PlanPlace]) -> Result<Value, AllocError>
    ensures { IfOk result (λ value. view value ≡ spec.flatten_json number takes.now) }
{
    let mut members = Map::new(alloc);
    put(&mut members, alloc, "gives", only_result(alloc, number, 0)?)?;
    put_text(&mut members, alloc, "kind", "flatten")?;
    put(&mut members, alloc, "takes", places_value(alloc, takes)?)?;
    Ok(Value::Object(members))
}

fn operate_value<N: Names>(
    alloc: Global,
    names: &N,
    number: u64,
    takes: &[PlanPlace],
    origin: u32,
    act: Act,
) -> Result<Value, AllocError>
    ensures { IfOk result (λ value. view value
        ≡ spec.operate_json (N.naming names.now) number takes.now origin act) }
{
    let mut members = Map::new(alloc);
    let does = act_value(alloc, names, origin, act)?;
    put(&mut members, alloc, "does", does)?;
    put(&mut members, alloc, "gives", only_result(alloc, number, 0)?)?;
    put_text(&mut members, alloc, "kind", "operate")?;
    put(&mut members, alloc, "takes", places_value(alloc, takes)?)?;
    Ok(Value::Object(members))
}

fn ins_value<N: Names>(alloc: Global, names: &N, inputs: &[InChannel]) -> Result<Value, AllocError>
    ensures { IfOk result (λ value. view value
        ≡ array (items_of (map (spec.in_json (N.naming names.now)) inputs.now))) }
{
    let mut values = Vec::new(alloc);
    for channel in inputs {
        values.push(in_value(alloc, names, channel)?)?;
    }
    Ok(Value::Array(values))
}

fn outs_value<N: Names>(
    alloc: Global,
    names: &N,
    stage: u64,
    outputs: &[OutChannel],
) -> Result<Value, AllocError>
    ensures { IfOk result (λ value. view value
        ≡ array (items_of (map (spec.out_json (N.naming names.now) stage) outputs.now))) }
{
    let mut values = Vec::new(alloc);
    for channel in outputs {
        values.push(out_value(alloc, names, stage, channel)?)?;
    }
    Ok(Value::Array(values))
}

fn in_value<N: Names>(alloc: Global, names: &N, channel: &InChannel) -> Result<Value, AllocError>
    ensures { IfOk result (λ value.
        view value ≡ spec.in_json (N.naming names.now) channel.now) }
{
    let mut members = Map::new(alloc);
    let does = forest_value(alloc, names, &channel.does)?;
    put(&mut members, alloc, "does", does)?;
    let reads = place_value(alloc, channel.reads)?;
    put(&mut members, alloc, "reads", reads)?;
    if let Some(object) = channel.beside {
        put(&mut members, alloc, "with", place_value(alloc, object)?)?;
    }
    Ok(Value::Object(members))
}

/// An output channel of a stage.
fn out_value<N: Names>(
    alloc: Global,
    names: &N,
    stage: u64,
    channel: &OutChannel,
) -> Result<Value, AllocError>
    ensures { IfOk result (λ value.
        view value ≡ spec.out_json (N.naming names.now) stage channel.now) }
{
    match channel {
        OutChannel::Group(group) => group_value(alloc, names, stage, group),
        OutChannel::Pass(take, given) => pass_value(alloc, stage, *take, *given),
    }
}

fn group_value<N: Names>(
    alloc: Global,
    names: &N,
    stage: u64,
    group: &Grouping,
) -> Result<Value, AllocError>
    ensures { IfOk result (λ value.
        view value ≡ spec.group_json (N.naming names.now) stage group.now) }
{
    let mut members = Map::new(alloc);
    let does = forest_value(alloc, names, &group.does)?;
    put(&mut members, alloc, "does", does)?;
    let gives = given_value(alloc, stage, group)?;
    put(&mut members, alloc, "gives", gives)?;
    put_text(&mut members, alloc, "kind", "group")?;
    let lift = lift_value(alloc, names, group.lifted)?;
    put(&mut members, alloc, "lift", lift)?;
    let name = node_value(alloc, names, group.origin)?;
    put(&mut members, alloc, "name", name)?;
    let takes = takes_value(alloc, group.takes.as_slice())?;
    put(&mut members, alloc, "takes", takes)?;
    Ok(Value::Object(members))
}

fn pass_value(alloc: Global, stage: u64, take: Take, given: u32) -> Result<Value, AllocError>
    ensures { IfOk result (λ value. view value ≡ spec.pass_json stage take given) }
{
    let mut members = Map::new(alloc);
    let gives = only_result(alloc, stage, u64::from(given))?;
    put(&mut members, alloc, "gives", gives)?;
    put_text(&mut members, alloc, "kind", "pass")?;
    let takes = alone(alloc, take_value(alloc, take)?)?;
    put(&mut members, alloc, "takes", takes)?;
    Ok(Value::Object(members))
}
