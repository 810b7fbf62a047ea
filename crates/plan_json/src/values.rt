// JSON values of texts.
ghost use Rattle.std.specs.Prelude.{◌≡◌, IfOk, OnOk};
ghost use Rattle.serde_json.specs.Data.{array, item, no_items, put as with_member, string};
ghost use Rattle.serde_json.specs.View.{members_view, view};
ghost use Rattle.exec_plan.specs.Channels.{output_numbers_of};
ghost use Rattle.plan_writing.specs.Acts.{act_text};
ghost use Rattle.plan_writing.specs.Forests.{forest_text};
ghost use Rattle.plan_writing.specs.Places.{dotted, given_text, place_text, take_text};
ghost use Rattle.plan_json.specs.PlanJson as spec;

use combine_table::Comb;
use exec_graph::{Act, Roots};
use exec_plan::{Grouping, PlanPlace, Take};
use plan_writing::{Names, outs_of, push_act, push_dotted, push_forest, push_place, push_take};
use serde_json::{Map, ToValue, Value, put};
use std::alloc::{AllocError, Global};

/// A text as a value.
pub(crate) fn text_value(alloc: Global, text: &[u8]) -> Result<Value, AllocError>
    ensures { IfOk result (λ value. view value ≡ spec.text_json text.now) }
{
    Ok(Value::String(String::from_utf8_lossy(alloc, text)?))
}

/// Adds a member that is a text as it stands.
pub(crate) fn put_text(
    members: &mut Map<String, Value>,
    alloc: Global,
    key: &str,
    text: &str,
) -> Result<(), AllocError>
    ensures { OnOk result (members_view members.new.entries
        ≡ with_member key.now (string text.now) (members_view members.old.entries)) }
{
    let value = text.to_value(alloc)?;
    put(members, alloc, key, value)
}

/// A list of one value.
pub(crate) fn alone(alloc: Global, value: Value) -> Result<Value, AllocError>
    ensures { IfOk result (λ list. view list ≡ array (item (view value) no_items)) }
{
    let mut values = Vec::new(alloc);
    values.push(value)?;
    Ok(Value::Array(values))
}

/// A collection.
pub(crate) fn place_value(alloc: Global, place: PlanPlace) -> Result<Value, AllocError>
    ensures { IfOk result (λ value. view value ≡ spec.text_json (place_text place)) }
{
    let mut text = Vec::new(alloc);
    push_place(&mut text, place)?;
    text_value(alloc, text.as_slice())
}

/// An output of an input channel.
pub(crate) fn take_value(alloc: Global, take: Take) -> Result<Value, AllocError>
    ensures { IfOk result (λ value. view value ≡ spec.text_json (take_text take)) }
{
    let mut text = Vec::new(alloc);
    push_take(&mut text, take)?;
    text_value(alloc, text.as_slice())
}

/// A result of a stage.
fn result_value(alloc: Global, stage: u64, number: u64) -> Result<Value, AllocError>
    ensures { IfOk result (λ value. view value ≡ spec.text_json (dotted stage number)) }
{
    let mut text = Vec::new(alloc);
    push_dotted(&mut text, stage, number)?;
    text_value(alloc, text.as_slice())
}

/// A list of one result of a stage.
pub(crate) fn only_result(alloc: Global, stage: u64, number: u64) -> Result<Value, AllocError>
    ensures { IfOk result (λ value. view value ≡ spec.one_json (dotted stage number)) }
{
    let value = result_value(alloc, stage, number)?;
    alone(alloc, value)
}

/// The steps of a channel.
pub(crate) fn forest_value<N: Names>(
    alloc: Global,
    names: &N,
    does: &Option<Roots>,
) -> Result<Value, AllocError>
    ensures { IfOk result (λ value.
        view value ≡ spec.text_json (forest_text (N.naming names.now) does.now)) }
{
    let mut text = Vec::new(alloc);
    push_forest(&mut text, names, does)?;
    text_value(alloc, text.as_slice())
}

/// What an object is made by.
pub(crate) fn act_value<N: Names>(
    alloc: Global,
    names: &N,
    origin: u32,
    act: Act,
) -> Result<Value, AllocError>
    ensures { IfOk result (λ value.
        view value ≡ spec.text_json (act_text (N.naming names.now) origin act)) }
{
    let mut text = Vec::new(alloc);
    push_act(&mut text, names, origin, act)?;
    text_value(alloc, text.as_slice())
}

/// The name of a script node.
pub(crate) fn node_value<N: Names>(
    alloc: Global,
    names: &N,
    origin: u32,
) -> Result<Value, AllocError>
    ensures { IfOk result (λ value.
        view value ≡ spec.text_json ((N.naming names.now).node origin)) }
{
    let mut text = Vec::new(alloc);
    names.push_node(&mut text, origin)?;
    text_value(alloc, text.as_slice())
}

/// The combiner of a lifted channel.
pub(crate) fn lift_value<N: Names>(
    alloc: Global,
    names: &N,
    lifted: Option<Comb>,
) -> Result<Value, AllocError>
    ensures { IfOk result (λ value.
        view value ≡ spec.lift_json (N.naming names.now) lifted) }
{
    let Some(combiner) = lifted else {
        return Ok(Value::Null);
    };
    let mut text = Vec::new(alloc);
    names.push_combiner(&mut text, combiner)?;
    text_value(alloc, text.as_slice())
}

/// Outputs of input channels.
pub(crate) fn takes_value(alloc: Global, takes: &[Take]) -> Result<Value, AllocError>
    ensures { IfOk result (λ value. view value ≡ spec.texts_json take_text takes.now) }
{
    let mut values = Vec::new(alloc);
    for take in takes {
        values.push(take_value(alloc, *take)?)?;
    }
    Ok(Value::Array(values))
}

/// The results that a grouping channel of a stage gives.
pub(crate) fn given_value(alloc: Global, stage: u64, group: &Grouping) -> Result<Value, AllocError>
    ensures { IfOk result (λ value.
        view value
        ≡ spec.texts_json (given_text stage group.now) (output_numbers_of group.now.does)) }
{
    let outs = outs_of(alloc, &group.does)?;
    results_value(alloc, stage, group, outs.as_slice())
}

/// The results that it gives for these outputs of its reducer.
fn results_value(
    alloc: Global,
    stage: u64,
    group: &Grouping,
    outs: &[u32],
) -> Result<Value, AllocError>
    ensures { IfOk result (λ value.
        view value ≡ spec.texts_json (given_text stage group.now) outs.now) }
{
    let mut values = Vec::new(alloc);
    for out in outs {
        let number = u64::from(group.first) + u64::from(*out);
        values.push(result_value(alloc, stage, number)?)?;
    }
    Ok(Value::Array(values))
}

/// Collections.
pub(crate) fn places_value(alloc: Global, places: &[PlanPlace]) -> Result<Value, AllocError>
    ensures { IfOk result (λ value. view value ≡ spec.texts_json place_text places.now) }
{
    let mut values = Vec::new(alloc);
    for place in places {
        values.push(place_value(alloc, *place)?)?;
    }
    Ok(Value::Array(values))
}
