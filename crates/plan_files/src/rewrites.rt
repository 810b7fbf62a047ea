// Rewrites in JSON values.
ghost use Rattle.std.specs.Prelude.{◌≡◌, ◌∷◌, [], IfOk, option_and_then};
ghost use Rattle.std.specs.Option.{option_map};
ghost use Rattle.serde_json.specs.Find.{as_object, as_str};
ghost use Rattle.serde_json.specs.View.{items_view, view};
ghost use Rattle.plan_files.specs.Forms as spec;

use crate::numbers::numbers_in;
use flume_value::Pile;
use graph_rewrites::Rewrite;
use serde_json::Value;
use std::alloc::{AllocError, Global};

/// How many members an object has.
fn count_in(value: &Value) -> usize
    ensures { result ≡ spec.members_counted (as_object (view value.now)) }
{
    match value.as_object() {
        Some(members) => members.len(),
        None => 0,
    }
}

/// The two members of those names of an object that has no other.
pub(crate) fn two_in<'a>(
    value: &'a Value,
    first: &str,
    second: &str,
) -> Option<(&'a Value, &'a Value)>
    ensures { option_map (λ both. (view both.0.now, view both.1.now)) result
        ≡ spec.two_members first.now second.now (view value.now) }
{
    if count_in(value) != 2 {
        return None;
    }
    match (value.get(first), value.get(second)) {
        (Some(first), Some(second)) => Some((first, second)),
        _ => None,
    }
}

/// The rewrites that a value is a list of, if it is one.
pub(crate) fn rewrites_in(alloc: Global, value: &Value) -> Result<Option<Pile<Rewrite>>, AllocError>
    ensures { IfOk result (λ found. found ≡ spec.rewrites_of (view value.now)) }
{
    match value.as_array() {
        Some(values) => rewrites_among(alloc, values.as_slice()),
        None => Ok(None),
    }
}

/// The rewrites that values are, if all of them are.
fn rewrites_among(alloc: Global, values: &[Value]) -> Result<Option<Pile<Rewrite>>, AllocError>
    ensures { IfOk result (λ found. found
        ≡ spec.all_of spec.rewrite_of (items_view values.now)) }
{
    let mut rewrites = Pile::new(alloc);
    for value in values {
        match rewrite_in(alloc, value)? {
            Some(rewrite) => rewrites.push(rewrite)?,
            None => return Ok(None),
        }
    }
    Ok(Some(rewrites))
}

/// The rewrite that a value tells, if it tells one.
fn rewrite_in(alloc: Global, value: &Value) -> Result<Option<Rewrite>, AllocError>
    ensures { IfOk result (λ found. found ≡ spec.rewrite_of (view value.now)) }
{
    match two_in(value, "at", "op") {
        Some((at, op)) => rewrite_from(alloc, at, op),
        None => Ok(None),
    }
}

/// The rewrite of that name at these numbers, if there is one.
fn rewrite_from(alloc: Global, at: &Value, op: &Value) -> Result<Option<Rewrite>, AllocError>
    ensures { IfOk result (λ found. found ≡ spec.rewrite_from (view at.now, view op.now)) }
{
    match numbers_in(alloc, at)? {
        Some(numbers) => Ok(rewrite_with(op, numbers.as_slice())),
        None => Ok(None),
    }
}

fn rewrite_with(op: &Value, at: &[u32]) -> Option<Rewrite>
    ensures { result ≡ option_and_then (λ op. spec.rewrite_at op at.now) (as_str (view op.now)) }
{
    match op.as_str() {
        Some(name) => rewrite_at(name, at),
        None => None,
    }
}

/// The rewrite of that name at these numbers, if there is one.
fn rewrite_at(name: &str, at: &[u32]) -> Option<Rewrite>
    ensures { result ≡ spec.rewrite_at name.now at.now }
{
    match at {
        [group] => lift_at(name, *group),
        [first, second] => rewrite_at_two(name, *first, *second),
        [keeper, output, reader] => kid_at(name, *keeper, *output, *reader),
        _ => None,
    }
}

fn lift_at(name: &str, group: u32) -> Option<Rewrite>
    ensures { result ≡ spec.rewrite_at name.now (group ∷ []) }
{
    match name {
        "lift" => Some(Rewrite::Lift { group }),
        _ => None,
    }
}

/// The rewrite of that name at two numbers, if there is one.
fn rewrite_at_two(name: &str, first: u32, second: u32) -> Option<Rewrite>
    ensures { result ≡ spec.rewrite_at_two name.now first second }
{
    match name {
        "merge" => Some(Rewrite::Merge {
            outer: first,
            inner: second,
        }),
        "sink" => Some(Rewrite::Sink {
            flatten: first,
            pdo: second,
        }),
        "sibling" => Some(Rewrite::Sibling {
            keeper: first,
            other: second,
        }),
        "mark" => Some(Rewrite::Mark {
            node: first,
            output: second,
        }),
        _ => None,
    }
}

fn kid_at(name: &str, keeper: u32, output: u32, reader: u32) -> Option<Rewrite>
    ensures { result ≡ spec.rewrite_at name.now (keeper ∷ (output ∷ (reader ∷ []))) }
{
    match name {
        "kid" => Some(Rewrite::Kid {
            keeper,
            output,
            reader,
        }),
        _ => None,
    }
}
