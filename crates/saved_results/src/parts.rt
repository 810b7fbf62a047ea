// What is kept in a value, if that is of its form.
ghost use Rattle.std.specs.Prelude.{◌≡◌, IfOk, None, Some};
ghost use Rattle.std.specs.Option.{option_map, option_and_then};
ghost use Rattle.flume_value.specs.Parts.{members_of, text_of, wide_of};
ghost use Rattle.saved_results.specs.Forms as spec;

use crate::saved::{Saved, Size};
use flume_value::{Items, Pile, Str, Value};
use std::alloc::{AllocError, Global};

/// What is kept in a value, if that is of its form.
pub fn saved_in(alloc: Global, value: Value) -> Result<Option<Saved>, AllocError>
    ensures { IfOk result (λ found. found ≡ spec.saved_of value) }
{
    let Some((first, second)) = two_in(value) else {
        return Ok(None);
    };
    match (list_in(first), list_in(second)) {
        (Some(members), Some(sizes)) => with_sizes(alloc, members, sizes),
        _ => Ok(None),
    }
}

// These members with these sizes, if they are some.
fn with_sizes(alloc: Global, members: Items, sizes: Items) -> Result<Option<Saved>, AllocError>
    ensures { IfOk result (λ found. found ≡ spec.with_sizes members (spec.sizes_in_values sizes)) }
{
    match sizes_in(alloc, sizes)? {
        Some(sizes) => Ok(Some(Saved { members, sizes })),
        None => Ok(None),
    }
}

// The sizes that these values are, if all of them are.
fn sizes_in(alloc: Global, values: Items) -> Result<Option<Pile<Size>>, AllocError>
    ensures { IfOk result (λ sizes. sizes ≡ spec.sizes_in_values values) }
{
    let mut values = values.into_vec();
    let mut sizes = Vec::new(alloc);
    while let Some(value) = values.pop() {
        match size_in(value) {
            Some(size) => sizes.push(size)?,
            None => return Ok(None),
        }
    }
    sizes.as_mut_slice().reverse();
    Ok(Some(Pile::from_vec(sizes)))
}

// The size that a value is, if it is one.
fn size_in(value: Value) -> Option<Size>
    ensures { result ≡ spec.size_in_value value }
{
    let (first, second) = two_in(value)?;
    let members = count_in(&second);
    drop(second);
    let name = text_in(first)?;
    match members {
        Some(members) => Some(Size { name, members }),
        None => {
            drop(name);
            None
        }
    }
}

// The two fields of a record that has two.
fn two_in(value: Value) -> Option<(Value, Value)>
    ensures { result ≡ spec.two_of value }
{
    match value {
        Value::Rec(fields) => two_among(fields),
        other => {
            drop(other);
            None
        }
    }
}

fn two_among(fields: Items) -> Option<(Value, Value)>
    ensures { result ≡ spec.two_among fields }
{
    let mut fields = fields.into_vec();
    if fields.len() != 2 {
        return None;
    }
    let second = fields.pop()?;
    match fields.pop() {
        Some(first) => Some((first, second)),
        None => {
            drop(second);
            None
        }
    }
}

fn list_in(value: Value) -> Option<Items>
    ensures { result ≡ members_of value }
{
    match value {
        Value::List(members) => Some(members),
        other => {
            drop(other);
            None
        }
    }
}

fn text_in(value: Value) -> Option<Str>
    ensures { result ≡ text_of value }
{
    match value {
        Value::Text(text) => Some(text),
        other => {
            drop(other);
            None
        }
    }
}

// The number that a value is, if 64 bits without a sign hold it.
fn count_in(value: &Value) -> Option<u64>
    ensures { result ≡ option_and_then spec.natural_of (wide_of value.now) }
{
    match value {
        Value::Wide(n) => count(n),
        _ => None,
    }
}

fn count(n: &i128) -> Option<u64>
    ensures { result ≡ spec.natural_of n.now }
{
    let n = *n;
    u64::try_from(n).ok()
}
