// Values that tests try, as plain data, and one of each variant.
use flume_value::{Held, Items, Pile, Str, Value};
use std::alloc::{AllocError, Global};

/// A value that tests try, as plain data.
#[derive(Clone, Copy)]
pub(crate) enum Sample {
    Int(i64),
    Bool(bool),
    Text(&'static [u8]),
    /// The list of no value.
    Empty,
    /// The list of a truth.
    Truths,
    /// The list of the list of a 7.
    Nested,
    /// The record of a 1 and the text hi.
    Record,
    /// The record of a 1 and a truth.
    Pair,
    /// A false on the left side of an either.
    Left,
    /// A false on the right side of an either.
    Right,
    Wide(i128),
}

/// The sample's value.
pub(crate) fn value_of(alloc: Global, sample: Sample) -> Result<Value, AllocError> {
    match sample {
        Sample::Int(n) => Ok(Value::Int(n)),
        Sample::Bool(b) => Ok(Value::Bool(b)),
        Sample::Text(bytes) => text(alloc, bytes),
        Sample::Empty => Ok(Value::List(Pile::new(alloc))),
        Sample::Truths => list_of(alloc, Value::Bool(true)),
        Sample::Nested => list_of(alloc, list_of(alloc, Value::Int(7))?),
        Sample::Record => beside_one(alloc, text(alloc, b"hi")?),
        Sample::Pair => beside_one(alloc, Value::Bool(true)),
        Sample::Left => Ok(Value::Left(Held::new(alloc, Value::Bool(false))?)),
        Sample::Right => Ok(Value::Right(Held::new(alloc, Value::Bool(false))?)),
        Sample::Wide(n) => Ok(Value::Wide(n)),
    }
}

fn text(alloc: Global, bytes: &[u8]) -> Result<Value, AllocError> {
    Ok(Value::Text(Str::from_slice(alloc, bytes)?))
}

fn one(alloc: Global, value: Value) -> Result<Items, AllocError> {
    let mut items = Pile::new(alloc);
    items.push(value)?;
    Ok(items)
}

fn list_of(alloc: Global, value: Value) -> Result<Value, AllocError> {
    Ok(Value::List(one(alloc, value)?))
}

/// The record of a 1 and this value.
fn beside_one(alloc: Global, second: Value) -> Result<Value, AllocError> {
    let mut items = one(alloc, Value::Int(1))?;
    items.push(second)?;
    Ok(Value::Rec(items))
}

/// A sample of each variant, in the order of values.
static VARIANTS: [Sample; 8] = [
    Sample::Int(-2),
    Sample::Bool(true),
    Sample::Text(b"hi"),
    Sample::Empty,
    Sample::Record,
    Sample::Left,
    Sample::Right,
    Sample::Wide(-1),
];

/// A value of each variant, in the order of values.
pub(crate) fn of_each_variant(alloc: Global) -> Result<Vec<Value>, AllocError> {
    values_of(alloc, &VARIANTS)
}

fn values_of(alloc: Global, samples: &[Sample]) -> Result<Vec<Value>, AllocError> {
    let mut values = Vec::new(alloc);
    for sample in samples {
        push(alloc, *sample, &mut values)?;
    }
    Ok(values)
}

/// Puts the sample's value at the end.
pub(crate) fn push(
    alloc: Global,
    sample: Sample,
    values: &mut Vec<Value>,
) -> Result<(), AllocError> {
    values.push(value_of(alloc, sample)?)?;
    Ok(())
}
