// Rows in ascending order, sorted by the ints or texts that they begin with before all else.
ghost use Rattle.std.specs.Prelude.{◌≡◌, ◌/◌, IfOk, map, pos};
ghost use Rattle.flume_value.specs.Bag.{bag_of};
ghost use Rattle.direct_meaning.specs.inner.Beginnings.{begun as begun_of, beginning as beginning_of, beginning_in, field_beginning as field_beginning_of, leading};

use flume_value::Value;
use key_order::first_eight;
use std::alloc::{AllocError, Global};

/// The bag of the rows: its members in ascending order. Each is sorted behind its beginning, so
/// that few comparisons follow the references of a row.
pub(crate) fn ascending_rows(alloc: Global, rows: Vec<Value>) -> Result<Vec<Value>, AllocError>
    ensures { IfOk result (λ all. all.items ≡ bag_of rows.items) }
{
    let mut begun = with_beginnings(alloc, rows)?;
    begun.sort_unstable();
    let all = without_beginnings(alloc, begun)?;
    Ok(all)
}

/// Each row behind its beginning.
fn with_beginnings(alloc: Global, rows: Vec<Value>) -> Result<Vec<((u8, i64), Value)>, AllocError>
    ensures { IfOk result (λ all. all.items ≡ map begun_of rows.items) }
{
    rows.into_iter().map(|row| begun(row)).collect(alloc)
}

/// The rows alone, as they stand.
fn without_beginnings(
    alloc: Global,
    begun: Vec<((u8, i64), Value)>,
) -> Result<Vec<Value>, AllocError>
    ensures { IfOk result (λ all. all.items ≡ map (λ it. it.1) begun.items) }
{
    begun.into_iter().map(|it| row_alone(it)).collect(alloc)
}

/// A row behind its beginning.
fn begun(row: Value) -> ((u8, i64), Value)
    ensures { result ≡ begun_of row }
{
    (beginning(&row), row)
}

/// The row behind a beginning.
fn row_alone(begun: ((u8, i64), Value)) -> Value
    ensures { result ≡ begun.1 }
{
    begun.1
}

/// What a row begins with. Of a record whose first field is an int: 1 and the int; a bool: 2; a
/// text: 3 and its first 63 bits; another value: 4. Of what is no record: 0 where it is less than
/// these, and 4 where it is greater.
fn beginning(row: &Value) -> (u8, i64)
    ensures { result ≡ beginning_of row.now }
{
    match row {
        Value::Int(_) | Value::Bool(_) | Value::Text(_) | Value::List(_) => (0, 0),
        Value::Rec(fields) => first_beginning(fields.as_slice()),
        Value::Left(_) | Value::Right(_) | Value::Wide(_) => (4, 0),
    }
}

/// What a record of these fields begins with.
fn first_beginning(fields: &[Value]) -> (u8, i64)
    ensures { result ≡ beginning_in fields.now }
{
    match fields {
        [] => (0, 0),
        [field, ..] => field_beginning(field),
    }
}

/// What a record begins with whose first field this is.
fn field_beginning(field: &Value) -> (u8, i64)
    ensures { result ≡ field_beginning_of field.now }
{
    match field {
        Value::Int(n) => (1, *n),
        Value::Bool(_) => (2, 0),
        Value::Text(text) => (3, text_bits(text.as_bytes())),
        _ => (4, 0),
    }
}

/// The first 63 bits of a text.
fn text_bits(text: &[u8]) -> i64
    ensures { result ≡ pos (leading 8 text.now / 2) }
{
    (first_eight(text) / 2) as i64
}
