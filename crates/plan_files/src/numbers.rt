// Numbers in JSON values.
ghost use Rattle.std.specs.Prelude.{◌≡◌, IfOk, option_and_then};
ghost use Rattle.std.specs.Option.{option_map};
ghost use Rattle.serde_json.specs.Find.{as_array};
ghost use Rattle.serde_json.specs.View.{items_view, view};
ghost use Rattle.plan_files.specs.Forms as spec;

use serde_json::Value;
use std::alloc::{AllocError, Global};

/// The numbers that a value is a list of, if it is one.
pub(crate) fn numbers_in(alloc: Global, value: &Value) -> Result<Option<Vec<u32>>, AllocError>
    ensures { IfOk result (λ found. option_map (λ v. v.items) found
        ≡ spec.numbers_of (view value.now)) }
{
    match value.as_array() {
        Some(values) => numbers_among(alloc, values.as_slice()),
        None => Ok(None),
    }
}

/// The numbers that values are, if all of them are.
fn numbers_among(alloc: Global, values: &[Value]) -> Result<Option<Vec<u32>>, AllocError>
    ensures { IfOk result (λ found. option_map (λ v. v.items) found
        ≡ spec.all_of spec.number_in_data (items_view values.now)) }
{
    let mut numbers = Vec::new(alloc);
    for value in values {
        match number_in(value) {
            Some(number) => numbers.push(number)?,
            None => return Ok(None),
        }
    }
    Ok(Some(numbers))
}

/// The whole number that a value is, if 32 bits without a sign hold it.
fn number_in(value: &Value) -> Option<u32>
    ensures { result ≡ spec.number_in_data (view value.now) }
{
    match value.as_u64() {
        Some(number) => small(number),
        None => None,
    }
}

fn small(number: u64) -> Option<u32>
    ensures { result ≡ spec.small number }
{
    u32::try_from(number).ok()
}
