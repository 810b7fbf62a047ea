// What is kept of a collection, written.
ghost use Rattle.std.specs.Prelude.{◌≡◌, ◌++◌, ◌∷◌, [], map, IfOk, OnOk, pos};
ghost use Rattle.flume_value.specs.Canonical.{canonical};
ghost use Rattle.flume_value.specs.Ranges.{IsHeld};
ghost use Rattle.flume_value.specs.declared.value.Value.TheVariants as variant;
ghost use Rattle.saved_results.specs.Saved.{saved_value, size_value};

use crate::saved::{Saved, Size};
use flume_value::{Items, Pile, Str, Value, canonical_bytes};
use std::alloc::{AllocError, Global};

/// The bytes of what is kept.
pub fn saved_bytes(alloc: Global, saved: Saved) -> Result<Vec<u8>, AllocError>
    ensures bytes { IfOk result (λ bytes. bytes.items ≡ canonical (saved_value saved)) }
    ensures held { OnOk result (IsHeld (saved_value saved)) }
{
    let value = value_of(alloc, saved)?;
    let bytes = canonical_bytes(alloc, &value);
    drop(value);
    bytes
}

// What is kept, as a value.
fn value_of(alloc: Global, saved: Saved) -> Result<Value, AllocError>
    ensures { IfOk result (λ value. value ≡ saved_value saved) }
{
    let Saved { members, sizes } = saved;
    let sizes = size_values(alloc, sizes.as_slice())?;
    both(alloc, Value::List(members), Value::List(sizes))
}

// The record of two values.
fn both(alloc: Global, first: Value, second: Value) -> Result<Value, AllocError>
    ensures { IfOk result (λ value. value ≡ variant.Rec (first ∷ second ∷ [])) }
{
    let mut parts = Pile::new(alloc);
    match parts.push(first) {
        Ok(()) => {
            parts.push(second)?;
            Ok(Value::Rec(parts))
        }
        Err(fault) => {
            drop(second);
            Err(fault)
        }
    }
}

// Each size as a value.
fn size_values(alloc: Global, sizes: &[Size]) -> Result<Items, AllocError>
    ensures { IfOk result (λ values. values ≡ map size_value sizes.now) }
{
    let mut values = Pile::new(alloc);
    for size in sizes {
        values.push(size_of(alloc, size)?)?;
    }
    Ok(values)
}

// A size as a value.
fn size_of(alloc: Global, size: &Size) -> Result<Value, AllocError>
    ensures { IfOk result (λ value. value ≡ size_value size.now) }
{
    let name = size.name.copy(alloc)?;
    both(
        alloc,
        Value::Text(name),
        Value::Wide(i128::from(size.members)),
    )
}
