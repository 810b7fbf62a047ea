// Copies of values: each equals its source.
ghost use Rattle.std.specs.Prelude.{◌≡◌, IfOk};

use crate::held::Held;
use crate::pile::Pile;
use crate::value::{Items, Value};
use std::alloc::{AllocError, Global};

/// A value that equals this one.
#[cycle(copy)]
pub fn copy(alloc: Global, value: &Value) -> Result<Value, AllocError>
    ensures { IfOk result (λ v. v ≡ value.now) }
{
    match value {
        Value::Int(n) => Ok(Value::Int(*n)),
        Value::Bool(b) => Ok(Value::Bool(*b)),
        Value::Text(text) => Ok(Value::Text(text.copy(alloc)?)),
        Value::List(items) => Ok(Value::List(copy_all(alloc, items.as_slice())?)),
        Value::Rec(fields) => Ok(Value::Rec(copy_all(alloc, fields.as_slice())?)),
        Value::Left(part) => Ok(Value::Left(Held::new(alloc, copy(alloc, part.get())?)?)),
        Value::Right(part) => Ok(Value::Right(Held::new(alloc, copy(alloc, part.get())?)?)),
        Value::Wide(n) => Ok(Value::Wide(*n)),
    }
}

/// Values that equal these, in their order.
#[cycle(copy)]
pub fn copy_all(alloc: Global, values: &[Value]) -> Result<Items, AllocError>
    ensures { IfOk result (λ all. all ≡ values.now) }
{
    let mut copied = Vec::with_capacity(alloc, values.len())?;
    for value in values {
        copied.push(copy(alloc, value)?)?;
    }
    Ok(Pile::from_vec(copied))
}

impl Value {
    /// A value that equals this one.
    pub fn copy(&self, alloc: Global) -> Result<Value, AllocError>
        ensures { IfOk result (λ v. v ≡ self.now) }
    {
        copy(alloc, self)
    }
}

impl Clone for Value {
    ghost use Rattle.std.specs.Prelude.{◌≡◌};

    ghost is_clone = { λ v w. w ≡ v };

    fn clone(&self) -> Result<Value, AllocError> {
        match self {
            Value::Int(n) => Ok(Value::Int(*n)),
            Value::Bool(b) => Ok(Value::Bool(*b)),
            Value::Wide(n) => Ok(Value::Wide(*n)),
            Value::Text(text) => copy(text.allocator(), self),
            Value::List(items) | Value::Rec(items) => copy(items.allocator(), self),
            Value::Left(part) | Value::Right(part) => copy(part.allocator(), self),
        }
    }
}
