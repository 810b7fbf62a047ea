// A pair of a key and a value, and its parts.
ghost use Rattle.std.specs.Prelude.{◌≡◌, Some, IfOk};
ghost use Rattle.bag_groups.specs.Pairs.{IsPair, key_of, parts_of, value_of, pair as pair_of};

use flume_value::{Pile, Value};
use std::alloc::{AllocError, Global};

/// The pair of a key and a value.
pub fn pair(alloc: Global, key: Value, value: Value) -> Result<Value, AllocError>
    ensures { IfOk result (λ p. p ≡ pair_of key value) }
{
    let mut fields = Vec::with_capacity(alloc, 2)?;
    fields.push(key)?;
    fields.push(value)?;
    Ok(Value::Rec(Pile::from_vec(fields)))
}

/// The key of a pair.
pub fn key(pair: &Value) -> &Value
    requires { IsPair pair.now }
    ensures { key_of pair.now ≡ Some result.now }
{
    match pair {
        Value::Rec(fields) => &fields.as_slice()[0],
        _ => unreachable!(),
    }
}

/// The value of a pair.
pub fn value(pair: &Value) -> &Value
    requires { IsPair pair.now }
    ensures { value_of pair.now ≡ Some result.now }
{
    match pair {
        Value::Rec(fields) => &fields.as_slice()[1],
        _ => unreachable!(),
    }
}

/// The key and the value of a pair; no other value has them.
pub fn into_parts(pair: Value) -> Option<(Value, Value)>
    ensures { result ≡ parts_of pair }
{
    let Value::Rec(fields) = pair else {
        return None;
    };
    if fields.len() != 2 {
        return None;
    }
    let mut fields = fields.into_vec();
    let value = fields.pop()?;
    let key = fields.pop()?;
    Some((key, value))
}
