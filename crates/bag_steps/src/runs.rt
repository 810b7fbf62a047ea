// Runs of one value or of one key, in ascending order.
ghost use Rattle.std.specs.Prelude.{◌≡◌, All, IfOk, Some};
ghost use Rattle.keyed_steps.specs.of_bag_groups.Pairs.{IsPair, key_of, pair as pair_of};
ghost use Rattle.bag_steps.specs.inner.Runs.{IsRun, held_by};

use flume_value::{Items, Pile, Value, equals};
use keyed_steps::bag_groups::{key, pair, value};
use std::alloc::{AllocError, Global};

/// How many values ahead are this one.
pub(crate) fn run_of_value(wanted: &Value, values: &[Value]) -> usize
    ensures { IsRun (λ v. v) wanted.now values.now result }
{
    let mut n = 0;
    while n < values.len() && equals(&values[n], wanted) {
        n += 1;
    }
    n
}

/// How many pairs ahead have this key.
pub(crate) fn run_of_key(wanted: &Value, pairs: &[Value]) -> usize
    requires { All IsPair pairs.now }
    ensures { IsRun key_of (Some wanted.now) pairs.now result }
{
    let mut n = 0;
    while n < pairs.len() && equals(key(&pairs[n]), wanted) {
        n += 1;
    }
    n
}

/// Copies of the values of these pairs.
pub(crate) fn values_of(alloc: Global, pairs: &[Value]) -> Result<Items, AllocError>
    requires { All IsPair pairs.now }
    ensures { IfOk result (λ values. values ≡ held_by pairs.now) }
{
    let mut values = Vec::with_capacity(alloc, pairs.len())?;
    for pair in pairs {
        values.push(value(pair).copy(alloc)?)?;
    }
    Ok(Pile::from_vec(values))
}

/// The pair of a copy of the key and this value.
pub(crate) fn under_copy(alloc: Global, key: &Value, value: Value) -> Result<Value, AllocError>
    ensures { IfOk result (λ p. p ≡ pair_of key.now value) }
{
    match key.copy(alloc) {
        Ok(copied) => pair(alloc, copied, value),
        Err(fault) => {
            drop(value);
            Err(fault)
        }
    }
}
