// The groups of ascending pairs, by their keys.
ghost use Rattle.std.specs.Prelude.{◌≡◌, All, IfOk};
ghost use Rattle.std.specs.List.Sorted.{IsSorted};
ghost use Rattle.flume_value.specs.Order.{value_cmp};
ghost use Rattle.flume_value.specs.Bag.{bag_of};
ghost use Rattle.keyed_steps.specs.of_bag_groups.Pairs.{IsPair, pair as pair_of};
ghost use Rattle.keyed_steps.specs.of_bag_groups.Groups.{grouped};
ghost use Rattle.bag_steps.specs.inner.Runs.{held_by};

use crate::runs::{run_of_key, under_copy, values_of};
use flume_value::Value;
use keyed_steps::bag_groups::key;
use std::alloc::{AllocError, Global};

/// For each key of the ascending pairs the pair of it and the list of its values, ascending. It
/// copies each value once, and one key of each run.
pub fn group(alloc: Global, pairs: &[Value]) -> Result<Vec<Value>, AllocError>
    requires pairs { All IsPair pairs.now }
    requires ascending { IsSorted value_cmp pairs.now }
    ensures groups { IfOk result (λ groups. groups.items ≡ grouped pairs.now) }
    ensures ascending { IfOk result (λ groups. IsSorted value_cmp groups.items) }
    ensures bag { IfOk result (λ groups. bag_of groups.items ≡ groups.items) }
{
    let mut groups = Vec::new(alloc);
    let mut at = 0;
    while at < pairs.len() {
        let rest = &pairs[at..];
        let first = key(&rest[0]);
        let run = run_of_key(first, rest);
        groups.push(group_of_run(alloc, first, &rest[..run])?)?;
        at += run;
    }
    Ok(groups)
}

/// The pair of a key and the list of the values of its pairs.
fn group_of_run(alloc: Global, key: &Value, run: &[Value]) -> Result<Value, AllocError>
    requires { All IsPair run.now }
    ensures { IfOk result (λ group. group ≡ pair_of key.now (Value.List (held_by run.now))) }
{
    let values = values_of(alloc, run)?;
    under_copy(alloc, key, Value::List(values))
}
