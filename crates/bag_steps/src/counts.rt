// How often each value is in a bag.
ghost use Rattle.std.specs.Prelude.{◌≡◌, [], IfOk};
ghost use Rattle.std.specs.List.Sorted.{IsSorted};
ghost use Rattle.flume_value.specs.Order.{value_cmp};
ghost use Rattle.flume_value.specs.Bag.{bag_of};
ghost use Rattle.keyed_steps.specs.of_bag_groups.Pairs.{pair as pair_of};
ghost use Rattle.bag_steps.specs.Counts.{counted, counted_traps};

use crate::runs::{run_of_value, under_copy};
use flume_value::Value;
use std::alloc::{AllocError, Global};

/// For each distinct value of the ascending bag the pair of it and how often it is there. It copies
/// each distinct value once. No count of a bag that is held in memory overflows.
pub fn count(alloc: Global, bag: &[Value]) -> Result<Vec<Value>, AllocError>
    requires { IsSorted value_cmp bag.now }
    ensures counted { IfOk result (λ pairs. pairs.items ≡ counted bag.now) }
    ensures through { counted_traps bag.now ≡ [] }
    ensures ascending { IfOk result (λ pairs. IsSorted value_cmp pairs.items) }
    ensures bag { IfOk result (λ pairs. bag_of pairs.items ≡ pairs.items) }
{
    let mut pairs = Vec::new(alloc);
    let mut at = 0;
    while at < bag.len() {
        let first = &bag[at];
        let run = run_of_value(first, &bag[at..]);
        pairs.push(pair_of_count(alloc, first, run as i64)?)?;
        at += run;
    }
    Ok(pairs)
}

/// The pair of a value and how often it is there.
fn pair_of_count(alloc: Global, value: &Value, times: i64) -> Result<Value, AllocError>
    ensures { IfOk result (λ p. p ≡ pair_of value.now (Value.Int times)) }
{
    under_copy(alloc, value, Value::Int(times))
}
