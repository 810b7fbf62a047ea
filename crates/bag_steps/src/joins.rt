// The join of two tables, by their keys.
ghost use Rattle.std.specs.Prelude.{◌≡◌, All, IfOk};
ghost use Rattle.std.specs.Option.{option_copied};
ghost use Rattle.std.specs.List.Sorted.{IsSorted};
ghost use Rattle.flume_value.specs.Order.{value_cmp};
ghost use Rattle.flume_value.specs.Bag.{bag_of};
ghost use Rattle.keyed_steps.specs.of_bag_groups.Pairs.{IsPair, pair as pair_of};
ghost use Rattle.bag_steps.specs.Joins.{joined, sides};
ghost use Rattle.bag_steps.specs.inner.Runs.{held_by, first_key, least_of};

use crate::runs::{run_of_key, under_copy, values_of};
use flume_value::{Pile, Value, compare};
use keyed_steps::bag_groups::{key, pair};
use std::alloc::{AllocError, Global};

/// For each key of the ascending pairs of either side the pair of it and the record of the lists of
/// its values on the left and on the right, empty where a side lacks the key. It copies each
/// value once, and one key of each run.
pub fn join(alloc: Global, left: &[Value], right: &[Value]) -> Result<Vec<Value>, AllocError>
    requires left_pairs { All IsPair left.now }
    requires left_ascending { IsSorted value_cmp left.now }
    requires right_pairs { All IsPair right.now }
    requires right_ascending { IsSorted value_cmp right.now }
    ensures joined { IfOk result (λ rows. rows.items ≡ joined left.now right.now) }
    ensures ascending { IfOk result (λ rows. IsSorted value_cmp rows.items) }
    ensures bag { IfOk result (λ rows. bag_of rows.items ≡ rows.items) }
{
    let mut rows = Vec::new(alloc);
    let mut i = 0;
    let mut j = 0;
    while let Some(key) = least_key(&left[i..], &right[j..]) {
        let lefts = run_of_key(key, &left[i..]);
        let rights = run_of_key(key, &right[j..]);
        rows.push(row(alloc, key, &left[i..i + lefts], &right[j..j + rights])?)?;
        i += lefts;
        j += rights;
    }
    Ok(rows)
}

/// The lesser of the first keys, where there is one.
fn least_key<'a>(left: &'a [Value], right: &'a [Value]) -> Option<&'a Value>
    requires left { All IsPair left.now }
    requires right { All IsPair right.now }
    ensures { option_copied result ≡ least_of (first_key left.now) (first_key right.now) }
{
    match (left.first(), right.first()) {
        (Some(a), Some(b)) if compare(key(b), key(a)).is_lt() => Some(key(b)),
        (Some(a), _) => Some(key(a)),
        (None, Some(b)) => Some(key(b)),
        (None, None) => None,
    }
}

/// The pair of a key and the record of the values that it has on both sides.
fn row(alloc: Global, key: &Value, left: &[Value], right: &[Value]) -> Result<Value, AllocError>
    requires left { All IsPair left.now }
    requires right { All IsPair right.now }
    ensures { IfOk result (λ row.
        row ≡ pair_of key.now (sides (held_by left.now) (held_by right.now))) }
{
    let lefts = values_of(alloc, left)?;
    let rights = values_of(alloc, right)?;
    let both = pair(alloc, Value::List(lefts), Value::List(rights))?;
    under_copy(alloc, key, both)
}
