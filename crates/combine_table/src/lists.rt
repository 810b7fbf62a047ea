// Lists that accumulators keep, two made one: least, greatest and distinct members.
ghost use Rattle.std.specs.Prelude.{◌≡◌, ◌≤◌, if◌then◌else◌, ◌++◌, [], ◌∷◌, length, reverse, IfOk, OnOk, IfNone};
ghost use Rattle.std.specs.Option.{option_to_list};
ghost use Rattle.std.specs.List.Sorted.{IsSorted};
ghost use Rattle.flume_value.specs.Order.{value_cmp};
ghost use Rattle.flume_value.specs.Bag.{bag_of};
ghost use Rattle.combine_table.specs.Combinations.{least, greatest, distinct};
ghost use Rattle.combine_table.specs.inner.Repeats.{once};

use flume_value::{Value, compare, equals};
use std::alloc::{AllocError, Global};

/// The list with the lesser member of two that have at most one.
pub(crate) fn lesser(left: Vec<Value>, right: Vec<Value>) -> Vec<Value>
    requires left { length left.items ≤ 1 }
    requires right { length right.items ≤ 1 }
    ensures { result.items ≡ least 1 (bag_of (left.items ++ right.items)) }
{
    match (left.first(), right.first()) {
        (Some(a), Some(b)) if compare(b, a).is_lt() => right,
        (None, _) => right,
        _ => left,
    }
}

/// The list with the greater member of two that have at most one.
pub(crate) fn greater(left: Vec<Value>, right: Vec<Value>) -> Vec<Value>
    requires left { length left.items ≤ 1 }
    requires right { length right.items ≤ 1 }
    ensures { result.items ≡ greatest 1 (bag_of (left.items ++ right.items)) }
{
    match (left.first(), right.first()) {
        (Some(a), Some(b)) if compare(b, a).is_lt() => left,
        (_, None) => left,
        _ => right,
    }
}

/// The n greatest members of two ascending lists, ascending.
pub(crate) fn greatest_of_both(
    alloc: Global,
    n: u32,
    mut left: Vec<Value>,
    mut right: Vec<Value>,
) -> Result<Vec<Value>, AllocError>
    requires left { IsSorted value_cmp left.items }
    requires right { IsSorted value_cmp right.items }
    ensures { IfOk result (λ kept. kept.items ≡ greatest n (bag_of (left.items ++ right.items))) }
{
    let mut descending = Vec::new(alloc);
    for _ in 0..n {
        match pop_greatest(&mut left, &mut right) {
            Some(value) => descending.push(value)?,
            None => break,
        }
    }
    descending.reverse();
    Ok(descending)
}

/// The distinct members of two ascending lists, ascending.
pub(crate) fn distinct_of_both(
    alloc: Global,
    mut left: Vec<Value>,
    mut right: Vec<Value>,
) -> Result<Vec<Value>, AllocError>
    requires left { IsSorted value_cmp left.items }
    requires right { IsSorted value_cmp right.items }
    ensures { IfOk result (λ kept. kept.items ≡ distinct (bag_of (left.items ++ right.items))) }
{
    let mut descending = Vec::new(alloc);
    'draws: loop {
        match pop_greatest(&mut left, &mut right) {
            Some(value) => push_new(&mut descending, value)?,
            None => break 'draws,
        }
    }
    descending.reverse();
    Ok(descending)
}

/// Pushes the value where it is not the last.
fn push_new(values: &mut Vec<Value>, value: Value) -> Result<(), AllocError>
    ensures { OnOk result (reverse values.new.items ≡ once value (reverse values.old.items)) }
{
    if !is_last(values.as_slice(), &value) {
        values.push(value)?;
    }
    Ok(())
}

/// Whether the value is the last.
fn is_last(values: &[Value], value: &Value) -> bool
    ensures { once value.now (reverse values.now)
        ≡ (if result then reverse values.now else value.now ∷ reverse values.now) }
{
    match values.last() {
        Some(last) => equals(last, value),
        None => false,
    }
}

/// Takes out the greatest member of two ascending lists.
fn pop_greatest(left: &mut Vec<Value>, right: &mut Vec<Value>) -> Option<Value>
    requires left { IsSorted value_cmp left.old.items }
    requires right { IsSorted value_cmp right.old.items }
    ensures left { IsSorted value_cmp left.new.items }
    ensures right { IsSorted value_cmp right.new.items }
    ensures greatest { bag_of (left.old.items ++ right.old.items)
        ≡ bag_of (left.new.items ++ right.new.items) ++ option_to_list result }
    ensures none { IfNone result (left.new.items ++ right.new.items ≡ []) }
{
    match left.last() {
        None => right.pop(),
        Some(a) => match right.last() {
            None => left.pop(),
            Some(b) => {
                if compare(a, b).is_lt() {
                    right.pop()
                } else {
                    left.pop()
                }
            }
        },
    }
}
