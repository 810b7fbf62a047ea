// Copies, orders and sorted lists of values of each variant, and kinds of call faults.
use super::samples::{Sample, of_each_variant, push};
use flume_value::{CallFault, Kind, Value, ascending, compare, copy, copy_all, equals, sorted};
use std::alloc::{AllocError, Global};
use std::cmp::Ordering;
use std::test::Fail;

/// Whether each of the values equals the other at its place.
fn are_equal(values: &[Value], others: &[Value]) -> bool {
    if values.len() != others.len() {
        return false;
    }
    for (value, other) in values.iter().zip(others.iter()) {
        if !equals(value, other) {
            return false;
        }
    }
    true
}

/// Whether each of the values is less than the one behind it, of the others.
fn are_in_order(values: &[Value], others: &[Value]) -> bool {
    for (value, next) in values.iter().zip(others.iter().skip(1)) {
        if compare(value, next) != Ordering::Less || compare(next, value) != Ordering::Greater {
            return false;
        }
    }
    true
}

fn has_equal_copy(alloc: Global, value: &Value) -> Result<bool, AllocError> {
    let copied = copy(alloc, value)?;
    Ok(equals(value, &copied))
}

fn have_equal_copies(alloc: Global, values: &[Value]) -> Result<bool, AllocError> {
    for value in values {
        if !has_equal_copy(alloc, value)? {
            return Ok(false);
        }
    }
    Ok(true)
}

/// Whether the values are in order, and equal to their copies, made all at once.
fn are_copied(alloc: Global, values: &[Value]) -> Result<bool, AllocError> {
    let copied = copy_all(alloc, values)?;
    Ok(are_same(values, copied.as_slice()))
}

fn are_same(values: &[Value], others: &[Value]) -> bool {
    are_equal(values, others) && are_in_order(values, others)
}

/// Whether there are eight values, in order and equal to their copies, alone and all at once.
fn are_so(alloc: Global, values: &[Value]) -> Result<bool, AllocError> {
    Ok(have_equal_copies(alloc, values)? && are_copied(alloc, values)? && values.len() == 8)
}

fn copies_and_orders(alloc: Global) -> Result<bool, AllocError> {
    let values = of_each_variant(alloc)?;
    are_so(alloc, &values)
}

/// Values of each variant, the greatest first.
fn reversed(alloc: Global) -> Result<Vec<Value>, AllocError> {
    let mut values = of_each_variant(alloc)?;
    values.reverse();
    Ok(values)
}

/// Values of each variant, the greatest first, and the least once more.
fn with_the_least_twice(alloc: Global) -> Result<Vec<Value>, AllocError> {
    let mut values = reversed(alloc)?;
    push(alloc, Sample::Int(-2), &mut values)?;
    Ok(values)
}

/// Whether these are nine values from the least, which is there twice, to the greatest.
fn are_nine(all: &[Value]) -> bool {
    all.len() == 9 && matches!(all, [Value::Int(-2), Value::Int(-2), .., Value::Wide(-1)])
}

/// Whether a bag is sorted, and what occurs twice is kept.
fn sorts_a_bag(alloc: Global) -> Result<bool, AllocError> {
    let all = sorted(with_the_least_twice(alloc)?)?;
    Ok(are_nine(&all))
}

/// Whether these are eight references from the least value to the greatest.
fn are_ascending(all: &[&Value]) -> bool {
    all.len() == 8 && matches!((all[0], all[7]), (Value::Int(-2), Value::Wide(-1)))
}

fn has_ascending(alloc: Global, values: &[Value]) -> Result<bool, AllocError> {
    let all = ascending(alloc, values)?;
    Ok(are_ascending(&all))
}

/// Whether the values have ascending references, and begin with the greatest still.
fn are_left(alloc: Global, values: &[Value]) -> Result<bool, AllocError> {
    Ok(
        has_ascending(alloc, values)?
            && values.len() == 8
            && matches!(values, [Value::Wide(-1), ..]),
    )
}

/// Whether references are sorted, and the values are left as they were.
fn sorts_references(alloc: Global) -> Result<bool, AllocError> {
    let values = reversed(alloc)?;
    are_left(alloc, &values)
}

#[test]
fn copies_orders_and_sorts_values(rt: HostRuntime) -> Result<(), Fail> {
    let alloc = rt.alloc();
    assert!(rt; matches!(copies_and_orders(alloc), Ok(true)));
    assert!(rt; matches!(sorts_a_bag(alloc), Ok(true)));
    assert!(rt; matches!(sorts_references(alloc), Ok(true)));
    Ok(())
}

#[test]
fn want_of_memory_is_no_trap(rt: HostRuntime) -> Result<(), Fail> {
    assert_eq!(rt; CallFault::from(AllocError), CallFault::Memory);
    assert!(rt; Kind::Overflow < Kind::BadNumber);
    assert!(rt; Kind::BadNumber < Kind::NotOne);
    Ok(())
}
