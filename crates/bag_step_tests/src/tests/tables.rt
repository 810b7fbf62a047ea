// Rows of grouping by key, and of joining two tables.
use super::bags::{list, table};
use bag_groups::pair;
use bag_steps::{group, join};
use flume_value::Value;
use std::alloc::{AllocError, Global};
use std::test::Fail;

/// A key, and the ints under it.
type Group = (i64, &'static [i64]);

/// A key, and the ints under it on the left and on the right.
type Row = (i64, &'static [i64], &'static [i64]);

/// A key with the list of these ints.
fn listed(alloc: Global, group: Group) -> Result<Value, AllocError> {
    let (key, values) = group;
    let values = list(alloc, values)?;
    pair(alloc, Value::Int(key), Value::List(values))
}

/// A key with the lists of these ints on the left and on the right.
fn row(alloc: Global, row: Row) -> Result<Value, AllocError> {
    let (key, left, right) = row;
    let lefts = list(alloc, left)?;
    let rights = list(alloc, right)?;
    let both = pair(alloc, Value::List(lefts), Value::List(rights))?;
    pair(alloc, Value::Int(key), both)
}

// Whether the pairs are grouped so.
fn groups(alloc: Global, pairs: &[(i64, i64)], wanted: &[Group]) -> Result<bool, AllocError> {
    let pairs = table(alloc, pairs)?;
    let made = group(alloc, &pairs)?;
    let mut all = Vec::new(alloc);
    for one in wanted {
        all.push(listed(alloc, *one)?)?;
    }
    Ok(made == all)
}

static GROUPS: [Group; 2] = [(1, &[5, 6, 6]), (2, &[7])];

#[test]
fn groups_values_by_key(rt: HostRuntime) -> Result<(), Fail> {
    let alloc = rt.alloc();
    assert!(rt; groups(alloc, &[(2, 7), (1, 6), (1, 5), (1, 6)], &GROUPS)?);
    assert!(rt; groups(alloc, &[], &[])?);
    Ok(())
}

// Whether the tables are joined so.
fn joins(
    alloc: Global,
    left: &[(i64, i64)],
    right: &[(i64, i64)],
    wanted: &[Row],
) -> Result<bool, AllocError> {
    let lefts = table(alloc, left)?;
    let rights = table(alloc, right)?;
    let made = join(alloc, &lefts, &rights)?;
    let mut all = Vec::new(alloc);
    for one in wanted {
        all.push(row(alloc, *one)?)?;
    }
    Ok(made == all)
}

static OF_EITHER: [Row; 4] = [
    (0, &[], &[4]),
    (1, &[5, 6], &[9]),
    (2, &[7], &[]),
    (3, &[], &[8]),
];

static OF_LEFT: [Row; 1] = [(1, &[5], &[])];

#[test]
fn joins_keys_of_either_side(rt: HostRuntime) -> Result<(), Fail> {
    let alloc = rt.alloc();
    let left = [(2, 7), (1, 6), (1, 5)];
    let right = [(3, 8), (1, 9), (0, 4)];
    assert!(rt; joins(alloc, &left, &right, &OF_EITHER)?);
    Ok(())
}

#[test]
fn joins_with_none(rt: HostRuntime) -> Result<(), Fail> {
    let alloc = rt.alloc();
    assert!(rt; joins(alloc, &[(1, 5)], &[], &OF_LEFT)?);
    assert!(rt; joins(alloc, &[], &[], &[])?);
    Ok(())
}
