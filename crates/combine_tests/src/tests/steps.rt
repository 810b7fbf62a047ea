// Tables that are grouped and then combined, with their traps.
ghost use Rattle.std.specs.Prelude.{All, IfOk};
ghost use Rattle.flume_types.specs.declared.types.Ty.TheVariants as ty;
ghost use Rattle.flume_types.specs.Tables.{table_of};
ghost use Rattle.flume_types.specs.Typing.{AllHave};
ghost use Rattle.keyed_steps.specs.Keyed.{IsGroup};
ghost use Rattle.keyed_steps.specs.Types.{TakesType};

use super::tables::table;
use super::wanted::is_int;
use bag_groups::pair;
use bag_steps::group;
use combine_table::Comb;
use flume_value::{Items, Kind, Pile, Value, sorted};
use keyed_steps::{KeyFault, combine_each};
use std::alloc::{AllocError, Global};
use std::test::Fail;

/// What is to come of a table: pairs of keys and values, or a trap at a key.
#[derive(Clone, Copy)]
enum Combined {
    Pairs(&'static [(i64, i64)]),
    Traps(Kind, i64),
}

fn is_pair(pair: &Value, key: i64, value: i64) -> bool {
    match pair {
        Value::Rec(fields) => match fields.as_slice() {
            [first, second] => is_int(first, key) && is_int(second, value),
            _ => false,
        },
        _ => false,
    }
}

fn are_pairs(pairs: &[Value], wanted: &[(i64, i64)]) -> bool {
    if pairs.len() != wanted.len() {
        return false;
    }
    for (pair, (key, value)) in pairs.iter().zip(wanted.iter()) {
        if !is_pair(pair, *key, *value) {
            return false;
        }
    }
    true
}

// Whether that is what was made.
fn is_combined(made: &Result<Items, KeyFault>, wanted: Combined) -> bool {
    match made {
        Ok(pairs) => match wanted {
            Combined::Pairs(all) => are_pairs(pairs.as_slice(), all),
            Combined::Traps(_, _) => false,
        },
        Err(KeyFault::Trap { kind, key }) => match wanted {
            Combined::Pairs(_) => false,
            Combined::Traps(other, n) => *kind == other && is_int(key, n),
        },
        Err(KeyFault::Memory) => false,
    }
}

/// The table grouped, and then combined.
fn steps(alloc: Global, comb: Comb, pairs: Vec<Value>) -> Result<Items, KeyFault>
    requires typed { AllHave (table_of ty.Int ty.Int) pairs.items }
    requires takes { TakesType comb ty.Int }
{
    let bag = sorted(pairs)?;
    let groups = group(alloc, &bag)?;
    combine_each(alloc, comb, &groups)
}

// Whether that comes of the table of these pairs.
fn gives(
    alloc: Global,
    comb: Comb,
    pairs: &[(i64, i64)],
    wanted: Combined,
) -> Result<bool, AllocError>
    requires { TakesType comb ty.Int }
{
    let pairs = table(alloc, pairs)?;
    let made = steps(alloc, comb, pairs);
    let is_so = is_combined(&made, wanted);
    drop(made);
    Ok(is_so)
}

static SUMS: [(i64, i64); 4] = [(2, 5), (1, i64::MAX), (1, 1), (1, -1)];

static LARGE: [(i64, i64); 5] = [(3, i64::MAX), (3, 1), (2, i64::MAX), (2, 1), (1, 0)];

static SUMMED: Combined = Combined::Pairs(&[(1, i64::MAX), (2, 5)]);

static COUNTED: Combined = Combined::Pairs(&[(1, 3), (2, 1)]);

#[test]
fn combines_groups_of_a_table(rt: HostRuntime) -> Result<(), Fail> {
    let alloc = rt.alloc();
    assert!(rt; gives(alloc, Comb::Sum, &SUMS, SUMMED)?);
    assert!(rt; gives(alloc, Comb::Count, &SUMS, COUNTED)?);
    let trap = Combined::Traps(Kind::Overflow, 2);
    assert!(rt; gives(alloc, Comb::Sum, &LARGE, trap)?);
    Ok(())
}

fn key_of_none(alloc: Global, key: i64) -> Result<Value, AllocError>
    ensures sum { IfOk result (IsGroup Comb.Sum) }
    ensures least { IfOk result (IsGroup Comb.Min) }
{
    pair(alloc, Value::Int(key), Value::List(Pile::new(alloc)))
}

// Whether that comes of the groups.
fn combines(alloc: Global, comb: Comb, groups: &[Value], wanted: Combined) -> bool
    requires { All (IsGroup comb) groups.now }
{
    let made = combine_each(alloc, comb, groups);
    let is_so = is_combined(&made, wanted);
    drop(made);
    is_so
}

// Whether the sum and the least of no values, at the key 7, are so.
fn none_gives(alloc: Global, sum: Combined, least: Combined) -> Result<bool, AllocError> {
    let mut groups = Vec::new(alloc);
    groups.push(key_of_none(alloc, 7)?)?;
    let is_sum = combines(alloc, Comb::Sum, &groups, sum);
    let is_least = combines(alloc, Comb::Min, &groups, least);
    Ok(is_sum && is_least)
}

static SUM_OF_NONE: Combined = Combined::Pairs(&[(7, 0)]);

#[test]
fn combines_empty_lists(rt: HostRuntime) -> Result<(), Fail> {
    let trap = Combined::Traps(Kind::BadIndex, 7);
    assert!(rt; none_gives(rt.alloc(), SUM_OF_NONE, trap)?);
    Ok(())
}
