// What combiners make of bags: in any order, past 64 bits, and of none.
ghost use Rattle.std.specs.Prelude.{All, IfOk};
ghost use Rattle.combine_table.specs.Accumulators.{HasShape};
ghost use Rattle.combine_table.specs.Combinations.{Suits};
ghost use Rattle.combine_table.specs.Contents.{IsInt};

use super::wanted::{Wanted, is_value, is_wanted};
use combine_table::{Comb, combine, finish, lift, merge, zero};
use flume_value::{Items, Kind, Pile, Value};
use std::alloc::{AllocError, Global};
use std::test::Fail;

/// A combiner, the ints that it combines, and what it makes of them.
type Case = (Comb, &'static [i64], Wanted);

static OF_INTS: [Case; 12] = [
    (Comb::Sum, &[3, 1], Wanted::Int(4)),
    (Comb::Count, &[3, 1], Wanted::Int(2)),
    (Comb::Min, &[3, 1], Wanted::Int(1)),
    (Comb::Max, &[3, 1], Wanted::Int(3)),
    (Comb::Sum, &[i64::MAX, 1], Wanted::Traps(Kind::Overflow)),
    (Comb::Top(5), &[3, 1], Wanted::List(&[1, 3])),
    (Comb::Top(0), &[3, 1], Wanted::List(&[])),
    (Comb::Mean, &[0, -3], Wanted::Int(-2)),
    (Comb::Distinct, &[3, 3], Wanted::List(&[3])),
    (Comb::Min, &[], Wanted::Traps(Kind::BadIndex)),
    (Comb::Mean, &[], Wanted::Traps(Kind::BadIndex)),
    (Comb::Sum, &[], Wanted::Int(0)),
];

fn ints(alloc: Global, all: &[i64]) -> Result<Items, AllocError>
    ensures { IfOk result (All IsInt) }
{
    let mut values = Pile::new(alloc);
    for n in all {
        values.push(Value::Int(*n))?;
    }
    Ok(values)
}

// Whether the combiner makes this of the bag.
fn is_made(alloc: Global, comb: Comb, bag: &Items, wanted: Wanted) -> bool
    requires { All (Suits comb) bag.now }
{
    let made = combine(alloc, comb, bag);
    let is_so = is_wanted(&made, wanted);
    drop(made);
    is_so
}

// Whether a combiner that takes ints makes this of the bag.
fn is_made_of_ints(alloc: Global, comb: Comb, bag: &Items, wanted: Wanted) -> bool
    requires { All IsInt bag.now }
{
    match comb {
        Comb::All | Comb::Any => false,
        Comb::Sum | Comb::Mean => is_made(alloc, comb, bag, wanted),
        Comb::Count | Comb::Min | Comb::Max | Comb::Top(_) | Comb::Distinct => {
            is_made(alloc, comb, bag, wanted)
        }
    }
}

fn is_case(alloc: Global, case: Case) -> Result<bool, AllocError> {
    let (comb, all, wanted) = case;
    let bag = ints(alloc, all)?;
    Ok(is_made_of_ints(alloc, comb, &bag, wanted))
}

// The place of the first case of which something else is made.
fn first_other(alloc: Global, table: &[Case]) -> Result<Option<usize>, AllocError> {
    for place in 0..table.len() {
        if !is_case(alloc, table[place])? {
            return Ok(Some(place));
        }
    }
    Ok(None)
}

#[test]
fn combines_bags(rt: HostRuntime) -> Result<(), Fail> {
    assert_eq!(rt; first_other(rt.alloc(), &OF_INTS)?, None);
    Ok(())
}

// Whether the combiner makes this of no values.
fn is_made_of_none(alloc: Global, comb: Comb, wanted: bool) -> bool {
    is_made(alloc, comb, &Pile::new(alloc), Wanted::Bool(wanted))
}

// Whether the accumulator of no values is this.
fn is_zero(alloc: Global, comb: Comb, wanted: Wanted) -> Result<bool, AllocError> {
    let none = zero(alloc, comb)?;
    let is_so = is_value(&none, wanted);
    drop(none);
    Ok(is_so)
}

static NOTHING: Wanted = Wanted::List(&[]);

#[test]
fn combines_none(rt: HostRuntime) -> Result<(), Fail> {
    let alloc = rt.alloc();
    assert!(rt; is_made_of_none(alloc, Comb::All, true));
    assert!(rt; is_made_of_none(alloc, Comb::Any, false));
    assert!(rt; is_zero(alloc, Comb::Top(2), NOTHING)?);
    Ok(())
}

fn lift_sum(alloc: Global, n: i64) -> Result<Value, AllocError>
    ensures { IfOk result (HasShape Comb.Sum) }
{
    lift(alloc, Comb::Sum, &Value::Int(n))
}

fn merge_sums(alloc: Global, left: Value, right: Value) -> Result<Value, AllocError>
    requires left { HasShape Comb.Sum left }
    requires right { HasShape Comb.Sum right }
    ensures { IfOk result (HasShape Comb.Sum) }
{
    merge(alloc, Comb::Sum, left, right)
}

// The accumulator of a sum with an int more.
fn with_more(alloc: Global, sum: Value, n: i64) -> Result<Value, AllocError>
    requires { HasShape Comb.Sum sum }
    ensures { IfOk result (HasShape Comb.Sum) }
{
    match lift_sum(alloc, n) {
        Ok(more) => merge_sums(alloc, sum, more),
        Err(fault) => {
            drop(sum);
            Err(fault)
        }
    }
}

// Whether this comes of three ints, whose accumulators are merged one after another.
fn is_sum(alloc: Global, a: i64, b: i64, c: i64, wanted: Wanted) -> Result<bool, AllocError> {
    let one = lift_sum(alloc, a)?;
    let two = with_more(alloc, one, b)?;
    let three = with_more(alloc, two, c)?;
    let made = finish(Comb::Sum, three);
    let is_so = is_wanted(&made, wanted);
    drop(made);
    Ok(is_so)
}

#[test]
fn sums_past_64_bits_and_back_in_any_order(rt: HostRuntime) -> Result<(), Fail> {
    let alloc = rt.alloc();
    let big = i64::MAX;
    for (a, b, c) in [
        (big, 1, -1),
        (big, -1, 1),
        (1, big, -1),
        (1, -1, big),
        (-1, big, 1),
        (-1, 1, big),
    ] {
        assert!(rt; is_sum(alloc, a, b, c, Wanted::Int(big))?);
    }
    assert!(rt; is_sum(alloc, big, 1, 0, Wanted::Traps(Kind::Overflow))?);
    Ok(())
}
