// What is parted by keys, and gathered.
ghost use Rattle.std.specs.Prelude.{◌<◌, All, IfOk, IsSome, ℕ};
ghost use Rattle.bag_groups.specs.Pairs.{IsPair};
ghost use Rattle.partial_tables.specs.Merges.{IsCombinable};
ghost use Rattle.shuffle_parts.specs.Outs.{all_pairs, all_partials, pairs_at, partials_at};

use bag_groups::pair;
use combine_table::Comb;
use flume_value::{Pile, Value, partition};
use key_order::Couple;
use partial_tables::lift_borrowed;
use shuffle_parts::{MapOut, Sent, combine_pairs, gather_pairs, gather_partials, part};
use std::alloc::{AllocError, Global};
use std::test::Fail;

fn ints(alloc: Global, key: i64, value: i64) -> Result<Value, AllocError>
    ensures pair { IfOk result IsPair }
    ensures sums { IfOk result (IsCombinable Comb.Sum) }
{
    pair(alloc, Value::Int(key), Value::Int(value))
}

fn three(alloc: Global, a: i64, b: i64, c: i64) -> Result<Vec<Value>, AllocError>
    ensures pairs { IfOk result (λ pairs. All IsPair pairs.items) }
    ensures sums { IfOk result (λ pairs. All (IsCombinable Comb.Sum) pairs.items) }
{
    let mut pairs = Vec::new(alloc);
    pairs.push(ints(alloc, 1, a)?)?;
    pairs.push(ints(alloc, 2, b)?)?;
    pairs.push(ints(alloc, 1, c)?)?;
    Ok(pairs)
}

// An out that groups the pairs in three partitions, and passes a value.
fn grouped(alloc: Global, pairs: Vec<Value>, passed: i64) -> Result<MapOut, AllocError>
    requires { All IsPair pairs.items }
    ensures { IfOk result (λ out. (p : ℕ) → p < 3 → IsSome (pairs_at 0 p out)) }
{
    let mut values = Pile::new(alloc);
    values.push(Value::Int(passed))?;
    let mut sent = Pile::new(alloc);
    sent.push(Sent::Grouped(part(alloc, pairs, 3)?))?;
    sent.push(Sent::Passed(values))?;
    Ok(MapOut {
        sent,
        counts: Pile::new(alloc),
    })
}

// The outs of two tasks, which group three pairs each.
fn two_tasks(alloc: Global) -> Result<Vec<MapOut>, AllocError>
    ensures { IfOk result (λ outs. (p : ℕ) → p < 3 → IsSome (all_pairs outs.items 0 p)) }
{
    let mut outs = Vec::new(alloc);
    outs.push(grouped(alloc, three(alloc, 10, 20, 11)?, 7)?)?;
    outs.push(grouped(alloc, three(alloc, 12, 21, 13)?, 8)?)?;
    Ok(outs)
}

fn is_int(value: &Value, n: i64) -> bool {
    matches!(value, Value::Int(other) if *other == n)
}

fn is_wide(value: &Value, n: i128) -> bool {
    matches!(value, Value::Wide(other) if *other == n)
}

// Whether the pair of these ints stands at that place.
fn stands(
    alloc: Global,
    pairs: &[&Couple],
    place: usize,
    key: i64,
    value: i64,
) -> Result<bool, AllocError> {
    match pairs.get(place) {
        Some(pair) => {
            let held = pair.copy_value(alloc)?;
            let is_so = is_int(pair.key(), key) && is_int(&held, value);
            drop(held);
            Ok(is_so)
        }
        None => Ok(false),
    }
}

#[test]
fn pairs_are_gathered_by_the_partition_of_their_key(rt: HostRuntime) -> Result<(), Fail> {
    let alloc = rt.alloc();
    let outs = two_tasks(alloc)?;
    let one = partition(&Value::Int(1), 3) as usize;
    let two = partition(&Value::Int(2), 3) as usize;
    let ones = gather_pairs(alloc, outs.as_slice(), 0, one)?;
    let twos = gather_pairs(alloc, outs.as_slice(), 0, two)?;
    assert!(rt; one != two && ones.len() == 4 && twos.len() == 2);
    assert!(rt; stands(alloc, ones.as_slice(), 0, 1, 10)?);
    assert!(rt; stands(alloc, ones.as_slice(), 3, 1, 13)?);
    assert!(rt; stands(alloc, twos.as_slice(), 0, 2, 20)?);
    assert!(rt; stands(alloc, twos.as_slice(), 1, 2, 21)?);
    assert!(rt; gather_pairs(alloc, &[], 1, one)?.is_empty());
    Ok(())
}

// The accumulators of one part.
fn sums(alloc: Global, pairs: Vec<Value>) -> Result<MapOut, AllocError>
    requires { All (IsCombinable Comb.Sum) pairs.items }
    ensures { IfOk result (λ out. IsSome (partials_at 0 0 out)) }
{
    let referred: Vec<&Value> = pairs.iter().collect(alloc)?;
    let mut combined = Vec::new(alloc);
    combined.push(Pile::from_vec(lift_borrowed(alloc, Comb::Sum, referred)?))?;
    let mut sent = Pile::new(alloc);
    sent.push(Sent::Combined(Pile::from_vec(combined)))?;
    Ok(MapOut {
        sent,
        counts: Pile::new(alloc),
    })
}

// The outs of two tasks, which combine three pairs each.
fn two_sums(alloc: Global) -> Result<Vec<MapOut>, AllocError>
    ensures { IfOk result (λ outs. IsSome (all_partials outs.items 0 0)) }
{
    let mut outs = Vec::new(alloc);
    outs.push(sums(alloc, three(alloc, 10, 20, 11)?)?)?;
    outs.push(sums(alloc, three(alloc, 12, 21, 13)?)?)?;
    Ok(outs)
}

#[test]
fn accumulators_are_gathered_in_order_of_tasks(rt: HostRuntime) -> Result<(), Fail> {
    let alloc = rt.alloc();
    let outs = two_sums(alloc)?;
    let all = gather_partials(alloc, outs.as_slice(), 0, 0)?;
    assert!(rt; all.len() == 4);
    assert!(rt; is_wide(&all[0].1, 21) && is_wide(&all[1].1, 20));
    assert!(rt; is_wide(&all[2].1, 25) && is_wide(&all[3].1, 21));
    Ok(())
}

#[test]
fn no_pairs_combine_to_empty_parts(rt: HostRuntime) -> Result<(), Fail> {
    let alloc = rt.alloc();
    let none: Vec<&Value> = Vec::new(alloc);
    let parts = combine_pairs(alloc, Comb::Sum, none, 2)?.into_vec();
    assert!(rt; parts.len() == 2 && parts[0].is_empty() && parts[1].is_empty());
    Ok(())
}
