// The groups of pairs that are referred to, by a sort of numbers.
ghost use Rattle.std.specs.Prelude.{◌≡◌, ◌<◌, ◌++◌, All, IfOk, OnOk, length, map};
ghost use Rattle.std.specs.List.{list_all};
ghost use Rattle.std.specs.List.Sorted.{IsNonDecreasingBy, IsSorted};
ghost use Rattle.flume_value.specs.Bag.{bag_of};
ghost use Rattle.flume_value.specs.Order.{value_cmp};
ghost use Rattle.bag_groups.specs.Pairs.{IsPair, held_by, pair as pair_of};
ghost use Rattle.bag_groups.specs.Groups.{grouped};
ghost use Rattle.key_order.specs.inner.Numbered.{IsNumbered, has_key as has_key_of};

use crate::couple::Couple;
use crate::mixed::group_by_pairs;
use crate::sorting::{by_numbers, run_end, without_numbers};
use bag_groups::pair;
use flume_value::{Pile, Value, compare, sorted};
use std::alloc::{AllocError, Global};

/// One pair for each key of the pairs that are referred to, keys ascending: the key and the list
/// of its values, ascending. It sorts the references by the numbers of their keys alone, copies
/// each value once and one key of each group. Pairs of one number mostly have one key; then their
/// values are sorted where they stand in a row, and else the references are sorted by key first.
pub fn group_numbered(alloc: Global, pairs: Vec<&Couple>) -> Result<Vec<Value>, AllocError>
    requires { All (λ pair. IsPair pair.now) pairs.items }
    ensures groups { IfOk result (λ groups.
        groups.items ≡ grouped (map (λ pair. pair.now) pairs.entry.items)) }
    ensures ascending { IfOk result (λ groups. IsSorted value_cmp groups.items) }
{
    let numbered = by_numbers(alloc, pairs)?;
    let groups = groups_of_runs(alloc, &numbered)?;
    Ok(groups)
}

/// The groups of pairs that stand in order of their numbers.
fn groups_of_runs(alloc: Global, numbered: &[(u64, &Couple)]) -> Result<Vec<Value>, AllocError>
    requires numbers { All (λ each. IsNumbered each.0 each.1.now) numbered.now }
    requires rise { IsNonDecreasingBy (λ each. each.0) numbered.now }
    ensures { IfOk result (λ groups.
        groups.items ≡ grouped (map (λ each. each.1.now) numbered.now)) }
{
    let mut groups = Vec::new(alloc);
    let mut at = 0;
    while at < numbered.len() {
        let rest = &numbered[at..];
        let end = run_end(rest);
        add_groups(alloc, &mut groups, &rest[..end])?;
        at += end;
    }
    Ok(groups)
}

/// Puts the groups of pairs of one number behind those that are there.
fn add_groups(
    alloc: Global,
    groups: &mut Vec<Value>,
    run: &[(u64, &Couple)],
) -> Result<(), AllocError>
    requires some { 0 < length run.now }
    requires pairs { All (λ each. IsPair each.1.now) run.now }
    ensures { OnOk result (groups.new.items
        ≡ groups.old.items ++ grouped (map (λ each. each.1.now) run.now)) }
{
    let key = run[0].1.key();
    if are_of_key(key, run) {
        groups.push(group_of_key(alloc, key, run)?)?;
        Ok(())
    } else {
        groups.append(&mut group_by_pairs(alloc, without_numbers(alloc, run)?)?)?;
        Ok(())
    }
}

/// Whether all of these pairs have the key.
fn are_of_key(key: &Value, run: &[(u64, &Couple)]) -> bool
    ensures { result ≡ list_all (λ each. has_key_of key.now each.1.now) run.now }
{
    run.iter().all(|each| has_key(key, each.1))
}

/// Whether the pair has the key.
fn has_key(key: &Value, pair: &Couple) -> bool
    ensures { result ≡ has_key_of key.now pair.now }
{
    compare(pair.key(), key).is_eq()
}

/// The pair of a key and the list of the values of its pairs, ascending.
fn group_of_key(alloc: Global, key: &Value, run: &[(u64, &Couple)]) -> Result<Value, AllocError>
    ensures { IfOk result (λ group. group ≡ pair_of key.now
        (Value.List (bag_of (held_by (map (λ each. each.1.now) run.now))))) }
{
    let values = sorted(values_in(alloc, run)?)?;
    pair(alloc, key.copy(alloc)?, Value::List(Pile::from_vec(values)))
}

/// Copies of the values of these pairs.
fn values_in(alloc: Global, run: &[(u64, &Couple)]) -> Result<Vec<Value>, AllocError>
    ensures { IfOk result (λ values.
        values.items ≡ held_by (map (λ each. each.1.now) run.now)) }
{
    let mut values = Vec::with_capacity(alloc, run.len())?;
    for each in run {
        values.push(each.1.copy_value(alloc)?)?;
    }
    Ok(values)
}
