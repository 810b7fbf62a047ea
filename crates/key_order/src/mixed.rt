// The groups of pairs whose keys may differ, by a sort of their keys.
ghost use Rattle.std.specs.Prelude.{◌≡◌, All, IfOk, Some, map};
ghost use Rattle.flume_value.specs.Bag.{bag_of};
ghost use Rattle.bag_groups.specs.Pairs.{IsPair, held_by, pair as pair_of};
ghost use Rattle.bag_groups.specs.Groups.{grouped};
ghost use Rattle.key_order.specs.inner.Runs.{IsLastRun};

use crate::couple::Couple;
use bag_groups::pair;
use flume_value::{Pile, Value, equals, sorted};
use std::alloc::{AllocError, Global};

/// One pair for each key of the pairs that are referred to, keys ascending: the key and the list
/// of its values, ascending. It sorts the references by key, and then the values of each key.
pub(crate) fn group_by_pairs(alloc: Global, pairs: Vec<&Couple>) -> Result<Vec<Value>, AllocError>
    requires { All (λ pair. IsPair pair.now) pairs.items }
    ensures { IfOk result (λ groups.
        groups.items ≡ grouped (map (λ pair. pair.now) pairs.entry.items)) }
{
    let mut left = pairs;
    left.sort_unstable_by(|a, b| a.compare_keys(b));
    let mut groups = Vec::new(alloc);
    'runs: while !left.is_empty() {
        let last = left[left.len() - 1].key();
        let start = run_start(last, &left);
        groups.push(group_of_run(alloc, last, &left[start..])?)?;
        left.truncate(start);
    }
    groups.reverse();
    Ok(groups)
}

/// Where the pairs of this key begin, which stand at the end.
fn run_start(wanted: &Value, pairs: &[&Couple]) -> usize
    requires { All (λ pair. IsPair pair.now) pairs.now }
    ensures { IsLastRun (Some wanted.now) (map (λ pair. pair.now) pairs.now) result }
{
    let mut start = pairs.len();
    while start > 0 && equals(pairs[start - 1].key(), wanted) {
        start -= 1;
    }
    start
}

/// The pair of a key and the list of the values of its pairs, ascending.
fn group_of_run(alloc: Global, key: &Value, run: &[&Couple]) -> Result<Value, AllocError>
    requires { All (λ pair. IsPair pair.now) run.now }
    ensures { IfOk result (λ group. group ≡ pair_of key.now
        (Value.List (bag_of (held_by (map (λ pair. pair.now) run.now))))) }
{
    let values = sorted(values_of(alloc, run)?)?;
    pair(alloc, key.copy(alloc)?, Value::List(Pile::from_vec(values)))
}

/// Copies of the values of these pairs.
fn values_of(alloc: Global, pairs: &[&Couple]) -> Result<Vec<Value>, AllocError>
    requires { All (λ pair. IsPair pair.now) pairs.now }
    ensures { IfOk result (λ values. values.items ≡ held_by (map (λ pair. pair.now) pairs.now)) }
{
    let mut values = Vec::with_capacity(alloc, pairs.len())?;
    for pair in pairs {
        values.push(pair.copy_value(alloc)?)?;
    }
    Ok(values)
}
