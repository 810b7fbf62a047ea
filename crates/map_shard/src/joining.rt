// The counts of two legs of a task, together.
ghost use Rattle.std.specs.Prelude.{◌≡◌, IfOk, drop, slice_get};
ghost use Rattle.map_shard.specs.inner.Legs.{count_with, each_with};

use std::alloc::{AllocError, Global};
use std::vec::IntoIter;

/// The sums of counts at the same places.
pub(crate) fn join_counts(
    alloc: Global,
    counts: Vec<u64>,
    more: Vec<u64>,
) -> Result<Vec<u64>, AllocError>
    ensures { IfOk result (λ all. all.items ≡ each_with count_with counts.items more.items) }
{
    let mut others = more.into_iter();
    let mut all = Vec::with_capacity(alloc, counts.len())?;
    for count in counts {
        all.push(count_with(count, next_of(&mut others)))?;
    }
    Ok(all)
}

fn count_with(count: u64, more: Option<u64>) -> u64
    ensures { result ≡ count_with count more }
{
    match more {
        Some(more) => count.saturating_add(more),
        None => count,
    }
}

// The next count, where there is one.
fn next_of(counts: &mut IntoIter<u64>) -> Option<u64>
    ensures next { result ≡ slice_get counts.old.rest.items 0 }
    ensures rest { counts.new.rest.items ≡ drop 1 counts.old.rest.items }
{
    counts.next()
}
