// Pairs in order of the numbers of their keys.
ghost use Rattle.std.specs.Prelude.{◌≡◌, ◌<◌, ◌≤◌, All, IfOk, length, map};
ghost use Rattle.std.specs.List.Sorted.{IsNonDecreasingBy, IsPermutation};
ghost use Rattle.bag_groups.specs.Pairs.{IsPair};
ghost use Rattle.key_order.specs.inner.Numbered.{IsFirstRun, IsNumbered};

use crate::couple::Couple;
use crate::numbers::key_number;
use std::alloc::{AllocError, Global};

/// References to the pairs, each behind the number of its key, in order of these numbers alone.
pub(crate) fn by_numbers<'a>(
    alloc: Global,
    pairs: Vec<&'a Couple>,
) -> Result<Vec<(u64, &'a Couple)>, AllocError>
    requires { All (λ pair. IsPair pair.now) pairs.items }
    ensures moved { IfOk result (λ all. IsPermutation
        (map (λ pair. pair.now) pairs.entry.items) (map (λ each. each.1.now) all.items)) }
    ensures numbers { IfOk result (λ all. All (λ each. IsNumbered each.0 each.1.now) all.items) }
    ensures rise { IfOk result (λ all. IsNonDecreasingBy (λ each. each.0) all.items) }
{
    let mut numbered = with_numbers(alloc, &pairs)?;
    numbered.sort_unstable_by_key(|each| each.0);
    Ok(numbered)
}

/// Each pair behind the number of its key.
fn with_numbers<'a>(
    alloc: Global,
    pairs: &[&'a Couple],
) -> Result<Vec<(u64, &'a Couple)>, AllocError>
    requires { All (λ pair. IsPair pair.now) pairs.now }
    ensures pairs { IfOk result (λ all.
        map (λ each. each.1.now) all.items ≡ map (λ pair. pair.now) pairs.now) }
    ensures numbers { IfOk result (λ all. All (λ each. IsNumbered each.0 each.1.now) all.items) }
{
    let mut all = Vec::with_capacity(alloc, pairs.len())?;
    for pair in pairs {
        all.push((key_number(pair.key()), *pair))?;
    }
    Ok(all)
}

/// Where the pairs of the first number end.
pub(crate) fn run_end(numbered: &[(u64, &Couple)]) -> usize
    requires some { 0 < length numbered.now }
    requires rise { IsNonDecreasingBy (λ each. each.0) numbered.now }
    ensures some { 0 < result }
    ensures within { result ≤ length numbered.now }
    ensures first { IsFirstRun (λ each. each.0) numbered.now result }
{
    let number = numbered[0].0;
    let mut end = 1;
    while end < numbered.len() && numbered[end].0 == number {
        end += 1;
    }
    end
}

/// The pairs alone, as they stand.
pub(crate) fn without_numbers<'a>(
    alloc: Global,
    numbered: &[(u64, &'a Couple)],
) -> Result<Vec<&'a Couple>, AllocError>
    ensures { IfOk result (λ all.
        map (λ pair. pair.now) all.items ≡ map (λ each. each.1.now) numbered.now) }
{
    let mut all = Vec::with_capacity(alloc, numbered.len())?;
    for each in numbered {
        all.push(each.1)?;
    }
    Ok(all)
}
