// Pairs combined within the partitions of their keys, one pair after another.
ghost use Rattle.std.specs.Prelude.{◌≡◌, ◌<◌, ◌++◌, ◌∷◌, [], All, IfOk, List, OnOk, map};
ghost use Rattle.std.specs.List.{AllZip};
ghost use Rattle.flume_value.specs.declared.value.Value.{Value as GhostValue};
ghost use Rattle.bag_groups.specs.Pairs.{IsPair, pairs_of};
ghost use Rattle.partial_tables.specs.Lifted.{IsLifted, accumulators_of};
ghost use Rattle.partial_tables.specs.Merges.{StandFor, IsCombinable};
ghost use Rattle.partial_tables.specs.Runs.{AreTabled};
ghost use Rattle.shuffle_parts.specs.Partitions.{in_parts};

use bag_groups::key;
use combine_table::Comb;
use flume_value::{Pile, Value, partition};
use key_order::Couple;
use partial_tables::{Lifting, Partial};
use std::alloc::{AllocError, Global};

/// A pair, as it comes to a channel that groups.
pub trait Paired: Drop {
    ghost use Rattle.flume_value.specs.declared.value.Value.{Value as GhostValue};

    /// The pair that it is.
    ghost as_pair: { Self → GhostValue };

    /// The pair, to be kept for a while. It takes no memory.
    fn into_couple(self) -> Couple
        requires { IsPair (as_pair self) }
        ensures { result ≡ as_pair self };

    /// Puts the pair into the accumulators of the partition of its key, and lets it go.
    fn lift(
        self,
        alloc: Global,
        comb: Comb,
        parts: &mut Vec<Lifting>,
        partitions: u32,
    ) -> Result<(), AllocError>
        requires some { 0 < partitions }
        requires stands { (done : List GhostValue)
            × AllZip (IsLifted comb) parts.old.items (in_parts partitions done) }
        requires pair { IsCombinable comb (as_pair self) }
        ensures { (done : List GhostValue) →
            AllZip (IsLifted comb) parts.old.items (in_parts partitions done) →
            OnOk result (AllZip (IsLifted comb) parts.new.items
            (in_parts partitions (done ++ as_pair self ∷ []))) };
}

impl Paired for Value {
    ghost as_pair = { λ value. value };

    fn into_couple(self) -> Couple {
        Couple::new(self)
    }

    fn lift(
        self,
        alloc: Global,
        comb: Comb,
        parts: &mut Vec<Lifting>,
        partitions: u32,
    ) -> Result<(), AllocError> {
        lift_one(alloc, comb, parts, &self, partitions)
    }
}

impl Paired for Couple {
    ghost as_pair = { λ couple. couple };

    #[inline(always)]
    fn into_couple(self) -> Couple {
        self
    }

    #[inline(always)]
    fn lift(
        self,
        alloc: Global,
        comb: Comb,
        parts: &mut Vec<Lifting>,
        partitions: u32,
    ) -> Result<(), AllocError> {
        let (key, value) = self.into_parts(alloc)?;
        let at = partition(&key, partitions);
        parts[at as usize].put_parts(alloc, comb, key, &value)?;
        Ok(())
    }
}

/// For each partition accumulators that stand for those of the pairs that fall in it. The pairs
/// stay where they are.
pub fn combine_pairs(
    alloc: Global,
    comb: Comb,
    pairs: Vec<&Value>,
    partitions: u32,
) -> Result<Pile<Pile<Partial>>, AllocError>
    requires some { 0 < partitions }
    requires pairs { All (λ pair. IsCombinable comb pair.now) pairs.items }
    ensures stands { IfOk result (λ combined.
        AllZip (λ partials part. StandFor comb partials (pairs_of part)) combined
        (in_parts partitions (map (λ pair. pair.now) pairs.entry.items))) }
    ensures tables { IfOk result (λ combined.
        AllZip (λ partials part. AreTabled comb (pairs_of part) partials) combined
        (in_parts partitions (map (λ pair. pair.now) pairs.entry.items))) }
{
    let parts = lift_referred(alloc, comb, pairs, partitions)?;
    finish_each(alloc, parts)
}

/// For so many partitions accumulators of no pairs, into which pairs are put.
pub fn none_lifted(alloc: Global, comb: Comb, partitions: u32) -> Result<Vec<Lifting>, AllocError>
    ensures { IfOk result (λ parts. AllZip (IsLifted comb) parts.items (in_parts partitions [])) }
{
    let mut parts = Vec::new(alloc);
    for _i in 0..partitions {
        parts.push(Lifting::new(alloc, comb))?;
    }
    Ok(parts)
}

/// Puts more pairs in, each into the accumulators of the partition of its key.
pub fn lift_more<P: Paired>(
    alloc: Global,
    comb: Comb,
    mut parts: Vec<Lifting>,
    pairs: Vec<P>,
    partitions: u32,
) -> Result<Vec<Lifting>, AllocError>
    requires some { 0 < partitions }
    requires stands { (done : List GhostValue)
        × AllZip (IsLifted comb) parts.items (in_parts partitions done) }
    requires pairs { All (λ pair. IsCombinable comb (P.as_pair pair)) pairs.items }
    ensures { (done : List GhostValue) →
        AllZip (IsLifted comb) parts.items (in_parts partitions done) →
        IfOk result (λ all. AllZip (IsLifted comb) all.items
        (in_parts partitions (done ++ map P.as_pair pairs.items))) }
{
    for pair in pairs {
        pair.lift(alloc, comb, &mut parts, partitions)?;
    }
    Ok(parts)
}

/// For each partition its accumulators.
pub fn finish_each(alloc: Global, parts: Vec<Lifting>) -> Result<Pile<Pile<Partial>>, AllocError>
    ensures { IfOk result (λ combined. combined ≡ map accumulators_of parts.items) }
{
    let mut combined = Vec::with_capacity(alloc, parts.len())?;
    for part in parts {
        combined.push(Pile::from_vec(part.into_partials()?))?;
    }
    Ok(Pile::from_vec(combined))
}

// For each partition accumulators into which the pairs that fall in it were put.
fn lift_referred(
    alloc: Global,
    comb: Comb,
    pairs: Vec<&Value>,
    partitions: u32,
) -> Result<Vec<Lifting>, AllocError>
    requires some { 0 < partitions }
    requires pairs { All (λ pair. IsCombinable comb pair.now) pairs.items }
    ensures { IfOk result (λ parts. AllZip (IsLifted comb) parts.items
        (in_parts partitions (map (λ pair. pair.now) pairs.entry.items))) }
{
    let mut parts = none_lifted(alloc, comb, partitions)?;
    for pair in pairs {
        lift_one(alloc, comb, &mut parts, pair, partitions)?;
    }
    Ok(parts)
}

// Puts a pair into the accumulators of the partition of its key.
fn lift_one(
    alloc: Global,
    comb: Comb,
    parts: &mut Vec<Lifting>,
    pair: &Value,
    partitions: u32,
) -> Result<(), AllocError>
    requires some { 0 < partitions }
    requires stands { (done : List GhostValue)
        × AllZip (IsLifted comb) parts.old.items (in_parts partitions done) }
    requires pair { IsCombinable comb pair.now }
    ensures { (done : List GhostValue) →
        AllZip (IsLifted comb) parts.old.items (in_parts partitions done) →
        OnOk result (AllZip (IsLifted comb) parts.new.items
        (in_parts partitions (done ++ pair.now ∷ []))) }
{
    let at = partition(key(pair), partitions);
    parts[at as usize].put(alloc, comb, pair)?;
    Ok(())
}
