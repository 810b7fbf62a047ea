// Pairs parted by their keys.
ghost use Rattle.std.specs.Prelude.{◌≡◌, ◌<◌, ◌++◌, ◌∷◌, [], All, IfOk, List, OnOk, map};
ghost use Rattle.flume_value.specs.declared.value.Value.{Value as GhostValue};
ghost use Rattle.bag_groups.specs.Pairs.{IsPair};
ghost use Rattle.shuffle_parts.specs.Partitions.{in_parts};

use crate::combine::Paired;
use flume_value::{Pile, Value, partition};
use key_order::Couple;
use std::alloc::{AllocError, Global};

/// The pairs by the partition of their keys. It moves each pair into its partition, and lets its
/// record go.
pub fn part(
    alloc: Global,
    pairs: Vec<Value>,
    partitions: u32,
) -> Result<Pile<Pile<Couple>>, AllocError>
    requires some { 0 < partitions }
    requires pairs { All IsPair pairs.items }
    ensures { IfOk result (λ parts. parts ≡ in_parts partitions pairs.items) }
{
    let empty = no_pairs(alloc, partitions)?;
    let parts = part_more(empty, pairs, partitions)?;
    Ok(Pile::from_vec(parts))
}

/// So many empty lists, which are those of no pairs.
pub fn no_pairs(alloc: Global, partitions: u32) -> Result<Vec<Pile<Couple>>, AllocError>
    ensures { IfOk result (λ parts. parts.items ≡ in_parts partitions []) }
{
    let mut parts = Vec::new(alloc);
    for _i in 0..partitions {
        parts.push(Pile::new(alloc))?;
    }
    Ok(parts)
}

/// The pairs that were parted, and more behind them. It moves each pair into its partition, and
/// lets its record go, if it has one.
pub fn part_more<P: Paired>(
    mut parts: Vec<Pile<Couple>>,
    pairs: Vec<P>,
    partitions: u32,
) -> Result<Vec<Pile<Couple>>, AllocError>
    requires some { 0 < partitions }
    requires stands { (done : List GhostValue) × (parts.items ≡ in_parts partitions done) }
    requires pairs { All (λ pair. IsPair (P.as_pair pair)) pairs.items }
    ensures { (done : List GhostValue) → parts.items ≡ in_parts partitions done →
        IfOk result (λ all. all.items ≡ in_parts partitions (done ++ map P.as_pair pairs.items)) }
{
    for pair in pairs {
        put_in(&mut parts, pair.into_couple(), partitions)?;
    }
    Ok(parts)
}

// Puts a pair behind the others of the partition of its key.
#[inline(always)]
fn put_in(parts: &mut Vec<Pile<Couple>>, couple: Couple, partitions: u32) -> Result<(), AllocError>
    requires some { 0 < partitions }
    requires stands { (done : List GhostValue) × (parts.old.items ≡ in_parts partitions done) }
    requires pair { IsPair couple }
    ensures { (done : List GhostValue) → parts.old.items ≡ in_parts partitions done →
        OnOk result (parts.new.items ≡ in_parts partitions (done ++ couple ∷ [])) }
{
    let at = partition(couple.key(), partitions);
    parts[at as usize].push(couple)?;
    Ok(())
}
