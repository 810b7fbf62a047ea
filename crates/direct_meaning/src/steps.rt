// What steps make of whole collections.
ghost use Rattle.std.specs.Prelude.{◌≡◌, ◌||◌, [], false, All, IfOk};
ghost use Rattle.std.specs.List.Sorted.{IsSorted};
ghost use Rattle.flume_value.specs.Order.{value_cmp};
ghost use Rattle.flume_value.specs.Bag.{bag_of};
ghost use Rattle.bag_groups.specs.Pairs.{IsPair};
ghost use Rattle.bag_groups.specs.Groups.{grouped as grouped_of};
ghost use Rattle.combine_table.specs.Combinations.{greatest as greatest_of};
ghost use Rattle.bag_steps.specs.Counts.{counted as counted_of, counted_traps};
ghost use Rattle.bag_steps.specs.Joins.{joined as joined_of};
ghost use Rattle.direct_meaning.specs.inner.Kept.{unless_behind};

use crate::kept::Kept;
use bag_steps::{count, greatest, group, join};
use flume_value::Pile;
use std::alloc::{AllocError, Global};

/// The groups of the pairs; none where a trap is behind them.
pub(crate) fn grouped(alloc: Global, source: &Kept) -> Result<Kept, AllocError>
    requires pairs { All IsPair source.now.members }
    requires ascending { IsSorted value_cmp source.now.members }
    ensures members { IfOk result (λ kept. kept.members
        ≡ unless_behind source.now.trapped (grouped_of source.now.members)) }
    ensures trapped { IfOk result (λ kept. kept.trapped ≡ source.now.trapped) }
{
    let members = if source.trapped {
        Vec::new(alloc)
    } else {
        group(alloc, source.members.as_slice())?
    };
    Ok(Kept {
        members: Pile::from_vec(members),
        trapped: source.trapped,
    })
}

/// The distinct members with how often each occurs; none where a trap is behind them.
pub(crate) fn counted(alloc: Global, source: &Kept) -> Result<Kept, AllocError>
    requires { IsSorted value_cmp source.now.members }
    ensures members { IfOk result (λ kept. kept.members
        ≡ unless_behind source.now.trapped (counted_of source.now.members)) }
    ensures trapped { IfOk result (λ kept. kept.trapped ≡ source.now.trapped) }
    ensures through { source.now.trapped ≡ false → counted_traps source.now.members ≡ [] }
{
    let members = if source.trapped {
        Vec::new(alloc)
    } else {
        count(alloc, source.members.as_slice())?
    };
    Ok(Kept {
        members: Pile::from_vec(members),
        trapped: source.trapped,
    })
}

/// Both sides of each key of two tables; none where a trap is behind either.
pub(crate) fn joined(alloc: Global, left: &Kept, right: &Kept) -> Result<Kept, AllocError>
    requires left_pairs { All IsPair left.now.members }
    requires left_ascending { IsSorted value_cmp left.now.members }
    requires right_pairs { All IsPair right.now.members }
    requires right_ascending { IsSorted value_cmp right.now.members }
    ensures members { IfOk result (λ kept. kept.members
        ≡ unless_behind (left.now.trapped || right.now.trapped)
        (joined_of left.now.members right.now.members)) }
    ensures trapped { IfOk result (λ kept.
        kept.trapped ≡ (left.now.trapped || right.now.trapped)) }
{
    let trapped = left.trapped || right.trapped;
    let members = if trapped {
        Vec::new(alloc)
    } else {
        join(alloc, left.members.as_slice(), right.members.as_slice())?
    };
    Ok(Kept {
        members: Pile::from_vec(members),
        trapped,
    })
}

/// So many of the greatest members; none where a trap is behind them.
pub(crate) fn topped(alloc: Global, number: u32, source: &Kept) -> Result<Kept, AllocError>
    requires { IsSorted value_cmp source.now.members }
    ensures members { IfOk result (λ kept. kept.members
        ≡ unless_behind source.now.trapped
        (greatest_of number (bag_of source.now.members))) }
    ensures trapped { IfOk result (λ kept. kept.trapped ≡ source.now.trapped) }
{
    let members = if source.trapped {
        Vec::new(alloc)
    } else {
        greatest(alloc, number, source.members.as_slice())?
    };
    Ok(Kept {
        members: Pile::from_vec(members),
        trapped: source.trapped,
    })
}
