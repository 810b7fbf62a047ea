// The lists of groups combined.
ghost use Rattle.std.specs.Prelude.{◌≡◌, ◌++◌, ◌∷◌, [], ◌||◌, All, IfOk, OnOk, map};
ghost use Rattle.flume_value.specs.Bag.{bag_of};
ghost use Rattle.bag_groups.specs.Combining.{combined_each, traps_of_each};
ghost use Rattle.combine_table.specs.Combinations.{combined as combined_of};
ghost use Rattle.keyed_steps.specs.Keyed.{IsGroup};
ghost use Rattle.flume_collection.specs.Calls.{trap_named};
ghost use Rattle.direct_meaning.specs.inner.Kept.{has_traps};

use crate::kept::Kept;
use combine_table::Comb;
use flume_collection::Trap;
use flume_value::{Pile, Value, sorted};
use keyed_steps::{KeyFault, combine_group};
use std::alloc::{AllocError, Global};

/// Each group with its list combined, but those that trap. Their traps go behind those found.
pub(crate) fn combined(
    alloc: Global,
    origin: u32,
    by: Comb,
    source: &Kept,
    traps: &mut Vec<Trap>,
) -> Result<Kept, AllocError>
    requires { All (IsGroup by) source.now.members }
    ensures members { IfOk result (λ kept. kept.members
        ≡ combined_each (combined_of by) source.now.members) }
    ensures traps { OnOk result (traps.new.items ≡ traps.old.items
        ++ map (trap_named origin) (traps_of_each (combined_of by) source.now.members)) }
    ensures trapped { IfOk result (λ kept. kept.trapped ≡ (source.now.trapped || has_traps
        (map (trap_named origin) (traps_of_each (combined_of by) source.now.members)))) }
{
    let before = traps.len();
    let values = combine_all(alloc, origin, by, source.members.as_slice(), traps)?;
    Ok(Kept {
        members: Pile::from_vec(sorted(values)?),
        trapped: source.trapped || before < traps.len(),
    })
}

/// What the groups come to that do not trap, in order.
fn combine_all(
    alloc: Global,
    origin: u32,
    by: Comb,
    groups: &[Value],
    traps: &mut Vec<Trap>,
) -> Result<Vec<Value>, AllocError>
    requires { All (IsGroup by) groups.now }
    ensures values { IfOk result (λ values.
        bag_of values.items ≡ combined_each (combined_of by) groups.now) }
    ensures traps { OnOk result (traps.new.items ≡ traps.old.items
        ++ map (trap_named origin) (traps_of_each (combined_of by) groups.now)) }
{
    let mut values = Vec::new(alloc);
    for group in groups {
        combine_one(alloc, origin, by, group, &mut values, traps)?;
    }
    Ok(values)
}

/// Puts what the group comes to behind the values, or its trap behind the traps.
fn combine_one(
    alloc: Global,
    origin: u32,
    by: Comb,
    group: &Value,
    values: &mut Vec<Value>,
    traps: &mut Vec<Trap>,
) -> Result<(), AllocError>
    requires { IsGroup by group.now }
    ensures values { OnOk result (values.new.items
        ≡ values.old.items ++ combined_each (combined_of by) (group.now ∷ [])) }
    ensures traps { OnOk result (traps.new.items ≡ traps.old.items
        ++ map (trap_named origin) (traps_of_each (combined_of by) (group.now ∷ []))) }
{
    match combine_group(alloc, by, group) {
        Ok(value) => {
            values.push(value)?;
            Ok(())
        }
        Err(KeyFault::Trap { kind, key }) => {
            traps.push(Trap {
                origin,
                element: key,
                kind,
            })?;
            Ok(())
        }
        Err(KeyFault::Memory) => Err(AllocError),
    }
}
