// Groups combined, each list to one value under its key.
ghost use Rattle.std.specs.Prelude.{◌≡◌, ◌∷◌, [], All, IfOk, IfErr, length, map};
ghost use Rattle.flume_value.specs.Bag.{bag_of};
ghost use Rattle.flume_types.specs.declared.types.Ty.{Ty};
ghost use Rattle.flume_types.specs.declared.types.Ty.TheVariants as ty;
ghost use Rattle.flume_types.specs.Tables.{table_of};
ghost use Rattle.bag_groups.specs.Pairs.{key_of};
ghost use Rattle.bag_groups.specs.Combining.{combined_each, traps_of_each};
ghost use Rattle.combine_table.specs.Combinations.{combined};
ghost use Rattle.keyed_steps.specs.Keyed.{IsGroup, IsFirst};
ghost use Rattle.flume_types.specs.Typing.{AllHave};
ghost use Rattle.keyed_steps.specs.Types.{gives_type};

use crate::fault::KeyFault;
use crate::parts::parts;
use bag_groups::pair;
use combine_table::{Comb, combine};
use flume_value::{CallFault, Items, Pile, Value};
use std::alloc::Global;

/// Each pair of a key and a list with its list combined, in order; or the first trap in order.
/// It copies keys, and of the lists no more than the combiner keeps.
pub fn combine_each(alloc: Global, comb: Comb, groups: &[Value]) -> Result<Items, KeyFault>
    requires { All (IsGroup comb) groups.now }
    ensures combined { IfOk result (λ values.
        bag_of values ≡ combined_each (combined comb) groups.now) }
    ensures through { IfOk result (λ values. traps_of_each (combined comb) groups.now ≡ []) }
    ensures trap { IfErr result (IsFirst (traps_of_each (combined comb) groups.now)) }
    ensures count { IfOk result (λ values. length values ≡ length groups.now) }
    ensures keys { IfOk result (λ values. map key_of values ≡ map key_of groups.now) }
    ensures typed { (key value : Ty) → AllHave (table_of key (ty.List value)) groups.now →
        IfOk result (λ values. AllHave (table_of key (gives_type comb value)) values) }
{
    let mut values = Pile::new(alloc);
    for group in groups {
        values.push(combine_group(alloc, comb, group)?)?;
    }
    Ok(values)
}

/// The pair with its list combined; or the trap of its list, and its key.
pub fn combine_group(alloc: Global, comb: Comb, group: &Value) -> Result<Value, KeyFault>
    requires { IsGroup comb group.now }
    ensures pair { IfOk result (λ p. combined_each (combined comb) (group.now ∷ []) ≡ p ∷ []) }
    ensures trap { IfErr result (IsFirst (traps_of_each (combined comb) (group.now ∷ []))) }
{
    let (key, list) = parts(group);
    let key = key.copy(alloc)?;
    match combine(alloc, comb, list) {
        Ok(value) => Ok(pair(alloc, key, value)?),
        Err(CallFault::Trap(kind)) => Err(KeyFault::Trap { kind, key }),
        Err(CallFault::Memory) => {
            drop(key);
            Err(KeyFault::Memory)
        }
    }
}
