// Objects: their values, and what an object is that comes to one value.
ghost use Rattle.std.specs.Prelude.{◌≡◌, ◌||◌, ◌++◌, [], All, IfOk, OnOk};
ghost use Rattle.std.specs.Option.{option_copied};
ghost use Rattle.flume_value.specs.Bag.{bag_of};
ghost use Rattle.combine_table.specs.Combinations.{Suits, combined as combined_of};
ghost use Rattle.flume_collection.specs.Calls.{trap_named};
ghost use Rattle.direct_meaning.specs.Objects.{object_as, only as only_of, whole_value as whole_value_of};
ghost use Rattle.direct_meaning.specs.inner.Kept.{has_traps, unless_behind};
ghost use Rattle.direct_meaning.specs.inner.Objects.{value_in, value_kept, whole_of};

use crate::kept::{Kept, find};
use combine_table::{Comb, combine};
use flume_collection::Trap;
use flume_value::{CallFault, Items, Kind, Pile, Value};
use std::alloc::{AllocError, Global};

// ---- values of objects

/// The value of the object of a number, if it has one.
pub(crate) fn value_at(table: &[Option<Kept>], number: usize) -> Option<&Value>
    ensures { option_copied result ≡ value_in table.now number }
{
    match find(table, number) {
        Some(object) => value_of(object),
        None => None,
    }
}

/// The value of an object, if it has one: its member, where no trap is behind it.
pub(crate) fn value_of(object: &Kept) -> Option<&Value>
    ensures { option_copied result ≡ value_kept object.now }
{
    if object.trapped {
        None
    } else {
        only(object.members.as_slice())
    }
}

/// The member of a list of just one.
fn only(members: &[Value]) -> Option<&Value>
    ensures { option_copied result ≡ only_of members.now }
{
    match members {
        [member] => Some(member),
        _ => None,
    }
}

// ---- objects of values

/// The object that comes to a value, or to a trap, which goes behind those found.
pub(crate) fn object(
    alloc: Global,
    single: Result<Value, Trap>,
    traps: &mut Vec<Trap>,
) -> Result<Kept, AllocError>
    ensures members { IfOk result (λ kept. kept.members ≡ (object_as single).bag) }
    ensures trapped { IfOk result (λ kept. kept.trapped ≡ has_traps (object_as single).traps) }
    ensures traps { OnOk result
        (traps.new.items ≡ traps.old.items ++ (object_as single).traps) }
{
    let mut members = Pile::new(alloc);
    match single {
        Ok(value) => {
            members.push(value)?;
            Ok(Kept {
                members,
                trapped: false,
            })
        }
        Err(trap) => {
            traps.push(trap)?;
            Ok(Kept {
                members,
                trapped: true,
            })
        }
    }
}

/// No members; whether a trap is behind them.
pub(crate) fn nothing(alloc: Global, trapped: bool) -> Kept
    ensures members { result.members ≡ [] }
    ensures trapped { result.trapped ≡ trapped }
{
    Kept {
        members: Pile::new(alloc),
        trapped,
    }
}

/// The trap of a call, which names this element.
pub(crate) fn trap(
    alloc: Global,
    origin: u32,
    element: &Value,
    kind: Kind,
) -> Result<Trap, AllocError>
    ensures { IfOk result (λ trap. trap ≡ trap_named origin (kind, element.now)) }
{
    let element = element.copy(alloc)?;
    Ok(Trap {
        origin,
        element,
        kind,
    })
}

// ---- all members as one value

/// The object of all members combined; nothing where a trap is behind them. Its trap, where it is
/// one, goes behind those found.
pub(crate) fn combined_whole(
    alloc: Global,
    origin: u32,
    by: Comb,
    source: &Kept,
    traps: &mut Vec<Trap>,
) -> Result<Kept, AllocError>
    requires { All (Suits by) source.now.members }
    ensures members { IfOk result (λ kept. kept.members
        ≡ unless_behind source.now.trapped (whole_of origin by source.now.members).bag) }
    ensures trapped { IfOk result (λ kept. kept.trapped ≡ (source.now.trapped
        || has_traps (whole_of origin by source.now.members).traps)) }
    ensures traps { OnOk result (traps.new.items ≡ traps.old.items
        ++ unless_behind source.now.trapped (whole_of origin by source.now.members).traps) }
{
    if source.trapped {
        return Ok(nothing(alloc, true));
    }
    let single = whole_value(alloc, origin, by, &source.members)?;
    object(alloc, single, traps)
}

/// What all members come to: a value, or a trap, which has the element 0.
fn whole_value(
    alloc: Global,
    origin: u32,
    by: Comb,
    members: &Items,
) -> Result<Result<Value, Trap>, AllocError>
    requires { All (Suits by) members.now }
    ensures { IfOk result (λ single.
        single ≡ whole_value_of origin (combined_of by (bag_of members.now))) }
{
    match combine(alloc, by, members) {
        Ok(value) => Ok(Ok(value)),
        Err(CallFault::Trap(kind)) => {
            let element = Value::Int(0);
            Ok(Err(Trap {
                origin,
                element,
                kind,
            }))
        }
        Err(CallFault::Memory) => Err(AllocError),
    }
}
