// Lists side by side, which are joined with others by moves.
ghost use Rattle.std.specs.Prelude.{◌≡◌, ◌∷◌, ◌++◌, [], List, length, OnOk};
ghost use Rattle.flume_value.specs.declared.value.Value.{Value as GhostValue};
ghost use Rattle.stage_results.specs.inner.Channels.{each_joined};

use flume_value::{Items, Pile};
use std::alloc::{AllocError, Global};
use std::mem;

/// Puts each list behind the one at its place.
pub(crate) fn join_each(
    alloc: Global,
    lists: &mut Vec<Items>,
    more: Pile<Items>,
) -> Result<(), AllocError>
    ensures { OnOk result (lists.new.items ≡ each_joined lists.old.items more) }
{
    let mut at = 0;
    for list in more.into_vec() {
        join_at(alloc, lists, at, list)?;
        at += 1;
    }
    Ok(())
}

/// Puts a list behind the one at this place, or behind all of them.
pub(crate) fn join_at(
    alloc: Global,
    lists: &mut Vec<Items>,
    at: usize,
    list: Items,
) -> Result<(), AllocError>
    ensures { (first next : List (List GhostValue)) → at ≡ length next →
        lists.old.items ≡ each_joined first next →
        OnOk result (lists.new.items ≡ each_joined first (next ++ list ∷ [])) }
{
    if at < lists.len() {
        join(alloc, &mut lists[at], list)?;
    } else {
        lists.push(list)?;
    }
    Ok(())
}

// Moves the values of a list behind those of another.
fn join(alloc: Global, list: &mut Items, more: Items) -> Result<(), AllocError>
    ensures { OnOk result (list.new ≡ list.old ++ more) }
{
    let mut values = mem::replace(list, Pile::new(alloc)).into_vec();
    values.append(&mut more.into_vec())?;
    *list = Pile::from_vec(values);
    Ok(())
}
