// Accumulators merged by key, keys ascending.
ghost use Rattle.std.specs.Prelude.{◌≡◌, ◌<◌, All, IfOk, OnOk, length, map};
ghost use Rattle.partial_tables.specs.Tables.{IsPartialOf, added, holding};
ghost use Rattle.partial_tables.specs.Merges.{merged_by_key};

use crate::table::{Partial, Partials};
use combine_table::Comb;
use flume_value::Value;
use std::alloc::{AllocError, Global};

/// One accumulator for each key of those that are referred to, keys ascending: all of the key's
/// merged. It merges in a table with room for all, and then sorts one accumulator a key. A key is
/// copied where it is new in the table.
pub fn merge_borrowed(
    alloc: Global,
    comb: Comb,
    partials: Vec<&Partial>,
) -> Result<Vec<Partial>, AllocError>
    requires { All (λ partial. IsPartialOf comb partial.now) partials.items }
    ensures { IfOk result (λ merged. merged.items
        ≡ merged_by_key comb (map (λ partial. partial.now) partials.entry.items)) }
{
    let mut table = Partials::new(alloc, comb, partials.len() as u64);
    for partial in partials {
        merge_in_copy(alloc, comb, &mut table, partial)?;
    }
    table.into_ascending(alloc)
}

// Adds a copy of an accumulator to a table that has room for one more.
fn merge_in_copy(
    alloc: Global,
    _comb: Comb,
    table: &mut Partials,
    partial: &Partial,
) -> Result<(), AllocError>
    requires comb { table.old.comb ≡ _comb }
    requires partial { IsPartialOf _comb partial.now }
    requires room { length table.old.partials < table.old.room }
    ensures added { OnOk result (table.new
        ≡ holding table.old (added _comb table.old.partials partial.now.0 partial.now.1)) }
    ensures partial { IsPartialOf _comb partial.now }
{
    let (key, acc) = partial;
    let acc = copied(alloc, acc)?;
    match table.add_copy(alloc, key, acc) {
        Ok(()) => Ok(()),
        Err(fault) => Err(fault.into_memory()),
    }
}

// A copy of an accumulator. Most are numbers, which are copied with no call.
fn copied(alloc: Global, acc: &Value) -> Result<Value, AllocError>
    ensures { IfOk result (λ copy. copy ≡ acc.now) }
{
    match acc {
        Value::Wide(n) => Ok(Value::Wide(*n)),
        _ => acc.copy(alloc),
    }
}
