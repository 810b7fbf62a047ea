// Accumulators out of a table, in its order and in that of their keys.
ghost use Rattle.std.specs.Prelude.{◌≡◌, ◌++◌, map, IfOk, OnOk};
ghost use Rattle.std.specs.List.Sorted.{IsPermutation, IsSorted};
ghost use Rattle.flume_value.specs.Order.{value_cmp};

use crate::table::Partial;
use flume_value::{Value, compare};
use indexmap::IndexMap;
use std::alloc::{AllocError, Global};
use std::cmp::Ordering;

/// Puts a table's entries behind others, in order.
pub(crate) fn append_entries(
    table: IndexMap<Value, Value>,
    others: &mut Vec<Partial>,
) -> Result<(), AllocError>
    ensures { OnOk result (others.new.items ≡ others.old.items ++ table.entries) }
{
    for entry in table {
        others.push(entry)?;
    }
    Ok(())
}

/// A table's entries, in order.
pub(crate) fn listed(
    alloc: Global,
    table: IndexMap<Value, Value>,
) -> Result<Vec<Partial>, AllocError>
    ensures { IfOk result (λ partials. partials.items ≡ table.entries) }
{
    let mut partials = Vec::with_capacity(alloc, table.len())?;
    append_entries(table, &mut partials)?;
    Ok(partials)
}

/// Sorts accumulators by their keys, once they are out of the table, whose index none needs then.
pub(crate) fn sort_by_keys(partials: &mut Vec<Partial>)
    ensures same { IsPermutation partials.old.items partials.new.items }
    ensures ascending { IsSorted value_cmp (map (λ p. p.0) partials.new.items) }
{
    partials.sort_unstable_by(
        |a: &Partial, b: &Partial| -> Ordering
            ensures { result ≡ value_cmp a.now.0 b.now.0 }
        { compare_keys(&a.0, &b.0) },
    );
}

// How a key stands to another. Most keys are ints, which are compared where they stand.
#[tactic(auto, using(flume_value::proofs::OrderLemmas::the_order))]
fn compare_keys(a: &Value, b: &Value) -> Ordering
    ensures { result ≡ value_cmp a.now b.now }
{
    match a {
        Value::Int(m) => match b {
            Value::Int(n) => m.cmp(n),
            _ => compare(a, b),
        },
        _ => compare(a, b),
    }
}
