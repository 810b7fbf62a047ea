// New numbers by former ones.
ghost use Rattle.std.specs.Prelude.{◌≡◌, ◌<◌, ℕ, ◌==◌, ◌&&◌, cond, IfOk, OnOk, length, slice_index_or};
ghost use Rattle.graph_walks.specs.Outs.{place_of};

use std::alloc::{AllocError, Global};

/// Where each number stands first among those. Others stand behind them all, as does each for which
/// the table is too short.
pub fn number_table(alloc: Global, outs: &[u32], count: u32) -> Result<Vec<u32>, AllocError>
    requires { length outs.now ≡ count }
    ensures { IfOk result (λ table. (j : ℕ) →
        slice_index_or table.items j count ≡ place_of outs.now j) }
{
    let mut table = Vec::new(alloc);
    for (place, out) in outs.iter().enumerate() {
        note_first(&mut table, *out, place as u32, count)?;
    }
    Ok(table)
}

/// Notes the place of a number that has none.
fn note_first(table: &mut Vec<u32>, number: u32, place: u32, count: u32) -> Result<(), AllocError>
    ensures { OnOk result ((j : ℕ) → slice_index_or table.new.items j count
        ≡ cond ((number == j) && (slice_index_or table.old.items j count == count)) place
        (slice_index_or table.old.items j count)) }
{
    let at = number as usize;
    lengthen(table, at, count)?;
    if table[at] == count {
        table[at] = place;
    }
    Ok(())
}

/// Makes the table longer than that.
fn lengthen(table: &mut Vec<u32>, at: usize, count: u32) -> Result<(), AllocError>
    ensures long { OnOk result (at < length table.new.items) }
    ensures same { OnOk result ((j : ℕ) → slice_index_or table.new.items j count
        ≡ slice_index_or table.old.items j count) }
{
    while table.len() <= at {
        table.push(count)?;
    }
    Ok(())
}
