// How many members lists have.
ghost use Rattle.std.specs.Prelude.{◌≡◌, IfOk, length, map};

use flume_value::Items;
use std::alloc::{AllocError, Global};

/// How many members each list has.
pub fn member_counts(alloc: Global, lists: &[Items]) -> Result<Vec<u64>, AllocError>
    ensures { IfOk result (λ counts. counts.items ≡ map length lists.now) }
{
    let mut counts = Vec::with_capacity(alloc, lists.len())?;
    for list in lists {
        counts.push(list.len() as u64)?;
    }
    Ok(counts)
}
