// The greatest members of a bag.
ghost use Rattle.std.specs.Prelude.{◌≡◌, IfOk};
ghost use Rattle.std.specs.List.Sorted.{IsSorted};
ghost use Rattle.flume_value.specs.Order.{value_cmp};
ghost use Rattle.flume_value.specs.Bag.{bag_of};
ghost use Rattle.keyed_steps.specs.of_combine_table.Combinations.{greatest as greatest_of};

use flume_value::{Value, copy_all};
use std::alloc::{AllocError, Global};

/// The n greatest members of the ascending bag, ascending; all where there are fewer. It copies
/// those alone.
pub fn greatest(alloc: Global, n: u32, bag: &[Value]) -> Result<Vec<Value>, AllocError>
    requires { IsSorted value_cmp bag.now }
    ensures greatest { IfOk result (λ kept. kept.items ≡ greatest_of n (bag_of bag.now)) }
    ensures ascending { IfOk result (λ kept. IsSorted value_cmp kept.items) }
    ensures bag { IfOk result (λ kept. bag_of kept.items ≡ kept.items) }
{
    let rest = bag.len().saturating_sub(n as usize);
    Ok(copy_all(alloc, &bag[rest..])?.into_vec())
}
