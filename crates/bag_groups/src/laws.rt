// What holds of groups, and of combining the list of each.
ghost use Rattle.std.specs.Prelude.{◌≡◌, ◌++◌, List, Result};
ghost use Rattle.std.specs.List.Sorted.{IsSorted};
ghost use Rattle.flume_value.specs.declared.fault.Kind.{Kind};
ghost use Rattle.flume_value.specs.declared.value.Value.{Value};
ghost use Rattle.flume_value.specs.Order.{value_cmp};
ghost use Rattle.flume_value.specs.Bag.{bag_of};
ghost use Rattle.bag_groups.specs.Combining.{combined_each, traps_of_each};
ghost use Rattle.bag_groups.specs.Groups.{grouped};

/// The groups depend on nothing but the bag of the pairs, and stand in ascending order.
pub fn groups_law()
    ensures bag { (pairs : List Value) → grouped (bag_of pairs) ≡ grouped pairs }
    ensures ascending { (pairs : List Value) → IsSorted value_cmp (grouped pairs) }
{}

/// Combining the list of each pair depends on nothing but the bag of the pairs, and goes pair
/// by pair: what parts of the pairs give, and their traps, add up.
pub fn combining_law()
    ensures bag { (f : List Value → Result Value Kind) (pairs : List Value) →
        combined_each f (bag_of pairs) ≡ combined_each f pairs }
    ensures sum { (f : List Value → Result Value Kind) (xs ys : List Value) →
        combined_each f (xs ++ ys) ≡ bag_of (combined_each f xs ++ combined_each f ys) }
    ensures traps { (f : List Value → Result Value Kind) (xs ys : List Value) →
        traps_of_each f (xs ++ ys) ≡ traps_of_each f xs ++ traps_of_each f ys }
{}
