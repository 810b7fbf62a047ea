// What is read where it is there.
ghost use Rattle.std.specs.Prelude.{◌≡◌, ◌<◌, ℕ, All, List, Ok, Some, length, map, slice_get};
ghost use Rattle.flume_value.specs.declared.value.Value.{Value};
ghost use Rattle.flume_value.specs.Parts.{bool_of, int_of};
ghost use Rattle.bag_groups.specs.Combining.{group_of, groups_in};
ghost use Rattle.bag_groups.specs.Pairs.{IsPair, pairs_of, parts_of};
ghost use Rattle.combine_table.specs.Contents.{IsBool, IsInt, int_or_zero, truth_of};
ghost use Rattle.flume_collection.specs.Calls.{emissions};
ghost use Rattle.no_defaults.specs.Readings.{IsListed};

/// Where an answer has an output, where members are pairs or groups, where a value is an int or a
/// bool, what is read is just that: no member is passed over, and no number is made up.
pub fn readings_law()
    ensures emissions { (at : ℕ) (outputs : List (List Value)) → at < length outputs →
        slice_get outputs at ≡ Some (emissions at (Ok outputs)) }
    ensures pairs { (table : List Value) → All IsPair table →
        map (λ parts. Some parts) (pairs_of table) ≡ map parts_of table }
    ensures groups { (table : List Value) → All IsListed table →
        map (λ group. Some group) (groups_in table) ≡ map group_of table }
    ensures ints { (v : Value) → IsInt v → int_of v ≡ Some (int_or_zero v) }
    ensures truths { (v : Value) → IsBool v → bool_of v ≡ Some (truth_of v) }
{}
