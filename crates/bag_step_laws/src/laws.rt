// Laws of the steps over whole bags: each comes from groups, a combiner and single members.
ghost use Rattle.std.specs.Prelude.{◌≡◌, ℕ, pos, List, [], ◌∷◌, ◌++◌, Result, map};
ghost use Rattle.std.specs.List.{flat_map};
ghost use Rattle.flume_value.specs.declared.fault.Kind.{Kind};
ghost use Rattle.flume_value.specs.declared.value.Value.{Value};
ghost use Rattle.flume_value.specs.declared.value.Value.TheVariants as value;
ghost use Rattle.flume_value.specs.Bag.{bag_of};
ghost use Rattle.bag_groups.specs.Pairs.{pairs_of};
ghost use Rattle.bag_groups.specs.Groups.{grouped, keys_of, values_of};
ghost use Rattle.bag_groups.specs.Combining.{combined_each, combined_pair, trapped_key, traps_of_each};
ghost use Rattle.combine_table.specs.declared.comb.Comb.TheVariants as by;
ghost use Rattle.combine_table.specs.Combinations.{combined, greatest};
ghost use Rattle.bag_steps.specs.Counts.{counted, counted_traps};
ghost use Rattle.bag_steps.specs.Joins.{joined};
ghost use Rattle.bag_step_laws.specs.Derived.{listed_values, marked_pairs, split_sides, pair_under_zero, pair_with_one};

/// What groups come to where they are combined, and which of them trap, goes key by key.
pub fn groups_law()
    ensures combined { (f : List Value → Result Value Kind) (pairs : List Value) →
        combined_each f (grouped pairs)
        ≡ flat_map (λ k. combined_pair k (f (values_of k (pairs_of pairs))))
        (keys_of (pairs_of pairs)) }
    ensures traps { (f : List Value → Result Value Kind) (pairs : List Value) →
        traps_of_each f (grouped pairs)
        ≡ flat_map (λ k. trapped_key k (f (values_of k (pairs_of pairs))))
        (keys_of (pairs_of pairs)) }
{}

/// The counts of a bag are the sums of as many ones.
pub fn count_law()
    ensures counts { (bag : List Value) →
        combined_each (combined by.Sum) (grouped (map pair_with_one bag)) ≡ counted bag }
    ensures traps { (bag : List Value) →
        traps_of_each (combined by.Sum) (grouped (map pair_with_one bag)) ≡ counted_traps bag }
{}

/// The join of two bags of pairs is that of the groups of both together, split by their marks.
pub fn join_law()
    ensures rows { (left right : List Value) →
        flat_map split_sides (grouped (marked_pairs left right)) ≡ joined left right }
{}

/// The greatest members of a bag are those of the one group that has them all.
pub fn top_law()
    ensures members { (n : ℕ) (bag : List Value) →
        flat_map listed_values (combined_each (combined (by.Top n))
        (grouped (map pair_under_zero bag)))
        ≡ greatest n (bag_of bag) }
    ensures through { (n : ℕ) (bag : List Value) →
        traps_of_each (combined (by.Top n)) (grouped (map pair_under_zero bag)) ≡ [] }
{}

/// All members of a bag, each under one key, are one group: combined, they are one pair, or one
/// trap that has the key. Where there are none there is no group.
pub fn whole_law()
    ensures pair { (f : List Value → Result Value Kind) (v : Value) (bag : List Value) →
        combined_each f (grouped (map pair_under_zero (v ∷ bag)))
        ≡ combined_pair (value.Int (pos 0)) (f (bag_of (v ∷ bag))) }
    ensures trap { (f : List Value → Result Value Kind) (v : Value) (bag : List Value) →
        traps_of_each f (grouped (map pair_under_zero (v ∷ bag)))
        ≡ trapped_key (value.Int (pos 0)) (f (bag_of (v ∷ bag))) }
    ensures no_pair { (f : List Value → Result Value Kind) →
        combined_each f (grouped (map pair_under_zero [])) ≡ [] }
    ensures no_trap { (f : List Value → Result Value Kind) →
        traps_of_each f (grouped (map pair_under_zero [])) ≡ [] }
{}

/// What a function gives for the members of two bags together is what it gives for each bag,
/// together.
pub fn parts_law()
    ensures together { (f : Value → List Value) (xs ys : List Value) →
        bag_of (flat_map f (xs ++ ys)) ≡ bag_of (bag_of (flat_map f xs) ++ bag_of (flat_map f ys)) }
{}
