// Laws of combining in parts, of merging, and of rounded quotients.
ghost use Rattle.std.specs.Prelude.{◌≡◌, ◌↔◌, ◌<◌, ◌-◌, ◌^◌, ℕ, ℤ, pos, neg_ℤ, List, [], ◌∷◌, ◌++◌, Ok, Err};
ghost use Rattle.flume_value.specs.declared.value.Value.{Value};
ghost use Rattle.flume_value.specs.declared.value.Value.TheVariants as value;
ghost use Rattle.flume_value.specs.declared.fault.Kind.TheVariants.{BadIndex};
ghost use Rattle.flume_value.specs.Bag.{bag_of};
ghost use Rattle.combine_table.specs.declared.comb.Comb.{Comb};
ghost use Rattle.combine_table.specs.declared.comb.Comb.TheVariants as by;
ghost use Rattle.combine_table.specs.Combinations.{combined, mean_quotient, IsQuotient};
ghost use Rattle.combine_table.specs.Accumulators.{accumulator, HasShape, merged, finished};

/// A bag may be combined in parts, in any order, with any merges of the parts' accumulators.
pub fn parts_law()
    // Merging the accumulators of two bags gives that of their sum.
    ensures merged { (c : Comb) (xs ys : List Value) →
        merged c (accumulator c (bag_of xs)) (accumulator c (bag_of ys))
        ≡ accumulator c (bag_of (xs ++ ys)) }
    // Finishing a bag's accumulator gives the bag's combination, its trap included.
    ensures finished { (c : Comb) (b : List Value) → finished c (accumulator c b) ≡ combined c b }
    ensures shape { (c : Comb) (xs : List Value) → HasShape c (accumulator c (bag_of xs)) }
{}

/// Merging is associative and commutative, and the empty bag's accumulator is its unit.
pub fn merge_law()
    ensures associative { (c : Comb) (x y z : Value) →
        merged c (merged c x y) z ≡ merged c x (merged c y z) }
    ensures commutative { (c : Comb) (x y : Value) → merged c x y ≡ merged c y x }
    ensures unit_left { (c : Comb) (a : Value) → HasShape c a → merged c (accumulator c []) a ≡ a }
    ensures unit_right { (c : Comb) (a : Value) → HasShape c a → merged c a (accumulator c []) ≡ a }
    ensures shape { (c : Comb) (x y : Value) → HasShape c (merged c x y) }
{}

/// The quotient is rounded down, and no other number is.
pub fn quotient_law()
    ensures { (s q : ℤ) (c : ℕ) → 0 < c → (q ≡ mean_quotient s c) ↔ IsQuotient s c q }
{}

/// What some bags are combined to.
pub fn rows_law()
    ensures rounded_down { let ints = value.Int (neg_ℤ (pos 3)) ∷ value.Int (pos 0) ∷ [] in
        combined by.Mean (bag_of ints) ≡ Ok (value.Int (neg_ℤ (pos 2))) }
    ensures within { let most = value.Int (pos (2 ^ 63 - 1)) in
        combined by.Mean (bag_of (most ∷ most ∷ [])) ≡ Ok most }
    ensures mean_of_none { combined by.Mean (bag_of []) ≡ Err BadIndex }
    ensures repeated { let one = value.Int (pos 1) in let three = value.Int (pos 3) in
        combined by.Distinct (bag_of (three ∷ one ∷ three ∷ []))
        ≡ Ok (value.List (one ∷ three ∷ [])) }
    ensures distinct_of_none { combined by.Distinct (bag_of []) ≡ Ok (value.List []) }
{}
