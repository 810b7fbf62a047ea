// The ends of bags, and what combiners make of bags, told of lists in any order.
ghost use Rattle.std.specs.Prelude.{◌≡◌, ℕ, List, [], Ok, Err};
ghost use Rattle.std.specs.List.Sorted.{IsPermutation, IsSorted};
ghost use Rattle.flume_value.specs.declared.value.Value.{Value};
ghost use Rattle.flume_value.specs.declared.value.Value.TheVariants as value;
ghost use Rattle.flume_value.specs.declared.fault.Kind.TheVariants.{BadIndex};
ghost use Rattle.flume_value.specs.Bag.{bag_of};
ghost use Rattle.flume_value.specs.Order.{value_cmp};
ghost use Rattle.combine_table.specs.declared.comb.Comb.{Comb};
ghost use Rattle.combine_table.specs.declared.comb.Comb.TheVariants as by;
ghost use Rattle.combine_table.specs.Combinations.{combined, distinct, greatest, least};
ghost use Rattle.bag_laws.specs.Members.{AddsUp, AreDistinct, AreGreatest, AreLeast, IsGreatestOf, IsLeastOf};

/// Of the bag of any list `least` is its n least members and `greatest` its n greatest, all where
/// there are fewer, and nothing else is; `distinct` is its members, once each.
pub fn ends_law()
    ensures least { (n : ℕ) (values : List Value) → AreLeast n values (least n (bag_of values)) }
    ensures only_least { (n : ℕ) (values kept : List Value) → AreLeast n values kept →
        kept ≡ least n (bag_of values) }
    ensures greatest { (n : ℕ) (values : List Value) →
        AreGreatest n values (greatest n (bag_of values)) }
    ensures only_greatest { (n : ℕ) (values kept : List Value) → AreGreatest n values kept →
        kept ≡ greatest n (bag_of values) }
    ensures distinct { (values : List Value) → AreDistinct values (distinct (bag_of values)) }
{}

/// What a combiner makes of the bag of a list: it does not ask in which order the members stand.
pub fn combined_law()
    ensures order { (c : Comb) (xs ys : List Value) → IsPermutation xs ys →
        combined c (bag_of ys) ≡ combined c (bag_of xs) }
    // Of sums, counts, means and truths any list serves; of the others an ascending one.
    ensures adds { (c : Comb) (xs : List Value) → AddsUp c →
        combined c (bag_of xs) ≡ combined c xs }
    ensures ascending { (c : Comb) (xs : List Value) → IsSorted value_cmp xs →
        combined c (bag_of xs) ≡ combined c xs }
    ensures min { (xs : List Value) (v : Value) → IsLeastOf xs v →
        combined by.Min (bag_of xs) ≡ Ok v }
    ensures max { (xs : List Value) (v : Value) → IsGreatestOf xs v →
        combined by.Max (bag_of xs) ≡ Ok v }
    ensures none { combined by.Min (bag_of []) ≡ Err BadIndex }
    ensures none_greatest { combined by.Max (bag_of []) ≡ Err BadIndex }
    ensures top { (n : ℕ) (xs kept : List Value) → AreGreatest n xs kept →
        combined (by.Top n) (bag_of xs) ≡ Ok (value.List kept) }
{}
