// The laws that accumulators of parts, merged in any order or by key, are those of the whole.
ghost use Rattle.std.specs.Prelude.{◌≡◌, ◌++◌, [], List};
ghost use Rattle.flume_value.specs.Bag.{bag_of};
ghost use Rattle.flume_value.specs.declared.value.Value.{Value};
ghost use Rattle.bag_groups.specs.Pairs.{pairs_of};
ghost use Rattle.bag_groups.specs.Groups.{grouped};
ghost use Rattle.bag_groups.specs.Combining.{groups_in};
ghost use Rattle.combine_table.specs.Accumulators.{accumulator, finished};
ghost use Rattle.combine_table.specs.Combinations.{combined};
ghost use Rattle.combine_table.specs.declared.comb.Comb.{Comb};
ghost use Rattle.partial_tables.specs.Cuts.{IsMadeOf};
ghost use Rattle.partial_tables.specs.Tables.{Pairs};
ghost use Rattle.partial_tables.specs.Merges.{StandFor, merged_by_key, accumulated, finished_each, combined_groups};

/// However values are cut into parts, and in whatever order the parts' accumulators are merged,
/// what comes of it is the accumulator of all of them, and it finishes as their combination, its
/// trap included.
pub fn cuts_law()
    ensures one { (c : Comb) (xs : List Value) (a : Value) → IsMadeOf c xs a →
        a ≡ accumulator c (bag_of xs) }
    ensures finished { (c : Comb) (xs : List Value) (a : Value) → IsMadeOf c xs a →
        finished c a ≡ combined c (bag_of xs) }
{}

/// Accumulators that stand for parts of the pairs stand together for all of them, and merged by
/// key are the accumulators of the keys' values: however the pairs were shared out, and however
/// often a table was emptied.
pub fn partials_law()
    ensures none { (c : Comb) → StandFor c [] [] }
    ensures sum { (c : Comb) (partials pairs more others : Pairs) → StandFor c partials pairs →
        StandFor c more others → StandFor c (partials ++ more) (pairs ++ others) }
    ensures merged { (c : Comb) (partials pairs : Pairs) → StandFor c partials pairs →
        merged_by_key c partials ≡ accumulated c pairs }
    // They finish as the groups of the pairs combine, traps included.
    ensures finished { (c : Comb) (pairs : List Value) →
        finished_each c (accumulated c (pairs_of pairs))
        ≡ combined_groups c (groups_in (grouped pairs)) }
{}
