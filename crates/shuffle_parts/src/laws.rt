// Laws of partitions: parting keeps groups whole, and what is gathered is right.
ghost use Rattle.std.specs.Prelude.{◌≡◌, ◌<◌, ℕ, true, All, IsSomeAnd, IsTrue, List, Some, filter};
ghost use Rattle.std.specs.List.{AllZip, flat_map};
ghost use Rattle.flume_value.specs.declared.value.Value.{Value};
ghost use Rattle.flume_value.specs.Bag.{bag_of};
ghost use Rattle.bag_groups.specs.Pairs.{IsPair, pairs_of};
ghost use Rattle.bag_groups.specs.Groups.{grouped};
ghost use Rattle.combine_table.specs.declared.comb.Comb.{Comb};
ghost use Rattle.partial_tables.specs.Merges.{StandFor, accumulated};
ghost use Rattle.shards.specs.Shards.{concatenated};
ghost use Rattle.shuffle_parts.specs.declared.out.MapOut.{MapOut};
ghost use Rattle.shuffle_parts.specs.Partitions.{is_in_part, falls_in, pairs_in_part};
ghost use Rattle.shuffle_parts.specs.Outs.{sent_at, all_pairs, all_partials, ArePairsOf, ArePartialsOf};

/// Each pair is in one partition, that of its key, with all pairs of the key. So the groups of a
/// partition are the groups whose keys are in it, and so are its accumulators.
pub fn parts_law()
    ensures own { (n p : ℕ) (pairs : List Value) →
        All (λ pair. IsTrue (falls_in n p pair)) (pairs_in_part n p pairs) }
    ensures whole { (n : ℕ) (pairs : List Value) → 0 < n → All IsPair pairs →
        bag_of (concatenated (λ p. pairs_in_part n p pairs) n) ≡ bag_of pairs }
    ensures groups { (n p : ℕ) (pairs : List Value) →
        grouped (pairs_in_part n p pairs) ≡ pairs_in_part n p (grouped pairs) }
    ensures partials { (n p : ℕ) (c : Comb) (pairs : List Value) →
        accumulated c (pairs_of (pairs_in_part n p pairs))
        ≡ filter (λ e. is_in_part n p e.0) (accumulated c (pairs_of pairs)) }
{}

/// What is gathered of a partition, where each out has what is right for the pairs given by its
/// task: the pairs of all tasks that fall in the partition, in order of tasks; or accumulators
/// that stand for them.
pub fn gathered_law()
    ensures pairs { (n r p : ℕ) (outs : List MapOut) (given : List (List Value)) → p < n →
        AllZip (λ out pairs. ArePairsOf n (sent_at r out) pairs) outs given →
        all_pairs outs r p ≡ Some (pairs_in_part n p (flat_map (λ pairs. pairs) given)) }
    ensures partials { (c : Comb) (n r p : ℕ) (outs : List MapOut) (given : List (List Value)) →
        p < n → AllZip (λ out pairs. ArePartialsOf c n (sent_at r out) pairs) outs given →
        IsSomeAnd (all_partials outs r p) (λ partials. StandFor c partials
        (pairs_of (pairs_in_part n p (flat_map (λ pairs. pairs) given)))) }
{}
