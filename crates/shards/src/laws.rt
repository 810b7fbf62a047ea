// The law that the shards of a list, one after another, are the list.
ghost use Rattle.std.specs.Prelude.{◌≡◌, ◌<◌, ℕ, List};
ghost use Rattle.flume_value.specs.declared.value.Value.{Value};
ghost use Rattle.shards.specs.Shards.{concatenated, shard};

/// The shards one after another are the list.
pub fn shards_law()
    ensures { (shards : ℕ) (xs : List Value) → 0 < shards →
        concatenated (λ i. shard shards i xs) shards ≡ xs }
{}
