// Where each shard of a list begins and ends.
ghost use Rattle.std.specs.Prelude.{◌≡◌, ◌+◌, ◌<◌, ◌≤◌, length};
ghost use Rattle.shards.specs.Shards.{begins, shard as shard_is};

use std::ops::Range;

/// The range of a shard, of so many, in a list of so many elements.
pub fn shard_range(count: usize, shards: u32, shard: u32) -> Range<usize>
    requires { shard < shards }
    ensures start { result.start ≡ begins shards shard count }
    ensures end { result.end ≡ begins shards (shard + 1) count }
    ensures ordered { result.start ≤ result.end }
    ensures within { result.end ≤ count }
{
    start_of(count, shards, shard)..start_of(count, shards, shard + 1)
}

/// The elements of a shard, of so many.
#[tactic(auto, unfolding(crate::specs::Shards::shard))]
pub fn shard_of<T>(list: &[T], shards: u32, shard: u32) -> &[T]
    requires { shard < shards }
    ensures { result.now ≡ shard_is shards shard list.now }
{
    &list[shard_range(list.len(), shards, shard)]
}

// Where a shard begins, or where the last one ends.
fn start_of(count: usize, shards: u32, shard: u32) -> usize
    requires some { 0 < shards }
    requires within { shard ≤ shards }
    ensures value { result ≡ begins shards shard count }
    ensures within { result ≤ count }
{
    let place = u128::from(shard) * count as u128 / u128::from(shards);
    place as usize
}
