// Shards of lists.
use shards::{shard_of, shard_range};
use std::test::Fail;

#[test]
fn three_shards_of_seven(rt: HostRuntime) -> Result<(), Fail> {
    let list = [1u8, 2, 3, 4, 5, 6, 7];
    assert!(rt; shard_of(&list, 3, 0) == [1u8, 2].as_slice());
    assert!(rt; shard_of(&list, 3, 1) == [3u8, 4].as_slice());
    assert!(rt; shard_of(&list, 3, 2) == [5u8, 6, 7].as_slice());
    assert!(rt; shard_range(1, 2, 0).is_empty());
    Ok(())
}
