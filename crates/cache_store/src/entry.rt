// A kept value, as caches tell it.
use flume_value::Str;

/// An entry that a cache tells: its key and its value.
///
/// Entries are told as a list that is searched by key: the first entry of a key is the one meant.
#[derive(Drop)]
pub struct CacheEntry {
    /// The key, as it is passed to `find` and `keep`.
    pub key: Str,
    /// All of the value's bytes.
    pub value: Str,
}
