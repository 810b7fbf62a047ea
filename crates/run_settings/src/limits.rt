// The limits of a run.

/// The most workers that a run may have.
pub const MOST_WORKERS: u32 = 16;

/// The most shards into which an input may be cut.
pub const MOST_SHARDS: u32 = 1024;

/// The most partitions into which groups may be cut.
pub const MOST_PARTITIONS: u32 = 64;

/// The most tries that a task may have.
pub const MOST_TRIES: u32 = 8;

/// The most attempts that a drill may name.
pub const MOST_ENTRIES: usize = 64;
