// The cache of a case: what it has at the first, and which of its calls fail.
use crate::rooms::fitting;
use cache_store::CacheEntry;
use flume_value::{Pile, Str};
use memory_outside::MemCache;
use std::alloc::{AllocError, Global};
use worked_cases::{CACHE_ROOM, TextFile};

/// The cache with these entries, in which these calls fail.
pub fn cache_of(
    alloc: Global,
    entries: &[TextFile],
    fails: &[u32],
) -> Result<MemCache, AllocError> {
    let room = CACHE_ROOM;
    let fails = Pile::from_vec(Vec::from_slice(alloc, fails)?);
    let entries = fitting(alloc, entries_of(alloc, entries)?, room);
    MemCache::new(alloc, entries, fails, room.files, room.bytes)
}

fn entries_of(alloc: Global, texts: &[TextFile]) -> Result<Pile<CacheEntry>, AllocError> {
    let mut entries = Pile::new(alloc);
    for text in texts {
        entries.push(entry_of(alloc, text)?)?;
    }
    Ok(entries)
}

fn entry_of(alloc: Global, text: &TextFile) -> Result<CacheEntry, AllocError> {
    Ok(CacheEntry {
        key: Str::from_slice(alloc, &text.name)?,
        value: Str::from_slice(alloc, &text.bytes)?,
    })
}
