// What is kept of collections that were not found.
ghost use Rattle.std.specs.Prelude.{◌≡◌, ◌≤◌, IfOk, IfSome, OnOk, Some, if◌then◌else◌, is_ok, is_some};
ghost use Rattle.std.specs.Option.{option_map};
ghost use Rattle.cache_store.specs.Entries.{with_entries, with_cache_entry};
ghost use Rattle.flume_value.specs.Canonical.{canonical};
ghost use Rattle.flume_value.specs.Ranges.{IsHeld};
ghost use Rattle.outside.specs.Cause.{HasCause, Rose};
ghost use Rattle.saved_results.specs.Saved.{saved_value};
ghost use Rattle.kept_results.specs.Keeping.{KeptUnlessFailed};
ghost use Rattle.kept_results.specs.Sizes as spec;

use crate::sizes::to_keep;
use cache_store::{Cache, CacheEntry};
use flume_value::{Items, Str};
use outside::Failed;
use saved_results::saved_bytes;
use std::alloc::{AllocError, Global};

/// The bytes that are kept of a collection of these members, which rests on these, where this is
/// known of sizes.
pub fn kept_bytes(
    alloc: Global,
    known: &[(u32, u64)],
    nodes: &[(u32, Str)],
    members: Items,
) -> Result<Str, AllocError>
    ensures bytes { IfOk result (λ bytes. bytes
        ≡ canonical (saved_value (spec.to_keep known.now nodes.now members))) }
    ensures held { OnOk result (IsHeld (saved_value (spec.to_keep known.now nodes.now members))) }
{
    let saved = to_keep(alloc, known, nodes, members)?;
    Str::from_vec(saved_bytes(alloc, saved)?)
}

/// Puts these values under their keys, one after the other. Where the cache fails a value is not
/// kept, and the others are.
pub fn keep_each<C: Cache>(kept: &[CacheEntry], cache: &mut C)
    ensures later { (C.seen cache.old).faults ≤ (C.seen cache.new).faults }
    ensures told { is_some (C.seen cache.new).entries ≡ is_some (C.seen cache.old).entries }
    ensures all { IfSome (C.seen cache.old).entries (λ entries.
        (Rose (C.seen cache.old).faults (C.seen cache.new).faults → ⊥) →
        (C.seen cache.new).entries ≡ Some (with_entries entries kept.now)) }
    ensures some { IfSome (C.seen cache.old).entries (λ entries. IfSome (C.seen cache.new).entries
        (KeptUnlessFailed (C.seen cache.old).faults (C.seen cache.new).faults entries kept.now)) }
{
    for entry in kept {
        let _ = keep_one(entry, cache);
    }
}

// Keeps one of them.
fn keep_one<C: Cache>(entry: &CacheEntry, cache: &mut C) -> Result<(), Failed>
    ensures entries { (C.seen cache.new).entries ≡ (if is_ok result
        then option_map (λ entries. with_cache_entry entries entry.now.key entry.now.value)
        (C.seen cache.old).entries else (C.seen cache.old).entries) }
    ensures cause { HasCause (C.seen cache.old).faults (C.seen cache.new).faults result }
{
    cache.keep(entry.key.as_bytes(), entry.value.as_bytes())
}
