// The cache itself, and its calls.
ghost use Rattle.std.specs.Prelude.{Some, ◌≡◌, ◌≤◌, ◌<◌, ◌⊎◌, ◌↔◌, length, map, sum_by, is_ok, if◌then◌else◌, IsTrue, IsErr, IsErrOf, IfOk};
ghost use Rattle.std.specs.Option.{option_copied, option_map};
ghost use Rattle.memory_outside.specs.Calls.{count_after, is_numbered};
ghost use Rattle.outside.specs.Cause.{HasCause, raised};
ghost use Rattle.cache_store.specs.Cause.{HasFindCause};
ghost use Rattle.cache_store.specs.Entries.{entry_size, found_in, with_cache_entry};
ghost use Rattle.memory_outside.specs.Caches.{FitsIn, counted_find};
ghost use Rattle.memory_outside.specs.inner.Entries.{as_entry};

use crate::put::{copied, put};
use crate::slots::{Slot, copy_files, slot_bytes, slot_place, spare_slots};
use cache_store::{Cache, CacheEntry, FindFault};
use flume_value::Pile;
use outside::{Failed, File};
use std::alloc::{AllocError, Global};
use std::marker::Model;

/// Entries in memory, in room that is taken when it is made: for a number of entries, and for a
/// number of bytes, keys included. A call fails exactly where the list names its number, counted
/// from 0, or the entry that is to be kept doesn't fit.
#[derive(Drop)]
pub struct MemCache {
    slots: Vec<Slot>,
    spare: Vec<Slot>,
    room: usize,
    fails: Pile<u32>,
    calls: u64,
    faults: u64,
}

impl Model for MemCache {
    ghost use Rattle.std.specs.Prelude.{◌+◌, vec_len};
    ghost use Rattle.memory_outside.specs.Caches.{CacheInMemory};
    ghost use Rattle.memory_outside.specs.inner.CacheRoom.{AreSlots};
    ghost use Rattle.memory_outside.specs.inner.Entries.{entries_of};

    ghost Value = { CacheInMemory };

    ghost view = { λ s. record {
      entries = entries_of s.slots.items;
      max_entries = vec_len s.slots + vec_len s.spare;
      max_bytes = s.room;
      fails = s.fails;
      calls = s.calls;
      faults = s.faults;
    } };

    ghost invariant = { λ s. AreSlots s.slots s.spare s.room };
}

impl MemCache {
    /// A cache with these entries and room for so many entries and bytes, whose named calls are to
    /// fail.
    pub fn new(
        alloc: Global,
        entries: Pile<CacheEntry>,
        fails: Pile<u32>,
        max_entries: u32,
        max_bytes: u64,
    ) -> Result<Self, AllocError>
        requires few { length entries ≤ max_entries }
        requires fits { sum_by entry_size entries ≤ max_bytes }
        ensures { IfOk result (λ cache. cache ≡ record {
          entries = entries;
          max_entries = max_entries;
          max_bytes = max_bytes;
          fails = fails;
          calls = 0;
          faults = 0;
        }) }
    {
        let count = max_entries as usize;
        let room = max_bytes as usize;
        let files = as_files(alloc, entries.into_vec())?;
        let slots = copy_files(alloc, &files, count, room)?;
        let spare = spare_slots(alloc, count - slots.len(), room)?;
        Ok(MemCache {
            slots,
            spare,
            room,
            fails,
            calls: 0,
            faults: 0,
        })
    }

    /// The value of that key, where there is one.
    pub fn value(&self, key: &[u8]) -> Option<&[u8]>
        ensures { option_copied result ≡ found_in self.now.entries key.now }
    {
        match slot_place(&self.slots, key) {
            Some(k) => Some(slot_bytes(&self.slots, k)),
            None => None,
        }
    }

    /// How many entries there are.
    pub fn entry_count(&self) -> usize
        ensures { result ≡ length self.now.entries }
    {
        self.slots.len()
    }

    /// How many calls have failed.
    pub fn faults(&self) -> u64
        ensures { result ≡ self.now.faults }
    {
        self.faults
    }
}

impl Cache for MemCache {
    ghost seen = { λ s. record { entries = Some s.entries; faults = s.faults } };

    fn find(&mut self, alloc: Global, key: &[u8]) -> Result<Option<Vec<u8>>, FindFault>
        ensures entries { Some self.new.entries ≡ Some self.old.entries }
        ensures found { IfOk result (λ found.
            option_map (λ value. value.items) found ≡ found_in self.old.entries key.now) }
        ensures cause { HasFindCause self.old.faults self.new.faults result }

        // It fails exactly where its list names the call.
        ensures fails { IsErrOf result FindFault.Failed ↔
            IsTrue (is_numbered self.old.fails self.old.calls) }
        ensures counted { self.new.faults ≡ counted_find result self.old.faults }
        ensures calls { self.new.calls ≡ raised self.old.calls }
        ensures kept { (self.new.fails ≡ self.old.fails)
            × (self.new.max_entries ≡ self.old.max_entries)
            × (self.new.max_bytes ≡ self.old.max_bytes) }
    {
        if fails_call(self.fails.as_slice(), &mut self.calls) {
            self.faults = self.faults.saturating_add(1);
            return Err(FindFault::Failed);
        }
        Ok(copied(alloc, &self.slots, key)?)
    }

    fn keep(&mut self, key: &[u8], value: &[u8]) -> Result<(), Failed>
        ensures entries { Some self.new.entries ≡
            (if is_ok result then Some (with_cache_entry self.old.entries key.now value.now)
            else Some self.old.entries) }
        ensures cause { HasCause self.old.faults self.new.faults result }

        // It fails exactly where its list names the call or the entry doesn't fit.
        ensures fails { IsErr result ↔ (IsTrue (is_numbered self.old.fails self.old.calls)
            ⊎ (FitsIn self.old.max_entries self.old.max_bytes
            (with_cache_entry self.old.entries key.now value.now) → ⊥)) }
        ensures counted { self.new.faults ≡ count_after result self.old.faults }
        ensures calls { self.new.calls ≡ raised self.old.calls }
        ensures kept { (self.new.fails ≡ self.old.fails)
            × (self.new.max_entries ≡ self.old.max_entries)
            × (self.new.max_bytes ≡ self.old.max_bytes) }
    {
        if fails_call(self.fails.as_slice(), &mut self.calls)
            || !put(&mut self.slots, &mut self.spare, self.room, key, value)
        {
            self.faults = self.faults.saturating_add(1);
            return Err(Failed);
        }
        Ok(())
    }
}

// Counts a call, and says whether the list names it.
fn fails_call(fails: &[u32], calls: &mut u64) -> bool
    ensures named { result ≡ is_numbered fails.now calls.old }
    ensures counted { calls.new ≡ raised calls.old }
{
    let call = *calls;
    *calls = call.saturating_add(1);
    fails.iter().any(|fail| u64::from(*fail) == call)
}

// Each entry as a file, whose name is the key.
fn as_files(alloc: Global, entries: Vec<CacheEntry>) -> Result<Vec<File>, AllocError>
    ensures { IfOk result (λ files. map as_entry files.items ≡ entries.items) }
{
    let mut files = Vec::with_capacity(alloc, entries.len())?;
    for entry in entries {
        let CacheEntry { key, value } = entry;
        files.push(File {
            name: key,
            bytes: value,
        })?;
    }
    Ok(files)
}
