// An entry that is put into slots, where it fits: its key is the name of a file, whose bytes are
// the value.
ghost use Rattle.std.specs.Prelude.{◌≡◌, ◌≤◌, ◌<◌, ◌+◌, ◌↔◌, ◌++◌, ◌∷◌, [], vec_len, vec_capacity, All, length, sum_by, if◌then◌else◌, IsTrue, IfOk};
ghost use Rattle.std.specs.Option.{option_map};
ghost use Rattle.std.proofs.Common.{set};
ghost use Rattle.memory_outside.specs.Slots.{bytes_at, slot_files, file_name_at, slot_size, HasSlotRoom};
ghost use Rattle.cache_store.specs.Entries.{found_in, with_cache_entry};
ghost use Rattle.memory_outside.specs.Caches.{FitsIn};
ghost use Rattle.memory_outside.specs.inner.Entries.{entries_of};
ghost use Rattle.memory_outside.specs.inner.CacheRoom.{AreSlots};

use crate::slots::{Slot, add_file, add_piece, empty_file, slot_bytes, slot_place, used};
use std::alloc::{AllocError, Global};

// A copy of the value of that key, if there is one.
pub fn copied(alloc: Global, slots: &[Slot], key: &[u8]) -> Result<Option<Vec<u8>>, AllocError>
    ensures { IfOk result (λ found.
        option_map (λ value. value.items) found ≡ found_in (entries_of slots.now) key.now) }
{
    match slot_place(slots, key) {
        Some(k) => Ok(Some(Vec::from_slice(alloc, slot_bytes(slots, k))?)),
        None => Ok(None),
    }
}

// Puts the entry in place of the one of its key or behind the others, and says whether it fits.
pub fn put(
    slots: &mut Vec<Slot>,
    spare: &mut Vec<Slot>,
    room: usize,
    key: &[u8],
    value: &[u8],
) -> bool
    requires { AreSlots slots.old spare.old room }
    ensures entries { entries_of slots.new.items ≡
        (if result then with_cache_entry (entries_of slots.old.items) key.now value.now
        else entries_of slots.old.items) }
    ensures fits { IsTrue result ↔ FitsIn (vec_len slots.old + vec_len spare.old) room
        (with_cache_entry (entries_of slots.old.items) key.now value.now) }
    ensures slots { AreSlots slots.new spare.new room }
    ensures count { vec_len slots.new + vec_len spare.new ≡ vec_len slots.old + vec_len spare.old }
{
    match slot_place(slots, key) {
        Some(k) => replace(slots, k, room, value),
        None => add(slots, spare, room, key, value),
    }
}

// Puts other bytes in place of those of the k-th file, where they fit.
fn replace(slots: &mut Vec<Slot>, k: usize, room: usize, bytes: &[u8]) -> bool
    requires within { k < vec_len slots.old }
    requires rooms { All (HasSlotRoom room) slots.old.items }
    requires total { sum_by slot_size slots.old.items ≤ room }
    ensures files { slot_files slots.new.items ≡
        (if result then set (slot_files slots.old.items) k
        (record { name = file_name_at (slot_files slots.old.items) k; bytes = bytes.now })
        else slot_files slots.old.items) }
    ensures fits { IsTrue result ↔ (sum_by slot_size slots.old.items + length bytes.now
        ≤ room + length (bytes_at (slot_files slots.old.items) k)) }
    ensures rooms { All (HasSlotRoom room) slots.new.items }
    ensures total { sum_by slot_size slots.new.items ≤ room }
    ensures len { vec_len slots.new ≡ vec_len slots.old }
    ensures capacity { vec_capacity slots.new ≡ vec_capacity slots.old }
{
    let others = used(slots) - slot_bytes(slots, k).len();
    if bytes.len() > room - others {
        return false;
    }
    empty_file(slots, k, room);
    add_piece(slots, k, bytes, room);
    true
}

// Puts a file behind the others, where it fits.
fn add(slots: &mut Vec<Slot>, spare: &mut Vec<Slot>, room: usize, name: &[u8], bytes: &[u8]) -> bool
    requires { AreSlots slots.old spare.old room }
    ensures files { slot_files slots.new.items ≡
        (if result
        then slot_files slots.old.items ++ record { name = name.now; bytes = bytes.now } ∷ []
        else slot_files slots.old.items) }
    ensures fits { IsTrue result ↔ ((0 < vec_len spare.old)
        × (sum_by slot_size slots.old.items + length name.now + length bytes.now ≤ room)) }
    ensures slots { AreSlots slots.new spare.new room }
    ensures count { vec_len slots.new + vec_len spare.new ≡ vec_len slots.old + vec_len spare.old }
{
    let left = room - used(slots);
    if name.len() > left || bytes.len() > left - name.len() {
        return false;
    }
    let Some(slot) = spare.pop() else {
        return false;
    };
    let k = slots.len();
    add_file(slots, slot, name, room);
    add_piece(slots, k, bytes, room);
    true
}
