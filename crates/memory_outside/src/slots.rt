//! Files by name in slots, whose room is taken beforehand: what the forms in memory hold.
ghost use Rattle.std.specs.Prelude.{Some, None, ◌≡◌, ◌≤◌, ◌<◌, ◌+◌, ◌^◌, ◌++◌, ◌∷◌, [], List, vec_len, vec_capacity, All, length, sum_by, IfOk, OnErr, OnOk};
ghost use Rattle.std.proofs.Common.{set};
ghost use Rattle.memory_outside.specs.Slots.{bytes_at, slot_files, file_name_at, place_of_file, HasSlotRoom, slot_size};

use outside::File;
use std::alloc::{AllocError, Global};

/// A file, or the room for one.
#[derive(Drop)]
pub struct Slot {
    /// The name.
    pub name: Vec<u8>,
    /// The bytes.
    pub bytes: Vec<u8>,
}

/// The place of the file of that name.
pub fn slot_place(slots: &[Slot], name: &[u8]) -> Option<usize>
    ensures { result ≡ place_of_file (slot_files slots.now) name.now }
{
    for (k, slot) in slots.iter().enumerate() {
        if slot.name.as_slice() == name {
            return Some(k);
        }
    }
    None
}

/// The bytes of all files, names included.
pub fn used(slots: &[Slot]) -> usize
    requires { sum_by slot_size slots.now < 2 ^ 64 }
    ensures { result ≡ sum_by slot_size slots.now }
{
    let mut all = 0;
    for slot in slots {
        all += slot.name.len() + slot.bytes.len();
    }
    all
}

/// The bytes of the k-th file.
pub fn slot_bytes(slots: &[Slot], k: usize) -> &[u8]
    requires { k < length slots.now }
    ensures bytes { result.now ≡ bytes_at (slot_files slots.now) k }
    ensures within { length result.now ≤ sum_by slot_size slots.now }
{
    slots[k].bytes.as_slice()
}

/// Empties a file.
pub fn empty_file(slots: &mut Vec<Slot>, k: usize, room: usize)
    requires within { k < vec_len slots.old }
    requires rooms { All (HasSlotRoom room) slots.old.items }
    ensures files { slot_files slots.new.items ≡ set (slot_files slots.old.items) k
        (record { name = file_name_at (slot_files slots.old.items) k; bytes = [] }) }
    ensures rooms { All (HasSlotRoom room) slots.new.items }
    ensures total { sum_by slot_size slots.new.items
        + length (bytes_at (slot_files slots.old.items) k) ≡ sum_by slot_size slots.old.items }
    ensures len { vec_len slots.new ≡ vec_len slots.old }
    ensures capacity { vec_capacity slots.new ≡ vec_capacity slots.old }
{
    slots[k].bytes.clear();
}

/// Adds to a file a piece that there is room for.
pub fn add_piece(slots: &mut Vec<Slot>, k: usize, piece: &[u8], room: usize)
    requires within { k < vec_len slots.old }
    requires rooms { All (HasSlotRoom room) slots.old.items }
    requires fits { sum_by slot_size slots.old.items + length piece.now ≤ room }
    ensures files { slot_files slots.new.items ≡ set (slot_files slots.old.items) k
        (record {
          name = file_name_at (slot_files slots.old.items) k;
          bytes = bytes_at (slot_files slots.old.items) k ++ piece.now;
        }) }
    ensures rooms { All (HasSlotRoom room) slots.new.items }
    ensures total { sum_by slot_size slots.new.items ≡
        sum_by slot_size slots.old.items + length piece.now }
    ensures len { vec_len slots.new ≡ vec_len slots.old }
    ensures capacity { vec_capacity slots.new ≡ vec_capacity slots.old }
{
    let _ = slots[k].bytes.extend_from_slice(piece);
}

/// Adds an empty file of that name behind the others.
pub fn add_file(slots: &mut Vec<Slot>, mut slot: Slot, name: &[u8], room: usize)
    requires slot { HasSlotRoom room slot }
    requires name { length name.now ≤ room }
    requires free { vec_len slots.old < vec_capacity slots.old }
    requires rooms { All (HasSlotRoom room) slots.old.items }
    ensures files { slot_files slots.new.items ≡
        slot_files slots.old.items ++ record { name = name.now; bytes = [] } ∷ [] }
    ensures rooms { All (HasSlotRoom room) slots.new.items }
    ensures total { sum_by slot_size slots.new.items ≡
        sum_by slot_size slots.old.items + length name.now }
    ensures len { vec_len slots.new ≡ vec_len slots.old + 1 }
    ensures capacity { vec_capacity slots.old ≤ vec_capacity slots.new }
{
    slot.name.clear();
    slot.bytes.clear();
    let _ = slot.name.extend_from_slice(name);
    let _ = slots.push(slot);
}

// Room for a file of at most that many bytes.
fn new_slot(alloc: Global, room: usize) -> Result<Slot, AllocError>
    ensures empty { IfOk result (λ slot. (slot.name.items ≡ []) × (slot.bytes.items ≡ [])) }
    ensures room { IfOk result (HasSlotRoom room) }
{
    Ok(Slot {
        name: Vec::with_capacity(alloc, room)?,
        bytes: Vec::with_capacity(alloc, room)?,
    })
}

/// A copy of the files, each in a slot.
pub fn copy_files(
    alloc: Global,
    files: &[File],
    max_files: usize,
    room: usize,
) -> Result<Vec<Slot>, AllocError>
    requires { length files.now ≤ max_files }
    ensures files { IfOk result (λ slots. slot_files slots.items ≡ files.now) }
    ensures rooms { IfOk result (λ slots. All (HasSlotRoom room) slots.items) }
    ensures len { IfOk result (λ slots. vec_len slots ≡ length files.now) }
    ensures capacity { IfOk result (λ slots. max_files ≤ vec_capacity slots) }
{
    let mut slots = Vec::with_capacity(alloc, max_files)?;
    for file in files {
        let mut slot = new_slot(alloc, room)?;
        slot.name.extend_from_slice(file.name.as_bytes())?;
        slot.bytes.extend_from_slice(file.bytes.as_bytes())?;
        slots.push(slot)?;
    }
    Ok(slots)
}

/// That many slots to spare.
pub fn spare_slots(alloc: Global, count: usize, room: usize) -> Result<Vec<Slot>, AllocError>
    ensures rooms { IfOk result (λ spare. All (HasSlotRoom room) spare.items) }
    ensures len { IfOk result (λ spare. vec_len spare ≡ count) }
{
    let mut spare = Vec::with_capacity(alloc, count)?;
    for _turn in 0..count {
        spare.push(new_slot(alloc, room)?)?;
    }
    Ok(spare)
}
