// A shelf in memory, with bounded room, whose calls fail where a list names them.
ghost use Rattle.std.specs.Prelude.{Some, None, false, ◌≡◌, ◌≤◌, ◌<◌, ◌+◌, ◌⊎◌, ◌↔◌, [], length, take, sum_by, is_some, is_ok, unwrap_or, if◌then◌else◌, slice_get, IsSomeAnd, IsTrue, IsErr, IfOk, OnOk, OnErr};
ghost use Rattle.std.specs.Option.{option_copied};
ghost use Rattle.outside.specs.Begun.{left_at_begin};
ghost use Rattle.memory_outside.specs.Calls.{count_after, fails_begin, fails_call, no_calls, with_begin, with_call};
ghost use Rattle.outside.specs.Cause.{HasStrictCause};
ghost use Rattle.outside.specs.Files.{bytes_of, file_size, with_file, with_piece};

use crate::calls::{Calls, Fail, failed};
use crate::slots::{
    Slot, add_file, add_piece, copy_files, empty_file, slot_place, spare_slots, used,
};
use flume_value::Pile;
use outside::{Failed, File, Shelf};
use std::alloc::{AllocError, Global};
use std::marker::Model;

/// Files in memory, to write, in room that is taken when it is made: for a number of files, and for
/// a number of bytes, names included. A `write` takes its whole piece. A call fails exactly where
/// the list names it, or what it would add doesn't fit.
#[derive(Drop)]
pub struct MemShelf {
    slots: Vec<Slot>,
    spare: Vec<Slot>,
    room: usize,
    calls: Calls,
    begun: Option<usize>,
    left: u64,
    faults: u64,
}

impl Model for MemShelf {
    ghost use Rattle.std.specs.Prelude.{◌+◌, vec_len};
    ghost use Rattle.std.specs.Option.{option_map};
    ghost use Rattle.memory_outside.specs.Memory.{ShelfInMemory};

    ghost Value = { ShelfInMemory };

    ghost use Rattle.memory_outside.specs.inner.Room.{IsWithinRoom};
    ghost use Rattle.memory_outside.specs.Slots.{slot_files, file_name_at};

    ghost view = { λ s. record {
      files = slot_files s.slots.items;
      begun = option_map (file_name_at (slot_files s.slots.items)) s.begun;
      left = s.left;
      max_files = vec_len s.slots + vec_len s.spare;
      max_bytes = s.room;
      calls = s.calls;
      faults = s.faults;
    } };

    ghost invariant = { IsWithinRoom };
}

impl MemShelf {
    /// A shelf with these files and room for so many files and bytes, whose named calls are to
    /// fail.
    pub fn new(
        alloc: Global,
        files: Pile<File>,
        fails: Pile<Fail>,
        max_files: u32,
        max_bytes: u64,
    ) -> Result<Self, AllocError>
        requires few { length files ≤ max_files }
        requires fits { sum_by file_size files ≤ max_bytes }
        ensures { IfOk result (λ shelf. shelf ≡ record {
          files = files;
          begun = None;
          left = 0;
          max_files = max_files;
          max_bytes = max_bytes;
          calls = no_calls fails;
          faults = 0;
        }) }
    {
        let count = max_files as usize;
        let room = max_bytes as usize;
        let slots = copy_files(alloc, files.as_slice(), count, room)?;
        let spare = spare_slots(alloc, count - slots.len(), room)?;
        Ok(MemShelf {
            slots,
            spare,
            room,
            calls: Calls::new(fails),
            begun: None,
            left: 0,
            faults: 0,
        })
    }

    /// The bytes of the file of that name, where there is one.
    pub fn bytes(&self, name: &str) -> Option<&[u8]>
        ensures { option_copied result ≡ bytes_of self.now.files name.now }
    {
        match slot_place(&self.slots, name.as_bytes()) {
            Some(k) => Some(self.slots[k].bytes.as_slice()),
            None => None,
        }
    }

    /// How many files there are.
    pub fn file_count(&self) -> usize
        ensures { result ≡ length self.now.files }
    {
        self.slots.len()
    }

    /// The name of the k-th file, counted from 0: a file that is begun anew keeps its place, a new
    /// one goes last.
    pub fn name_at(&self, k: usize) -> &[u8]
        requires { k < length self.now.files }
        ensures { IsSomeAnd (slice_get self.now.files k) (λ file. result.now ≡ file.name) }
    {
        &self.slots[k].name
    }

    /// How many calls have failed.
    pub fn faults(&self) -> u64
        ensures { result ≡ self.now.faults }
    {
        self.faults
    }
}

impl Shelf for MemShelf {
    ghost seen = { λ s. record {
      files = Some s.files;
      begun = is_some s.begun;
      left = s.left;
      faults = s.faults;
    } };

    ghost begun_name = { λ s. unwrap_or s.begun [] };

    fn begin(&mut self, name: &str) -> Result<(), Failed>
        ensures files { Some self.new.files ≡
            (if is_ok result then Some (with_file self.old.files name.now [])
            else Some self.old.files) }
        ensures begun { is_some self.new.begun ≡ is_ok result }
        ensures name { OnOk result (unwrap_or self.new.begun [] ≡ name.now) }
        ensures left { self.new.left ≡ left_at_begin (is_some self.old.begun) self.old.left }
        ensures cause { HasStrictCause self.old.faults self.new.faults result }

        // It fails exactly where its list names the call, or a file that is new doesn't fit.
        ensures fails { IsErr result ↔ (IsTrue (fails_begin self.old.calls)
            ⊎ ((bytes_of self.old.files name.now ≡ None)
            × ((self.old.max_files ≤ length self.old.files)
            ⊎ (self.old.max_bytes < sum_by file_size self.old.files + length name.now)))) }
        ensures counted { self.new.faults ≡ count_after result self.old.faults }
        ensures calls { self.new.calls ≡ with_begin self.old.calls }
        ensures room { (self.new.max_files ≡ self.old.max_files)
            × (self.new.max_bytes ≡ self.old.max_bytes) }
    {
        let_go(&mut self.begun, &mut self.left);
        if self.calls.begin() {
            return Err(failed(&mut self.faults));
        }
        match slot_place(&self.slots, name.as_bytes()) {
            Some(k) => {
                empty_file(&mut self.slots, k, self.room);
                self.begun = Some(k);
            }
            None => {
                if name.len() > self.room - used(&self.slots) {
                    return Err(failed(&mut self.faults));
                }
                let Some(slot) = self.spare.pop() else {
                    return Err(failed(&mut self.faults));
                };
                let k = self.slots.len();
                add_file(&mut self.slots, slot, name.as_bytes(), self.room);
                self.begun = Some(k);
            }
        }
        Ok(())
    }

    fn write(&mut self, piece: &[u8]) -> Result<usize, Failed>
        requires { IsTrue (is_some self.old.begun) }
        ensures ok { IfOk result (λ n. Some self.new.files ≡
            Some (with_piece self.old.files (unwrap_or self.old.begun []) (take n piece.now))) }
        ensures err { OnErr result (Some self.new.files ≡ Some self.old.files) }
        ensures begun { IsTrue (is_some self.new.begun) }
        ensures name { unwrap_or self.new.begun [] ≡ unwrap_or self.old.begun [] }
        ensures left { self.new.left ≡ self.old.left }
        ensures bound { IfOk result (λ n. n ≤ length piece.now) }
        ensures some { IfOk result (λ n. 0 < length piece.now → 0 < n) }
        ensures cause { HasStrictCause self.old.faults self.new.faults result }

        // It takes the whole piece, or fails exactly where its list names the call or the piece
        // doesn't fit.
        ensures whole { IfOk result (λ n. n ≡ length piece.now) }
        ensures fails { IsErr result ↔ (IsTrue (fails_call self.old.calls)
            ⊎ (self.old.max_bytes < sum_by file_size self.old.files + length piece.now)) }
        ensures counted { self.new.faults ≡ count_after result self.old.faults }
        ensures calls { self.new.calls ≡ with_call self.old.calls }
        ensures room { (self.new.max_files ≡ self.old.max_files)
            × (self.new.max_bytes ≡ self.old.max_bytes) }
    {
        let Some(k) = self.begun else { unreachable!() };
        let fails = self.calls.call();
        if fails || piece.len() > self.room - used(&self.slots) {
            return Err(failed(&mut self.faults));
        }
        add_piece(&mut self.slots, k, piece, self.room);
        Ok(piece.len())
    }

    fn end(&mut self) -> Result<(), Failed>
        requires { IsTrue (is_some self.old.begun) }
        ensures files { Some self.new.files ≡ Some self.old.files }
        ensures begun { is_some self.new.begun ≡ false }
        ensures left { self.new.left ≡ self.old.left }
        ensures cause { HasStrictCause self.old.faults self.new.faults result }

        // It fails exactly where its list names the call.
        ensures fails { IsErr result ↔ IsTrue (fails_call self.old.calls) }
        ensures counted { self.new.faults ≡ count_after result self.old.faults }
        ensures calls { self.new.calls ≡ with_call self.old.calls }
        ensures room { (self.new.max_files ≡ self.old.max_files)
            × (self.new.max_bytes ≡ self.old.max_bytes) }
    {
        self.begun = None;
        if self.calls.call() {
            return Err(failed(&mut self.faults));
        }
        Ok(())
    }
}

// Lets go of the file that is begun, if one is: it is left begun.
fn let_go(begun: &mut Option<usize>, left: &mut u64)
    ensures begun { begun.new ≡ None }
    ensures left { left.new ≡ left_at_begin (is_some begun.old) left.old }
{
    if begun.take().is_some() {
        *left = left.saturating_add(1);
    }
}
