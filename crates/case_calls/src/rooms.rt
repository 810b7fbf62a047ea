// What fits a room: so many things, of so many bytes.
ghost use Rattle.std.specs.Prelude.{◌≡◌, ◌+◌, ◌≤◌, IsTrue, length, sum_by};

use cache_store::CacheEntry;
use flume_value::Pile;
use outside::File;
use std::alloc::Global;
use worked_cases::Room;

/// What takes room: its name, or its key, and what it has.
pub trait Stored {
    ghost use Rattle.std.specs.Prelude.{ℕ};

    /// How many bytes both have.
    ghost size: { Self → ℕ };

    /// How many bytes the name has, and how many the rest.
    fn sizes(&self) -> (u64, u64)
        ensures { size self.now ≡ result.0 + result.1 };
}

impl Stored for File {
    ghost use Rattle.outside.specs.Files.{file_size};

    ghost size = { file_size };

    fn sizes(&self) -> (u64, u64) {
        (self.name.len() as u64, self.bytes.len() as u64)
    }
}

impl Stored for CacheEntry {
    ghost use Rattle.cache_store.specs.Entries.{entry_size};

    ghost size = { entry_size };

    fn sizes(&self) -> (u64, u64) {
        (self.key.len() as u64, self.value.len() as u64)
    }
}

/// These, which fit the room, since a case is not read where they do not.
pub fn fitting<T: Stored + Drop>(alloc: Global, items: Pile<T>, room: Room) -> Pile<T>
    ensures few { length result ≤ room.files }
    ensures fits { sum_by T.size result ≤ room.bytes }
{
    if items.len() as u64 <= u64::from(room.files) && fits(items.as_slice(), room.bytes) {
        items
    } else {
        Pile::new(alloc)
    }
}

// Whether these have no more bytes than this.
fn fits<T: Stored>(items: &[T], most: u64) -> bool
    ensures { IsTrue result → sum_by T.size items.now ≤ most }
{
    let mut left = most;
    for item in items {
        let (name, rest) = item.sizes();
        if name > left || rest > left - name {
            return false;
        }
        left = left - name - rest;
    }
    true
}
