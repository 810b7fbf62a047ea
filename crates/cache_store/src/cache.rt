// What is asked of kept values, and how a look for one fails.
ghost use Rattle.std.specs.Prelude.{◌≡◌, ◌≤◌, is_ok, if◌then◌else◌, IfSome, IfOk};
ghost use Rattle.std.specs.Option.{option_map};
ghost use Rattle.outside.specs.Cause.{HasCause};
ghost use Rattle.cache_store.specs.Cause.{HasFindCause};
ghost use Rattle.cache_store.specs.Entries.{found_in, with_cache_entry};
ghost use Rattle.cache_store.specs.Seen.{SeenCache};

use outside::Failed;
use std::alloc::{AllocError, Global};

/// Why a cache did not say whether it has an entry.
#[derive(Clone, Copy)]
pub enum FindFault {
    /// The cache failed, and counted the failure.
    Failed,
    /// Want of memory for the value.
    Memory,
}

impl From<AllocError> for FindFault {
    ghost use Rattle.std.specs.Prelude.{◌≡◌};
    ghost use Rattle.cache_store.specs.declared.cache.FindFault.TheVariants.{Memory};

    ghost from_gives = { λ _ e. e ≡ Memory };

    fn from(_e: AllocError) -> FindFault {
        FindFault::Memory
    }
}

/// Values that are kept under keys, from one run to the next.
///
/// A call that is refused changes no entry that is told, and no `find` does.
pub trait Cache {
    /// The entries, where the cache tells them, and how often it has failed. The count never falls.
    ghost seen: { Self → SeenCache };

    /// The value that is kept under this key, if there is one.
    ///
    /// Where entries are told, None comes exactly where they lack the key, and a value is that of
    /// the entry. Failed comes only where the count rose.
    fn find(&mut self, alloc: Global, key: &[u8]) -> Result<Option<Vec<u8>>, FindFault>
        ensures entries { (seen self.new).entries ≡ (seen self.old).entries }
        ensures found { IfSome (seen self.old).entries (λ entries. IfOk result (λ found.
            option_map (λ value. value.items) found ≡ found_in entries key.now)) }
        ensures cause { HasFindCause (seen self.old).faults (seen self.new).faults result };

    /// Keeps a value under a key, in place of the one that is kept there.
    ///
    /// Failed comes only where the count rose; no entry is changed then.
    fn keep(&mut self, key: &[u8], value: &[u8]) -> Result<(), Failed>
        ensures entries { (seen self.new).entries ≡ (if is_ok result then option_map
            (λ entries. with_cache_entry entries key.now value.now) (seen self.old).entries else
            (seen self.old).entries) }
        ensures cause { HasCause (seen self.old).faults (seen self.new).faults result };
}
