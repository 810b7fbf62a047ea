// A cache that has no entry and keeps none.
ghost use Rattle.std.specs.Prelude.{◌≡◌, [], None, Some, Ok, Err, IsOk, IsErr, IfOk, is_ok, if◌then◌else◌};
ghost use Rattle.std.specs.Option.{option_map};
ghost use Rattle.outside.specs.Cause.{HasCause, raised};
ghost use Rattle.cache_store.specs.Cause.{HasFindCause};
ghost use Rattle.cache_store.specs.Entries.{found_in, with_cache_entry};

use crate::cache::{Cache, FindFault};
use outside::Failed;
use std::alloc::Global;
use std::marker::Model;

/// No entries. It finds nothing, and each `keep` fails.
#[derive(Drop)]
pub struct NoCache {
    faults: u64,
}

impl Model for NoCache {
    ghost use Rattle.std.specs.Prelude.{ℕ};
    ghost use Rattle.std.specs.Coded.{coded_ℕ};

    ghost Value = { ℕ };

    ghost coded = { coded_ℕ };

    ghost view = { λ s. s.faults };
}

impl NoCache {
    /// No entries, and no failures so far.
    pub fn new() -> NoCache
        ensures { result ≡ 0 }
    {
        NoCache { faults: 0 }
    }
}

impl Cache for NoCache {
    ghost use Rattle.std.specs.Prelude.{Some, []};

    ghost seen = { λ s. record { entries = Some []; faults = s } };

    fn find(&mut self, _alloc: Global, _key: &[u8]) -> Result<Option<Vec<u8>>, FindFault> {
        Ok(None)
    }

    fn keep(&mut self, _key: &[u8], _value: &[u8]) -> Result<(), Failed> {
        self.faults = self.faults.saturating_add(1);
        Err(Failed)
    }
}
