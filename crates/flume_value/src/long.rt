// A long text: its bytes stand in an allocation, and a number beside it mostly tells its order.
ghost use Rattle.std.specs.Prelude.{◌≡◌, ◌≤◌, IfOk, length};
ghost use Rattle.flume_value.specs.inner.Numbers.{IsFirst};

use crate::held::Held;
use crate::numbers::first_of;
use std::alloc::{AllocError, Global};
use std::marker::Model;

/// Eight bytes or more, which contracts see as their list. The first eight are told as a number
/// without a look at the allocation.
#[derive(Drop)]
pub(crate) struct Long {
    first: u64,
    bytes: Held<Vec<u8>>,
}

impl Model for Long {
    ghost use Rattle.std.specs.Prelude.{List, ℕ};
    ghost use Rattle.std.specs.Coded.{coded_list, coded_ℕ};
    ghost use Rattle.flume_value.specs.inner.Numbers.{IsFirst};

    ghost Value = { List ℕ };

    ghost coded = { coded_list coded_ℕ };

    ghost view = { λ s. s.bytes.items };

    ghost invariant = { λ s. IsFirst s.first s.bytes.items };
}

impl Long {
    /// The text of these bytes, which are not copied.
    pub(crate) fn new(alloc: Global, bytes: Vec<u8>) -> Result<Long, AllocError>
        requires { 8 ≤ length bytes.items }
        ensures { IfOk result (λ s. s ≡ bytes.items) }
    {
        let first = first_of(bytes.as_slice());
        Ok(Long {
            first,
            bytes: Held::new(alloc, bytes)?,
        })
    }

    /// The bytes.
    pub(crate) fn as_bytes(&self) -> &[u8]
        ensures { result.now ≡ self.now }
    {
        self.bytes.get().as_slice()
    }

    /// The first eight bytes as a number.
    pub(crate) fn first(&self) -> u64
        ensures { IsFirst result self.now }
    {
        self.first
    }

    /// The bytes themselves.
    pub(crate) fn into_vec(self) -> Vec<u8>
        ensures { result.items ≡ self }
    {
        let Long { first: _, bytes } = self;
        bytes.into_inner()
    }
}
