// A short text: its bytes stand in place, so it takes no memory, and numbers tell its order.
ghost use Rattle.std.specs.Prelude.{◌≡◌, ◌++◌, ◌+◌, ◌≤◌, length, nat_eq};
ghost use Rattle.std.specs.Ordering.{nat_cmp};
ghost use Rattle.std.specs.Cmp.Lexicographic.{pointwise, slice_cmp};
ghost use Rattle.flume_value.specs.inner.Numbers.{IsFirst};

use crate::numbers::{ROOM, first_in, order};
use std::cmp::Ordering;
use std::marker::Model;

/// At most 22 bytes, which contracts see as their list. Behind them are zeros.
#[derive(Drop)]
pub(crate) struct Short {
    len: u8,
    bytes: [u8; ROOM],
}

impl Model for Short {
    ghost use Rattle.std.specs.Prelude.{◌≡◌, List, ℕ, take, ◌≤◌};
    ghost use Rattle.std.specs.Coded.{coded_list, coded_ℕ};
    ghost use Rattle.flume_value.specs.inner.Padded.{padded};

    ghost Value = { List ℕ };

    ghost coded = { coded_list coded_ℕ };

    ghost view = { λ s. take s.len s.bytes };

    ghost invariant = { λ s. (s.len ≤ 22) × (s.bytes ≡ padded 22 (take s.len s.bytes)) };
}

impl Short {
    /// A text of these bytes, copied.
    pub(crate) fn new(bytes: &[u8]) -> Short
        requires { length bytes.now ≤ 22 }
        ensures { result ≡ bytes.now }
    {
        let mut all = [0; ROOM];
        let len = bytes.len();
        all[..len].copy_from_slice(bytes);
        Short {
            len: len as u8,
            bytes: all,
        }
    }

    /// A text of the bytes of both, one after the other.
    pub(crate) fn joined(front: &[u8], back: &[u8]) -> Short
        requires { length front.now + length back.now ≤ 22 }
        ensures { result ≡ front.now ++ back.now }
    {
        let mut all = [0; ROOM];
        let middle = front.len();
        let end = middle + back.len();
        all[..middle].copy_from_slice(front);
        all[middle..end].copy_from_slice(back);
        Short::new(&all[..end])
    }

    /// The bytes.
    pub(crate) fn as_bytes(&self) -> &[u8]
        ensures { result.now ≡ self.now }
    {
        &self.bytes[..self.len as usize]
    }

    /// The first eight bytes as a number.
    pub(crate) fn first(&self) -> u64
        ensures { IsFirst result self.now }
    {
        first_in(&self.bytes)
    }

    /// How it stands to the other, by three numbers.
    pub(crate) fn compare(&self, other: &Short) -> Ordering
        ensures { result ≡ slice_cmp nat_cmp self.now other.now }
    {
        order(&self.bytes, self.len, &other.bytes, other.len)
    }

    /// Whether it has the other's bytes, by the same numbers.
    pub(crate) fn equals(&self, other: &Short) -> bool
        ensures { result ≡ pointwise nat_eq self.now other.now }
    {
        self.compare(other).is_eq()
    }
}
