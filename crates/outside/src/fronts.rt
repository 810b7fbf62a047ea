// What is left of a piece, and the front of it, copied.
ghost use Rattle.std.specs.Prelude.{◌≡◌, ◌≤◌, ◌<◌, ◌++◌, ◌↔◌, [], IsTrue, take, length};

use flume_value::Pile;
use std::marker::Model;

/// What is left to read of a piece, which contracts see as the list of its bytes.
#[derive(Drop)]
pub(crate) struct Front {
    piece: Pile<u8>,
    at: usize,
}

impl Model for Front {
    ghost use Rattle.std.specs.Prelude.{List, ℕ, ◌≤◌, drop, length};
    ghost use Rattle.std.specs.Coded.{coded_list, coded_ℕ};

    ghost Value = { List ℕ };

    ghost coded = { coded_list coded_ℕ };

    ghost view = { λ it. drop it.at it.piece };

    ghost invariant = { λ it. it.at ≤ length it.piece };
}

impl Front {
    /// A piece of which nothing is read yet.
    pub(crate) fn new(piece: Pile<u8>) -> Front
        ensures { result ≡ piece }
    {
        Front { piece, at: 0 }
    }

    /// Whether all of it is read.
    pub(crate) fn is_empty(&self) -> bool
        ensures { IsTrue result ↔ (self.now ≡ []) }
    {
        self.piece.as_slice()[self.at..].is_empty()
    }

    /// Reads as many bytes as the buffer takes, or as are left.
    pub(crate) fn read(&mut self, buf: &mut [u8]) -> usize
        ensures bytes { self.old ≡ take result buf.new ++ self.new }
        ensures bound { result ≤ length buf.old }
        ensures some { 0 < length buf.old → 0 < length self.old → 0 < result }
    {
        let n = copy_front(&self.piece.as_slice()[self.at..], buf);
        self.at += n;
        n
    }
}

/// Copies the front of the bytes that are left to the buffer, as far as it goes.
pub(crate) fn copy_front(rest: &[u8], buf: &mut [u8]) -> usize
    ensures front { take result buf.new ≡ take result rest.now }
    ensures bound { result ≤ length buf.old }
    ensures bytes { result ≤ length rest.now }
    ensures some { 0 < length buf.old → 0 < length rest.now → 0 < result }
{
    let n = buf.len().min(rest.len());
    buf[..n].copy_from_slice(&rest[..n]);
    n
}
