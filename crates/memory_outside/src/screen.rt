// A screen in memory, with bounded room, whose writes fail where a list names them.
ghost use Rattle.std.specs.Prelude.{Some, [], ◌≡◌, ◌≤◌, ◌<◌, ◌+◌, ◌++◌, ◌⊎◌, ◌↔◌, length, take, IsTrue, IsErr, IfOk, OnErr};
ghost use Rattle.memory_outside.specs.Calls.{count_after, is_numbered};
ghost use Rattle.outside.specs.Cause.{HasStrictCause, raised};

use crate::calls::failed;
use flume_value::Pile;
use outside::{Failed, Screen};
use std::alloc::{AllocError, Global};
use std::marker::Model;

/// A text in memory, in room that is taken when it is made. A `write` takes its whole piece, or
/// fails exactly where the list names its number, counted from 0, or the piece doesn't fit.
#[derive(Drop)]
pub struct MemScreen {
    text: Vec<u8>,
    room: usize,
    fails: Pile<u32>,
    calls: u64,
    faults: u64,
}

impl Model for MemScreen {
    ghost use Rattle.std.specs.Prelude.{◌≤◌, vec_capacity};
    ghost use Rattle.memory_outside.specs.Memory.{ScreenInMemory};

    ghost Value = { ScreenInMemory };

    ghost view = { λ s. record {
      text = s.text.items;
      max_bytes = s.room;
      fails = s.fails;
      calls = s.calls;
      faults = s.faults;
    } };

    ghost invariant = { λ s. s.room ≤ vec_capacity s.text };
}

impl MemScreen {
    /// An empty screen with room for that many bytes, whose named calls are to fail.
    pub fn new(alloc: Global, fails: Pile<u32>, max_bytes: u64) -> Result<Self, AllocError>
        ensures { IfOk result (λ screen. screen ≡ record {
          text = [];
          max_bytes = max_bytes;
          fails = fails;
          calls = 0;
          faults = 0;
        }) }
    {
        let room = max_bytes as usize;
        Ok(MemScreen {
            text: Vec::with_capacity(alloc, room)?,
            room,
            fails,
            calls: 0,
            faults: 0,
        })
    }

    /// The bytes written.
    pub fn text(&self) -> &[u8]
        ensures { result.now ≡ self.now.text }
    {
        &self.text
    }

    /// How many calls have failed.
    pub fn faults(&self) -> u64
        ensures { result ≡ self.now.faults }
    {
        self.faults
    }
}

impl Screen for MemScreen {
    ghost seen = { λ s. record { text = Some s.text; faults = s.faults } };

    fn write(&mut self, piece: &[u8]) -> Result<usize, Failed>
        ensures ok { IfOk result (λ n.
            Some self.new.text ≡ Some (self.old.text ++ take n piece.now)) }
        ensures err { OnErr result (Some self.new.text ≡ Some self.old.text) }
        ensures bound { IfOk result (λ n. n ≤ length piece.now) }
        ensures some { IfOk result (λ n. 0 < length piece.now → 0 < n) }
        ensures cause { HasStrictCause self.old.faults self.new.faults result }

        // It takes the whole piece, or fails exactly where its list names the call or the piece
        // doesn't fit.
        ensures whole { IfOk result (λ n. n ≡ length piece.now) }
        ensures fails { IsErr result ↔ (IsTrue (is_numbered self.old.fails self.old.calls)
            ⊎ (self.old.max_bytes < length self.old.text + length piece.now)) }
        ensures counted { self.new.faults ≡ count_after result self.old.faults }
        ensures calls { self.new.calls ≡ raised self.old.calls }
        ensures kept { (self.new.fails ≡ self.old.fails)
            × (self.new.max_bytes ≡ self.old.max_bytes) }
    {
        let call = self.calls;
        self.calls = call.saturating_add(1);
        let fits = self.text.len() <= self.room && piece.len() <= self.room - self.text.len();
        if !fits
            || is_numbered(self.fails.as_slice(), call)
            || self.text.extend_from_slice(piece).is_err()
        {
            return Err(failed(&mut self.faults));
        }
        Ok(piece.len())
    }
}

fn is_numbered(fails: &[u32], call: u64) -> bool
    ensures { result ≡ is_numbered fails.now call }
{
    fails.iter().any(|fail| u64::from(*fail) == call)
}
