// A host in memory, which is down exactly at the places of a list and notes what it is asked.
ghost use Rattle.std.specs.Prelude.{◌≡◌, ◌↔◌, [], ◌∷◌, is_ok, Contains, IsErr, IfOk, OnOk, OnErr};
ghost use Rattle.outside.specs.Accounts.{Gains};
ghost use Rattle.outside.specs.Cause.{HasCause};
ghost use Rattle.memory_outside.specs.Hosts.{account_of, new_host, asked};

use flume_value::Pile;
use outside::{At, Down, Host};
use std::alloc::{AllocError, Global};
use std::marker::Model;

/// A host that is down exactly at the places of a list. It notes each place that it is asked for in
/// room that is taken when it is made; where that is used up it notes nothing, and tells no more.
/// Contracts see its list, its notes, its room, whether it tells, and its losses.
#[derive(Drop)]
pub struct MemHost {
    down_at: Pile<At>,
    passed: Vec<At>,
    downs: Vec<At>,
    room: usize,
    tells: bool,
    losses: u64,
}

impl Model for MemHost {
    ghost use Rattle.std.specs.Prelude.{◌≤◌, vec_capacity};
    ghost use Rattle.memory_outside.specs.Hosts.{HostInMemory};

    ghost Value = { HostInMemory };

    ghost view = { λ h. record {
      down_at = h.down_at;
      notes = record { passed = h.passed.items; downs = h.downs.items };
      room = h.room;
      tells = h.tells;
      losses = h.losses;
    } };

    ghost invariant = { λ h. (h.room ≤ vec_capacity h.passed) × (h.room ≤ vec_capacity h.downs) };
}

impl MemHost {
    /// A host that is down at these places, with room for that many notes.
    pub fn new(alloc: Global, down_at: Pile<At>, max_notes: u64) -> Result<Self, AllocError>
        ensures { IfOk result (λ host. host ≡ new_host down_at max_notes) }
    {
        let room = max_notes as usize;
        Ok(MemHost {
            down_at,
            passed: Vec::with_capacity(alloc, room)?,
            downs: Vec::with_capacity(alloc, room)?,
            room,
            tells: true,
            losses: 0,
        })
    }

    /// The places noted that it let through, in the order of the calls.
    pub fn passed(&self) -> &[At]
        ensures { result.now ≡ self.now.notes.passed }
    {
        &self.passed
    }

    /// The places noted at which it was down, in the order of the calls.
    pub fn downs(&self) -> &[At]
        ensures { result.now ≡ self.now.notes.downs }
    {
        &self.downs
    }

    /// How often it was down.
    pub fn losses(&self) -> u64
        ensures { result ≡ self.now.losses }
    {
        self.losses
    }
}

impl Host for MemHost {
    ghost account = { account_of };

    fn pass(&mut self, at: At) -> Result<(), Down>
        ensures through { OnOk result
            (Gains (account_of self.old) (account_of self.new) (at ∷ []) []) }
        ensures refused { OnErr result
            (Gains (account_of self.old) (account_of self.new) [] (at ∷ [])) }
        ensures cause { HasCause self.old.losses self.new.losses result }

        // It is down exactly where its list says.
        ensures down { IsErr result ↔ Contains self.old.down_at at }
        ensures asked { self.new ≡ asked self.old at (is_ok result) }
    {
        let down = self.down_at.as_slice().contains(&at);
        self.tells = self.tells
            && self.passed.len() < self.room
            && self.downs.len() < self.room - self.passed.len();
        if self.tells && down {
            let _ = self.downs.push(at);
        } else if self.tells {
            let _ = self.passed.push(at);
        }
        if down {
            self.losses = self.losses.saturating_add(1);
            return Err(Down);
        }
        Ok(())
    }
}
