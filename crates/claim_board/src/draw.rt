// A draw, and what becomes of it.
ghost use Rattle.std.specs.Prelude.{◌≡◌};

use std::marker::Model;

/// The draw `number` of a board, which is the attempt `attempt` of the task `task`. A commit spends
/// it.
#[derive(Drop)]
pub struct Draw {
    pub(crate) number: u64,
    pub(crate) task: u32,
    pub(crate) attempt: u32,
}

impl Model for Draw {
    ghost use Rattle.claim_board.specs.Boards.{Drawn};

    ghost Value = { Drawn };

    ghost view = { λ d. record { number = d.number; task = d.task; attempt = d.attempt } };
}

impl Draw {
    /// How many draws were made of the board before this one.
    pub fn number(&self) -> u64
        ensures { result ≡ self.now.number }
    {
        self.number
    }

    /// The task, counted from 0.
    pub fn task(&self) -> u32
        ensures { result ≡ self.now.task }
    {
        self.task
    }

    /// The attempt of the task, counted from 1.
    pub fn attempt(&self) -> u32
        ensures { result ≡ self.now.attempt }
    {
        self.attempt
    }
}

/// The draw won its task.
#[derive(Drop, PartialEq, Eq)]
pub struct Won;

/// Another attempt had won the task. Contracts see the number of that attempt.
#[derive(Drop)]
pub struct Lost {
    pub(crate) attempt: u32,
}

impl Model for Lost {
    ghost use Rattle.std.specs.Prelude.{ℕ};

    ghost Value = { ℕ };

    ghost view = { λ l. l.attempt };
}

impl Lost {
    /// The attempt that had won the task.
    pub fn attempt(&self) -> u32
        ensures { result ≡ self.now }
    {
        self.attempt
    }
}
