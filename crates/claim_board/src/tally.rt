// What a closed board leaves.
ghost use Rattle.std.specs.Prelude.{◌≡◌, ◌<◌, length, slice_index};

use std::marker::Model;

/// The count of all draws, and each task's winning attempt.
#[derive(Drop)]
pub struct Tally {
    pub(crate) draws: u64,
    pub(crate) winners: Vec<u32>,
}

impl Model for Tally {
    ghost use Rattle.claim_board.specs.Boards as boards;

    ghost Value = { boards.Tally };

    ghost view = { λ t. record { draws = t.draws; winners = t.winners.items } };
}

impl Tally {
    /// How many draws were made, with those that were told that nothing is left.
    pub fn draws(&self) -> u64
        ensures { result ≡ self.now.draws }
    {
        self.draws
    }

    /// The attempt that won a task of the board, or 0 where none did.
    pub fn winner(&self, task: u32) -> u32
        requires { task < length self.now.winners }
        ensures { result ≡ slice_index self.now.winners task }
    {
        self.winners[task as usize]
    }
}
