// A board, which its workers share.
ghost use Rattle.std.specs.Prelude.{◌≡◌, ◌≢◌, ◌*◌, ◌^◌, ◌<◌, ◌≤◌, true, false, length, IfOk, IfErr, IfSome, IfNone, IsNone};
ghost use Rattle.claim_board.specs.Protocol.{IsGood};
ghost use Rattle.claim_board.specs.Boards.{new_passes, AreOfBoard, IsOpenDraw, Drew, DrewNone, Saw, HasWon, HasLost, KeepsClaims, KeepsOtherClaims};
ghost use Rattle.claim_board.specs.Told.{closing_state, DrawnOnce, WonOnce, SawWinners, LostToWinners, EndedPastLimit};

use crate::draw::{Draw, Lost, Won};
use crate::pass::Pass;
use crate::passes::Passes;
use crate::rule::{Commits, Draws, Looks};
use crate::seats::{BoardTable, make_passes, read_winners, take_back};
use crate::size::Size;
use crate::tally::Tally;
use atomic_table::Table;
use std::alloc::{AllocError, Global};
use std::marker::Model;

/// Tasks whose attempts are drawn, and the word of each task, which the first attempt to be
/// committed wins.
/// Contracts see the name by which its passes know it, and its size.
#[derive(Drop)]
pub struct Board {
    table: BoardTable,
    tasks: u32,
    tries: u32,
    // for the winners, so that `close` takes no memory
    room: Vec<u32>,
}

impl Model for Board {
    ghost use Rattle.std.specs.Prelude.{◌≡◌, ◌+◌, vec_len};
    ghost use Rattle.claim_board.specs.Boards as boards;
    ghost use Rattle.claim_board.specs.Seats.{IsSize};
    ghost use Rattle.claim_board.specs.inner.Seats.{board_of};

    ghost Value = { boards.Board };

    ghost view = { λ b. board_of b.table.shared.table_id b.table.shared.key };

    ghost invariant = { λ b. (b.tasks ≡ b.table.shared.key.tasks)
        × (b.tries ≡ b.table.shared.key.tries)
        × (b.table.shared.table_id.words ≡ b.tasks + 1) × (b.table.shared.table_id.slots ≡ 0)
        × (vec_len b.room ≡ b.tasks) × IsSize b.table.shared.key };
}

impl Board {
    /// A board of so many tasks, each with so many tries, and as many passes as `crew`, which have
    /// done nothing.
    pub fn new(
        alloc: Global,
        tasks: u32,
        tries: u32,
        crew: u32,
    ) -> Result<(Board, Passes), AllocError>
        requires tasks { 0 < tasks }
        requires tries { (0 < tries) × (tries ≤ 8) }
        requires crew { (0 < crew) × (crew ≤ 16) }
        requires limit { tasks * tries < 2 ^ 31 }
        ensures size { IfOk result (λ r.
            (r.0.tasks ≡ tasks) × (r.0.tries ≡ tries) × (r.0.crew ≡ crew)) }
        ensures passes { IfOk result (λ r. r.1 ≡ new_passes r.0) }
    {
        let size = Size { tasks, tries, crew };
        let room = vec![in alloc; 0u32; tasks as usize]?;
        let words = vec![in alloc; 0u64; tasks as usize + 1]?;
        let (table, maker) = Table::of_words(alloc, words.as_slice(), &size)?;
        let passes = make_passes(alloc, &table.shared, maker, crew)?;
        let board = Board {
            table,
            tasks,
            tries,
            room,
        };
        Ok((board, passes))
    }

    /// Draws the next attempt, by one step. There is none where each attempt of each task has been
    /// drawn. A pass that was told so is told so again, by no step.
    pub fn draw(&self, pass: &mut Pass) -> Option<Draw>
        requires { pass.old.board ≡ self.now }
        ensures same { pass.new.board ≡ pass.old.board }
        // a pass that was told None draws no more
        ensures again { pass.old.state.ended ≡ true → IsNone result × (pass.new ≡ pass.old) }
        // else None comes of a number past the attempts, which ends the pass
        ensures none { pass.old.state.ended ≡ false →
            IfNone result (DrewNone self.now pass.old.state pass.new.state) }
        ensures ended { IfNone result (pass.new.state.ended ≡ true) }
        ensures claims { KeepsClaims self.now pass.old.state pass.new.state }
        ensures some { IfSome result (λ d. (pass.old.state.ended ≡ false)
            × Drew self.now pass.old.state pass.new.state d) }
    {
        if pass.ended {
            return None;
        }
        let number = self.table.shared.fetch_add::<Draws>(&mut pass.seat, 0, 1);
        let tasks = self.tasks as u64;
        if number >= tasks * self.tries as u64 {
            pass.ended = true;
            return None;
        }
        Some(Draw {
            number,
            task: (number % tasks) as u32,
            attempt: (number / tasks) as u32 + 1,
        })
    }

    /// The attempt that has won the task, if one has. One step, which the pass keeps in mind as
    /// seen, with its place in the one order of the steps of all passes: what it saw stood there
    /// then.
    pub fn look(&self, pass: &mut Pass, task: u32) -> Option<u32>
        requires board { pass.old.board ≡ self.now }
        requires task { task < self.now.tasks }
        ensures same { pass.new.board ≡ pass.old.board }
        ensures claims { KeepsClaims self.now pass.old.state pass.new.state }
        ensures none { IfNone result (Saw pass.old.state pass.new.state task 0) }
        ensures some { IfSome result (λ a. (a ≢ 0) × (a ≤ self.now.tries)
            × Saw pass.old.state pass.new.state task a) }
    {
        let word = task as usize + 1;
        let attempt = self.table.shared.load::<Looks>(&mut pass.seat, word);
        if attempt == 0 {
            return None;
        }
        Some(attempt as u32)
    }

    /// Claims the draw's task for its attempt, by one step, and spends the draw. It is lost where
    /// another attempt has won the task.
    pub fn commit(&self, pass: &mut Pass, draw: Draw) -> Result<Won, Lost>
        requires board { pass.old.board ≡ self.now }
        requires claimable { IsOpenDraw self.now pass.old.state draw }
        ensures same { pass.new.board ≡ pass.old.board }
        ensures claims { KeepsOtherClaims self.now pass.old.state pass.new.state draw.number }
        ensures won { IfOk result (λ _. HasWon pass.old.state pass.new.state draw.number) }
        ensures lost { IfErr result (λ a. (a ≢ 0) × (a ≤ self.now.tries)
            × HasLost pass.old.state pass.new.state draw.number a) }
    {
        let shared = &self.table.shared;
        let word = draw.task as usize + 1;
        let attempt = draw.attempt as u64;
        let found = shared.compare_exchange::<Commits>(&mut pass.seat, word, 0, attempt);
        if found == 0 {
            return Ok(Won);
        }
        Err(Lost {
            attempt: found as u32,
        })
    }

    /// Ends the board, with all its passes, and tells the winners. It takes no memory.
    pub fn close(self, passes: Passes) -> Tally
        requires board { passes.board ≡ self }
        requires members { AreOfBoard self passes.members × (length passes.members ≡ self.crew) }
        // what the tally and the passes say together is a good state of the protocol
        ensures good { IsGood self.tasks self.tries (closing_state result passes.members) }
        ensures size { length result.winners ≡ self.tasks }
        ensures draws { DrawnOnce result passes.members }
        ensures winners { WonOnce self result passes.members }
        ensures seen { SawWinners result passes.members }
        ensures lost { LostToWinners self result passes.members }
        ensures ended { EndedPastLimit self result passes.members }
    {
        let Board {
            table,
            tasks,
            tries: _,
            room,
        } = self;
        let closed = take_back(table, passes);
        let winners = read_winners(&closed, room, tasks);
        let draws = closed.word(0);
        closed.free();
        Tally { draws, winners }
    }
}
