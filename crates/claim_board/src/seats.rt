// The seats of a board are made, and taken over at its end.
ghost use Rattle.std.specs.Prelude.{◌≡◌, ℕ, ◌+◌, ◌<◌, ◌≤◌, ◌^◌, [], ◌++◌, length, slice_index, replicate, IfOk, vec_len};
ghost use Rattle.std.specs.Mem.Slots.{slots_items, slots_len, IsFull};
ghost use Rattle.claim_board.specs.Protocol.{IsGood};
ghost use Rattle.claim_board.specs.Seats.{maker_view, task_words, words_state};
ghost use Rattle.claim_board.specs.inner.Seats.{board_of};
ghost use Rattle.claim_board.specs.Boards.{new_passes, states_of, AreOfBoard};

use crate::pass::Pass;
use crate::passes::Passes;
use crate::rule::{Claims, Knowledge, Makes, TakesOver};
use crate::size::Size;
use atomic_table::{Closed, Seat, Shared, Table};
use std::alloc::{AllocError, Global};

pub(crate) type BoardTable = Table<(), Knowledge, Size, Claims, Global>;

type Words = Shared<(), Knowledge, Size, Claims>;

// As many passes as `crew`, made by the first seat.
pub(crate) fn make_passes(
    alloc: Global,
    words: &Words,
    mut maker: Seat<(), Knowledge>,
    crew: u32,
) -> Result<Passes, AllocError>
    requires table { (maker.table_id ≡ words.now.table_id) × (maker.id ≡ 0)
        × (0 < words.now.table_id.words) }
    requires view { maker.me ≡ (maker_view words.now.key 0 [], []) }
    requires crew { crew ≡ words.now.key.crew }
    ensures { IfOk result (λ r. r ≡ new_passes (board_of words.now.table_id words.now.key)) }
{
    let mut members = Vec::with_capacity(alloc, crew as usize)?;
    for _made in 0..crew {
        let seat = words.split_seat::<Makes>(&mut maker);
        members.push(Pass { seat, ended: false })?;
    }
    Ok(Passes { members, maker })
}

// The first seat takes the passes over.
fn gather(
    words: &Words,
    mut maker: Seat<(), Knowledge>,
    mut members: Vec<Pass>,
) -> Seat<(), Knowledge>
    requires table { (maker.table_id ≡ words.now.table_id) × (maker.id ≡ 0)
        × (0 < words.now.table_id.words) }
    requires view { (maker.me ≡ (maker_view maker.me.0.size maker.me.0.made [], []))
        × (maker.me.0.size ≡ words.now.key) }
    requires members { AreOfBoard (board_of words.now.table_id words.now.key) members.items }
    ensures table { (result.table_id ≡ words.now.table_id) × (result.id ≡ 0) }
    ensures view { result.me
        ≡ (maker_view words.now.key maker.me.0.made (states_of members.items), []) }
{
    while let Some(pass) = members.pop() {
        let Pass { seat, ended: _ } = pass;
        words.join_seat::<TakesOver>(&mut maker, seat);
    }
    maker
}

// Ends the table, with the passes of its board.
pub(crate) fn take_back(table: BoardTable, passes: Passes) -> Closed<(), Global>
    requires board { (passes.board ≡ board_of table.shared.table_id table.shared.key)
        × (0 < table.shared.table_id.words) }
    requires members { AreOfBoard passes.board passes.members
        × (length passes.members ≡ passes.board.crew) }
    ensures full { IsFull result.words
        × (slots_len result.words ≡ length (slots_items result.words))
        × (length (slots_items result.words) ≡ table.shared.key.tasks + 1) }
    ensures slots { slots_len result.slots ≡ table.shared.table_id.slots }
    ensures good { IsGood table.shared.key.tasks table.shared.key.tries
        (words_state (slots_items result.words) (states_of passes.members)) }
{
    let Passes { members, maker } = passes;
    let maker = gather(&table.shared, maker, members);
    table.close_with(maker)
}

// The words of the tasks.
pub(crate) fn read_winners(
    closed: &Closed<(), Global>,
    mut winners: Vec<u32>,
    tasks: u32,
) -> Vec<u32>
    requires full { IsFull closed.now.words
        × (slots_len closed.now.words ≡ length (slots_items closed.now.words))
        × (length (slots_items closed.now.words) ≡ tasks + 1) }
    requires low { (t : ℕ) → t < tasks →
        slice_index (task_words (slots_items closed.now.words)) t < 2 ^ 32 }
    requires room { vec_len winners ≡ tasks }
    ensures { result.items ≡ task_words (slots_items closed.now.words) }
{
    for t in 0..tasks as usize {
        winners[t] = closed.word(t + 1) as u32;
    }
    winners
}
