// The passes of a board, as they are handed out and handed in.
ghost use Rattle.std.specs.Prelude.{◌≡◌, length};
ghost use Rattle.std.specs.Borrow.{sem};
ghost use Rattle.claim_board.specs.Lends.{lends_members};

use crate::pass::Pass;
use crate::rule::Knowledge;
use atomic_table::Seat;
use std::marker::Model;

/// The passes of a board, which `Board::new` makes with it and `Board::close` takes back.
#[derive(Drop)]
pub struct Passes {
    pub(crate) members: Vec<Pass>,
    // it made the members, and takes them over at the end
    pub(crate) maker: Seat<(), Knowledge>,
}

impl Model for Passes {
    ghost use Rattle.std.specs.Prelude.{◌≡◌, []};
    ghost use Rattle.claim_board.specs.Boards as boards;
    ghost use Rattle.claim_board.specs.Seats.{maker_view};
    ghost use Rattle.claim_board.specs.inner.Seats.{maker_passes};

    ghost Value = { boards.Passes };

    ghost view = { λ p. maker_passes p.maker.table_id p.maker.me.0 p.members.items };

    ghost invariant = { λ p. (p.maker.id ≡ 0)
        × (p.maker.me ≡ (maker_view p.maker.me.0.size p.maker.me.0.size.crew [], [])) };
}

impl Passes {
    /// The members, for reading.
    pub fn as_slice(&self) -> &[Pass]
        ensures { result.now ≡ self.now.members }
    {
        self.members.as_slice()
    }

    /// Lends the members, one to each worker.
    pub fn as_mut_slice(&mut self) -> &mut [Pass]
        ensures* writes_back { sem 𝓛 (lends_members self.entry result) }
        ensures value { result.now ≡ self.old.members }
    {
        self.members.as_mut_slice()
    }
}
