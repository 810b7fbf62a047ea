// A worker's part of a board.
use crate::rule::Knowledge;
use atomic_table::Seat;
use std::marker::Model;

/// A worker's part of a board, with which it draws attempts and claims tasks.
/// Contracts see whose pass it is, and what it has done. Only `draw`, `look` and `commit` change
/// that.
#[derive(Drop)]
pub struct Pass {
    pub(crate) seat: Seat<(), Knowledge>,
    pub(crate) ended: bool,
}

impl Model for Pass {
    ghost use Rattle.std.specs.Prelude.{◌≡◌, []};
    ghost use Rattle.claim_board.specs.Boards as boards;
    ghost use Rattle.claim_board.specs.Seats.{pass_view};
    ghost use Rattle.claim_board.specs.inner.Seats.{pass_in, seat_pass};

    ghost Value = { boards.Pass };

    ghost view = { λ p. seat_pass p.seat.table_id p.seat.me.0 };

    ghost invariant = { λ p. (p.seat.me ≡ (pass_view p.seat.me.0.size (pass_in p.seat.me.0), []))
        × (p.ended ≡ (pass_in p.seat.me.0).ended) };
}
