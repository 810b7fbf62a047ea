// The rule of a board's table, what its steps tell, and how its seats are made and taken over.
use crate::size::Size;
use atomic_table::{Join, Play, Split, TableRule};
use std::marker::Model;

/// What a seat knows, which exists in proofs alone: no value of this type is made.
pub(crate) struct Knowledge {}

impl Model for Knowledge {
    ghost use Rattle.claim_board.specs.Seats.{View, spent_view};

    ghost Value = { View };

    ghost view = { λ _. spent_view };
}

pub(crate) struct Claims;

impl TableRule<(), Knowledge, Size> for Claims {
    ghost use Rattle.std.specs.Prelude.{[]};
    ghost use Rattle.claim_board.specs.Seats.{Rule, maker_view};

    ghost holds = { Rule };

    ghost first = { λ k. maker_view k 0 [] };
}

pub(crate) struct Draws;

impl Play<(), Knowledge> for Draws {
    ghost use Rattle.claim_board.specs.inner.Seats.{draw_tells};

    ghost then = { draw_tells };
}

pub(crate) struct Looks;

impl Play<(), Knowledge> for Looks {
    ghost use Rattle.claim_board.specs.inner.Seats.{look_tells};

    ghost then = { look_tells };
}

pub(crate) struct Commits;

impl Play<(), Knowledge> for Commits {
    ghost use Rattle.claim_board.specs.inner.Seats.{commit_tells};

    ghost then = { commit_tells };
}

pub(crate) struct Makes;

impl Split<Knowledge> for Makes {
    ghost use Rattle.claim_board.specs.inner.Seats.{make_left, make_right};

    ghost left = { make_left };

    ghost right = { make_right };
}

pub(crate) struct TakesOver;

impl Join<Knowledge> for TakesOver {
    ghost use Rattle.claim_board.specs.Seats.{spent_view};
    ghost use Rattle.claim_board.specs.inner.Seats.{take_over};

    ghost both = { take_over };

    ghost spent = { spent_view };
}
