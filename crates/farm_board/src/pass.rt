//! What a caller knows of a board.
ghost use Rattle.std.specs.Prelude.{◌≡◌};

use crate::row::View;
use atomic_table::Seat;
use farm_entry::Totals;
use std::marker::Model;

/// A caller's pass to a board: the one that posts, or one that reads. Contracts see it as the history that it has
/// seen. It keeps the totals of that history, so that it has an answer where posts come between all its tries.
#[derive(Drop)]
pub struct BoardPass {
    pub(crate) seat: Seat<(), View>,
    pub(crate) posts: bool,
    pub(crate) last: Totals,
}

impl Model for BoardPass {
    ghost use Rattle.farm_board.specs.Reader.{Reader};
    ghost use Rattle.farm_board.specs.Views.{IsStill};

    ghost Value = { Reader };

    ghost view = { λ p. record { board = p.seat.table_id; posts = p.posts; seen = p.seat.me.0.seen } };

    ghost invariant = { λ p. IsStill p.posts p.seat.me p.last };
}
