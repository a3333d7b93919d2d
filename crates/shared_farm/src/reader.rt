//! Readers of totals, and what they have seen together.
ghost use Rattle.std.specs.Prelude.{◌≡◌, IsSome};
ghost use Rattle.farm_entry.specs.Legal.{IsLegal};
ghost use Rattle.farm_entry.specs.Pages.{totals as totals_of};
ghost use Rattle.common_types.specs.Prefix.{IsPrefix, longer};

use crate::beginning::Beginning;
use farm_board::{Board, BoardPass};
use farm_entry::Totals;
use std::alloc::Global;
use std::marker::{Brand, Model, PhantomData};
use std::sync::Arc;

/// Who reads the totals of the shared farm that made it, without taking a turn. Contracts see a reader as the history
/// that it has seen. `B` is what the farm began with: where that picks a board, the reader's is that one.
#[derive(Drop)]
pub struct TotalsReader<B: Beginning = Brand> {
    pub(crate) board: Arc<Board, Global>,
    pub(crate) pass: BoardPass,
    pub(crate) of: PhantomData<B>,
}

impl<B: Beginning> Model for TotalsReader<B> {
    ghost use Rattle.std.specs.Prelude.{◌≡◌, List};
    ghost use Rattle.std.specs.Arc.{arc_value};
    ghost use Rattle.farm_entry.specs.declared.entry.Entry.{Entry};
    ghost use Rattle.shared_farm.specs.Posted.{IsPicked};

    ghost Value = { List Entry };

    ghost view = { λ r. r.pass.seen };

    ghost invariant = { λ r. (r.pass.board ≡ arc_value r.board) × IsPicked B.board (arc_value r.board) };
}

impl<B: Beginning> TotalsReader<B> {
    /// The totals of a legal history that begins with all that the reader has seen, and which it has then seen. It
    /// takes no turn, waits for nobody, and takes no memory.
    pub fn totals(&mut self) -> Totals
        ensures longer { IsPrefix self.old self.new }
        ensures legal { IsLegal self.new }
        ensures totals { result ≡ totals_of self.new }
    {
        self.board.read(&mut self.pass)
    }
}

/// What readers of a shared farm have seen together. Contracts see a mark as that history. `B` is what the farm began
/// with: where that picks a board, the readers' is that one.
#[derive(Drop)]
pub struct TotalsMark<B: Beginning = Brand> {
    pub(crate) pass: BoardPass,
    pub(crate) of: PhantomData<B>,
}

impl<B: Beginning> Model for TotalsMark<B> {
    ghost use Rattle.std.specs.Prelude.{◌≡◌, false, List};
    ghost use Rattle.farm_entry.specs.declared.entry.Entry.{Entry};
    ghost use Rattle.shared_farm.specs.Posted.{IsPicked};

    ghost Value = { List Entry };

    ghost view = { λ m. m.pass.seen };

    ghost invariant = { λ m. (m.pass.posts ≡ false) × IsPicked B.board m.pass.board };
}

impl<B: Beginning> TotalsMark<B> {
    /// Takes in what a reader has seen: the longer of the two histories, which begins with both. It takes no turn,
    /// waits for nobody, and takes no memory.
    pub fn take_in(&mut self, reader: &mut TotalsReader<B>)
        requires picked { IsSome B.board }
        ensures reader { reader.new ≡ reader.old }
        ensures longer { self.new ≡ longer self.old reader.old }
        ensures first { IsPrefix self.old self.new }
        ensures second { IsPrefix reader.old self.new }
    {
        let seen = reader.board.split(&mut reader.pass);
        reader.board.join(&mut self.pass, seen);
    }
}
