//! A store before its farm is shared.
ghost use Rattle.std.specs.Prelude.{◌≡◌, IfErr, IfOk};
ghost use Rattle.shared_farm.specs.Posted.{IsPicked};

use crate::beginning::Beginning;
use crate::reader::TotalsMark;
use farm_board::{Board, BoardPass};
use farm_disk::Disk;
use farm_store::Store;
use std::alloc::Global;
use std::marker::{Model, PhantomData};
use std::sync::Arc;

/// A store, the board on which the totals of its history are posted, and the pass that posts them. Contracts see it as
/// the store and the name of the board's table, so that a call that shares the farm can pick the board.
#[derive(Drop)]
pub struct PostedStore<D: Disk> {
    pub(crate) store: Store<D>,
    pub(crate) board: Arc<Board, Global>,
    pub(crate) posting: BoardPass,
}

impl<D: Disk> Model for PostedStore<D> {
    ghost use Rattle.std.specs.Prelude.{◌≡◌, true};
    ghost use Rattle.std.specs.Arc.{arc_value};
    ghost use Rattle.shared_farm.specs.Posted.{PostedState};

    ghost Value = { PostedState D };

    ghost view = { λ p. record { store = p.store; board = arc_value p.board } };

    ghost invariant = { λ p. (p.posting.board ≡ arc_value p.board) × (p.posting.posts ≡ true)
        × (p.posting.seen ≡ p.store.history) };
}

impl<D: Disk> PostedStore<D> {
    /// A store, whose totals are posted. Running out of memory hands it back.
    pub fn of(alloc: Global, store: Store<D>) -> Result<PostedStore<D>, Store<D>>
        ensures same { IfOk result (λ posted. posted.store ≡ store) }
        ensures back { IfErr result (λ same. same ≡ store) }
    {
        let Ok((board, posting)) = Board::of(alloc, store.totals(), store.history()) else {
            return Err(store);
        };
        let Ok(board) = Arc::new(alloc, board) else {
            return Err(store);
        };
        Ok(PostedStore {
            store,
            board,
            posting,
        })
    }

    /// The store again.
    pub fn into_store(self) -> Store<D>
        ensures same { result ≡ self.store }
    {
        let PostedStore {
            store,
            board: _,
            posting: _,
        } = self;
        store
    }

    /// A mark that has seen the whole history.
    pub(crate) fn mark<B: Beginning>(&mut self) -> TotalsMark<B>
        requires board { IsPicked B.board self.old.board }
        ensures same { self.new ≡ self.old }
        ensures seen { result ≡ self.old.store.history }
    {
        TotalsMark {
            pass: self.board.split(&mut self.posting),
            of: PhantomData,
        }
    }
}
