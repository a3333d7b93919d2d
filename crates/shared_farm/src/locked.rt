//! What the lock of a shared farm holds.
ghost use Rattle.std.specs.Prelude.{◌≡◌, ◌≤◌, ◌<◌, ◌↔◌, ◌∷◌, [], true, IfOk, IfSome, IsSome, length, map};
ghost use Rattle.std.specs.Arc.{arc_value};
ghost use Rattle.entry_codec.specs.LogPage.{log_page};
ghost use Rattle.farm_disk.specs.Images.{moment};
ghost use Rattle.farm_entry.specs.Legal.{IsLegal};
ghost use Rattle.farm_store.specs.Answering.{BatchSays, CallSays};
ghost use Rattle.farm_store.specs.Entering.{Enters};
ghost use Rattle.farm_store.specs.Faults.{HasCallCause};
ghost use Rattle.farm_store.specs.Sizes.{asks_size};
ghost use Rattle.farm_store.specs.State.{IsStored};
ghost use Rattle.farm_store.specs.Together.{TogetherSays, all_asks};
ghost use Rattle.farm_store.specs.declared.asking.TheConstants.{MAX_BATCH, MAX_RECORD_BYTES};
ghost use Rattle.common_types.specs.Prefix.{IsPrefix};
ghost use Rattle.common_types.specs.Rows.{IsOlder};
ghost use Rattle.shared_farm.specs.Answered.{FitRecord, GoesOn, own_places};
ghost use Rattle.shared_farm.specs.Logs.{AreLogged, IsNewest};
ghost use Rattle.shared_farm.specs.Posted.{IsPicked};
ghost use Rattle.shared_farm.specs.Rests.{CameBy};
ghost use Rattle.shared_farm.specs.Turns.{failed_by};

use crate::beginning::Beginning;
use crate::posted::PostedStore;
use crate::reader::{TotalsMark, TotalsReader};
use crate::turn_log::{TurnLeft, TurnLog};
use common_types::Past;
use entry_codec::write_log_page;
use farm_board::{Board, BoardPass};
use farm_disk::DatedDisk;
use farm_entry::{Command, Entry, LeasedRun, Reply};
use farm_store::{Answers, Ask, CallFault, Part, Store};
use farm_types::{Memory, Moment};
use std::alloc::Global;
use std::marker::{Model, PhantomData};
use std::sync::Arc;
use turn_lock::{Places, Stands};

/// A store and the board of its totals, with the pass that posts them, and what each turn left. Between two calls the
/// totals of the whole history are posted, and the row that was told last is of now. Where it is picked what the farm
/// began with, the store came from that by turns: a lock that holds a store says no more of it than that there is one.
/// And so it is with the board. No more is pending than fits one record. Contracts see it as the store and the rows.
#[derive(Drop)]
pub struct Locked<D: DatedDisk, B: Beginning> {
    store: Store<D>,
    board: Arc<Board, Global>,
    posting: BoardPass,
    log: TurnLog<D::Over>,
    of: PhantomData<B>,
}

impl<D: DatedDisk, B: Beginning> Model for Locked<D, B> {
    ghost use Rattle.std.specs.Prelude.{◌≡◌, true, IfSome};
    ghost use Rattle.std.specs.Arc.{arc_value};
    ghost use Rattle.shared_farm.specs.Answered.{FitRecord};
    ghost use Rattle.shared_farm.specs.Logs.{AreLogged, IsNewest, LockedState};
    ghost use Rattle.shared_farm.specs.Posted.{IsPicked};
    ghost use Rattle.shared_farm.specs.Rests.{CameBy};

    ghost Value = { LockedState D };

    ghost view = { λ l. record { store = l.store; log = l.log } };

    ghost invariant = { λ l. (l.posting.board ≡ arc_value l.board) × (l.posting.posts ≡ true)
        × (l.posting.seen ≡ l.store.history) × IfSome B.begun (λ begun. CameBy D.Disk begun l.store)
        × (D.tells l.store.disk ≡ true → AreLogged l.store.history (D.told l.store.disk) l.log)
        × IsNewest D.dated (record { store = l.store; log = l.log })
        × IsPicked B.board (arc_value l.board) × FitRecord l.store.pending };
}

impl<D: DatedDisk, B: Beginning> Stands for Locked<D, B> {
    ghost entries = { λ s. s.store.history };

    ghost count = { λ s. D.count s.store.disk };

    ghost pending = { λ s. s.store.pending };

    ghost log = { λ s. s.log };
}

impl<D: DatedDisk, B: Beginning> Locked<D, B> {
    /// A store whose totals are posted.
    pub fn new(posted: PostedStore<D>) -> Locked<D, B>
        requires came { IfSome B.begun (λ begun. CameBy D.Disk begun posted.store) }
        requires board { IsPicked B.board posted.board }
        requires fit { FitRecord posted.store.pending }
        ensures same { result.store ≡ posted.store }
        ensures newest { IsNewest D.dated result }
    {
        let PostedStore {
            store,
            board,
            posting,
        } = posted;
        let mut log = TurnLog::new();
        tell(&mut log, &store);
        Locked {
            store,
            board,
            posting,
            log,
            of: PhantomData,
        }
    }

    /// Answers a command, and posts the totals.
    pub fn call(&mut self, alloc: Global, command: &Command, at: Moment) -> Result<Reply, CallFault>
        ensures says { CallSays command.now at result self.old.store self.new.store }
        ensures goes_on { GoesOn D.count self.old.store self.new.store }
        ensures told { IsOlder self.old.log self.new.log }
        ensures cause { HasCallCause result (D.count self.old.store.disk) (D.count self.new.store.disk) }
    {
        let _ = self.store.history();
        let result = self.store.call(alloc, command, at);
        post(&self.board, &mut self.posting, &self.store);
        tell(&mut self.log, &self.store);
        result
    }

    /// Answers a command by the run that it hands out, and posts the totals.
    pub fn enter(
        &mut self,
        alloc: Global,
        command: &Command,
        at: Moment,
    ) -> Result<Option<LeasedRun>, CallFault>
        ensures says { Enters command.now at result self.old.store self.new.store }
        ensures goes_on { GoesOn D.count self.old.store self.new.store }
        ensures told { IsOlder self.old.log self.new.log }
        ensures cause { HasCallCause result (D.count self.old.store.disk) (D.count self.new.store.disk) }
    {
        let _ = self.store.history();
        let result = self.store.enter(alloc, command, at);
        post(&self.board, &mut self.posting, &self.store);
        tell(&mut self.log, &self.store);
        result
    }

    /// Answers a batch, and posts the totals.
    pub fn call_batch(&mut self, alloc: Global, asks: &[Ask]) -> Result<Answers, CallFault>
        requires some { 1 ≤ length asks.now }
        requires few { length asks.now ≤ MAX_BATCH }
        ensures says { BatchSays asks.now result self.old.store self.new.store }
        ensures goes_on { GoesOn D.count self.old.store self.new.store }
        ensures told { IsOlder self.old.log self.new.log }
        ensures cause { HasCallCause result (D.count self.old.store.disk) (D.count self.new.store.disk) }
    {
        let _ = self.store.history();
        let result = self.store.call_batch(alloc, asks);
        post(&self.board, &mut self.posting, &self.store);
        tell(&mut self.log, &self.store);
        result
    }

    /// Answers the asks of several callers, whose new entries share a record, and posts the totals.
    pub fn call_together(&mut self, alloc: Global, parts: &mut [Part]) -> Result<(), CallFault>
        requires some { 1 ≤ length (all_asks parts.old) }
        requires fits { asks_size (all_asks parts.old) ≤ MAX_RECORD_BYTES }
        ensures says { TogetherSays parts.old parts.new result self.old.store self.new.store }
        ensures asks { map (λ part. part.asks) parts.new ≡ map (λ part. part.asks) parts.old }
        ensures goes_on { GoesOn D.count self.old.store self.new.store }
        ensures told { IsOlder self.old.log self.new.log }
        ensures cause { HasCallCause result (D.count self.old.store.disk) (D.count self.new.store.disk) }
    {
        let _ = self.store.history();
        let result = self.store.call_together(alloc, parts);
        post(&self.board, &mut self.posting, &self.store);
        tell(&mut self.log, &self.store);
        result
    }

    /// The history, without what is pending.
    pub fn history(&self) -> &[Entry]
        ensures value { result.now ≡ self.now.store.history }
        ensures legal { IsLegal self.now.store.history }
    {
        self.store.history()
    }

    /// How many entries the last call recorded for its asks.
    pub fn recorded(&self) -> usize
        ensures { result ≡ self.now.store.recorded }
    {
        self.store.recorded()
    }

    /// The places in the history of the entries that the last call recorded for its asks.
    pub fn own_places(&self) -> Places
        requires { self.now.store.recorded ≤ length self.now.store.history }
        ensures { result ≡ own_places self.now.store }
    {
        let recorded = self.recorded();
        Places::run(self.history().len() - recorded, recorded)
    }

    /// The bytes of a log page of the history.
    pub fn tail(&self, alloc: Global, from: u32) -> Result<Vec<u8>, Memory>
        requires { 1 ≤ from }
        ensures legal { IsLegal self.now.store.history }
        ensures page { IfOk result (λ bytes. bytes.items ≡ log_page from self.now.store.history) }
        ensures none { IfOk result (λ bytes. (bytes.items ≡ []) ↔ (length self.now.store.history < from)) }
    {
        write_log_page(alloc, self.store.history(), from)
    }

    /// A moment that is over, by which the whole history stood on the disk.
    pub fn passed(&self) -> D::Over
        ensures over { D.Over.at result ≡ D.dated self.now.store.disk }
        ensures newest { IsNewest D.dated self.now }
    {
        self.store.passed()
    }

    /// A reader that has seen the whole history.
    pub fn reader(&mut self) -> Result<TotalsReader<B>, Memory>
        ensures same { self.new ≡ self.old }
        ensures legal { IsLegal self.new.store.history }
        ensures seen { IfOk result (λ reader. reader ≡ self.new.store.history) }
    {
        let _ = self.store.history();
        match Arc::try_clone(&self.board) {
            Ok(mine) => Ok(TotalsReader {
                pass: self.board.split(&mut self.posting),
                board: mine,
                of: PhantomData,
            }),
            Err(_) => Err(Memory),
        }
    }

    /// Holds what readers have seen against the history, which begins with it.
    pub fn meet(&mut self, mark: TotalsMark<B>)
        requires picked { IsSome B.board }
        ensures same { self.new ≡ self.old }
        ensures legal { IsLegal self.new.store.history }
        ensures seen { IsPrefix mark self.new.store.history }
    {
        let _ = self.store.history();
        let TotalsMark { pass, of: _ } = mark;
        self.board.meet(&mut self.posting, pass);
    }

    /// The store again.
    pub fn into_store(self) -> Store<D>
        ensures same { result ≡ self.store }
        ensures came { IfSome B.begun (λ begun. CameBy D.Disk begun result) }
        ensures logged { D.tells result.disk ≡ true → AreLogged result.history (D.told result.disk) self.log }
        ensures fit { FitRecord result.pending }
    {
        let Locked {
            store,
            board: _,
            posting: _,
            log: _,
            of: _,
        } = self;
        store
    }
}

/// Whether the disk failed in a call.
pub fn has_failed<T>(answer: &Result<T, CallFault>) -> bool
    ensures { result ≡ failed_by answer.now }
{
    match answer {
        Err(CallFault::StoreFault { .. }) => true,
        _ => false,
    }
}

/// Posts the totals of a store's history, by the pass that posts.
fn post<D: DatedDisk>(board: &Arc<Board, Global>, posting: &mut BoardPass, store: &Store<D>)
    requires own { posting.old.board ≡ arc_value board.now }
    requires posts { posting.old.posts ≡ true }
    requires longer { IsPrefix posting.old.seen store.now.history }
    ensures posted { posting.new ≡ record { board = arc_value board.now; posts = true; seen = store.now.history } }
    ensures legal { IsLegal store.now.history }
{
    board.post(posting, store.totals(), store.history());
}

/// Tells what a turn left: the whole history, now.
fn tell<D: DatedDisk>(log: &mut TurnLog<D::Over>, store: &Store<D>)
    ensures told { log.new ≡ record { entries = length store.now.history; moment = D.dated store.now.disk } ∷ log.old }
    ensures moment { D.tells store.now.disk ≡ true → D.dated store.now.disk ≡ moment (D.told store.now.disk) }
    ensures stored { D.tells store.now.disk ≡ true
        → IsStored store.now.history store.now.pending (D.told store.now.disk) }
{
    log.tell(&TurnLeft {
        entries: store.history().len() as u64,
        over: store.passed(),
    });
}
