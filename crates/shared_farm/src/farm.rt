//! The shared farm.
ghost use Rattle.std.specs.Prelude.{◌≡◌, ◌≤◌, ◌<◌, ◌↔◌, ◌+◌, ◌++◌, ◌∷◌, [], true, Some, None, IfOk, IfErr, IfSome, IsSome, length, max};
ghost use Rattle.entry_codec.specs.LogPage.{log_page};
ghost use Rattle.farm_store.specs.declared.asking.TheConstants.{MAX_BATCH};
ghost use Rattle.common_types.specs.Prefix.{IsPrefix, longer};
ghost use Rattle.turn_lock.specs.Known.{IsOwned, IsReady, IsSettled, all_parts, both_pending, both_stakes, first_stake, no_turn};
ghost use Rattle.turn_lock.specs.Known.{stake_given, stake_kept};
ghost use Rattle.turn_lock.specs.Loans.{HasOut};
ghost use Rattle.turn_lock.specs.Places.{ArePlaces, both_places};
ghost use Rattle.shared_farm.specs.Answered.{FitRecord};
ghost use Rattle.shared_farm.specs.Errands.{IsErrand};
ghost use Rattle.shared_farm.specs.Logs.{AreLogged, IsOver};
ghost use Rattle.shared_farm.specs.Outcomes.{IsDone};
ghost use Rattle.shared_farm.specs.Posted.{IsPicked};
ghost use Rattle.shared_farm.specs.Rests.{CameBy};
ghost use Rattle.shared_farm.specs.Turns.{AreOwn, EntersInTurn, IsCall, IsLook, IsTurn, KeepsPass};

use crate::beginning::Beginning;
use crate::errand::{Errands, FarmLock};
use crate::group_wait::GroupWait;
use crate::locked::{Locked, has_failed};
use crate::posted::PostedStore;
use crate::reader::{TotalsMark, TotalsReader};
use crate::sharing::{ask_alone, hand_in};
use common_types::Past;
use farm_board::JobTable;
use farm_disk::DatedDisk;
use farm_entry::{Command, LeasedRun, Reply};
use farm_store::{Answers, Ask, CallFault, Store};
use farm_types::{Memory, Moment};
use std::alloc::Global;
use std::marker::{Brand, Model};
use std::sync::Wait;
use turn_lock::{Pass, TurnLock};

/// A farm whose history stands on a disk, for callers in many threads. Contracts see it as the name of its lock, by
/// which a pass is known to be its own. `B` is what it began with.
#[derive(Drop)]
pub struct SharedFarm<D: DatedDisk, B: Beginning = Brand> {
    lock: FarmLock<D, B>,
    // None where there was no memory for it: each caller then makes its own calls.
    errands: Option<Errands<D, B, D::Over>>,
    // How long who runs an errand waits for others.
    waits: GroupWait,
}

impl<D: DatedDisk, B: Beginning> Model for SharedFarm<D, B> {
    ghost use Rattle.std.specs.Prelude.{◌≡◌, IfSome};
    ghost use Rattle.atomic_table.specs.Seated.{TableId};

    ghost Value = { TableId };

    ghost view = { λ s. s.lock };

    ghost invariant = { λ s. IfSome s.errands (λ errands. errands.key ≡ s.lock) };
}

impl<D: DatedDisk, B: Beginning> SharedFarm<D, B> {
    /// The farm of a store, and a pass that has seen just its history, where no board is picked. Running out of memory
    /// hands the store back.
    pub fn of(alloc: Global, store: Store<D>) -> Result<(SharedFarm<D, B>, Pass), Store<D>>
        requires came { IfSome B.begun (λ begun. CameBy D.Disk begun store) }
        requires board { B.board ≡ None }
        requires fit { FitRecord store.pending }
        ensures pass { IfOk result (λ made. made.1 ≡ record {
          lock = made.0;
          ready = true;
          seen = store.history;
          mine = [];
          faults = D.count store.disk;
          uses = 0;
          last = no_turn;
          pending = Some store.pending;
          rows = record { entries = length store.history; moment = D.dated store.disk } ∷ [];
          stake = first_stake store.history store.pending;
        }) }
        ensures back { IfErr result (λ same. same ≡ store) }
    {
        let posted = match PostedStore::of(alloc, store) {
            Ok(posted) => posted,
            Err(store) => return Err(store),
        };
        match SharedFarm::<D, B>::share(alloc, posted) {
            Ok((farm, pass, _)) => Ok((farm, pass)),
            Err(store) => Err(store),
        }
    }

    /// The farm of a store whose totals are posted, a pass that has seen just its history, and a mark of the totals
    /// that has seen as much. Running out of memory hands the store back.
    pub fn share(
        alloc: Global,
        posted: PostedStore<D>,
    ) -> Result<(SharedFarm<D, B>, Pass, TotalsMark<B>), Store<D>>
        requires came { IfSome B.begun (λ begun. CameBy D.Disk begun posted.store) }
        requires board { IsPicked B.board posted.board }
        requires fit { FitRecord posted.store.pending }
        ensures pass { IfOk result (λ made. made.1 ≡ record {
          lock = made.0;
          ready = true;
          seen = posted.store.history;
          mine = [];
          faults = D.count posted.store.disk;
          uses = 0;
          last = no_turn;
          pending = Some posted.store.pending;
          rows = record { entries = length posted.store.history; moment = D.dated posted.store.disk } ∷ [];
          stake = first_stake posted.store.history posted.store.pending;
        }) }
        ensures mark { IfOk result (λ made. made.2 ≡ posted.store.history) }
        ensures back { IfErr result (λ same. same ≡ posted.store) }
    {
        let mut posted = posted;
        let mark = posted.mark::<B>();
        let locked = match Box::new(alloc, Locked::new(posted)) {
            Ok(boxed) => boxed,
            Err(failed) => return Err(failed.value.into_store()),
        };
        match TurnLock::new(alloc, locked) {
            Ok((lock, pass)) => {
                let errands = JobTable::new(alloc, &lock).ok();
                let waits = GroupWait::new();
                Ok((
                    SharedFarm {
                        lock,
                        errands,
                        waits,
                    },
                    pass,
                    mark,
                ))
            }
            Err(locked) => Err(Box::into_inner(locked).into_store()),
        }
    }

    /// Another pass, which has seen as much and has no calls of its own. It gets one of the pass's parts of the farm,
    /// of which there are `all_parts` of `turn_lock`. It takes no memory.
    pub fn split(&self, pass: &mut Pass) -> Pass
        requires ready { IsReady self.now pass.old }
        requires parts { 1 < pass.old.stake.parts }
        ensures same { pass.new ≡ record pass.old {
          uses = pass.old.uses + 1;
          last = no_turn;
          stake = stake_kept pass.old.seen pass.old.faults pass.old.stake;
        } }
        ensures other { result ≡ record {
          lock = self.now;
          ready = true;
          seen = pass.old.seen;
          mine = [];
          faults = pass.old.faults;
          uses = 0;
          last = no_turn;
          pending = pass.old.pending;
          rows = pass.old.rows;
          stake = stake_given pass.old.seen pass.old.faults pass.old.stake;
        } }
    {
        self.lock.split(pass)
    }

    /// Takes in what another pass knows: the longer of the two histories, which begins with both, the greater count,
    /// and the places of both in their order.
    pub fn join(&self, pass: &mut Pass, other: Pass)
        requires ready { IsReady self.now pass.old }
        requires other { IsReady self.now other }
        ensures ready { IsReady self.now pass.new }
        ensures longer { pass.new.seen ≡ longer pass.old.seen other.seen }
        ensures first { IsPrefix pass.old.seen pass.new.seen }
        ensures second { IsPrefix other.seen pass.new.seen }
        ensures faults { pass.new.faults ≡ max pass.old.faults other.faults }
        ensures mine { pass.new.mine ≡ both_places pass.old.mine other.mine }
        ensures places { ArePlaces 0 (length pass.new.seen) pass.new.mine }
        ensures uses { pass.new.uses ≡ pass.old.uses + 1 }
        ensures last { pass.new.last ≡ no_turn }
        ensures pending { pass.new.pending ≡ both_pending pass.old.pending other.pending }
        ensures rows { pass.new.rows ≡ pass.old.rows ++ other.rows }
        ensures stake { pass.new.stake ≡ both_stakes pass.old.stake other.stake }
        ensures out { HasOut pass.new.stake.lending }
    {
        self.lock.join(pass, other);
    }

    /// Answers a command at the caller's turn, for which it waits: by the history that there is then, which begins
    /// with all that the pass has seen. A new entry is stored before its reply is given, and its totals are posted.
    ///
    /// # Errors
    ///
    /// Those of the store's call: a refusal, exactly where the farm's definitions refuse the command at that history;
    /// a fault of the disk in this turn; out of memory.
    pub fn call<R: Wait>(
        &self,
        rt: &R,
        alloc: Global,
        pass: &mut Pass,
        command: &Command,
        at: Moment,
    ) -> Result<Reply, CallFault>
        requires ready { IsReady self.now pass.old }
        ensures turn { IsCall D.count command.now at result pass.old pass.new }
        ensures own { AreOwn pass.old pass.new }
        ensures keeps { KeepsPass self.now pass.old pass.new }
    {
        let mut turn = self.lock.turn(rt, pass);
        let result = turn.value.call(alloc, command, at);
        turn.failed = has_failed(&result);
        turn.own = turn.value.own_places();
        self.lock.back(turn, pass);
        self.ring_next();
        result
    }

    /// Answers a command at the caller's turn as [`SharedFarm::call`] does, but gives of its reply only the run that it
    /// hands out, if it does: neither the commit nor the test of that run is looked up.
    ///
    /// # Errors
    ///
    /// Those of [`SharedFarm::call`].
    pub fn enter<R: Wait>(
        &self,
        rt: &R,
        alloc: Global,
        pass: &mut Pass,
        command: &Command,
        at: Moment,
    ) -> Result<Option<LeasedRun>, CallFault>
        requires ready { IsReady self.now pass.old }
        ensures turn { EntersInTurn D.count command.now at result pass.old pass.new }
        ensures own { AreOwn pass.old pass.new }
        ensures keeps { KeepsPass self.now pass.old pass.new }
    {
        let mut turn = self.lock.turn(rt, pass);
        let result = turn.value.enter(alloc, command, at);
        turn.failed = has_failed(&result);
        turn.own = turn.value.own_places();
        self.lock.back(turn, pass);
        self.ring_next();
        result
    }

    /// Answers 1 to `MAX_BATCH` asks in one turn, as single calls one after the other would be, their new entries
    /// stored in one record. Callers who wait while turns are long share a record: whoever has the turn then answers
    /// their asks behind its own, each caller's at a turn of its own in the history, and stores them all at once. The
    /// asks come back as they are. Beside the answers it gives a moment of the disk that was over after the turn, by
    /// which all that the pass has then seen stood.
    ///
    /// # Errors
    ///
    /// A fault of the disk in this turn, or out of memory, of the whole batch. A refusal is an answer.
    pub fn call_batch<R: Wait>(
        &self,
        rt: &R,
        alloc: Global,
        pass: &mut Pass,
        asks: &mut Vec<Ask>,
    ) -> (Result<Answers, CallFault>, D::Over)
        requires ready { IsReady self.now pass.old }
        requires some { 1 ≤ length asks.old.items }
        requires few { length asks.old.items ≤ MAX_BATCH }
        ensures asks { asks.new.items ≡ asks.old.items }
        ensures turn { IsTurn D.count asks.old.items result.0 pass.old pass.new }
        ensures own { AreOwn pass.old pass.new }
        ensures keeps { KeepsPass self.now pass.old pass.new }
        ensures over { IsOver (D.Over.at result.1) pass.new }
    {
        match &self.errands {
            Some(errands) if self.lock.turns_are_long() => {
                hand_in(rt, &self.lock, errands, &self.waits, alloc, pass, asks)
            }
            _ => {
                let asked = ask_alone(rt, &self.lock, alloc, pass, asks);
                self.ring_next();
                asked
            }
        }
    }

    /// A reader of totals, made in a turn that changes nothing: it has seen that turn's history, and so has the pass.
    pub fn reader<R: Wait>(&self, rt: &R, pass: &mut Pass) -> Result<TotalsReader<B>, Memory>
        requires ready { IsReady self.now pass.old }
        ensures look { IsLook pass.old pass.new }
        ensures mine { pass.new.mine ≡ pass.old.mine }
        ensures keeps { KeepsPass self.now pass.old pass.new }
        ensures seen { IfOk result (λ reader. reader ≡ pass.new.seen) }
    {
        let mut turn = self.lock.turn(rt, pass);
        let reader = turn.value.reader();
        self.lock.back(turn, pass);
        self.ring_next();
        reader
    }

    /// Holds what readers of this farm have seen together against its history, in a turn that changes nothing. The
    /// history that the pass has then seen begins with it.
    pub fn meet<R: Wait>(&self, rt: &R, pass: &mut Pass, mark: TotalsMark<B>)
        requires ready { IsReady self.now pass.old }
        requires picked { IsSome B.board }
        ensures look { IsLook pass.old pass.new }
        ensures mine { pass.new.mine ≡ pass.old.mine }
        ensures keeps { KeepsPass self.now pass.old pass.new }
        ensures seen { IsPrefix mark pass.new.seen }
    {
        let mut turn = self.lock.turn(rt, pass);
        turn.value.meet(mark);
        self.lock.back(turn, pass);
        self.ring_next();
    }

    /// The bytes of a log page: the spelling of the most entries of the history, from this one on, counted from 1, that
    /// have together at most `LOG_PAGE_BYTES` of `entry_codec`. There are none exactly where the history has fewer
    /// entries. The history is that of a turn which changes nothing, and which the pass has then seen; entries that
    /// are pending aren't in it. Beside the page it gives a moment of the disk that was over in the turn.
    ///
    /// # Errors
    ///
    /// [`Memory`].
    pub fn tail<R: Wait>(
        &self,
        rt: &R,
        alloc: Global,
        pass: &mut Pass,
        from: u32,
    ) -> (Result<Vec<u8>, Memory>, D::Over)
        requires ready { IsReady self.now pass.old }
        requires from { 1 ≤ from }
        ensures page { IfOk result.0 (λ bytes. bytes.items ≡ log_page from pass.new.seen) }
        ensures none { IfOk result.0 (λ bytes. (bytes.items ≡ []) ↔ (length pass.new.seen < from)) }
        ensures look { IsLook pass.old pass.new }
        ensures mine { pass.new.mine ≡ pass.old.mine }
        ensures keeps { KeepsPass self.now pass.old pass.new }
        ensures over { IsOver (D.Over.at result.1) pass.new }
    {
        let turn = self.lock.turn(rt, pass);
        let page = turn.value.tail(alloc, from);
        let over = turn.value.passed();
        self.lock.back(turn, pass);
        self.ring_next();
        (page, over)
    }

    /// The store. Where a turn is out that was never given back, it waits and doesn't return. Each entry of its history
    /// was recorded for the pass, or was pending in what it left undecided, where it has all parts of the farm.
    pub fn close<R: Wait>(self, rt: &R, pass: Pass) -> Store<D>
        requires ready { IsReady self pass }
        ensures seen { IsPrefix pass.seen result.history }
        ensures faults { pass.faults ≤ D.count result.disk }
        ensures settled { IsSettled pass.pending pass.faults (D.count result.disk) result.pending }
        ensures came { IfSome B.begun (λ begun. CameBy D.Disk begun result) }
        ensures logged { D.tells result.disk ≡ true → AreLogged result.history (D.told result.disk) pass.rows }
        ensures owned { pass.stake.parts ≡ all_parts → IsOwned pass.mine pass.stake.undecided result.history }
        ensures fit { FitRecord result.pending }
    {
        let SharedFarm {
            lock,
            errands: _,
            waits: _,
        } = self;
        Box::into_inner(lock.close(rt, pass)).into_store()
    }

    /// Has one of the callers go on who wait for their batches: the turn that was given back took none of these over.
    fn ring_next(&self) {
        if let Some(errands) = &self.errands {
            errands.ring_next();
        }
    }
}
