//! A store: a farm whose history stands on a disk.

ghost use Rattle.std.specs.Prelude.{
  ◌≡◌,
  ◌≢◌,
  ◌≤◌,
  ◌<◌,
  ◌+◌,
  ◌++◌,
  [],
  true,
  false,
  List,
  length,
  map,
  IfOk,
  IfErr,
  OnOk,
  OnErr,
};
ghost use Rattle.std.specs.Option.{option_map};
ghost use Rattle.entry_codec.specs.Spelling.{spelling};
ghost use Rattle.farm_disk.specs.Images.{EachImage, IsSettled, LeavesOnly, LeavesSinceSync, moment};
ghost use Rattle.farm_entry.specs.Closing.{CanBeCarried};
ghost use Rattle.farm_entry.specs.History.{opening_numbered};
ghost use Rattle.farm_entry.specs.Legal.{IsLegal};
ghost use Rattle.farm_entry.specs.Pages.{page_of, totals};
ghost use Rattle.farm_entry.specs.Standing.{standing};
ghost use Rattle.farm_journal.specs.Created.{CreatingCause, IsUnborn, OnCreatingMemory};
ghost use Rattle.farm_journal.specs.Faults.{HasCause};
ghost use Rattle.farm_journal.specs.Layout.{is_unborn, version_of};
ghost use Rattle.farm_journal.specs.Opened.{OnRead, OpeningCause};
ghost use Rattle.farm_journal.specs.ReadsOnly.{ReadsOnly};
ghost use Rattle.farm_store.specs.Admitted.{Admits};
ghost use Rattle.farm_store.specs.Answering.{AnswerSays, BatchSays, CallSays, IsUnrepairedBy, Repairs, Settles};
ghost use Rattle.farm_store.specs.Answering.{as_batch};
ghost use Rattle.farm_store.specs.Closed.{Closes, HasCloseCause, OnClosedOrBusy};
ghost use Rattle.farm_store.specs.Entering.{Enters};
ghost use Rattle.farm_store.specs.Faults.{HasCallCause, HasCountFrom, OnAnswered};
ghost use Rattle.farm_store.specs.Founded.{Founds, IsUnbornOr, IsUnbornOrFounding, disk_founded, founding};
ghost use Rattle.farm_store.specs.Inherited.{IsUnbornOrInheriting, inheriting};
ghost use Rattle.farm_store.specs.Keeping.{KeepsStore};
ghost use Rattle.farm_store.specs.Opened.{OpensTo, disk_opened};
ghost use Rattle.farm_store.specs.State.{IsLeft, IsRepaired, IsStored, IsWithOrWithout};
ghost use Rattle.farm_store.specs.Together.{TogetherSays, all_asks};
ghost use Rattle.farm_store.specs.Sizes.{asks_size};
ghost use Rattle.farm_store.specs.declared.asking.TheConstants.{MAX_BATCH, MAX_RECORD_BYTES};

use crate::admitting::{add_all, farm_of};
use crate::asking::{Answers, Ask, CallFault, Part};
use crate::closing::{CloseFault, closing, is_closed};
use crate::deciding::{AskList, AskParts, Deciding, OneAsk, OneRun};
use crate::founding::inherit;
use crate::recording::record_from;
use crate::showing::page_in;
use common_types::Past;
use entry_codec::write_entries;
use farm_core::Farm;
use farm_disk::{DatedDisk, Disk};
use farm_entry::{
    Answer, Command, Entry, LeasedRun, Reply, SearchPage, Settings, Standing, Totals,
};
use farm_journal::{CreateFault, Journal, JournalFault, OpeningFault, Repaired};
use farm_rules::OrderedCommit;
use farm_types::{Memory, Moment};
use std::alloc::Global;
use std::marker::Model;

/// A store: a farm whose history stands on a disk.
///
/// After a fault of the disk the entries of the record that was being stored are pending: they are in the history or
/// not, as the repair finds with which the next call begins. The history that the store tells is the one without
/// them.
#[derive(Drop)]
pub struct Store<D: Disk> {
    journal: Journal<D>,
    farm: Farm,
    recorded: usize,
    /// The room in which payloads are put together, kept from one to the next.
    payload: Vec<u8>,
}

impl<D: Disk> Model for Store<D> {
    ghost use Rattle.farm_store.specs.State.{StoreState};
    ghost use Rattle.farm_store.specs.StoreInside.{IsStore, store_view};

    ghost Value = { StoreState D };

    ghost view = { λ s. store_view s.farm s.journal s.recorded };

    ghost invariant = { λ s. IsStore D.tells D.told s.farm s.journal };
}

impl<D: Disk> Store<D> {
    /// Founds a farm with these settings at this moment, on a disk that is unborn: of at most one byte, or with a birth
    /// byte of 0. A disk that isn't keeps its bytes. An error hands the disk back.
    pub fn found(
        alloc: Global,
        disk: D,
        settings: Settings,
        at: Moment,
    ) -> Result<Store<D>, (D, CreateFault)>
        ensures same { D.tells (disk_founded result) ≡ D.tells disk }
        ensures answers { D.tells disk ≡ true → Founds (D.told disk).bytes result }
        ensures history { IfOk result (λ store. store.history ≡ founding settings at) }
        ensures decided { IfOk result (λ store. store.pending ≡ []) }
        ensures none_recorded { IfOk result (λ store. store.recorded ≡ 0) }
        ensures legal { OnOk result (IsLegal (founding settings at)) }
        ensures stored { IfOk result (λ store. D.tells disk ≡ true
            → IsStored (founding settings at) [] (D.told store.disk)) }
        ensures new_version { IfOk result (λ store. D.tells disk ≡ true
            → version_of (D.told store.disk).bytes ≡ 2) }

        ensures born { D.tells disk ≡ true → is_unborn (D.told disk).bytes ≡ false
            → (D.told (disk_founded result)).bytes ≡ (D.told disk).bytes }

        // A crash since the first sync that was done leaves an unborn file, or the founding. Where each image was
        // unborn before the call, this holds from its start.
        ensures since_sync { D.tells disk ≡ true → is_unborn (D.told disk).bytes ≡ true
            → LeavesSinceSync (D.told disk) (D.told (disk_founded result)) (IsUnbornOrFounding settings at) }
        ensures any_moment { D.tells disk ≡ true → is_unborn (D.told disk).bytes ≡ true
            → EachImage (D.told disk).steps IsUnborn
            → LeavesOnly (D.told disk) (D.told (disk_founded result)) (IsUnbornOrFounding settings at) }
        ensures memory { IfErr result (λ missed. OnCreatingMemory missed.1 (D.tells disk ≡ true
            → is_unborn (D.told disk).bytes ≡ true → EachImage (D.told disk).steps IsUnborn
            → EachImage (D.told missed.0).steps IsUnborn)) }

        ensures cause { IfErr result (λ missed. CreatingCause missed.1 (D.count disk) (D.count missed.0)) }
        ensures never_falls { D.count disk ≤ D.count (disk_founded result) }
    {
        match Farm::found(alloc, settings, at) {
            Ok(farm) => Store::create(alloc, disk, farm),
            Err(_) => Err((disk, CreateFault::Memory)),
        }
    }

    /// Opens the store on a disk. It begins with a sync and changes nothing; that takes one sync, one look at the
    /// size and one read. Each payload is read once, and each entry admitted once. An error hands the disk back: the
    /// disk is damaged at an offset where the file is, and at its gate where a record spells no entries that may come
    /// next.
    pub fn open_on(alloc: Global, disk: D) -> Result<Store<D>, (D, OpeningFault)>
        ensures same { D.tells (disk_opened result) ≡ D.tells disk }
        ensures answers { D.tells disk ≡ true → OpensTo (D.told disk).bytes result }
        ensures decided { IfOk result (λ store. store.pending ≡ []) }
        ensures none_recorded { IfOk result (λ store. store.recorded ≡ 0) }
        ensures legal { IfOk result (λ store. IsLegal store.history) }
        ensures stored { IfOk result (λ store. D.tells disk ≡ true → IsStored store.history [] (D.told store.disk)) }
        ensures only { D.tells disk ≡ true → ReadsOnly (D.told disk) (D.told (disk_opened result)) }
        // Where the bytes were read and are no store's, each crash from then on leaves just them.
        ensures settled { IfErr result (λ missed. OnRead missed.1 (D.tells disk ≡ true
            → IsSettled (D.told missed.0))) }
        ensures cause { IfErr result (λ missed. OpeningCause missed.1 (D.count disk) (D.count missed.0)) }
        ensures never_falls { D.count disk ≤ D.count (disk_opened result) }
    {
        match Journal::open_on(alloc, disk) {
            Ok((journal, payloads)) => match farm_of(alloc, &payloads) {
                Ok(farm) => Ok(Store {
                    journal,
                    farm,
                    recorded: 0,
                    payload: Vec::new(alloc),
                }),
                Err(fault) => Err((journal.into_disk(), fault)),
            },
            Err(missed) => Err(missed),
        }
    }

    /// Founds a farm as [`Store::found`] does, which carries over these orders of a farm before it. The founding and
    /// they are stored in one record, so that a crash leaves all of them or none.
    pub fn inherit(
        alloc: Global,
        disk: D,
        settings: Settings,
        at: Moment,
        orders: &[OrderedCommit],
    ) -> Result<Store<D>, (D, CreateFault)>
        requires { CanBeCarried orders.now }

        ensures same { D.tells (disk_founded result) ≡ D.tells disk }
        ensures answers { D.tells disk ≡ true → Founds (D.told disk).bytes result }
        ensures history { IfOk result (λ store. store.history ≡ inheriting settings at orders.now) }
        ensures decided { IfOk result (λ store. store.pending ≡ []) }
        ensures none_recorded { IfOk result (λ store. store.recorded ≡ 0) }
        ensures legal { OnOk result (IsLegal (inheriting settings at orders.now)) }
        ensures stored { IfOk result (λ store. D.tells disk ≡ true
            → IsStored (inheriting settings at orders.now) [] (D.told store.disk)) }
        ensures new_version { IfOk result (λ store. D.tells disk ≡ true
            → version_of (D.told store.disk).bytes ≡ 2) }

        ensures born { D.tells disk ≡ true → is_unborn (D.told disk).bytes ≡ false
            → (D.told (disk_founded result)).bytes ≡ (D.told disk).bytes }
        ensures since_sync { D.tells disk ≡ true → is_unborn (D.told disk).bytes ≡ true
            → LeavesSinceSync (D.told disk) (D.told (disk_founded result))
            (IsUnbornOrInheriting settings at orders.now) }
        ensures any_moment { D.tells disk ≡ true → is_unborn (D.told disk).bytes ≡ true
            → EachImage (D.told disk).steps IsUnborn
            → LeavesOnly (D.told disk) (D.told (disk_founded result))
            (IsUnbornOrInheriting settings at orders.now) }
        ensures memory { IfErr result (λ missed. OnCreatingMemory missed.1 (D.tells disk ≡ true
            → is_unborn (D.told disk).bytes ≡ true → EachImage (D.told disk).steps IsUnborn
            → EachImage (D.told missed.0).steps IsUnborn)) }

        ensures cause { IfErr result (λ missed. CreatingCause missed.1 (D.count disk) (D.count missed.0)) }
        ensures never_falls { D.count disk ≤ D.count (disk_founded result) }
    {
        match inherit(alloc, settings, at, orders) {
            Ok(farm) => Store::create(alloc, disk, farm),
            Err(_) => Err((disk, CreateFault::Memory)),
        }
    }

    /// Creates the store of a farm in memory, whose history fits a record: all of it is stored in one, on a disk that
    /// is unborn as for [`Store::found`]. A disk that isn't keeps its bytes. An error hands the disk back.
    pub fn create(alloc: Global, disk: D, farm: Farm) -> Result<Store<D>, (D, CreateFault)>
        requires { length (spelling farm.history) ≤ MAX_RECORD_BYTES }

        ensures same { D.tells (disk_founded result) ≡ D.tells disk }
        ensures answers { D.tells disk ≡ true → Founds (D.told disk).bytes result }
        ensures history { IfOk result (λ store. store.history ≡ farm.history) }
        ensures decided { IfOk result (λ store. store.pending ≡ []) }
        ensures none_recorded { IfOk result (λ store. store.recorded ≡ 0) }
        ensures legal { IsLegal farm.history }
        ensures stored { IfOk result (λ store. D.tells disk ≡ true
            → IsStored farm.history [] (D.told store.disk)) }
        ensures new_version { IfOk result (λ store. D.tells disk ≡ true
            → version_of (D.told store.disk).bytes ≡ 2) }

        ensures born { D.tells disk ≡ true → is_unborn (D.told disk).bytes ≡ false
            → (D.told (disk_founded result)).bytes ≡ (D.told disk).bytes }
        ensures since_sync { D.tells disk ≡ true → is_unborn (D.told disk).bytes ≡ true
            → LeavesSinceSync (D.told disk) (D.told (disk_founded result)) (IsUnbornOr farm.history) }
        ensures any_moment { D.tells disk ≡ true → is_unborn (D.told disk).bytes ≡ true
            → EachImage (D.told disk).steps IsUnborn
            → LeavesOnly (D.told disk) (D.told (disk_founded result)) (IsUnbornOr farm.history) }
        ensures memory { IfErr result (λ missed. OnCreatingMemory missed.1 (D.tells disk ≡ true
            → is_unborn (D.told disk).bytes ≡ true → EachImage (D.told disk).steps IsUnborn
            → EachImage (D.told missed.0).steps IsUnborn)) }
        // Out of memory, a crash at any moment of the call leaves an unborn file.
        ensures memory_moment { IfErr result (λ missed. OnCreatingMemory missed.1 (D.tells disk ≡ true
            → is_unborn (D.told disk).bytes ≡ true → EachImage (D.told disk).steps IsUnborn
            → LeavesOnly (D.told disk) (D.told missed.0) IsUnborn)) }

        ensures cause { IfErr result (λ missed. CreatingCause missed.1 (D.count disk) (D.count missed.0)) }
        ensures never_falls { D.count disk ≤ D.count (disk_founded result) }
    {
        let Ok(payload) = write_entries(alloc, farm.history()) else {
            return Err((disk, CreateFault::Memory));
        };
        match Journal::create(alloc, disk, payload) {
            Ok(journal) => Ok(Store {
                journal,
                farm,
                recorded: 0,
                payload: Vec::new(alloc),
            }),
            Err(missed) => Err(missed),
        }
    }

    /// Closes the farm, unless it is closed already or busy: from then on it only shows, and repeats what it answered
    /// before. Its closing is stored before this returns; each crash leaves the farm open or closed. Nothing may be
    /// pending.
    ///
    /// # Errors
    ///
    /// [`CloseFault::Busy`], exactly where the farm isn't closed and a search goes on or an order is still to be taken:
    /// nothing is written then; [`CloseFault::StoreFault`] where the disk failed as the closing was stored, which then
    /// is pending; or [`CloseFault::Memory`].
    pub fn close(&mut self, alloc: Global, at: Moment) -> Result<(), CloseFault>
        requires { self.old.pending ≡ [] }
        ensures closes { Closes at result self.old self.new }
        ensures keeps { KeepsStore D.Disk (λ P. OnClosedOrBusy result P) self.old self.new }
        ensures cause { HasCloseCause result (D.count self.old.disk) (D.count self.new.disk) }
    {
        let entry = closing(self.history(), at);
        match self.admit_all(alloc, &[entry]) {
            Ok(Ok(())) => Ok(()),
            Ok(Err(_)) => {
                if is_closed(self.history()) {
                    Ok(())
                } else {
                    Err(CloseFault::Busy)
                }
            }
            Err(fault) => Err(CloseFault::from(fault)),
        }
    }

    /// Admits copies of entries that came from elsewhere, all of which fit a record together, and stores them in one: a
    /// crash leaves all of them or none. Where one of them can't come next, none is admitted, nothing is written, and
    /// the index of the first such is told. Nothing may be pending.
    ///
    /// # Errors
    ///
    /// [`JournalFault::StoreFault`] where the disk failed as they were stored, which then are pending; or
    /// [`JournalFault::Memory`].
    pub fn admit_all(
        &mut self,
        alloc: Global,
        entries: &[Entry],
    ) -> Result<Result<(), usize>, JournalFault>
        requires decided { self.old.pending ≡ [] }
        requires fits { length (spelling entries.now) ≤ MAX_RECORD_BYTES }

        ensures admits { Admits entries.now result self.old self.new }
        ensures keeps { KeepsStore D.Disk (λ P. OnOk result P) self.old self.new }
        ensures cause { HasCause result (D.count self.old.disk) (D.count self.new.disk) }
    {
        let before = self.faults();
        let admitted = self.admit_next(alloc, entries, before);
        self.tell();
        admitted
    }

    /// Finds out whether what is pending was kept, as each call that answers begins. Where nothing is pending, nothing
    /// is done; else that takes one sync and one read, and no memory.
    ///
    /// # Errors
    ///
    /// [`JournalFault::StoreFault`] where the disk failed: all is as before.
    pub fn repair(&mut self) -> Result<(), JournalFault>
        ensures repairs { Repairs result self.old self.new }
        ensures keeps { KeepsStore D.Disk (λ P. OnOk result P) self.old self.new }
        ensures cause { HasCause result (D.count self.old.disk) (D.count self.new.disk) }
    {
        let before = self.faults();
        let repaired = self.find_out(before);
        self.tell();
        repaired
    }

    /// Answers a command at a moment. Where a fault left a record undecided, a repair finds out first whether it was
    /// kept; then the command is decided at the history that there is. A new entry is stored before its reply is
    /// given: from then on each crash leaves a history that has it. A refusal is an answer, given exactly where the
    /// farm's definitions refuse the command.
    ///
    /// # Errors
    ///
    /// [`JournalFault::StoreFault`] where the disk failed in this call, in the repair or as the new entry was stored,
    /// which then is pending; or [`JournalFault::Memory`].
    pub fn answer(
        &mut self,
        alloc: Global,
        command: &Command,
        at: Moment,
    ) -> Result<Answer, JournalFault>
        ensures says { AnswerSays command.now at result self.old self.new }
        ensures keeps { KeepsStore D.Disk (λ P. OnOk result P) self.old self.new }
        ensures cause { HasCause result (D.count self.old.disk) (D.count self.new.disk) }
    {
        self.settle(alloc, &mut OneAsk { command, at })
    }

    /// Answers a command as [`Store::answer`] does, where a refusal is an error.
    ///
    /// # Errors
    ///
    /// [`CallFault::Refused`], exactly where the farm's definitions refuse the command; [`CallFault::StoreFault`] where
    /// the disk failed in this call, in the repair or as the new entry was stored, which then is pending; or
    /// [`CallFault::Memory`].
    pub fn call(&mut self, alloc: Global, command: &Command, at: Moment) -> Result<Reply, CallFault>
        ensures says { CallSays command.now at result self.old self.new }
        ensures keeps { KeepsStore D.Disk (λ P. OnOk (as_batch result) P) self.old self.new }
        ensures cause { HasCallCause result (D.count self.old.disk) (D.count self.new.disk) }
    {
        match self.answer(alloc, command, at) {
            Ok(Answer::Done(reply)) => Ok(reply),
            Ok(Answer::Refused(refusal)) => Err(CallFault::Refused(refusal)),
            Err(fault) => Err(CallFault::from(fault)),
        }
    }

    /// Answers a command as [`Store::call`] does, but gives of its reply only the run that it hands out, if it does:
    /// neither the commit nor the test of that run is looked up.
    ///
    /// # Errors
    ///
    /// Those of [`Store::call`].
    pub fn enter(
        &mut self,
        alloc: Global,
        command: &Command,
        at: Moment,
    ) -> Result<Option<LeasedRun>, CallFault>
        ensures says { Enters command.now at result self.old self.new }
        ensures keeps { KeepsStore D.Disk (λ P. OnAnswered result P) self.old self.new }
        ensures cause { HasCallCause result (D.count self.old.disk) (D.count self.new.disk) }
    {
        match self.settle(alloc, &mut OneRun { command, at }) {
            Ok(Ok(run)) => Ok(run),
            Ok(Err(refusal)) => Err(CallFault::Refused(refusal)),
            Err(fault) => Err(CallFault::from(fault)),
        }
    }

    /// Answers 1 to `MAX_BATCH` asks as single calls one after the other would, but for this: their new entries are
    /// stored in one record, before any of the answers is given. So a crash leaves all of them or none. Where they
    /// record nothing, nothing is written, behind a repair neither.
    ///
    /// # Errors
    ///
    /// [`CallFault::StoreFault`] or [`CallFault::Memory`], of the whole batch, as of a single call. A refusal is an
    /// answer.
    pub fn call_batch(&mut self, alloc: Global, asks: &[Ask]) -> Result<Answers, CallFault>
        requires some { 1 ≤ length asks.now }
        requires few { length asks.now ≤ MAX_BATCH }

        ensures says { BatchSays asks.now result self.old self.new }
        ensures keeps { KeepsStore D.Disk (λ P. OnOk result P) self.old self.new }
        ensures cause { HasCallCause result (D.count self.old.disk) (D.count self.new.disk) }
    {
        match self.settle(alloc, &mut AskList { asks }) {
            Ok(answers) => Ok(answers),
            Err(fault) => Err(CallFault::from(fault)),
        }
    }

    /// Answers asks of several callers, at least one and no more than are sure to fit a record, as batches one after
    /// the other would, but for this: the new entries of all of them are stored in one record, before any answer is
    /// given. So a crash leaves all of them or none. A part keeps its asks, and is given their answers and the end of
    /// the history that they leave.
    ///
    /// # Errors
    ///
    /// [`CallFault::StoreFault`] or [`CallFault::Memory`], of all parts, as of a single call. What stands in them as
    /// answers and ends then means nothing. A refusal is an answer.
    pub fn call_together(&mut self, alloc: Global, parts: &mut [Part]) -> Result<(), CallFault>
        requires some { 1 ≤ length (all_asks parts.old) }
        requires fits { asks_size (all_asks parts.old) ≤ MAX_RECORD_BYTES }

        ensures says { TogetherSays parts.old parts.new result self.old self.new }
        ensures asks { map (λ part. part.asks) parts.new ≡ map (λ part. part.asks) parts.old }
        ensures keeps { KeepsStore D.Disk (λ P. OnOk result P) self.old self.new }
        ensures cause { HasCallCause result (D.count self.old.disk) (D.count self.new.disk) }
    {
        match self.settle(alloc, &mut AskParts { parts }) {
            Ok(()) => Ok(()),
            Err(fault) => Err(CallFault::from(fault)),
        }
    }

    /// The history, without what is pending.
    pub fn history(&self) -> &[Entry]
        ensures value { result.now ≡ self.now.history }
        ensures legal { IsLegal self.now.history }
    {
        self.farm.history()
    }

    /// What is counted of the history, without what is pending. It takes no memory.
    pub fn totals(&self) -> Totals
        ensures { result ≡ totals self.now.history }
    {
        self.farm.totals()
    }

    /// The page of a search, where it was opened, while nothing is pending. The disk is not asked.
    ///
    /// # Errors
    ///
    /// [`Memory`].
    pub fn page(&mut self, search: u32) -> Result<Option<SearchPage>, Memory>
        requires { self.old.pending ≡ [] }
        ensures page { IfOk result
            (λ page. page ≡ option_map (page_of self.old.history) (opening_numbered self.old.history search)) }
        ensures kept { self.new ≡ self.old }
    {
        page_in(&mut self.farm, search)
    }

    /// Where a search stands, where it was opened, while nothing is pending. It takes no memory, and the disk is not
    /// asked.
    pub fn standing(&mut self, search: u32) -> Option<Standing>
        requires { self.old.pending ≡ [] }
        ensures standing { result ≡ option_map (standing self.old.history) (opening_numbered self.old.history search) }
        ensures kept { self.new ≡ self.old }
    {
        self.farm.standing(search)
    }

    /// How many entries the last call recorded for its asks: they are the last of the history. Those that its repair
    /// found aren't counted, and after a fault or out of memory there are none.
    pub fn recorded(&self) -> usize
        ensures { result ≡ self.now.recorded }
    {
        self.recorded
    }

    /// How often the disk has failed so far.
    pub fn faults(&self) -> u64
        ensures { result ≡ D.count self.now.disk }
    {
        self.journal.faults()
    }

    /// The disk of the store.
    pub fn into_disk(self) -> D
        ensures disk { result ≡ self.disk }
        ensures stored { D.tells self.disk ≡ true → IsStored self.history self.pending (D.told result) }
    {
        self.journal.into_disk()
    }

    /// What holds of a store at any time, for contracts alone.
    fn tell(&self)
        ensures legal { IsLegal (self.now.history ++ self.now.pending) }
        ensures stored { D.tells self.now.disk ≡ true
            → IsStored self.now.history self.now.pending (D.told self.now.disk) }
    {
        let _ = &self.journal;
    }

    /// What each call does: finds out what became of what is pending, decides what is asked, and stores what is new in
    /// one record.
    fn settle<A: Deciding>(
        &mut self,
        alloc: Global,
        asked: &mut A,
    ) -> Result<A::Given, JournalFault>
        requires fits { asks_size (A.asks asked.old) ≤ MAX_RECORD_BYTES }
        ensures says { Settles (A.asks asked.old) (λ given H. A.gives H asked.old given asked.new) result
            self.old self.new }
        ensures stays { A.stays asked.old asked.new }
        ensures keeps { KeepsStore D.Disk (λ P. OnOk result P) self.old self.new }
        ensures cause { HasCause result (D.count self.old.disk) (D.count self.new.disk) }
    {
        let before = self.faults();
        if let Err(fault) = self.repair() {
            return Err(fault);
        }
        let decided = self.decide(alloc, asked, before);
        self.tell();
        decided
    }

    /// Finds out whether what is pending was kept. Where nothing is pending, nothing is done.
    fn find_out(&mut self, before: u64) -> Result<(), JournalFault>
        ensures same { D.tells self.new.disk ≡ D.tells self.old.disk }
        ensures repaired { OnOk result (IsRepaired self.old self.new.history) }
        ensures decided { OnOk result (self.new.pending ≡ []) }
        ensures idle { self.old.pending ≡ [] → self.new.disk ≡ self.old.disk }
        ensures only { D.tells self.old.disk ≡ true → ReadsOnly (D.told self.old.disk) (D.told self.new.disk) }
        ensures two_calls { D.tells self.old.disk ≡ true → self.old.pending ≢ []
            → OnOk result (moment (D.told self.new.disk) ≡ moment (D.told self.old.disk) + 2) }
        ensures new_version { D.tells self.old.disk ≡ true → length self.old.history < length self.new.history
            → OnOk result (version_of (D.told self.new.disk).bytes ≡ 2) }
        ensures none_recorded { self.new.recorded ≡ 0 }
        ensures unrepaired { IfErr result (λ fault. IsUnrepairedBy fault self.old self.new) }

        ensures any_moment { D.tells self.old.disk ≡ true
            → LeavesOnly (D.told self.old.disk) (D.told self.new.disk)
            (IsWithOrWithout self.old.history self.old.pending) }

        ensures cause { HasCountFrom before result (D.count self.old.disk) (D.count self.new.disk) }
        ensures never_falls { D.count self.old.disk ≤ D.count self.new.disk }
    {
        self.recorded = 0;
        if !self.journal.pending() {
            return Ok(());
        }
        match self.journal.repair() {
            Ok(Repaired::Kept) => {
                self.farm.commit_all();
                Ok(())
            }
            Ok(Repaired::Dropped) => Ok(()),
            Err(JournalFault::StoreFault { after, .. }) => Err(JournalFault::StoreFault {
                before,
                after,
            }),
            Err(JournalFault::Memory) => unreachable!(),
        }
    }

    /// Decides what is asked and stores what is new, while nothing is pending.
    fn decide<A: Deciding>(
        &mut self,
        alloc: Global,
        asked: &mut A,
        before: u64,
    ) -> Result<A::Given, JournalFault>
        requires decided { self.old.pending ≡ [] }
        requires none_recorded { self.old.recorded ≡ 0 }
        requires fits { asks_size (A.asks asked.old) ≤ MAX_RECORD_BYTES }
        ensures same { D.tells self.new.disk ≡ D.tells self.old.disk }
        ensures says { Settles (A.asks asked.old) (λ given H. A.gives H asked.old given asked.new) result
            self.old self.new }
        ensures stays { A.stays asked.old asked.new }
        ensures any_moment { D.tells self.old.disk ≡ true
            → LeavesOnly (D.told self.old.disk) (D.told self.new.disk) (IsLeft self.old self.new) }
        ensures untouched { self.new.history ≡ self.old.history → OnOk result (self.new.disk ≡ self.old.disk) }
        ensures new_version { D.tells self.old.disk ≡ true → length self.old.history < length self.new.history
            → OnOk result (version_of (D.told self.new.disk).bytes ≡ 2) }
        ensures cause { HasCountFrom before result (D.count self.old.disk) (D.count self.new.disk) }
        ensures never_falls { D.count self.old.disk ≤ D.count self.new.disk }
    {
        let start = self.farm.history().len();
        match asked.decide(alloc, &mut self.farm) {
            Ok(given) => {
                match record_from(
                    alloc,
                    &mut self.payload,
                    &mut self.farm,
                    &mut self.journal,
                    start,
                    before,
                ) {
                    Ok(()) => {
                        self.recorded = self.farm.history().len() - start;
                        Ok(given)
                    }
                    Err(fault) => Err(fault),
                }
            }
            Err(_) => {
                self.farm.retract(self.farm.history().len() - start);
                Err(JournalFault::Memory)
            }
        }
    }

    /// Admits copies of entries and stores them in one record, while nothing is pending.
    fn admit_next(
        &mut self,
        alloc: Global,
        entries: &[Entry],
        before: u64,
    ) -> Result<Result<(), usize>, JournalFault>
        requires decided { self.old.pending ≡ [] }
        requires fits { length (spelling entries.now) ≤ MAX_RECORD_BYTES }
        ensures same { D.tells self.new.disk ≡ D.tells self.old.disk }
        ensures admits { Admits entries.now result self.old self.new }
        ensures any_moment { D.tells self.old.disk ≡ true
            → LeavesOnly (D.told self.old.disk) (D.told self.new.disk) (IsLeft self.old self.new) }
        ensures untouched { self.new.history ≡ self.old.history → OnOk result (self.new.disk ≡ self.old.disk) }
        ensures new_version { D.tells self.old.disk ≡ true → length self.old.history < length self.new.history
            → OnOk result (version_of (D.told self.new.disk).bytes ≡ 2) }
        ensures cause { HasCountFrom before result (D.count self.old.disk) (D.count self.new.disk) }
        ensures never_falls { D.count self.old.disk ≤ D.count self.new.disk }
    {
        self.recorded = 0;
        let start = self.farm.history().len();
        match add_all(alloc, &mut self.farm, entries) {
            Ok(Ok(())) => {
                match record_from(
                    alloc,
                    &mut self.payload,
                    &mut self.farm,
                    &mut self.journal,
                    start,
                    before,
                ) {
                    Ok(()) => {
                        self.recorded = entries.len();
                        Ok(Ok(()))
                    }
                    Err(fault) => Err(fault),
                }
            }
            Ok(Err(index)) => Ok(Err(index)),
            Err(_) => Err(JournalFault::Memory),
        }
    }
}

impl<D: DatedDisk> Store<D> {
    /// This moment of the disk, as one that is over: each image that a crash may leave now is the history, or it with
    /// what is pending. Nothing is done.
    pub fn passed(&self) -> D::Over
        ensures over { D.Over.at result ≡ D.dated self.now.disk }
        ensures moment { D.tells self.now.disk ≡ true → D.dated self.now.disk ≡ moment (D.told self.now.disk) }
        ensures stored { D.tells self.now.disk ≡ true
            → IsStored self.now.history self.now.pending (D.told self.now.disk) }
    {
        self.tell();
        self.journal.passed()
    }
}
