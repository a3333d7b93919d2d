//! The farm.

use crate::decisions::decide;
use crate::legal::is_next;
use crate::prepared::{CoreFault, Prepared};
use crate::search_page::standing_of;
use crate::tail::{cut, handed_out, reply_of, run_at};
use farm_entry::{
    Answer, Command, Decision, Entry, LeasedRun, Reply, Settings, Standing, Totals, What,
};
use farm_types::{Memory, Moment};
use kept_farm::KeptFarm;
use std::alloc::Global;
use std::marker::Model;
use thiserror::Error;

/// Why an entry was not admitted.
#[derive(Clone, Copy, Debug, Error)]
pub enum AdmitFault {
    /// No command makes this entry the next one.
    #[error("the entry can't come next")]
    Illegal,
    /// Running out of memory.
    #[error("out of memory")]
    Memory,
}

impl From<Memory> for AdmitFault {
    ghost use Rattle.std.specs.Prelude.{◌≡◌};
    ghost use Rattle.farm_core.specs.declared.farm.AdmitFault.TheVariants as admit;

    ghost from_gives = { λ _ fault. fault ≡ admit.Memory };

    fn from(_memory: Memory) -> AdmitFault {
        AdmitFault::Memory
    }
}

/// A farm: a legal history, and the entries that may be committed next.
///
/// Those are the entry of the last command that was prepared, or the entries of the last retract that weren't committed
/// again; a further prepare, and each admit, leaves none of them.
#[derive(Drop)]
pub struct Farm {
    alloc: Global,
    kept: KeptFarm,
    committed: usize,
}

impl Model for Farm {
    ghost use Rattle.farm_core.specs.FarmView.{FarmView};

    ghost Value = { FarmView };

    ghost use Rattle.farm_core.specs.FarmInside.{IsFarm, farm_view};

    ghost view = { farm_view };

    ghost invariant = { IsFarm };
}

impl Farm {
    ghost use Rattle.std.specs.Prelude.{◌≡◌, ◌<◌, ◌-◌, ◌++◌, ◌∷◌, ◌↔◌, [], length, take, drop, slice_get, Some};
    ghost use Rattle.std.specs.Prelude.{true, is_some, IsTrue, IfOk, IfErr, OnOk, OnErr};
    ghost use Rattle.std.specs.Option.{option_map};
    ghost use Rattle.farm_entry.specs.Answer.{IsAnswer};
    ghost use Rattle.farm_entry.specs.Decision.{decide};
    ghost use Rattle.farm_entry.specs.History.{is_closed, opening_numbered};
    ghost use Rattle.farm_entry.specs.Legal.{IsLegal, IsNext, command_of};
    ghost use Rattle.farm_entry.specs.Pages.{totals};
    ghost use Rattle.farm_entry.specs.Playing.{after};
    ghost use Rattle.farm_entry.specs.Reply.{reply_at};
    ghost use Rattle.farm_entry.specs.Standing.{standing};
    ghost use Rattle.farm_core.specs.FarmFaults.{IsHalted, IsRefusedBy, IsUnfit};
    ghost use Rattle.farm_core.specs.Outcome.{IsHandedOut, IsOfCommand, IsPrepared, IsRunAt, ready_after};

    /// A farm that was founded with these settings at this moment: its history is that one entry.
    ///
    /// # Errors
    ///
    /// [`Memory`].
    pub fn found(alloc: Global, settings: Settings, at: Moment) -> Result<Farm, Memory>
        ensures { IfOk result (λ farm. farm ≡ record {
          history = record { at = at; what = What.Founded settings } ∷ [];
          ready = [];
        }) }
    {
        Ok(Farm {
            alloc,
            kept: KeptFarm::found(alloc, settings, at)?,
            committed: 1,
        })
    }

    /// The farm that an entry founds: its history is that entry.
    ///
    /// # Errors
    ///
    /// [`AdmitFault::Illegal`], exactly where the entry alone is no legal history; or [`AdmitFault::Memory`].
    pub fn founded_by(alloc: Global, entry: &Entry) -> Result<Farm, AdmitFault>
        ensures founded { IfOk result (λ farm. farm ≡ record { history = entry.now ∷ []; ready = [] }) }
        ensures legal { OnOk result (IsLegal (entry.now ∷ [])) }
        ensures illegal { IfErr result (IsUnfit [] entry.now) }
    {
        match &entry.what {
            What::Founded { settings } => Ok(Farm::found(alloc, *settings, entry.at)?),
            _ => Err(AdmitFault::Illegal),
        }
    }

    /// The history, which is legal, and stays so with what may be committed next.
    pub fn history(&self) -> &[Entry]
        ensures value { result.now ≡ self.now.history }
        ensures legal { IsLegal self.now.history }
        ensures goes_on { IsLegal (self.now.history ++ self.now.ready) }
    {
        &self.kept.history()[..self.committed]
    }

    /// Whether the farm was closed, where nothing may be committed.
    pub fn is_closed(&self) -> bool
        requires { self.now.ready ≡ [] }
        ensures { result ≡ is_closed self.now.history }
    {
        self.kept.is_closed()
    }

    /// What is counted of the history.
    pub fn totals(&self) -> Totals
        ensures { result ≡ totals self.now.history }
    {
        self.kept.totals_at(self.committed)
    }

    /// Where a search stands, where it was opened. Nothing that was ready before may be committed any more.
    pub fn standing(&mut self, search: u32) -> Option<Standing>
        ensures standing { result ≡ option_map (standing self.old.history) (opening_numbered self.old.history search) }
        ensures history { self.new.history ≡ self.old.history }
        ensures ready { self.new.ready ≡ [] }
    {
        self.forget_ready();
        self.kept_standing(search)
    }

    /// Prepares a command: says what it comes to at the history and a moment, and where that is a new entry, makes it
    /// the one that may be committed, with the room for it. Whatever is answered, the history stays, and nothing that
    /// was ready before may be committed any more.
    ///
    /// # Errors
    ///
    /// [`CoreFault::Refused`], exactly where the farm's definitions refuse the command; or [`CoreFault::Memory`].
    pub fn prepare(&mut self, command: &Command, at: Moment) -> Result<Prepared, CoreFault>
        ensures prepared { IfOk result (IsPrepared self.old.history command.now at) }
        ensures refused { IfErr result (IsRefusedBy self.old.history command.now at) }
        ensures history { self.new.history ≡ self.old.history }
        ensures legal { IsLegal self.new.history }
        ensures ready { self.new.ready ≡ ready_after result }
    {
        self.forget_ready();
        match self.decide(command, at)? {
            Decision::Refuse(refusal) => Err(CoreFault::Refused(refusal)),
            Decision::Repeat(place) => {
                let reply = self.repeat(place as usize)?;
                Ok(Prepared::Repeat(reply))
            }
            Decision::Show(reply) => Ok(Prepared::Shown(reply)),
            Decision::New(entry) => {
                let copy = entry.copy()?;
                let reply = self.prepare_new(copy)?;
                Ok(Prepared::New(entry, reply))
            }
        }
    }

    /// Answers a command: says what it comes to at the history and a moment, and where that is a new entry, the history
    /// ends with it from now on. A refusal is an answer, given exactly where the farm's definitions refuse the command.
    /// It comes to the same as to prepare the command and to commit its entry, but makes no copy of the entry. Nothing
    /// that was ready before may be committed any more.
    ///
    /// # Errors
    ///
    /// [`Memory`]. The history stays.
    pub fn answer(&mut self, command: &Command, at: Moment) -> Result<Answer, Memory>
        ensures answer { IfOk result (IsAnswer self.old.history (decide self.old.history command.now at)) }
        ensures history { OnOk result
            (self.new.history ≡ after self.old.history (decide self.old.history command.now at)) }
        ensures kept { OnErr result (self.new.history ≡ self.old.history) }
        ensures legal { IsLegal self.new.history }
        ensures ready { self.new.ready ≡ [] }
    {
        self.forget_ready();
        // (decisions and replies are large, and `?` would move each twice more)
        match self.decide(command, at) {
            Ok(Decision::Refuse(refusal)) => Ok(Answer::Refused(refusal)),
            Ok(Decision::Repeat(place)) => match self.repeat(place as usize) {
                Ok(reply) => Ok(Answer::Done(reply)),
                Err(memory) => Err(memory),
            },
            Ok(Decision::Show(reply)) => Ok(Answer::Done(reply)),
            Ok(Decision::New(entry)) => match self.prepare_new(entry) {
                Ok(reply) => {
                    self.commit_next();
                    Ok(Answer::Done(reply))
                }
                Err(memory) => Err(memory),
            },
            Err(memory) => Err(memory),
        }
    }

    /// Answers a command as [`Farm::answer`] does, but gives of its reply only the run that it hands out, if it does:
    /// neither the commit nor the test of that run is looked up. Nothing that was ready before may be committed any
    /// more.
    ///
    /// # Errors
    ///
    /// [`CoreFault::Refused`], exactly where the farm's definitions refuse the command; or [`CoreFault::Memory`]. The
    /// history stays.
    pub fn enter(&mut self, command: &Command, at: Moment) -> Result<Option<LeasedRun>, CoreFault>
        ensures handed { IfOk result (IsHandedOut self.old.history (decide self.old.history command.now at)) }
        ensures refused { IfErr result (IsRefusedBy self.old.history command.now at) }
        ensures history { OnOk result
            (self.new.history ≡ after self.old.history (decide self.old.history command.now at)) }
        ensures kept { OnErr result (self.new.history ≡ self.old.history) }
        ensures legal { IsLegal self.new.history }
        ensures ready { self.new.ready ≡ [] }
    {
        self.forget_ready();
        match self.decide(command, at) {
            Ok(Decision::Refuse(refusal)) => Err(CoreFault::Refused(refusal)),
            Ok(Decision::Repeat(place)) => Ok(self.repeated_run(place as usize)),
            Ok(Decision::Show(reply)) => Ok(handed_out(&reply)),
            Ok(Decision::New(entry)) => {
                let run = entry.what.lease();
                match self.make_ready(entry) {
                    Ok(()) => {
                        self.commit_next();
                        Ok(run)
                    }
                    Err(Memory) => Err(CoreFault::Memory),
                }
            }
            Err(Memory) => Err(CoreFault::Memory),
        }
    }

    /// Commits the entry that may be committed next: the history ends with it from now on.
    pub fn commit(&mut self, entry: Entry)
        requires { slice_get self.old.ready 0 ≡ Some entry }
        ensures history { self.new.history ≡ self.old.history ++ entry ∷ [] }
        ensures ready { self.new.ready ≡ drop 1 self.old.ready }
    {
        self.commit_next();
    }

    /// Commits all that may be committed next, in its order: the history ends with it from now on.
    pub fn commit_all(&mut self)
        ensures history { self.new.history ≡ self.old.history ++ self.old.ready }
        ensures ready { self.new.ready ≡ [] }
    {
        self.committed = self.kept.history().len();
    }

    /// Takes an entry that came from elsewhere, if it may come next, and drops it otherwise. Nothing that was ready
    /// before may be committed any more.
    ///
    /// # Errors
    ///
    /// [`AdmitFault::Illegal`], exactly where the history with this entry is not legal, so that no command makes it; or
    /// [`AdmitFault::Memory`]. The history stays.
    pub fn admit(&mut self, entry: Entry) -> Result<(), AdmitFault>
        ensures admitted { OnOk result (self.new.history ≡ self.old.history ++ entry ∷ []) }
        ensures legal { OnOk result (IsLegal (self.old.history ++ entry ∷ [])) }
        ensures illegal { IfErr result (IsUnfit self.old.history entry) }
        ensures kept { OnErr result (self.new.history ≡ self.old.history) }
        ensures ready { self.new.ready ≡ [] }
    {
        self.forget_ready();
        if !self.is_next(&entry)? {
            return Err(AdmitFault::Illegal);
        }
        self.make_ready(entry)?;
        self.commit_next();
        Ok(())
    }

    /// Takes entries that came from elsewhere, one after the other, up to the first that may not come next. Nothing
    /// that was ready before may be committed any more.
    ///
    /// # Errors
    ///
    /// [`AdmitFault::Illegal`], exactly where the history with one of these entries and those before it is not legal;
    /// or [`AdmitFault::Memory`]. The history has the entries before the one that was not admitted.
    pub fn admit_all(&mut self, entries: Vec<Entry>) -> Result<(), AdmitFault>
        ensures admitted { OnOk result (self.new.history ≡ self.old.history ++ entries.items) }
        ensures legal { OnOk result (IsLegal (self.old.history ++ entries.items)) }
        ensures halted { IfErr result (IsHalted self.old.history entries.items self.new.history) }
        ensures ready { self.new.ready ≡ [] }
    {
        let _ = self.history();
        self.forget_ready();
        self.admit_each(entries)
    }

    /// Takes the last entries of the history away. They may be committed again, in their order.
    pub fn retract(&mut self, count: usize)
        requires { count < length self.old.history }
        ensures history { self.new.history ≡ take (length self.old.history - count) self.old.history }
        ensures ready { self.new.ready ≡ drop (length self.old.history - count) self.old.history }
    {
        self.forget_ready();
        self.committed -= count;
    }

    /// Takes entries, one after the other, where nothing may be committed.
    fn admit_each(&mut self, entries: Vec<Entry>) -> Result<(), AdmitFault>
        requires none_ready { self.old.ready ≡ [] }
        requires legal { IsLegal self.old.history }
        ensures admitted { OnOk result (self.new.history ≡ self.old.history ++ entries.items) }
        ensures legal { OnOk result (IsLegal (self.old.history ++ entries.items)) }
        ensures halted { IfErr result (IsHalted self.old.history entries.items self.new.history) }
        ensures ready { self.new.ready ≡ [] }
    {
        let mut rest = entries;
        // The first stands last, from where it is taken without moving the others.
        rest.reverse();
        while let Some(entry) = rest.pop() {
            match self.admit(entry) {
                Ok(()) => {}
                Err(fault) => return Err(fault),
            }
        }
        Ok(())
    }

    /// Leaves nothing that may be committed.
    fn forget_ready(&mut self)
        ensures history { self.new.history ≡ self.old.history }
        ensures ready { self.new.ready ≡ [] }
    {
        cut(&mut self.kept, self.committed);
    }

    /// Where a search stands, where nothing may be committed.
    fn kept_standing(&self, search: u32) -> Option<Standing>
        requires { self.now.ready ≡ [] }
        ensures { result ≡ option_map (standing self.now.history) (opening_numbered self.now.history search) }
    {
        standing_of(&self.kept, search)
    }

    /// What a command comes to, where nothing may be committed.
    fn decide(&self, command: &Command, at: Moment) -> Result<Decision, Memory>
        requires { self.now.ready ≡ [] }
        ensures decided { IfOk result (λ found. found ≡ decide self.now.history command.now at) }
        ensures legal { IsLegal self.now.history }
    {
        decide(self.alloc, &self.kept, command, at)
    }

    /// Whether an entry may come next, where nothing may be committed.
    fn is_next(&self, entry: &Entry) -> Result<bool, Memory>
        requires { self.now.ready ≡ [] }
        ensures next { IfOk result (λ next. IsTrue next ↔ IsNext self.now.history entry.now) }
        ensures legal { IsLegal self.now.history }
    {
        is_next(self.alloc, &self.kept, entry)
    }

    /// The reply of an entry that a command made, where nothing may be committed.
    fn repeat(&self, place: usize) -> Result<Reply, Memory>
        requires none_ready { self.now.ready ≡ [] }
        requires made { IsOfCommand self.now.history place }
        ensures { IfOk result (λ reply. reply_at self.now.history place ≡ Some reply) }
    {
        reply_of(&self.kept, place)
    }

    /// The run that an entry that a command made hands out, if it does, where nothing may be committed.
    fn repeated_run(&self, place: usize) -> Option<LeasedRun>
        requires none_ready { self.now.ready ≡ [] }
        requires made { IsOfCommand self.now.history place }
        ensures { IsRunAt self.now.history place result }
    {
        run_at(&self.kept, place)
    }

    /// Makes an entry the one that may be committed.
    fn make_ready(&mut self, entry: Entry) -> Result<(), Memory>
        requires none_ready { self.old.ready ≡ [] }
        requires next { IsLegal (self.old.history ++ entry ∷ []) }
        ensures history { self.new.history ≡ self.old.history }
        ensures ready { OnOk result (self.new.ready ≡ entry ∷ []) }
        ensures none { OnErr result (self.new.ready ≡ []) }
    {
        self.kept.push(self.alloc, entry)?;
        Ok(())
    }

    /// The reply that the entry which may be committed next has then, where a command makes it.
    fn next_reply(&self) -> Result<Reply, Memory>
        requires { IsOfCommand (self.now.history ++ self.now.ready) (length self.now.history) }
        ensures { IfOk result
            (λ reply. reply_at (self.now.history ++ self.now.ready) (length self.now.history) ≡ Some reply) }
    {
        reply_of(&self.kept, self.committed)
    }

    /// Makes the new entry of a command the one that may be committed, and says what the command is replied.
    fn prepare_new(&mut self, entry: Entry) -> Result<Reply, Memory>
        requires none_ready { self.old.ready ≡ [] }
        requires next { IsLegal (self.old.history ++ entry ∷ []) }
        requires named { is_some (command_of entry.what) ≡ true }
        ensures reply { IfOk result
            (λ reply. reply_at (self.old.history ++ entry ∷ []) (length self.old.history) ≡ Some reply) }
        ensures history { self.new.history ≡ self.old.history }
        ensures ready { OnOk result (self.new.ready ≡ entry ∷ []) }
        ensures none { OnErr result (self.new.ready ≡ []) }
    {
        self.make_ready(entry)?;
        let reply = self.next_reply();
        if reply.is_err() {
            self.forget_ready();
        }
        reply
    }

    /// Commits what may be committed next.
    fn commit_next(&mut self)
        requires { 0 < length self.old.ready }
        ensures history { self.new.history ≡ self.old.history ++ take 1 self.old.ready }
        ensures ready { self.new.ready ≡ drop 1 self.old.ready }
    {
        self.committed += 1;
    }
}
