//! The history and its books.

ghost use Rattle.std.specs.Prelude.{◌≡◌, ◌<◌, ◌≤◌, ◌-◌, ◌++◌, ◌∷◌, [], length, take, Contains, IfOk, OnOk, OnErr};
ghost use Rattle.farm_types.specs.Moment.{moment_ms};
ghost use Rattle.farm_entry.specs.Due.{outstanding_positions};
ghost use Rattle.farm_entry.specs.History.{all_leases, lease_of, place_of_key, place_of_report};
ghost use Rattle.farm_entry.specs.Legal.{IsLegal};

use crate::notes::{
    put_key, put_lease, put_mark, put_report, reserve_lease, reserve_places, take_key, take_lease,
    take_mark, take_report,
};
use farm_entry::{Entry, LeasedRun, Settings, What};
use farm_types::{Key, Memory, Moment, Stage};
use search_books::{Inbox, LeaseBook, OUT_MAX};
use std::alloc::Global;
use std::marker::Model;

/// A legal history with its books. Contracts see it as the history.
#[derive(Drop)]
pub struct Books {
    entries: Vec<Entry>,
    inbox: Inbox,
    leases: LeaseBook,
}

impl Model for Books {
    ghost use Rattle.std.specs.Prelude.{List};
    ghost use Rattle.farm_entry.specs.declared.entry.Entry.{Entry};

    ghost Value = { List Entry };

    ghost view = { λ books. books.entries.items };

    ghost use Rattle.farm_books.specs.BooksInside.{AreBooks};

    ghost invariant = { AreBooks };
}

impl Books {
    /// The history of a farm that was founded with these settings at this moment.
    ///
    /// # Errors
    ///
    /// [`Memory`].
    pub fn found(alloc: Global, settings: Settings, at: Moment) -> Result<Books, Memory>
        ensures { IfOk result (λ books. books ≡ record { at = at; what = What.Founded settings } ∷ []) }
    {
        let mut entries = Vec::new(alloc);
        let what = What::Founded { settings };
        entries.push(Entry { at, what })?;
        Ok(Books {
            entries,
            inbox: Inbox::start(alloc),
            leases: LeaseBook::start(alloc),
        })
    }

    /// The history.
    pub fn history(&self) -> &[Entry]
        ensures history { result.now ≡ self.now }
        ensures legal { IsLegal self.now }
    {
        &self.entries
    }

    // What is looked up.

    /// The place of the entry that holds a key.
    pub fn place_of_key(&self, key: Key) -> Option<u32>
        ensures { result ≡ place_of_key self.now key }
    {
        self.inbox.find_key(key)
    }

    /// The place of the report of a run, with a verdict or as one whose tree can't be tested.
    pub fn place_of_report(&self, run: u32) -> Option<u32>
        ensures { result ≡ place_of_report self.now run }
    {
        self.inbox.find_run(run)
    }

    /// How many runs were handed out.
    pub fn leases_count(&self) -> usize
        ensures { result ≡ length (all_leases self.now) }
    {
        self.leases.len()
    }

    /// The lease of a run.
    pub fn lease_of(&self, run: u32) -> Option<LeasedRun>
        ensures { result ≡ lease_of self.now run }
    {
        let lease = self.leases.lease(run)?;
        Some(LeasedRun {
            run: lease.run,
            search: lease.search,
            stage: lease.stage,
            position: lease.position,
            deadline: lease.deadline,
        })
    }

    /// The positions of the open leases of a search at a stage, by the numbers of the runs. They go to the front of
    /// `out`, and how many there are is returned.
    pub fn outstanding_positions(
        &self,
        search: u32,
        stage: Stage,
        moment: Moment,
        out: &mut [u16; OUT_MAX],
    ) -> usize
        requires { length (outstanding_positions self.now search stage (moment_ms moment)) ≤ OUT_MAX }
        ensures positions { take result out.new ≡ outstanding_positions self.now search stage (moment_ms moment) }
        ensures count { result ≡ length (outstanding_positions self.now search stage (moment_ms moment)) }
    {
        self.leases
            .outstanding_into(search, stage, moment.ms(), out)
    }

    // One entry more, and one less.

    /// Adds an entry that may come next.
    ///
    /// # Errors
    ///
    /// [`Memory`]. The history stays.
    pub fn push(&mut self, entry: Entry) -> Result<(), Memory>
        requires { IsLegal (self.old ++ entry ∷ []) }
        ensures pushed { OnOk result (self.new ≡ self.old ++ entry ∷ []) }
        ensures kept { OnErr result (self.new ≡ self.old) }
    {
        let place = self.entries.len() as u32;
        let key = entry.what.key();
        let told = entry.what.told();
        let lease = entry.what.lease();
        reserve_places(&mut self.inbox, told)?;
        reserve_lease(&mut self.leases, lease)?;
        self.entries.reserve(1)?;
        self.entries.push_reserved(entry);
        put_key(&mut self.inbox, key, place);
        put_report(&mut self.inbox, told, place);
        put_lease(&mut self.leases, lease);
        put_mark(&mut self.leases, told);
        Ok(())
    }

    /// Takes the last entry away, which takes no memory.
    pub fn pop(&mut self)
        requires { 1 < length self.old }
        ensures { self.new ≡ take (length self.old - 1) self.old }
    {
        let last = self.entries.len() - 1;
        let what = &self.entries[last].what;
        let key = what.key();
        let told = what.told();
        let lease = what.lease();
        take_mark(&mut self.leases, told);
        take_lease(&mut self.leases, lease);
        take_report(&mut self.inbox, told);
        take_key(&mut self.inbox, key);
        self.entries.truncate(last);
    }
}
