//! The inbox.

ghost use Rattle.std.specs.Prelude.{ℕ, ◌≡◌, ◌≤◌, ◌<◌, ◌+◌, None, Some, OnOk};
ghost use Rattle.std.specs.FinMap.{empty, get, insert, remove};

use crate::key_table::KeyTable;
use crate::run_rows::RunRows;
use farm_types::{Key, Memory};
use std::alloc::Global;
use std::marker::Model;

/// Where the keys of requests and the reports of runs stand, by the places of their entries. Runs and places are
/// numbers of the caller's, of 32 bits; runs should be numbered without gaps, since each number up to the greatest
/// takes a row.
#[derive(Drop)]
pub struct Inbox {
    keys: KeyTable,
    runs: RunRows,
}

impl Model for Inbox {
    ghost use Rattle.search_books.specs.InboxView.{InboxView, inbox_code};

    ghost Value = { InboxView };

    ghost coded = { inbox_code };

    ghost view = { λ inbox. record {
      keys = inbox.keys.places;
      room = inbox.keys.room;
      runs = inbox.runs.places;
      run_bound = inbox.runs.bound;
    } };
}

impl Inbox {
    /// An empty inbox, which takes no memory.
    pub fn start(alloc: Global) -> Inbox
        ensures keys { result.keys ≡ empty }
        ensures runs { result.runs ≡ empty }
    {
        Inbox {
            keys: KeyTable::start(alloc),
            runs: RunRows::start(alloc),
        }
    }

    /// Makes room for so many more keys. Where it grows it at least doubles, and without memory nothing changes.
    pub fn reserve_keys(&mut self, more: usize) -> Result<(), Memory>
        ensures ok { OnOk result (more ≤ self.new.room) }
        ensures room { self.old.room ≤ self.new.room }
        ensures keys { self.new.keys ≡ self.old.keys }
        ensures runs { self.new.runs ≡ self.old.runs }
        ensures run_bound { self.new.run_bound ≡ self.old.run_bound }
    {
        self.keys.reserve(more)
    }

    /// Makes room for the reports of all runs up to one. Where it grows it at least doubles, and without memory nothing
    /// changes.
    pub fn reserve_runs(&mut self, last: u32) -> Result<(), Memory>
        ensures ok { OnOk result (last < self.new.run_bound) }
        ensures run_bound { self.old.run_bound ≤ self.new.run_bound }
        ensures runs { self.new.runs ≡ self.old.runs }
        ensures keys { self.new.keys ≡ self.old.keys }
        ensures room { self.new.room ≡ self.old.room }
    {
        self.runs.reserve(last)
    }

    /// The place of a key, if it has one.
    pub fn find_key(&self, key: Key) -> Option<u32>
        ensures { result ≡ get self.now.keys key.0 }
    {
        self.keys.find(key.0)
    }

    /// The place of a run's report, if it has one.
    pub fn find_run(&self, run: u32) -> Option<u32>
        ensures { result ≡ get self.now.runs run }
    {
        self.runs.find(run)
    }

    /// Puts the place of a new key, which takes no memory.
    pub fn put_key(&mut self, key: Key, place: u32)
        requires room { 1 ≤ self.old.room }
        requires absent { get self.old.keys key.0 ≡ None }
        ensures keys { self.new.keys ≡ insert self.old.keys key.0 place }
        ensures room { self.new.room + 1 ≡ self.old.room }
        ensures runs { self.new.runs ≡ self.old.runs }
        ensures run_bound { self.new.run_bound ≡ self.old.run_bound }
    {
        self.keys.put(key.0, place);
    }

    /// Puts the place of a run's report, which takes no memory.
    pub fn put_run(&mut self, run: u32, place: u32)
        requires row { run < self.old.run_bound }
        requires absent { get self.old.runs run ≡ None }
        ensures runs { self.new.runs ≡ insert self.old.runs run place }
        ensures run_bound { self.new.run_bound ≡ self.old.run_bound }
        ensures keys { self.new.keys ≡ self.old.keys }
        ensures room { self.new.room ≡ self.old.room }
    {
        self.runs.put(run, place);
    }

    /// Takes a key away, which takes no memory. Its room is free again.
    pub fn take_key(&mut self, key: Key)
        requires present { (place : ℕ) × (get self.old.keys key.0 ≡ Some place) }
        ensures keys { self.new.keys ≡ remove self.old.keys key.0 }
        ensures room { self.new.room ≡ self.old.room + 1 }
        ensures runs { self.new.runs ≡ self.old.runs }
        ensures run_bound { self.new.run_bound ≡ self.old.run_bound }
    {
        self.keys.take(key.0);
    }

    /// Takes a run's report away, which takes no memory. Its room is free again.
    pub fn take_run(&mut self, run: u32)
        requires present { (place : ℕ) × (get self.old.runs run ≡ Some place) }
        ensures runs { self.new.runs ≡ remove self.old.runs run }
        ensures run_bound { self.new.run_bound ≡ self.old.run_bound }
        ensures keys { self.new.keys ≡ self.old.keys }
        ensures room { self.new.room ≡ self.old.room }
    {
        self.runs.take(run);
    }
}
