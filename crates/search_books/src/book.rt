//! The book.

ghost use Rattle.std.specs.Prelude.{ℕ, ◌≡◌, ◌≤◌, ◌<◌, ◌+◌, ◌-◌, ◌++◌, ◌∷◌, [], true, false, length, take, get_or, IfSome, OnOk};
ghost use Rattle.search_books.specs.Outstanding.{positions_out};

use crate::lease::{Lease, OUT_MAX};
use crate::lease_chains::{Row, close, is_near, link, mark, reopen, unlink_last};
use crate::look::{find_out, latest};
use farm_types::{Memory, Stage};
use std::alloc::Global;
use std::marker::Model;

/// All leases that were handed out, by the numbers of their runs, and whether each was answered.
#[derive(Drop)]
pub struct LeaseBook {
    heads: Vec<usize>,
    rows: Vec<Row>,
}

impl Model for LeaseBook {
    ghost use Rattle.std.specs.Prelude.{◌-◌, length};
    ghost use Rattle.std.specs.Vec.{vec_capacity};
    ghost use Rattle.search_books.specs.Leases.{BookView};

    ghost Value = { BookView };

    ghost use Rattle.search_books.specs.LeaseChains.{IsBook, helds, kepts};

    ghost view = { λ book. record {
      leases = helds (kepts book.rows.items);
      room = vec_capacity book.rows - length book.rows.items;
      search_bound = length book.heads.items;
    } };

    ghost invariant = { λ book. IsBook book.heads.items book.rows.items (vec_capacity book.rows) };
}

impl LeaseBook {
    ghost use Rattle.search_books.specs.Leases.{lease_numbered, marked};

    /// No leases, which takes no memory.
    pub fn start(alloc: Global) -> LeaseBook
        ensures { result.leases ≡ [] }
    {
        LeaseBook {
            heads: Vec::new(alloc),
            rows: Vec::new(alloc),
        }
    }

    /// Makes room for so many more leases. Without memory nothing changes.
    pub fn reserve_leases(&mut self, more: usize) -> Result<(), Memory>
        ensures ok { OnOk result (more ≤ self.new.room) }
        ensures room { self.old.room ≤ self.new.room }
        ensures leases { self.new.leases ≡ self.old.leases }
        ensures search_bound { self.new.search_bound ≡ self.old.search_bound }
    {
        self.rows.reserve(more)?;
        Ok(())
    }

    /// Makes room for the leases of all searches up to one to be found. Where it grows it at least doubles, and without
    /// memory nothing changes.
    pub fn reserve_searches(&mut self, last: u32) -> Result<(), Memory>
        ensures ok { OnOk result (last < self.new.search_bound) }
        ensures search_bound { self.old.search_bound ≤ self.new.search_bound }
        ensures leases { self.new.leases ≡ self.old.leases }
        ensures room { self.new.room ≡ self.old.room }
    {
        if (last as usize) < self.heads.len() {
            return Ok(());
        }
        let wanted = last as usize + 1;
        let doubled = self.heads.len().saturating_mul(2);
        self.heads.resize(wanted.max(doubled), 0)?;
        Ok(())
    }

    /// How many leases there are.
    pub fn len(&self) -> usize
        ensures { result ≡ length self.now.leases }
    {
        self.rows.len()
    }

    /// The lease of a run, if it was handed out.
    pub fn lease(&self, run: u32) -> Option<Lease>
        ensures lease { result ≡ lease_numbered run self.now.leases }
        ensures number { IfSome result (λ lease. lease.run ≡ run) }
    {
        if run == 0 || run as usize > self.rows.len() {
            return None;
        }
        Some(self.rows[run as usize - 1].lease)
    }

    /// The positions of a search's leases of a stage that are out at a moment, in milliseconds: those that wait for
    /// an answer and whose deadlines lie later. They go to the front of `out`, by the numbers of their runs, and how
    /// many there are is returned.
    pub fn outstanding_into(
        &self,
        search: u32,
        stage: Stage,
        moment: u64,
        out: &mut [u16; OUT_MAX],
    ) -> usize
        requires { length (positions_out search stage moment self.now.leases) ≤ OUT_MAX }
        ensures positions { take result out.new ≡ positions_out search stage moment self.now.leases }
        ensures count { result ≡ length (positions_out search stage moment self.now.leases) }
    {
        if search as usize >= self.heads.len() {
            return 0;
        }
        let from = find_out(&self.heads, &self.rows, search as usize, stage, moment, out);
        out.copy_within(from.., 0);
        OUT_MAX - from
    }

    /// Adds a lease that waits for an answer, which takes no memory.
    pub fn add(&mut self, lease: Lease)
        requires room { 1 ≤ self.old.room }
        requires number { lease.run ≡ length self.old.leases + 1 }
        requires search { lease.search < self.old.search_bound }
        ensures leases { self.new.leases ≡ self.old.leases ++ record { lease = lease; is_answered = false } ∷ [] }
        ensures room { self.new.room + 1 ≡ self.old.room }
        ensures search_bound { self.new.search_bound ≡ self.old.search_bound }
    {
        let greatest = latest(&self.rows).max(lease.deadline);
        link(&mut self.heads, &mut self.rows, lease, greatest);
    }

    /// Takes the last lease away, which takes no memory. Its room is free again.
    pub fn take_last(&mut self)
        requires { 0 < length self.old.leases }
        ensures leases { self.new.leases ≡ take (length self.old.leases - 1) self.old.leases }
        ensures room { self.new.room ≡ self.old.room + 1 }
        ensures search_bound { self.new.search_bound ≡ self.old.search_bound }
    {
        unlink_last(&mut self.heads, &mut self.rows);
    }

    /// Marks the lease of a run as answered, which takes no memory.
    pub fn answered(&mut self, run: u32)
        requires above { 0 < run }
        requires known { run ≤ length self.old.leases }
        ensures leases { self.new.leases ≡ marked true (run - 1) self.old.leases }
        ensures room { self.new.room ≡ self.old.room }
        ensures search_bound { self.new.search_bound ≡ self.old.search_bound }
    {
        let at = run as usize - 1;
        let row = self.rows[at];
        if row.is_answered {
            return;
        }
        if is_near(&self.heads, &self.rows, row.lease.search as usize, at) {
            close(&mut self.heads, &mut self.rows, at);
        } else {
            mark(&mut self.rows, at, true);
        }
    }

    /// Takes the mark of a run's lease away, so that it waits for an answer again, which takes no memory.
    pub fn unanswered(&mut self, run: u32)
        requires above { 0 < run }
        requires known { run ≤ length self.old.leases }
        ensures leases { self.new.leases ≡ marked false (run - 1) self.old.leases }
        ensures room { self.new.room ≡ self.old.room }
        ensures search_bound { self.new.search_bound ≡ self.old.search_bound }
    {
        let at = run as usize - 1;
        if self.rows[at].is_linked {
            mark(&mut self.rows, at, false);
        } else {
            reopen(&mut self.heads, &mut self.rows, at);
        }
    }
}
