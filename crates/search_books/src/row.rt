//! The places of one search.

ghost use Rattle.std.specs.Prelude.{◌≡◌, OnOk, OnErr};
ghost use Rattle.search_books.specs.SearchRows.{new_row, with_order, with_run, without_order, without_run};

use farm_types::Memory;
use std::alloc::Global;
use std::marker::Model;

/// For how many leases the first one of a search takes memory: most searches have fewer, so their lists don't grow.
const FIRST_RUNS: usize = 16;

/// Where the entries of one search stand. It takes 40 bytes, those of 16 leases from the first one on, and four for
/// each further lease, with what growth keeps free.
#[derive(Drop)]
pub struct SearchRow {
    opened: u32,
    order: Option<u32>,
    runs: Vec<u32>,
}

impl Model for SearchRow {
    ghost use Rattle.search_books.specs.SearchRows.{RowView};

    ghost Value = { RowView };

    ghost view = { λ row. record { opened = row.opened; runs = row.runs.items; order = row.order } };
}

impl SearchRow {
    /// The row of a search that the entry at a place opens, which takes no memory.
    pub(crate) fn start(alloc: Global, place: u32) -> SearchRow
        ensures { result ≡ new_row place }
    {
        SearchRow {
            opened: place,
            order: None,
            runs: Vec::new(alloc),
        }
    }

    /// The place of the entry that opened the search.
    pub fn opened(&self) -> u32
        ensures { result ≡ self.now.opened }
    {
        self.opened
    }

    /// The places of its leases, in order.
    pub fn runs(&self) -> &[u32]
        ensures { result.now ≡ self.now.runs }
    {
        &self.runs
    }

    /// The place of the first order to revert its culprit, if there is one.
    pub fn order(&self) -> Option<u32>
        ensures { result ≡ self.now.order }
    {
        self.order
    }

    /// Adds the place of a lease. Without memory nothing changes.
    pub(crate) fn add_run(&mut self, place: u32) -> Result<(), Memory>
        ensures added { OnOk result (self.new ≡ with_run place self.old) }
        ensures kept { OnErr result (self.new ≡ self.old) }
    {
        if self.runs.capacity() == 0 {
            self.runs.reserve(FIRST_RUNS)?;
        }
        self.runs.push(place)?;
        Ok(())
    }

    /// Takes the place of its last lease out.
    pub(crate) fn take_run(&mut self)
        ensures { self.new ≡ without_run self.old }
    {
        self.runs.truncate(self.runs.len().saturating_sub(1));
    }

    /// Adds the place of an order. It stays where there is one already.
    pub(crate) fn add_order(&mut self, place: u32)
        ensures { self.new ≡ with_order place self.old }
    {
        if self.order.is_none() {
            self.order = Some(place);
        }
    }

    /// Takes the order at a place out.
    pub(crate) fn take_order(&mut self, place: u32)
        ensures { self.new ≡ without_order place self.old }
    {
        if self.order == Some(place) {
            self.order = None;
        }
    }
}
