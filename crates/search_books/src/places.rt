//! The places of all searches.

ghost use Rattle.std.specs.Prelude.{◌≡◌, [], OnOk, OnErr};
ghost use Rattle.std.specs.Option.{option_copied};
ghost use Rattle.search_books.specs.SearchRows.{changed, row_numbered, with_entry, with_order, with_run, without_entry, without_order, without_run};

use crate::entry_kind::EntryKind;
use crate::row::SearchRow;
use farm_types::Memory;
use std::alloc::Global;
use std::marker::Model;

/// Where the entries of each search stand in a history. Searches are numbered from 1, by their openings.
#[derive(Drop)]
pub struct SearchPlaces {
    rows: Vec<SearchRow>,
}

impl Model for SearchPlaces {
    ghost use Rattle.std.specs.Prelude.{List};
    ghost use Rattle.search_books.specs.SearchRows.{RowView};

    ghost Value = { List RowView };

    ghost view = { λ places. places.rows.items };
}

impl SearchPlaces {
    /// No searches, which takes no memory.
    pub fn start(alloc: Global) -> SearchPlaces
        ensures { result ≡ [] }
    {
        SearchPlaces {
            rows: Vec::new(alloc),
        }
    }

    // What is looked up.

    /// The rows of all searches, by their numbers.
    pub fn rows(&self) -> &[SearchRow]
        ensures { result.now ≡ self.now }
    {
        &self.rows
    }

    /// The row of the search with a number, if it was opened.
    pub fn row(&self, search: u32) -> Option<&SearchRow>
        ensures { option_copied result ≡ row_numbered search self.now }
    {
        if search == 0 || search as usize > self.rows.len() {
            return None;
        }
        Some(&self.rows[search as usize - 1])
    }

    // One entry more, and one less.

    /// Adds the place of a lease of a search, if that is there.
    fn add_run(&mut self, search: u32, place: u32) -> Result<(), Memory>
        ensures added { OnOk result (self.new ≡ changed search (with_run place) self.old) }
        ensures kept { OnErr result (self.new ≡ self.old) }
    {
        if search == 0 || search as usize > self.rows.len() {
            return Ok(());
        }
        self.rows[search as usize - 1].add_run(place)
    }

    /// Takes the place of the last lease of a search out, if that is there.
    fn take_run(&mut self, search: u32)
        ensures { self.new ≡ changed search without_run self.old }
    {
        if search == 0 || search as usize > self.rows.len() {
            return;
        }
        self.rows[search as usize - 1].take_run();
    }

    /// Adds the place of an order for a search, if that is there.
    fn add_order(&mut self, search: u32, place: u32)
        ensures { self.new ≡ changed search (with_order place) self.old }
    {
        if search == 0 || search as usize > self.rows.len() {
            return;
        }
        self.rows[search as usize - 1].add_order(place);
    }

    /// Takes the order at a place out of those for a search, if that is there.
    fn take_order(&mut self, search: u32, place: u32)
        ensures { self.new ≡ changed search (without_order place) self.old }
    {
        if search == 0 || search as usize > self.rows.len() {
            return;
        }
        self.rows[search as usize - 1].take_order(place);
    }

    /// Adds the place of an entry. An entry that is about a search that isn't there has none.
    ///
    /// # Errors
    ///
    /// [`Memory`]. Nothing changes.
    pub fn add(&mut self, alloc: Global, kind: EntryKind, place: u32) -> Result<(), Memory>
        ensures added { OnOk result (self.new ≡ with_entry self.old kind place) }
        ensures kept { OnErr result (self.new ≡ self.old) }
    {
        match kind {
            EntryKind::Opening => {
                self.rows.push(SearchRow::start(alloc, place))?;
                Ok(())
            }
            EntryKind::Lease(search) => self.add_run(search, place),
            EntryKind::Order(search) => {
                self.add_order(search, place);
                Ok(())
            }
            EntryKind::Other => Ok(()),
        }
    }

    /// Takes the place of the entry that was added last back, which takes no memory.
    pub fn take_back(&mut self, kind: EntryKind, place: u32)
        ensures { self.new ≡ without_entry self.old kind place }
    {
        match kind {
            EntryKind::Opening => self.rows.truncate(self.rows.len().saturating_sub(1)),
            EntryKind::Lease(search) => self.take_run(search),
            EntryKind::Order(search) => self.take_order(search, place),
            EntryKind::Other => {}
        }
    }
}
