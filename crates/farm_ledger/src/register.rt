//! The history with its rows and its orders.

ghost use Rattle.std.specs.Prelude.{◌≡◌, ◌<◌, ◌-◌, ◌++◌, ◌∷◌, [], length, take, Contains, IfSome, IfOk, OnOk, OnErr};
ghost use Rattle.std.specs.Option.{option_copied};
ghost use Rattle.farm_types.specs.Moment.{moment_ms};
ghost use Rattle.farm_rules.specs.Orders.{candidates, earliest, has_order};
ghost use Rattle.farm_entry.specs.History.{daily_limit, leases, opening_numbered, openings};
ghost use Rattle.farm_entry.specs.Legal.{IsLegal};
ghost use Rattle.farm_entry.specs.Orders.{carried, confirmed_searches, next_order_at, orders};
ghost use Rattle.farm_ledger.specs.Waiting.{waiting_numbered};

use crate::notes::{
    Row, book, booking_in, confirmed_at, day_in, make_room, put_lease, put_row, row_of, take_lease,
    take_order, take_row,
};
use farm_entry::{Entry, Opening, Settings, What};
use farm_rules::{Candidate, Draft, NoOrder, Orders};
use farm_state::{FarmState, FarmTurns};
use farm_types::{CommitId, Memory, Moment};
use plain_history::daily_limit;
use std::alloc::Global;
use std::marker::Model;

/// A farm's history with the state of each search and the order of their turns, what is kept of the searches beside
/// it, and the orders that stand. Contracts see it as the history.
#[derive(Drop)]
pub(crate) struct Register {
    turns: FarmTurns,
    rows: Vec<Row>,
    orders: Orders,
}

impl Model for Register {
    ghost use Rattle.std.specs.Prelude.{List};
    ghost use Rattle.farm_entry.specs.declared.entry.Entry.{Entry};

    ghost Value = { List Entry };

    ghost view = { λ register. register.turns };

    ghost use Rattle.farm_ledger.specs.RegisterInside.{IsRegister};

    ghost invariant = { IsRegister };
}

impl Register {
    /// The register of a farm that was founded with these settings at this moment.
    ///
    /// # Errors
    ///
    /// [`Memory`].
    pub(crate) fn found(alloc: Global, settings: Settings, at: Moment) -> Result<Register, Memory>
        ensures { IfOk result (λ register. register ≡ record { at = at; what = What.Founded settings } ∷ []) }
    {
        Ok(Register {
            turns: FarmTurns::found(alloc, settings, at)?,
            rows: Vec::new(alloc),
            orders: Orders::start(alloc),
        })
    }

    /// The history with the state of each search and the order of their turns.
    pub(crate) fn turns(&self) -> &FarmTurns
        ensures { result.now ≡ self.now }
    {
        &self.turns
    }

    /// The state of the farm: the history with its books, and the state of each search.
    pub(crate) fn state(&self) -> &FarmState
        ensures { result.now ≡ self.now }
    {
        self.turns.state()
    }

    /// The history.
    fn history(&self) -> &[Entry]
        ensures history { result.now ≡ self.now }
        ensures legal { IsLegal self.now }
    {
        self.state().books().history()
    }

    // What is looked up.

    /// The search with a number, as it was opened.
    pub(crate) fn opening(&self, number: u32) -> Option<&Opening>
        ensures found { option_copied result ≡ opening_numbered self.now number }
        ensures held { IfSome result (λ opening. Contains (openings self.now) opening.now) }
    {
        let Some(row) = row_of(&self.rows, number) else {
            return None;
        };
        self.history()[row.place as usize].what.opening()
    }

    /// How many leases a search has, at both stages.
    pub(crate) fn leases_of(&self, number: u32) -> u32
        ensures { result ≡ length (leases self.now number) }
    {
        match row_of(&self.rows, number) {
            None => 0,
            Some(row) => row.leases,
        }
    }

    /// The search with a number, where it waits for an order: its culprit is confirmed, and no order is for that
    /// commit.
    pub(crate) fn waiting(&self, number: u32) -> Option<Candidate>
        ensures { result ≡ waiting_numbered self.now number }
    {
        // (most searches aren't confirmed, so their openings aren't looked at)
        let Some(search) = self.state().search(number) else {
            return None;
        };
        let standing = search.standing();
        if !standing.is_confirmed() {
            return None;
        }
        let Some(opening) = self.opening(number) else {
            return None;
        };
        let Some(candidate) = confirmed_at(standing, opening) else {
            return None;
        };
        if self.orders.has_order(candidate.commit) {
            return None;
        }
        Some(candidate)
    }

    /// How many orders were carried over.
    pub(crate) fn carried_count(&self) -> u32
        ensures { result ≡ length (carried self.now) }
    {
        self.orders.len() - self.orders.given()
    }

    /// Whether a commit has an order, of this farm or of one before it.
    pub(crate) fn has_order(&self, commit: CommitId) -> bool
        ensures { result ≡ has_order (orders self.now) commit }
    {
        self.orders.has_order(commit)
    }

    /// How many orders a day may have.
    pub(crate) fn daily_limit(&self) -> u32
        ensures { result ≡ daily_limit self.now }
    {
        daily_limit(self.history())
    }

    /// What the next request for an order comes to at a moment, where this is the first search that waits for one, or
    /// none does.
    pub(crate) fn next_order(
        &self,
        first: Option<Candidate>,
        moment: Moment,
    ) -> Result<Draft, NoOrder>
        requires { first ≡ earliest (candidates (confirmed_searches self.now) (orders self.now)) }
        ensures { result ≡ next_order_at self.now (moment_ms moment) }
    {
        let history = self.history();
        let day = day_in(history, moment);
        let limit = daily_limit(history);
        match first {
            None => self.orders.next(&[], day, limit),
            Some(candidate) => self.orders.next(&[candidate], day, limit),
        }
    }

    // One entry more, and one less.

    /// Adds an entry that may come next.
    ///
    /// # Errors
    ///
    /// [`Memory`]. The history stays.
    pub(crate) fn push(&mut self, alloc: Global, entry: Entry) -> Result<(), Memory>
        requires { IsLegal (self.old ++ entry ∷ []) }
        ensures pushed { OnOk result (self.new ≡ self.old ++ entry ∷ []) }
        ensures kept { OnErr result (self.new ≡ self.old) }
    {
        let place = self.history().len() as u32;
        let is_opening = entry.what.is_opening();
        let lease = entry.what.lease();
        let booking = booking_in(&entry.what);
        self.rows.reserve(1)?;
        make_room(&mut self.orders, &booking)?;
        self.turns.push(alloc, entry)?;
        put_lease(&mut self.rows, lease);
        put_row(&mut self.rows, is_opening, place);
        book(&mut self.orders, booking);
        Ok(())
    }

    /// Takes the last entry away, which takes no memory.
    pub(crate) fn pop(&mut self)
        requires { 1 < length self.old }
        ensures { self.new ≡ take (length self.old - 1) self.old }
    {
        let history = self.history();
        let what = &history[history.len() - 1].what;
        let is_opening = what.is_opening();
        let lease = what.lease();
        let is_order = what.ordered().is_some();
        self.turns.pop();
        take_lease(&mut self.rows, lease);
        take_row(&mut self.rows, is_opening);
        take_order(&mut self.orders, is_order);
    }
}
