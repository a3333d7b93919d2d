//! The ledger.

ghost use Rattle.std.specs.Prelude.{◌≡◌, ◌<◌, ◌+◌, ◌-◌, ◌++◌, ◌∷◌, [], true, length, take, Contains, IfSome, IfOk, OnOk, OnErr};
ghost use Rattle.std.specs.Option.{option_copied};
ghost use Rattle.farm_types.specs.Moment.{moment_ms};
ghost use Rattle.farm_rules.specs.Orders.{has_order};
ghost use Rattle.farm_entry.specs.Closing.{has_order_to_take};
ghost use Rattle.farm_entry.specs.History.{leases, opening_numbered, openings};
ghost use Rattle.farm_entry.specs.Legal.{IsLegal};
ghost use Rattle.farm_entry.specs.Orders.{carried, next_order_at, orders};
ghost use Rattle.farm_ledger.specs.Waiting.{IsLowest, IsServed, low_after};

use crate::register::Register;
use farm_entry::{Entry, Opening, Settings, What};
use farm_rules::{Draft, NoOrder};
use farm_state::FarmTurns;
use farm_types::{CommitId, Memory, Moment};
use std::alloc::Global;
use std::marker::Model;

/// A farm's history with its ledger. Contracts see it as the history.
#[derive(Drop)]
pub struct Ledger {
    register: Register,
    /// Beside each entry, how many searches stood then before the first one that waited for an order; all, where none
    /// did.
    lows: Vec<u32>,
}

impl Model for Ledger {
    ghost use Rattle.std.specs.Prelude.{List};
    ghost use Rattle.farm_entry.specs.declared.entry.Entry.{Entry};

    ghost Value = { List Entry };

    ghost view = { λ ledger. ledger.register };

    ghost use Rattle.farm_ledger.specs.LedgerInside.{IsLedger};

    ghost invariant = { IsLedger };
}

impl Ledger {
    /// The ledger of a farm that was founded with these settings at this moment.
    ///
    /// # Errors
    ///
    /// [`Memory`].
    pub fn found(alloc: Global, settings: Settings, at: Moment) -> Result<Ledger, Memory>
        ensures { IfOk result (λ ledger. ledger ≡ record { at = at; what = What.Founded settings } ∷ []) }
    {
        let mut lows = Vec::new(alloc);
        lows.push(0)?;
        Ok(Ledger {
            register: Register::found(alloc, settings, at)?,
            lows,
        })
    }

    /// The history with the state of each search and the order of their turns.
    pub fn turns(&self) -> &FarmTurns
        ensures { result.now ≡ self.now }
    {
        self.register.turns()
    }

    /// The search with a number, as it was opened.
    pub fn opening(&self, number: u32) -> Option<&Opening>
        ensures found { option_copied result ≡ opening_numbered self.now number }
        ensures held { IfSome result (λ opening. Contains (openings self.now) opening.now) }
    {
        self.register.opening(number)
    }

    /// How many leases a search has, at both stages: none, where it was never opened.
    pub fn leases_of(&self, number: u32) -> u32
        ensures { result ≡ length (leases self.now number) }
    {
        self.register.leases_of(number)
    }

    /// What the next request for an order comes to at a moment: the next order, or why there is none.
    pub fn next_order(&self, moment: Moment) -> Result<Draft, NoOrder>
        ensures { result ≡ next_order_at self.now (moment_ms moment) }
    {
        let low = self.lows[self.lows.len() - 1];
        let first = self.register.waiting(low + 1);
        self.register.next_order(first, moment)
    }

    /// Whether some order is still to be taken. With a daily limit of 0 none ever is.
    pub fn has_order_to_take(&self) -> bool
        ensures { result ≡ has_order_to_take self.now }
    {
        let low = self.lows[self.lows.len() - 1];
        self.register.daily_limit() > 0 && self.register.waiting(low + 1).is_some()
    }

    /// How many orders were carried over.
    pub fn carried_count(&self) -> u32
        ensures { result ≡ length (carried self.now) }
    {
        self.register.carried_count()
    }

    /// Whether a commit has an order, of this farm or of one before it.
    pub fn has_order(&self, commit: CommitId) -> bool
        ensures { result ≡ has_order (orders self.now) commit }
    {
        self.register.has_order(commit)
    }

    // One entry more, and one less.

    /// Adds an entry that may come next.
    ///
    /// # Errors
    ///
    /// [`Memory`]. The history stays.
    pub fn push(&mut self, alloc: Global, entry: Entry) -> Result<(), Memory>
        requires { IsLegal (self.old ++ entry ∷ []) }
        ensures pushed { OnOk result (self.new ≡ self.old ++ entry ∷ []) }
        ensures kept { OnErr result (self.new ≡ self.old) }
    {
        let is_lease = entry.what.lease().is_some();
        let told = entry.what.told();
        let before = self.lows[self.lows.len() - 1];
        self.lows.reserve(1)?;
        self.register.push(alloc, entry)?;
        let low = low_with(&self.register, before, is_lease, told);
        self.lows.push_reserved(low);
        Ok(())
    }

    /// Takes the last entry away, which takes no memory.
    pub fn pop(&mut self)
        requires { 1 < length self.old }
        ensures { self.new ≡ take (length self.old - 1) self.old }
    {
        self.register.pop();
        let _low = self.lows.pop();
    }
}

/// How many searches stand before the first one that waits for an order once an entry is in, by how many did before it:
/// as many, where the entry is a lease, since that changes no search that waits.
fn low_with(register: &Register, before: u32, is_lease: bool, told: Option<u32>) -> u32
    requires legal { IsLegal register.now }
    requires served { IsServed register.now (low_after register.now before told) }
    requires same { is_lease ≡ true → IsLowest register.now before }
    ensures { IsLowest register.now result }
{
    if is_lease {
        return before;
    }
    let low = low_after(register, before, told);
    passed(register, low)
}

/// How many searches stand before the first one that waits for an order, where so many are known not to wait.
fn passed(register: &Register, low: u32) -> u32
    requires legal { IsLegal register.now }
    requires served { IsServed register.now low }
    ensures { IsLowest register.now result }
{
    let count = register.state().searches_count() as u32;
    let mut at = low;
    while at < count {
        if register.waiting(at + 1).is_some() {
            return at;
        }
        at += 1;
    }
    at
}

/// Up to which number no search waits for an order once a run is reported, with a verdict or not, where none did up to
/// a number before.
fn low_after(register: &Register, low: u32, told: Option<u32>) -> u32
    requires { IsLegal register.now }
    ensures { result ≡ low_after register.now low told }
{
    let Some(run) = told else {
        return low;
    };
    let Some(lease) = register.state().books().lease_of(run) else {
        return low;
    };
    match register.waiting(lease.search) {
        None => low,
        Some(_) => low.min(lease.search - 1),
    }
}
