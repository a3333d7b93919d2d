//! The order.

ghost use Rattle.std.specs.Prelude.{◌≡◌, ◌≤◌, ◌+◌, ◌-◌, ◌++◌, ◌∷◌, ◌⊎◌, ◌<◌, [], true, false, if◌then◌else◌, IfOk, OnOk};
ghost use Rattle.search_books.specs.Order.{has, strike, put_behind, prior_of, first_of, next_of};

use crate::ring::Ring;
use farm_types::Memory;
use std::alloc::Global;
use std::marker::Model;

/// The active searches, numbered from 1 as they are opened: those never leased by number, and then the others by when
/// each was last leased.
#[derive(Drop)]
pub struct ActiveOrder {
    never: Ring,
    leased: Ring,
}

impl Model for ActiveOrder {
    ghost use Rattle.std.specs.Prelude.{min};
    ghost use Rattle.search_books.specs.Active.{Active, active_code, IsActive};

    ghost Value = { Active };

    ghost coded = { active_code };

    ghost view = { λ active. record {
      never = active.never.order;
      leased = active.leased.order;
      count = active.never.count;
      room = min active.never.room active.leased.room;
    } };

    ghost invariant = { λ active. IsActive active.never active.leased };
}

impl ActiveOrder {
    /// No searches.
    ///
    /// # Errors
    ///
    /// [`Memory`].
    pub fn start(alloc: Global) -> Result<ActiveOrder, Memory>
        ensures never { IfOk result (λ active. active.never ≡ []) }
        ensures leased { IfOk result (λ active. active.leased ≡ []) }
        ensures count { IfOk result (λ active. active.count ≡ 1) }
    {
        Ok(ActiveOrder {
            never: Ring::start(alloc)?,
            leased: Ring::start(alloc)?,
        })
    }

    /// Makes room for so many more searches. Without memory nothing changes but the room.
    pub fn reserve(&mut self, more: usize) -> Result<(), Memory>
        ensures never { self.new.never ≡ self.old.never }
        ensures leased { self.new.leased ≡ self.old.leased }
        ensures count { self.new.count ≡ self.old.count }
        ensures ok { OnOk result (more ≤ self.new.room) }
        ensures room { self.old.room ≤ self.new.room }
    {
        self.never.reserve(more)?;
        self.leased.reserve(more)
    }

    /// The next search comes in, never leased. It takes no memory.
    pub fn open(&mut self) -> usize
        requires { 1 ≤ self.old.room }
        ensures number { result ≡ self.old.count }
        ensures never { self.new.never ≡ self.old.never ++ result ∷ [] }
        ensures leased { self.new.leased ≡ self.old.leased }
        ensures count { self.new.count ≡ self.old.count + 1 }
        ensures room { self.new.room + 1 ≡ self.old.room }
    {
        let number = self.never.open();
        self.leased.open();
        self.never.push(number);
        number
    }

    /// Undoes the last `open`, for a search that was not leased since. Its room is free again.
    pub fn close(&mut self)
        requires some { 1 < self.old.count }
        requires out { has (self.old.count - 1) self.old.leased ≡ false }
        ensures never { self.new.never ≡ strike (self.old.count - 1) self.old.never }
        ensures leased { self.new.leased ≡ self.old.leased }
        ensures count { self.new.count + 1 ≡ self.old.count }
        ensures room { self.new.room ≡ self.old.room + 1 }
    {
        let search = self.never.count() - 1;
        self.never.discard(search);
        self.never.close();
        self.leased.close();
    }

    /// A search was leased, and moves behind all others. It takes no memory.
    pub fn lease(&mut self, search: usize)
        requires { (has search self.old.never ≡ true) ⊎ (has search self.old.leased ≡ true) }
        ensures never { self.new.never ≡ strike search self.old.never }
        ensures leased { self.new.leased ≡ strike search self.old.leased ++ search ∷ [] }
        ensures count { self.new.count ≡ self.old.count }
        ensures room { self.new.room ≡ self.old.room }
    {
        self.never.discard(search);
        self.leased.discard(search);
        self.leased.push(search);
    }

    /// Where a search stands: whether it was never leased, and the search right in front of it among those that share
    /// this with it, or 0.
    pub fn place(&self, search: usize) -> (bool, usize)
        requires { (has search self.now.never ≡ true) ⊎ (has search self.now.leased ≡ true) }
        ensures fresh { result.0 ≡ has search self.now.never }
        ensures prior { result.1
            ≡ (if result.0 then prior_of search 0 self.now.never else prior_of search 0 self.now.leased) }
    {
        if self.never.contains(search) {
            return (true, self.never.prior(search));
        }
        if self.leased.contains(search) {
            return (false, self.leased.prior(search));
        }
        (false, 0)
    }

    /// Puts a search back to a place that `place` answered before it was leased or ended. It takes no memory.
    pub fn put_back(&mut self, search: usize, fresh: bool, prior: usize)
        requires above { 0 < search }
        requires below { search < self.old.count }
        requires absent { has search self.old.never ≡ false }
        requires prior { has prior (0 ∷ (if fresh then self.old.never else strike search self.old.leased)) ≡ true }
        ensures never { self.new.never
            ≡ (if fresh then put_behind prior search 0 self.old.never else self.old.never) }
        ensures leased { self.new.leased
            ≡ (if fresh then strike search self.old.leased
            else put_behind prior search 0 (strike search self.old.leased)) }
        ensures count { self.new.count ≡ self.old.count }
        ensures room { self.new.room ≡ self.old.room }
    {
        self.leased.discard(search);
        if fresh {
            self.never.insert(prior, search);
        } else {
            self.leased.insert(prior, search);
        }
    }

    /// A search ended, and goes.
    pub fn end(&mut self, search: usize)
        ensures never { self.new.never ≡ strike search self.old.never }
        ensures leased { self.new.leased ≡ strike search self.old.leased }
        ensures count { self.new.count ≡ self.old.count }
        ensures room { self.new.room ≡ self.old.room }
    {
        self.never.discard(search);
        self.leased.discard(search);
    }

    /// Whether a search is active.
    pub fn contains(&self, search: usize) -> bool
        ensures active { result ≡ true → (has search self.now.never ≡ true) ⊎ (has search self.now.leased ≡ true) }
        ensures absent { result ≡ false → (has search self.now.never ≡ false) × (has search self.now.leased ≡ false) }
    {
        if self.never.contains(search) {
            return true;
        }
        self.leased.contains(search)
    }

    /// The search to look at first, or 0.
    pub fn first(&self) -> usize
        ensures { result ≡ first_of (self.now.never ++ self.now.leased) }
    {
        let fresh = self.never.first();
        if fresh != 0 {
            fresh
        } else {
            self.leased.first()
        }
    }

    /// The search to look at after one, or 0.
    pub fn next(&self, search: usize) -> usize
        requires { (has search self.now.never ≡ true) ⊎ (has search self.now.leased ≡ true) }
        ensures { result ≡ next_of search (self.now.never ++ self.now.leased) }
    {
        if self.never.contains(search) {
            let fresh = self.never.next(search);
            return if fresh != 0 {
                fresh
            } else {
                self.leased.first()
            };
        }
        if self.leased.contains(search) {
            return self.leased.next(search);
        }
        0
    }
}
