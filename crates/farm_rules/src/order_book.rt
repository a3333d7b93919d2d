ghost use Rattle.std.specs.Prelude.{◌≡◌, ◌≤◌, ◌<◌, ◌+◌, ◌-◌, ◌^◌, ◌↔◌, length, map, false, None, Some, [], ◌∷◌, ◌++◌, IfSome, IfNone, IfOk, IfErr, OnOk, IsSome};
ghost use Rattle.farm_rules.specs.Orders.{candidates, earliest, has_order, next_draft, orders_of};
ghost use Rattle.farm_rules.specs.Earlier.{earlier_of};

use crate::order_chains::{Item, grown, is_there, link, unlink_last};
use crate::{Candidate, Draft, NoOrder, OrderedCommit};
use farm_types::{CommitId, Memory};
use std::alloc::Global;
use std::marker::Model;

/// An order that stood until it was taken back: its number, counted from 1, or 0 where it was carried over; its commit,
/// and its day, in days since 1970-01-01.
#[derive(Clone, Copy)]
pub struct RevertOrder {
    pub order: u32,
    pub commit: CommitId,
    pub day: u32,
}

/// The revert orders that stand: first those that were carried over from farms before this one, and then those that it
/// gave, numbered from 1 in their order. No commit has two, and there are fewer than 2^32.
///
/// How many stand on the day of the one that was added last is kept, so that the next order of that day doesn't go
/// through all of them.
#[derive(Drop)]
pub struct Orders {
    heads: Vec<usize>,
    items: Vec<Item>,
    given: u32,
    /// The day of the order that was added last, whether it stands still or not.
    last_day: u32,
    /// How many orders stand on that day.
    on_last_day: u32,
}

impl Model for Orders {
    ghost use Rattle.std.specs.Prelude.{◌-◌, length};
    ghost use Rattle.std.specs.Vec.{vec_capacity};
    ghost use Rattle.farm_rules.specs.Book.{Book};

    ghost Value = { Book };

    ghost use Rattle.farm_rules.specs.OrderChains.{IsTable, orders_in};

    ghost view = { λ orders. record {
      orders = orders_in orders.items.items;
      given = orders.given;
      room = vec_capacity orders.items - length orders.items.items;
    } };

    ghost invariant = { λ orders.
        IsTable orders.heads.items orders.items.items orders.given (vec_capacity orders.items)
        orders.last_day orders.on_last_day };
}

impl Orders {
    ghost use Rattle.farm_rules.specs.Book.{IsOnePerCommit, ordered};

    /// No orders, which takes no memory.
    pub fn start(alloc: Global) -> Orders
        ensures none { result.orders ≡ [] }
        ensures none_given { result.given ≡ 0 }
    {
        Orders {
            heads: Vec::new(alloc),
            items: Vec::new(alloc),
            given: 0,
            last_day: 0,
            on_last_day: 0,
        }
    }

    /// How many orders stand.
    pub fn len(&self) -> u32
        ensures len { result ≡ length self.now.orders }
        ensures one_per_commit { IsOnePerCommit self.now.orders }
    {
        self.items.len() as u32
    }

    /// How many of them were given here, and not carried over.
    pub fn given(&self) -> u32
        ensures given { result ≡ self.now.given }
        ensures within { result ≤ length self.now.orders }
    {
        self.given
    }

    /// Whether a commit has an order.
    pub fn has_order(&self, commit: CommitId) -> bool
        ensures { result ≡ has_order self.now.orders commit }
    {
        !self.heads.is_empty() && is_there(&self.heads, &self.items, commit)
    }

    /// The next order: of the candidates whose commit has no order it is for the one with the smallest search number,
    /// on a tie for the first of them. The candidates may stand in any order. `limit` is how many orders a day may
    /// have, those carried over among them. Nothing is added, and no memory is taken.
    pub fn next(&self, confirmed: &[Candidate], day: u32, limit: u32) -> Result<Draft, NoOrder>
        requires { self.now.given + 1 < 2 ^ 32 }
        ensures next { result ≡ next_draft confirmed.now self.now.orders self.now.given day limit }
        ensures free { IfOk result (λ draft. has_order self.now.orders draft.commit ≡ false) }
    {
        let Some(chosen) = self.earliest(confirmed) else {
            return Err(NoOrder::NoRevert);
        };
        let count = self.count(day);
        if count >= limit {
            return Err(NoOrder::DailyLimit { day, count });
        }
        Ok(Draft {
            order: self.given + 1,
            commit: chosen.commit,
            search: chosen.search,
            day,
        })
    }

    /// Makes room for so many more orders. Where it grows it at least doubles, and without memory nothing changes.
    pub fn reserve(&mut self, more: usize) -> Result<(), Memory>
        ensures orders { self.new.orders ≡ self.old.orders }
        ensures given { self.new.given ≡ self.old.given }
        ensures ok { OnOk result (more ≤ self.new.room) }
        ensures room { self.old.room ≤ self.new.room }
    {
        if more <= self.items.capacity() - self.items.len() {
            return Ok(());
        }
        let wanted = self.items.len().checked_add(more).ok_or(Memory)?;
        let size = wanted.max(self.items.capacity().saturating_mul(2));
        let (heads, items) = grown(*self.items.allocator(), &self.items, size)?;
        self.heads = heads;
        self.items = items;
        Ok(())
    }

    /// Adds an order that was carried over, before any is given. It takes no memory.
    pub fn carry(&mut self, carried: OrderedCommit)
        requires room { 1 ≤ self.old.room }
        requires few { length self.old.orders + 1 < 2 ^ 32 }
        requires none_given { self.old.given ≡ 0 }
        requires free { has_order self.old.orders carried.commit ≡ false }
        ensures added { self.new.orders ≡ self.old.orders ++ carried ∷ [] }
        ensures none_given { self.new.given ≡ 0 }
        ensures room { self.new.room + 1 ≡ self.old.room }
    {
        let before = self.count(carried.day);
        link(
            &mut self.heads,
            &mut self.items,
            carried.commit,
            carried.day,
        );
        self.last_day = carried.day;
        self.on_last_day = before + 1;
    }

    /// Adds an order that is given, which takes no memory.
    pub fn add(&mut self, draft: Draft)
        requires room { 1 ≤ self.old.room }
        requires few { length self.old.orders + 1 < 2 ^ 32 }
        requires number { draft.order ≡ self.old.given + 1 }
        requires free { has_order self.old.orders draft.commit ≡ false }
        ensures added { self.new.orders ≡ self.old.orders ++ ordered draft.commit draft.day ∷ [] }
        ensures given { self.new.given ≡ self.old.given + 1 }
        ensures room { self.new.room + 1 ≡ self.old.room }
    {
        let before = self.count(draft.day);
        link(&mut self.heads, &mut self.items, draft.commit, draft.day);
        self.given += 1;
        self.last_day = draft.day;
        self.on_last_day = before + 1;
    }

    /// Takes the last order back, where one stands. Its room is free then, so that an order can be added in its place
    /// without memory.
    pub fn take_last(&mut self) -> Option<RevertOrder>
        ensures taken { IfSome result (λ last. self.old.orders ≡ self.new.orders ++ ordered last.commit last.day ∷ []) }
        ensures number { IfSome result (λ last. last.order ≡ self.old.given) }
        ensures given { IfSome result (λ last. self.new.given ≡ self.old.given - 1) }
        ensures found { IsSome result ↔ (0 < length self.old.orders) }
        ensures none { IfNone result (self.new ≡ self.old) }
        ensures room { IfSome result (λ last. self.new.room ≡ self.old.room + 1) }
    {
        if self.items.is_empty() {
            return None;
        }
        let order = self.given;
        self.given = order.saturating_sub(1);
        let last = unlink_last(&mut self.heads, &mut self.items);
        self.on_last_day -= u32::from(last.day == self.last_day);
        Some(RevertOrder {
            order,
            commit: last.commit,
            day: last.day,
        })
    }

    /// Of the candidates whose commit has no order, the one with the smallest search number, the first on a tie.
    fn earliest(&self, confirmed: &[Candidate]) -> Option<Candidate>
        ensures { result ≡ earliest (candidates confirmed.now self.now.orders) }
    {
        let mut best: Option<Candidate> = None;
        for candidate in confirmed {
            if !self.has_order(candidate.commit) {
                best = Some(earlier(best, *candidate));
            }
        }
        best
    }

    /// How many orders of a day stand.
    fn count(&self, day: u32) -> u32
        ensures { result ≡ orders_of day self.now.orders }
    {
        if day == self.last_day {
            return self.on_last_day;
        }
        self.items.iter().filter(|item| item.day == day).count() as u32
    }
}

/// The best so far, or this later candidate where its search number is smaller.
fn earlier(best: Option<Candidate>, candidate: Candidate) -> Candidate
    ensures { Some result ≡ earlier_of best (Some candidate) }
{
    match best {
        Some(found) if found.search <= candidate.search => found,
        _ => candidate,
    }
}
