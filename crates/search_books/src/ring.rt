//! A list of numbers that each stand in it once, as a ring of links.

ghost use Rattle.std.specs.Prelude.{◌≡◌, ◌≤◌, ◌<◌, ◌+◌, ◌-◌, ◌++◌, ◌∷◌, [], true, false, IfOk, OnOk};
ghost use Rattle.search_books.specs.Order.{has, strike, put_behind, first_of, next_of, prior_of};

use crate::links::{Link, after, before, cut, join};
use farm_types::Memory;
use std::alloc::Global;
use std::marker::Model;

/// A list of numbers, each of them once. Contracts see the list, how many numbers were opened, 0 with them, and the
/// room: how many more can be opened without memory.
#[derive(Drop)]
pub(crate) struct Ring {
    links: Vec<Link>,
}

impl Model for Ring {
    ghost use Rattle.std.specs.Prelude.{◌-◌, length};
    ghost use Rattle.std.specs.Vec.{vec_capacity};
    ghost use Rattle.search_books.specs.Rings.{Order, order_code, order_of, IsRing};

    ghost Value = { Order };

    ghost coded = { order_code };

    ghost view = { λ ring. record {
      order = order_of ring.links.items;
      count = length ring.links.items;
      room = vec_capacity ring.links - length ring.links.items;
    } };

    ghost invariant = { λ ring. IsRing ring.links.items (order_of ring.links.items) };
}

impl Ring {
    /// The empty list, with no number opened.
    pub(crate) fn start(alloc: Global) -> Result<Ring, Memory>
        ensures order { IfOk result (λ ring. ring.order ≡ []) }
        ensures count { IfOk result (λ ring. ring.count ≡ 1) }
    {
        let mut links = Vec::with_capacity(alloc, 1)?;
        links.push_reserved(Link {
            after: 0,
            before: 0,
        });
        Ok(Ring { links })
    }

    /// Makes room for so many more numbers. Without memory nothing changes.
    pub(crate) fn reserve(&mut self, more: usize) -> Result<(), Memory>
        ensures order { self.new.order ≡ self.old.order }
        ensures count { self.new.count ≡ self.old.count }
        ensures ok { OnOk result (more ≤ self.new.room) }
        ensures room { self.old.room ≤ self.new.room }
    {
        self.links.reserve(more)?;
        Ok(())
    }

    /// Opens the next number, which isn't in the list yet. It takes no memory.
    pub(crate) fn open(&mut self) -> usize
        requires { 1 ≤ self.old.room }
        ensures number { result ≡ self.old.count }
        ensures above { 0 < result }
        ensures fresh { has result self.old.order ≡ false }
        ensures order { self.new.order ≡ self.old.order }
        ensures count { self.new.count ≡ self.old.count + 1 }
        ensures room { self.new.room + 1 ≡ self.old.room }
    {
        let number = self.links.len();
        self.links.push_reserved(Link {
            after: number,
            before: number,
        });
        number
    }

    /// How many numbers were opened, 0 with them.
    pub(crate) fn count(&self) -> usize
        ensures { result ≡ self.now.count }
    {
        self.links.len()
    }

    /// Undoes the last `open`, for a number that isn't in the list. Its room is free again.
    pub(crate) fn close(&mut self)
        requires some { 1 < self.old.count }
        requires out { has (self.old.count - 1) self.old.order ≡ false }
        ensures order { self.new.order ≡ self.old.order }
        ensures count { self.new.count + 1 ≡ self.old.count }
        ensures room { self.new.room ≡ self.old.room + 1 }
    {
        let Some(_last) = self.links.pop() else {
            unreachable!();
        };
    }

    /// Whether a number is in the list.
    pub(crate) fn contains(&self, number: usize) -> bool
        ensures has { result ≡ has number self.now.order }
        ensures above { has number self.now.order ≡ true → 0 < number }
        ensures below { has number self.now.order ≡ true → number < self.now.count }
    {
        if number >= self.links.len() {
            return false;
        }
        if number == 0 {
            return false;
        }
        after(&self.links, number) != number
    }

    /// Takes a number out of the list where it is in it.
    pub(crate) fn discard(&mut self, number: usize)
        ensures order { self.new.order ≡ strike number self.old.order }
        ensures gone { has number self.new.order ≡ false }
        ensures count { self.new.count ≡ self.old.count }
        ensures room { self.new.room ≡ self.old.room }
        ensures above { has number self.old.order ≡ true → 0 < number }
        ensures below { has number self.old.order ≡ true → number < self.old.count }
    {
        if self.contains(number) {
            self.remove(number);
        }
    }

    /// The first number, or 0.
    pub(crate) fn first(&self) -> usize
        ensures first { result ≡ first_of self.now.order }
        ensures no_zero { has 0 self.now.order ≡ false }
    {
        after(&self.links, 0)
    }

    /// The number behind one, or 0.
    pub(crate) fn next(&self, number: usize) -> usize
        requires { has number self.now.order ≡ true }
        ensures next { result ≡ next_of number self.now.order }
        ensures no_zero { has 0 self.now.order ≡ false }
    {
        after(&self.links, number)
    }

    /// The number in front of one, or 0.
    pub(crate) fn prior(&self, number: usize) -> usize
        requires { has number self.now.order ≡ true }
        ensures { result ≡ prior_of number 0 self.now.order }
    {
        let found = before(&self.links, number);
        found
    }

    /// Takes a number out of the list.
    pub(crate) fn remove(&mut self, number: usize)
        requires { has number self.old.order ≡ true }
        ensures order { self.new.order ≡ strike number self.old.order }
        ensures gone { has number self.new.order ≡ false }
        ensures count { self.new.count ≡ self.old.count }
        ensures room { self.new.room ≡ self.old.room }
    {
        cut(&mut self.links, number);
    }

    /// Adds a number behind all others.
    pub(crate) fn push(&mut self, number: usize)
        requires above { 0 < number }
        requires below { number < self.old.count }
        requires absent { has number self.old.order ≡ false }
        ensures order { self.new.order ≡ self.old.order ++ number ∷ [] }
        ensures count { self.new.count ≡ self.old.count }
        ensures room { self.new.room ≡ self.old.room }
    {
        let last = before(&self.links, 0);
        join(&mut self.links, last, number);
    }

    /// Adds a number right behind another one, or in front of all behind 0. With what `prior` answered before a
    /// `remove` it undoes that.
    pub(crate) fn insert(&mut self, prior: usize, number: usize)
        requires prior { has prior (0 ∷ self.old.order) ≡ true }
        requires above { 0 < number }
        requires below { number < self.old.count }
        requires absent { has number self.old.order ≡ false }
        ensures order { self.new.order ≡ put_behind prior number 0 self.old.order }
        ensures count { self.new.count ≡ self.old.count }
        ensures room { self.new.room ≡ self.old.room }
    {
        join(&mut self.links, prior, number);
    }
}
