//! The orders that were read so far.

ghost use Rattle.std.specs.Prelude.{◌≡◌, ◌≤◌, ◌∷◌, ◌++◌, [], true, length, OnOk};
ghost use Rattle.farm_entry.specs.declared.limits.TheConstants.{MAX_CARRIED};
ghost use Rattle.farm_handover.specs.Handover.{is_further};

use farm_entry::MAX_CARRIED;
use farm_rules::{OrderedCommit, Orders};
use farm_types::Memory;
use std::alloc::Global;

/// The orders that were read so far, with their book, which tells whether a commit is among them.
#[derive(Drop)]
pub(crate) struct ReadOrders {
    list: Vec<OrderedCommit>,
    book: Orders,
    ghost same: { book.orders ≡ list.items },
    ghost none_given: { book.given ≡ 0 },
    ghost few: { length list.items ≤ MAX_CARRIED },
}

impl ReadOrders {
    /// None.
    pub(crate) fn none(alloc: Global) -> ReadOrders
        ensures { result.list.items ≡ [] }
    {
        ReadOrders {
            list: Vec::new(alloc),
            book: Orders::start(alloc),
        }
    }

    /// How many there are.
    pub(crate) fn len(&self) -> usize
        ensures len { result ≡ length self.now.list.items }
        ensures few { result ≤ MAX_CARRIED }
    {
        self.list.len()
    }

    /// Whether an order may come behind them: there is room for one more, and its commit isn't among them.
    pub(crate) fn is_further(&self, order: OrderedCommit) -> bool
        ensures { result ≡ is_further self.now.list.items order }
    {
        self.list.len() < MAX_CARRIED && !self.book.has_order(order.commit)
    }

    /// Adds an order.
    pub(crate) fn add(&mut self, order: OrderedCommit) -> Result<(), Memory>
        requires { is_further self.old.list.items order ≡ true }
        ensures { OnOk result (self.new.list.items ≡ self.old.list.items ++ order ∷ []) }
    {
        self.list.reserve(1)?;
        self.book.reserve(1)?;
        self.book.carry(order);
        self.list.push_reserved(order);
        Ok(())
    }

    /// The orders.
    pub(crate) fn into_orders(self) -> Vec<OrderedCommit>
        ensures { result ≡ self.list }
    {
        self.list
    }
}
