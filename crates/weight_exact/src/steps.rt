//! The counter of steps.

ghost use Rattle.std.specs.Prelude.{◌≡◌, ◌+◌};
ghost use Rattle.weight_exact.specs.Steps.{CanCount};

use std::marker::Model;
use std::sync::ledger::{Blank, Book, Ledger, Share};

/// How many steps were taken. A step is one product, [`Powers::times`](crate::Powers::times), or one sum that is read
/// or changed, [`Sums::at`](crate::Sums::at), [`Sums::set`](crate::Sums::set) and
/// [`Sums::multiply`](crate::Sums::multiply): what the time of an inference goes into. A contract sees the counter as
/// its number, for any ledger. At run time it has no bytes, and counting costs nothing.
#[derive(Drop)]
pub struct Steps<L: Ledger> {
    book: Book<L>,
    share: Share<L>,
}

impl<L: Ledger> Model for Steps<L> {
    ghost use Rattle.std.specs.Prelude.{ℕ, ◌<◌};

    ghost Value = { ℕ };

    ghost view = { λ s. s.book.total };

    ghost invariant = { λ s. 0 < s.share.parts };
}

impl<L: Ledger> Steps<L> {
    /// A counter at 0, on a blank of its ledger. A call that counts steps has one beside it for callers that count
    /// none.
    pub fn new(blank: Blank) -> Steps<L>
        requires { CanCount blank L.name L.parts }
        ensures { result ≡ 0 }
    {
        let (book, share) = blank.open::<L>();
        Steps { book, share }
    }

    /// Counts one step.
    pub fn tick(&mut self)
        ensures { self.new ≡ self.old + 1 }
    {
        self.book.add(&mut self.share, 1);
    }

    /// Counts one step for each of so many.
    pub fn tick_each(&mut self, count: usize)
        ensures { self.new ≡ self.old + count }
    {
        self.book.add(&mut self.share, count as u64);
    }
}
