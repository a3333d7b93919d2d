//! The counter of bytes that are looked at.
ghost use Rattle.std.specs.Prelude.{◌≡◌, ◌+◌};
ghost use Rattle.http_requests.specs.Costs.{CanCount};

use std::marker::Model;
use std::sync::ledger::{Blank, Book, Ledger, Share};

/// How many bytes were looked at: each byte of which it was seen whether a head ends there, and each that was given to
/// the parser. A contract sees the counter as its number, for any ledger. At run time it has no bytes, and counting
/// costs nothing.
#[derive(Drop)]
pub struct Looked<L: Ledger> {
    book: Book<L>,
    share: Share<L>,
}

impl<L: Ledger> Model for Looked<L> {
    ghost use Rattle.std.specs.Prelude.{ℕ, ◌<◌};

    ghost Value = { ℕ };

    ghost view = { λ l. l.book.total };

    ghost invariant = { λ l. 0 < l.share.parts };
}

impl<L: Ledger> Looked<L> {
    /// A counter at 0, on a blank of its ledger.
    pub fn new(blank: Blank) -> Looked<L>
        requires { CanCount blank L.name L.parts }
        ensures { result ≡ 0 }
    {
        let (book, share) = blank.open::<L>();
        Looked { book, share }
    }

    /// Counts so many bytes.
    pub(crate) fn add(&mut self, count: usize)
        ensures { self.new ≡ self.old + count }
    {
        self.book.add(&mut self.share, count as u64);
    }
}
