//! What is kept beside an entry, in few bytes.

ghost use Rattle.std.specs.Prelude.{◌≡◌};
ghost use Rattle.kept_farm.specs.Rows.{AreSmall, row_with, totals_in};

use farm_entry::{Standing, Totals};

/// What is counted of a history but for its entries, and where the search of the last one stands; "searching" where
/// that is about none, which nobody reads. A farm has no more searches than fit 16 bits, and no more entries than fit
/// 32, and each entry has a row: it takes 24 bytes.
#[derive(Clone, Copy)]
pub(crate) struct Row {
    pub(crate) counted: u32,
    pub(crate) orders: u32,
    pub(crate) searches: u16,
    pub(crate) searching: u16,
    pub(crate) verifying: u16,
    pub(crate) confirmed: u16,
    pub(crate) ended: u16,
    pub(crate) standing: Standing,
}

impl Row {
    /// The row of what is counted, and of where a search stands.
    pub(crate) fn of(totals: Totals, standing: Standing) -> Row
        requires { AreSmall totals }
        ensures { result ≡ row_with totals standing }
    {
        Row {
            counted: totals.counted as u32,
            orders: totals.orders as u32,
            searches: totals.searches as u16,
            searching: totals.searching as u16,
            verifying: totals.verifying as u16,
            confirmed: totals.confirmed as u16,
            ended: totals.ended as u16,
            standing,
        }
    }

    /// What is counted of so many entries, of which this is the last one's row.
    pub(crate) fn totals(self, entries: usize) -> Totals
        ensures { result ≡ totals_in entries self }
    {
        Totals {
            entries: entries as u64,
            searches: u64::from(self.searches),
            searching: u64::from(self.searching),
            verifying: u64::from(self.verifying),
            confirmed: u64::from(self.confirmed),
            ended: u64::from(self.ended),
            counted: u64::from(self.counted),
            orders: u64::from(self.orders),
        }
    }
}
