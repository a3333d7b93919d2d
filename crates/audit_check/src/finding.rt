//! What an audit finds.

use std::fmt;

/// The most entries that are gone through.
pub const MAX_AUDITED: usize = 20_000;

/// What was found of the bytes of a journal. Its text is the line for it, without the line feed.
#[derive(Clone, Copy)]
pub enum Finding {
    /// They stand for a legal history.
    Legal {
        /// How many entries it has.
        entries: u64,
        /// How many searches were opened in it.
        searches: u64,
        /// How many orders were given in it.
        orders: u64,
    },
    /// Nothing was founded there.
    Unborn,
    /// The file breaks at this offset: its header is wrong or cut off there, a gate is missing, a record isn't whole,
    /// or the record behind the gate there isn't made of entries.
    Broken(u64),
    /// There are so many entries, more than [`MAX_AUDITED`], and whether they are legal wasn't looked at.
    Long(u64),
    /// The entry at this place, counted from 0, may not stand there, and all before it may.
    Illegal(u64),
}

impl fmt::Display for Finding {
    ghost use Rattle.std.specs.Prelude.{Some};
    ghost use Rattle.audit_check.specs.Line.{finding_text};

    ghost output = { λ finding. Some (finding_text finding) };

    fn fmt<W: fmt::Write>(&self, f: &mut fmt::Formatter<W>) -> fmt::Result {
        match *self {
            Finding::Legal {
                entries,
                searches,
                orders,
            } => write!(
                f,
                "legal entries {entries} searches {searches} orders {orders}"
            ),
            Finding::Unborn => write!(f, "unborn"),
            Finding::Broken(offset) => write!(f, "broken at {offset}"),
            Finding::Long(entries) => write!(f, "long {entries}"),
            Finding::Illegal(place) => write!(f, "illegal at {place}"),
        }
    }
}
