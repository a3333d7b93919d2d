ghost use Rattle.std.specs.Prelude.{◌≡◌, IfOk};

use farm_types::{Key, Memory, Name};
use flake_rate::{Bar, Miss, Rate};
use std::alloc::Global;
use std::marker::Model;
use std::ops::Deref;
use suspect_range::SuspectRange;

/// A search as it was opened: which test is searched, among which suspects, and by which rules.
#[derive(PartialEq, Eq)]
pub struct Opening {
    /// The key of the request.
    pub key: Key,
    /// The number of the search, from 1.
    pub search: u32,
    /// The test that was seen to fail.
    pub test: Name,
    /// The suspects above their base, with the weights of the prior.
    pub range: SuspectRange,
    /// How often the test fails at a sound commit.
    pub rate: Rate,
    /// How often the test passes with the culprit in. In a history it fits the rate.
    pub miss: Miss,
    /// The share of the belief at which the search acts on a hypothesis.
    pub bar: Bar,
    /// How many runs of the search may be out at once; 1 to [`MAX_WIDTH`](weight_exact::MAX_WIDTH) in a history.
    pub width: u8,
    /// How many reruns have to fail at the culprit, and how many to pass just below it, before the culprit is
    /// confirmed; 1 to [`MAX_RERUNS`](crate::MAX_RERUNS) in a history.
    pub reruns: u8,
}

// Written out, so that the crates above cite its proof, and prove none of its fields' drops again.
impl Drop for Opening {
    fn drop(self) {
        let Opening {
            key: _,
            search: _,
            test: _,
            range: _,
            rate: _,
            miss: _,
            bar: _,
            width: _,
            reruns: _,
        } = self;
    }
}

/// An opening on the heap, which takes no more than a pointer where it stands. Contracts see it as the [`Opening`]
/// that it holds.
#[derive(Drop)]
pub struct BoxedOpening {
    opening: Box<Opening>,
}

impl Model for BoxedOpening {
    ghost use Rattle.farm_entry.specs.declared.opening.Opening.{Opening};

    ghost Value = { Opening };

    ghost view = { λ boxed. boxed.opening.value };
}

impl PartialEq for BoxedOpening {
    ghost use Rattle.farm_entry.specs.contracts.opening.OpeningPartialEq.TheImpl.Laws.{laws-law};

    ghost eq = { ⟦<Opening as PartialEq>⟧.eq };

    ghost laws = { laws-law };

    fn eq(&self, other: &BoxedOpening) -> bool {
        *self.opening == *other.opening
    }
}

impl Eq for BoxedOpening {
    ghost use Rattle.farm_entry.specs.contracts.opening.OpeningEq.TheImpl.Laws.{laws-law};

    ghost laws = { laws-law };
}

impl Deref for BoxedOpening {
    type Target = Opening;

    ghost deref_gives = { λ boxed opening. opening ≡ boxed };

    fn deref(&self) -> &Opening
        ensures { result.now ≡ self.now }
    {
        &self.opening
    }
}

impl BoxedOpening {
    /// Puts an opening on the heap. Without memory for it, it is dropped.
    pub fn of(alloc: Global, opening: Opening) -> Result<BoxedOpening, Memory>
        ensures { IfOk result (λ boxed. boxed ≡ opening) }
    {
        Ok(BoxedOpening {
            opening: Box::new(alloc, opening)?,
        })
    }

    /// The opening itself, taken off the heap.
    pub fn into_inner(self) -> Opening
        ensures { result ≡ self }
    {
        let BoxedOpening { opening } = self;
        Box::into_inner(opening)
    }

    /// A copy of the opening, on the allocators of its own parts.
    pub(crate) fn copy(&self) -> Result<BoxedOpening, Memory>
        ensures { IfOk result (λ boxed. boxed ≡ self.now) }
    {
        BoxedOpening::of(*Box::allocator(&self.opening), self.opening.copy()?)
    }
}

impl Opening {
    fn copy(&self) -> Result<Opening, Memory>
        ensures { IfOk result (λ opening. opening ≡ self.now) }
    {
        Ok(Opening {
            key: self.key,
            search: self.search,
            test: self.test.copy()?,
            range: self.range.copy()?,
            rate: self.rate,
            miss: self.miss,
            bar: self.bar,
            width: self.width,
            reruns: self.reruns,
        })
    }
}
