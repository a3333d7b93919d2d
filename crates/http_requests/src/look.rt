//! A look at the bytes that are new.
ghost use Rattle.std.specs.Prelude.{◌≡◌, ◌+◌, ◌<◌, ◌≤◌, ℕ, false, length, min, take};
ghost use Rattle.http_requests.specs.Looks.{IsLook};
ghost use Rattle.http_requests.specs.Places.{is_end, place_of};

use crate::looked::Looked;
use crate::place::Place;
use crate::stride::Stride;
use http_words::MAX_HEAD_BYTES;
use std::sync::ledger::Ledger;

/// How far bytes were looked at, and where in a head those end.
#[derive(Clone, Copy)]
pub(crate) struct Look {
    /// How many bytes at the front were looked at.
    pub(crate) count: usize,
    /// How many lines end in those.
    pub(crate) lines: usize,
    pub(crate) place: Place,
}

impl Look {
    /// Looks at the bytes behind those that were looked at, up to where a head ends if they are one, and at no more
    /// than a head may have.
    #[tactic(auto, using(crate::proofs::Places::looking))]
    pub(crate) fn on<L: Ledger>(self, bytes: &[u8], looked: &mut Looked<L>) -> Look
        requires look { IsLook self bytes.now }
        requires few { self.count ≤ MAX_HEAD_BYTES }
        requires no_end { is_end self.place ≡ false }
        ensures look { IsLook result bytes.now }
        ensures few { result.count ≤ MAX_HEAD_BYTES }
        ensures onward { self.count ≤ result.count }
        ensures first { (n : ℕ) → n < result.count → is_end (place_of (take n bytes.now)) ≡ false }
        ensures counted { looked.new + self.count ≡ looked.old + result.count }
        ensures whole { is_end result.place ≡ false → result.count ≡ min (length bytes.now) MAX_HEAD_BYTES }
    {
        let last = bytes.len().min(MAX_HEAD_BYTES);
        let mut count = self.count;
        let mut lines = self.lines;
        let mut place = self.place;
        while count < last && !place.is_end() {
            let stride = Stride::of(place, &bytes[count..last]);
            place = stride.place;
            count += stride.count;
            lines += stride.lines;
            looked.add(stride.count);
        }
        Look {
            count,
            lines,
            place,
        }
    }
}
