//! Some bytes of a head at once.
ghost use Rattle.std.specs.Prelude.{◌≡◌, ◌<◌, ◌≤◌, ◌∷◌, [], ℕ, false, length, take};
ghost use Rattle.http_requests.specs.Looks.{feeds};
ghost use Rattle.http_requests.specs.Places.{is_end, place_from};

use crate::place::Place;
use memchr::memchr;

/// How many bytes are searched for a line's end at once. Most lines have fewer, and the search of more is set up for
/// far more.
const NEAR: usize = 191;

/// How many lines end with a byte.
fn line_ends(b: u8) -> usize
    ensures lines { feeds (b ∷ []) ≤ result }
    ensures few { result ≤ 1 }
{
    if b == b'\n' { 1 } else { 0 }
}

/// Some bytes at the front of others, and where they lead.
#[derive(Clone, Copy)]
pub(crate) struct Stride {
    pub(crate) count: usize,
    /// How many lines end in them.
    pub(crate) lines: usize,
    pub(crate) place: Place,
}

impl Stride {
    /// From a place where no head ends: a line, or what is left of it, up to its end, or one byte.
    #[tactic(auto, using(crate::proofs::Feeds::feeds_one))]
    pub(crate) fn of(place: Place, bytes: &[u8]) -> Stride
        requires some { 0 < length bytes.now }
        requires no_end { is_end place ≡ false }
        ensures some { 0 < result.count }
        ensures within { result.count ≤ length bytes.now }
        ensures lines { feeds (take result.count bytes.now) ≤ result.lines }
        ensures few { result.lines ≤ result.count }
        ensures leads { result.place ≡ place_from place (take result.count bytes.now) }
        ensures first { (n : ℕ) → n < result.count → is_end (place_from place (take n bytes.now)) ≡ false }
    {
        match place.behind(bytes[0]) {
            Place::Line => Stride::in_line(bytes),
            next => Stride {
                count: 1,
                lines: line_ends(bytes[0]),
                place: next,
            },
        }
    }

    /// The rest of a line, with its line feed where that is there, or so many bytes of it.
    fn in_line(bytes: &[u8]) -> Stride
        requires some { 0 < length bytes.now }
        ensures some { 0 < result.count }
        ensures within { result.count ≤ length bytes.now }
        ensures lines { feeds (take result.count bytes.now) ≤ result.lines }
        ensures few { result.lines ≤ result.count }
        ensures leads { result.place ≡ place_from Place.Line (take result.count bytes.now) }
        ensures first { (n : ℕ) → n < result.count → is_end (place_from Place.Line (take n bytes.now)) ≡ false }
    {
        let front = &bytes[..bytes.len().min(NEAR)];
        match memchr(b'\n', front) {
            Some(at) => Stride {
                count: at + 1,
                lines: 1,
                place: Place::Start,
            },
            None => Stride {
                count: front.len(),
                lines: 0,
                place: Place::Line,
            },
        }
    }
}
