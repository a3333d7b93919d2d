//! What was read of the next request so far.
ghost use Rattle.std.specs.Prelude.{◌≡◌, ◌+◌, ◌*◌, List, ℕ};
ghost use Rattle.http_requests.specs.Costs.{cost};
ghost use Rattle.http_requests.specs.Readings.{IsBegun, IsBodyAwaited, IsReading};

use crate::look::Look;
use crate::place::Place;
use crate::request::Request;

/// What was read of the next request of a connection, whose bytes come piece by piece. It is kept from one call of
/// [`next_of`](crate::next_of) to the next, so that each byte of a head is looked at once, and each head is parsed
/// once it is whole.
#[derive(Clone, Copy)]
pub struct Reading {
    pub(crate) stage: Stage,
}

/// How far the next request was read.
#[derive(Clone, Copy)]
pub(crate) enum Stage {
    /// There is no whole head yet.
    Head(Begun),
    /// There is a head, and its body isn't whole yet: this is the request that it becomes.
    Body(Request),
}

/// How far the bytes of a head were read that isn't whole.
#[derive(Clone, Copy)]
pub(crate) struct Begun {
    pub(crate) look: Look,
    /// How many bytes the parser was last given, which may become a head.
    pub(crate) tried: usize,
}

impl Reading {
    /// Nothing was read yet.
    pub fn new() -> Reading
        ensures { (bytes : List ℕ) → IsReading result bytes }
    {
        let look = Look {
            count: 0,
            lines: 0,
            place: Place::Blank,
        };
        Reading::of_head(look, 0)
    }

    pub(crate) fn of_head(look: Look, tried: usize) -> Reading
        ensures is { (bytes : List ℕ) → IsBegun (record { look = look; tried = tried }) bytes → IsReading result bytes }
        ensures costs { cost result ≡ look.count + 2 * tried }
    {
        let begun = Begun { look, tried };
        Reading {
            stage: Stage::Head(begun),
        }
    }

    pub(crate) fn of_body(request: Request) -> Reading
        ensures is { (bytes : List ℕ) → IsBodyAwaited request bytes → IsReading result bytes }
        ensures costs { cost result ≡ 4 * request.body }
    {
        Reading {
            stage: Stage::Body(request),
        }
    }
}
