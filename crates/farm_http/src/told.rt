//! The answer that told totals last, kept while the totals stay.
ghost use Rattle.std.specs.Prelude.{◌≡◌, [], IfSome, true};
ghost use Rattle.farm_http.specs.Bytes.{request_bytes};
ghost use Rattle.farm_http.specs.Told.{same_totals, told_bytes, totals_response};

use crate::kept_bytes::KeptBytes;
use crate::responses::{Says, put_said};
use farm_entry::Totals;
use farm_wire::totals_text;
use http_requests::Request;
use http_words::StatusCode;
use std::alloc::Global;

/// The answer that told totals, and what its bytes depend on: the totals, whether the connection closes after it, and
/// whether its body isn't put.
#[derive(Drop)]
pub(crate) struct ToldTotals {
    totals: Totals,
    closes: bool,
    withheld: bool,
    bytes: KeptBytes,
    ghost is: { bytes ≡ told_bytes closes withheld totals },
}

impl ToldTotals {
    /// The answer to a request for totals, made in this room, unless memory runs out for it.
    fn of(alloc: Global, room: KeptBytes, totals: &Totals, request: &Request) -> Option<ToldTotals>
        requires empty { room ≡ [] }
        ensures { IfSome result (λ told. told.bytes ≡ request_bytes request.now (totals_response totals.now)) }
    {
        let Ok(text) = totals_text(alloc, totals) else {
            return None;
        };
        let says = Says::plain(StatusCode::Ok, text.as_bytes());
        let mut bytes = room;
        match put_said(&mut bytes, request, &says) {
            Ok(()) => Some(ToldTotals {
                totals: *totals,
                closes: request.closes,
                withheld: request.withheld,
                bytes,
            }),
            Err(_) => None,
        }
    }

    /// Whether the answer to a request for these totals is the same.
    fn answers(&self, totals: &Totals, request: &Request) -> bool
        ensures { result ≡ true → self.now.bytes ≡ request_bytes request.now (totals_response totals.now) }
    {
        if self.closes != request.closes {
            return false;
        }
        if self.withheld != request.withheld {
            return false;
        }
        are_same(&self.totals, totals)
    }

    /// Its bytes.
    pub fn bytes(&self) -> &[u8]
        ensures { result.now ≡ self.now.bytes }
    {
        self.bytes.bytes()
    }

    /// The room of its bytes, without them.
    fn into_room(self) -> KeptBytes
        ensures { result ≡ [] }
    {
        let mut room = self.bytes;
        room.clear();
        room
    }
}

/// Whether these are the same totals.
fn are_same(a: &Totals, b: &Totals) -> bool
    ensures { result ≡ same_totals a.now b.now }
{
    a.entries == b.entries
        && a.searches == b.searches
        && a.searching == b.searching
        && a.verifying == b.verifying
        && a.confirmed == b.confirmed
        && a.ended == b.ended
        && a.counted == b.counted
        && a.orders == b.orders
}

/// Whether the answer to a request for these totals is the one that was told last.
fn is_told(told: &Option<ToldTotals>, totals: &Totals, request: &Request) -> bool
    ensures { result ≡ true → IfSome told.now
        (λ last. last.bytes ≡ request_bytes request.now (totals_response totals.now)) }
{
    match told {
        Some(last) => last.answers(totals, request),
        None => false,
    }
}

/// Keeps the answer to a request for totals, which is made anew where another one was told last. None is kept where
/// memory runs out for it.
pub(crate) fn tell(alloc: Global, told: &mut Option<ToldTotals>, totals: &Totals, request: &Request)
    ensures { IfSome told.new (λ last. last.bytes ≡ request_bytes request.now (totals_response totals.now)) }
{
    if is_told(told, totals, request) {
        return;
    }
    let room = match told.take() {
        Some(last) => last.into_room(),
        None => KeptBytes::new(alloc),
    };
    *told = ToldTotals::of(alloc, room, totals, request);
}
