//! One response, taken of a source.
ghost use Rattle.std.specs.Prelude.{◌≡◌, ◌≤◌, ℕ, List, OnOk, IsErrOf};
ghost use Rattle.std.specs.Io.KnownBytes.{append_known};
ghost use Rattle.common_types.specs.Counts.{Rose};
ghost use Rattle.http_exchange.specs.Responses.{ComesTo, HasJustCome};

use crate::received::Received;
use crate::{ResponseProgress, read_response};
use common_types::ItemList;
use link_io::{PutFault, Source};
use std::alloc::{AllocError, Global};

/// The bytes of a body.
pub type Body = ItemList<u8>;

/// A whole response.
#[derive(Drop)]
pub struct Response {
    /// Its status, which isn't that of an interim response.
    pub status: u16,
    /// Its body.
    pub body: Body,
}

/// Why no whole response came.
#[derive(Clone, Copy)]
pub enum NoResponse {
    /// The bytes that came are none, whatever follows them; or the input ended first, or as many bytes were taken as
    /// are taken at most.
    Broken,
    /// A call of the connection failed, and its count of faults rose.
    Failed,
    /// Out of memory.
    Memory,
}

impl From<PutFault> for NoResponse {
    ghost use Rattle.std.specs.Prelude.{◌≡◌};
    ghost use Rattle.http_exchange.specs.Responses.{unput};

    ghost from_gives = { λ fault none. none ≡ unput fault };

    fn from(fault: PutFault) -> NoResponse {
        match fault {
            PutFault::Failed => NoResponse::Failed,
            PutFault::Memory => NoResponse::Memory,
        }
    }
}

impl From<AllocError> for NoResponse {
    ghost use Rattle.std.specs.Prelude.{◌≡◌};
    ghost use Rattle.http_exchange.specs.declared.response.NoResponse.TheVariants.{Memory};

    ghost from_gives = { λ _ none. none ≡ Memory };

    fn from(_error: AllocError) -> NoResponse {
        NoResponse::Memory
    }
}

/// Takes one response of a source, and skips the interim ones before it. Of a source that is the reading half of a link
/// nothing else changes. No more is taken once the response is whole, but bytes behind it may have come along.
pub fn take_response<S: Source>(alloc: Global, link: &mut S) -> Result<Response, NoResponse>
    ensures comes { (bytes : List ℕ) × (S.taken link.new ≡ append_known (S.taken link.old) bytes)
        × ComesTo bytes (S.ended link.new) result }
    ensures enough { OnOk result ((bytes : List ℕ)
        × (S.taken link.new ≡ append_known (S.taken link.old) bytes) × HasJustCome bytes) }
    ensures aside { S.aside link.new ≡ S.aside link.old }
    ensures rises { IsErrOf result NoResponse.Failed → Rose (S.count link.old) (S.count link.new) }
    ensures never_falls { S.count link.old ≤ S.count link.new }
{
    let mut received = Received::new(alloc);
    loop {
        match read_response(received.held()) {
            ResponseProgress::Whole(found) => return received.response(alloc, found),
            ResponseProgress::Interim(size) => received.pass_over(size),
            ResponseProgress::Never => return Err(NoResponse::Broken),
            ResponseProgress::More(size) => {
                if !received.take_until(link, size)? {
                    return Err(NoResponse::Broken);
                }
            }
        }
    }
}
