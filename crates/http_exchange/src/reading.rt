//! The response at the front of the bytes held.
ghost use Rattle.std.specs.Prelude.{◌≡◌, ◌≤◌, All, length, map, take};
ghost use Rattle.httparse.specs.Spans.{IsHeaderWithin, header_bytes};
ghost use Rattle.http_requests.specs.Lengths.{stated_length};
ghost use Rattle.http_exchange.specs.Framing.{length_by};
ghost use Rattle.http_exchange.specs.Reading.{Says, progress_of};
ghost use Rattle.http_words.specs.declared.limits.TheConstants.{MAX_HEAD_BYTES};

use crate::fields::body_length;
use crate::interim::INTERIM_STATUS;
use crate::progress::{Response, ResponseProgress};
use http_requests::Fields;
use http_words::{MAX_FIELDS, MAX_HEAD_BYTES};
use httparse::Status;
use httparse::spans::{EMPTY_HEADER_SPAN, HeaderSpan, ResponseSpans, parse_response};

/// What stands at the front of the bytes held, whatever bytes follow.
pub fn read_response(held: &[u8]) -> ResponseProgress
    ensures { Says held.now result }
{
    let front = front_of(held);
    let mut spans = [EMPTY_HEADER_SPAN; MAX_FIELDS];
    match parse_response(front, &mut spans) {
        Ok(Status::Complete(head)) => behind_head(front, &spans[..head.headers], &head, held.len()),
        Ok(Status::Partial) => {
            if held.len() < MAX_HEAD_BYTES {
                ResponseProgress::More(held.len() + 1)
            } else {
                ResponseProgress::Never
            }
        }
        Err(_) => ResponseProgress::Never,
    }
}

/// The bytes in which a head has to end.
fn front_of(held: &[u8]) -> &[u8]
    ensures { result.now ≡ take MAX_HEAD_BYTES held.now }
{
    if held.len() < MAX_HEAD_BYTES {
        held
    } else {
        &held[..MAX_HEAD_BYTES]
    }
}

/// What stands at the front of so many bytes, where they begin with a head.
fn behind_head(
    front: &[u8],
    spans: &[HeaderSpan],
    head: &ResponseSpans,
    held: usize,
) -> ResponseProgress
    requires fields { All (IsHeaderWithin (length front.now)) spans.now }
    requires within { head.now.len ≤ held }
    requires short { head.now.len ≤ MAX_HEAD_BYTES }
    ensures { result ≡ progress_of head.now.code head.now.len
        (length_by (stated_length (map (header_bytes front.now) spans.now))) held }
{
    if head.code == INTERIM_STATUS {
        return ResponseProgress::Interim(head.len);
    }
    let bytes = front;
    match body_length(&Fields { bytes, spans }) {
        None => ResponseProgress::Never,
        Some(length) if held - head.len < length => ResponseProgress::More(head.len + length),
        Some(length) => ResponseProgress::Whole(Response {
            status: head.code,
            body: head.len,
            end: head.len + length,
        }),
    }
}
