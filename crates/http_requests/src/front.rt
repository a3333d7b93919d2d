//! What the parser finds at the front of what is left of a connection's bytes.
ghost use Rattle.std.specs.Prelude.{◌≡◌, ◌+◌, ◌≤◌, ◌⊎◌, length};
ghost use Rattle.http_requests.specs.Heads.{FrontSays};
ghost use Rattle.http_requests.specs.Looks.{feeds};

use crate::head::Head;
use crate::looked::Looked;
use http_words::MAX_FIELDS;
use httparse::Status;
use httparse::spans::{EMPTY_HEADER_SPAN, HeaderSpan, parse_request};
use std::sync::ledger::Ledger;

/// What stands at the front.
#[derive(Clone, Copy)]
pub(crate) enum Front<'b> {
    /// A head, whose parts are here.
    Head(Head<'b>),
    /// No head yet.
    Open,
    /// No head, whatever follows.
    Never,
}

/// How many fields most heads have at most.
const FEW_FIELDS: usize = 16;

/// How many the heads of a plain client have at most.
const PLAIN_FIELDS: usize = 4;

/// What stands at the front of these bytes, each of which is counted, where there is room for the spans of all fields
/// that they may have.
fn front_in<'b, L: Ledger>(
    bytes: &'b [u8],
    spans: &mut [HeaderSpan],
    looked: &mut Looked<L>,
) -> Front<'b>
    requires few { length spans.old ≤ MAX_FIELDS }
    requires fits { (length spans.old ≡ MAX_FIELDS) ⊎ (feeds bytes.now ≤ length spans.old) }
    ensures says { FrontSays bytes.now result }
    ensures counted { looked.new ≡ looked.old + length bytes.now }
{
    looked.add(bytes.len());
    match parse_request(bytes, spans) {
        Ok(Status::Complete(found)) => Front::Head(Head::of(bytes, spans, &found)),
        Ok(Status::Partial) => Front::Open,
        Err(_) => Front::Never,
    }
}

/// What stands at the front of these bytes, in which so many lines end at most, and each of which is counted. Little
/// room is cleared for the spans of a head of few lines.
pub(crate) fn front_of<'b, L: Ledger>(
    bytes: &'b [u8],
    lines: usize,
    looked: &mut Looked<L>,
) -> Front<'b>
    requires { feeds bytes.now ≤ lines }
    ensures says { FrontSays bytes.now result }
    ensures counted { looked.new ≡ looked.old + length bytes.now }
{
    if lines <= PLAIN_FIELDS {
        let mut plain = [EMPTY_HEADER_SPAN; PLAIN_FIELDS];
        return front_in(bytes, &mut plain, looked);
    }
    if lines <= FEW_FIELDS {
        let mut few = [EMPTY_HEADER_SPAN; FEW_FIELDS];
        return front_in(bytes, &mut few, looked);
    }
    let mut all = [EMPTY_HEADER_SPAN; MAX_FIELDS];
    front_in(bytes, &mut all, looked)
}
