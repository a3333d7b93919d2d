//! What comes next of the bytes held.
ghost use Rattle.std.specs.Prelude.{◌≡◌, ◌≤◌, ◌<◌, ◌+◌, ◌*◌, Bool, true, false, List, ℕ, IfSome, length, take};
ghost use Rattle.httparse.specs.Grammar.{MayBecomeRequest, RequestHead};
ghost use Rattle.http_requests.specs.Costs.{CanCount, cost, head_room, most};
ghost use Rattle.http_requests.specs.Items.{HasHead};
ghost use Rattle.http_requests.specs.Looks.{IsLook, IsLookThrough, IsTried, feeds};
ghost use Rattle.http_requests.specs.Next.{AwaitsHead, HasNoHeadFor, IsFound, IsNextFor, Says, left_of, refusal};
ghost use Rattle.http_requests.specs.Places.{is_blank, is_end, place_of};
ghost use Rattle.http_requests.specs.Readings.{IsBegun, IsBodyAwaited, IsReading};

use crate::Pages;
use crate::front::{Front, front_of};
use crate::last_head::LastHead;
use crate::look::Look;
use crate::looked::Looked;
use crate::reading::{Begun, Reading, Stage};
use crate::request::Request;
use http_words::{Fault, MAX_HEAD_BYTES};
use std::marker::Brand;
use std::sync::ledger::{Blank, Ledger};

/// A request whose head is held and whose body isn't whole yet.
#[derive(Clone, Copy)]
pub struct Awaited {
    /// The interim answer is put before more bytes are taken.
    pub interim: bool,
    /// How many bytes have to be held until the request is whole.
    pub size: usize,
}

/// What comes next of the bytes held.
#[derive(Clone, Copy)]
pub enum Next {
    /// There is no whole head yet: more bytes have to be taken.
    More,
    /// There is a head, and its body isn't whole yet: more bytes have to be taken.
    Body(Awaited),
    /// A request, or bytes that form none.
    Request(Request),
    /// The connection has ended.
    End,
}

/// What comes next of the bytes held, where `ended` says that the input has ended, so that nothing follows them. What a
/// request asks for is looked up in `pages`.
///
/// What was read of the bytes in earlier calls is kept in `reading`: after `More` and `Body` the next call has the same
/// bytes and those taken since, and after `Request` those that follow the request.
///
/// A request is answered as soon as it is whole, so no bytes have to be taken while one stands in those that are held.
/// Bytes that can't begin a head any more are answered at the latest when twice as many are held, when an empty line
/// ends them, or when 8,192 are held. While one request is read, each of its bytes is looked at once, and those given
/// to the parser are at most three times the bytes of its head: the head as a whole, and before that some of its
/// front, each time twice as many as the last time. No byte of a body is looked at. A head that came at once is
/// compared with the one that was read last, which is kept in `last`: one that is the same isn't given to the parser.
pub fn next_of(
    pages: &Pages,
    reading: &mut Reading,
    last: &mut LastHead,
    held: &[u8],
    ended: bool,
) -> Next
    requires { IsReading reading.old held.now }
    ensures says { Says ended held.now result }
    ensures keeps { IsReading reading.new (left_of held.now result) }
{
    next_on::<Brand>(pages, reading, last, held, ended, Blank::new(1))
}

/// The same on a counter of its own, that nobody reads.
fn next_on<L: Ledger>(
    pages: &Pages,
    reading: &mut Reading,
    last: &mut LastHead,
    held: &[u8],
    ended: bool,
    blank: Blank,
) -> Next
    requires blank { CanCount blank L.name L.parts }
    requires reading { IsReading reading.old held.now }
    ensures says { Says ended held.now result }
    ensures keeps { IsReading reading.new (left_of held.now result) }
{
    next_counted(
        pages,
        reading,
        last,
        held,
        ended,
        &mut Looked::<L>::new(blank),
    )
}

/// What comes next of the bytes held, as [`next_of`] says it, where the bytes that are looked at are counted: those of
/// all calls for one request are at most four times the bytes of its head, or, where there is none, four times those
/// that were held and might have been one. The count never falls.
pub fn next_counted<L: Ledger>(
    pages: &Pages,
    reading: &mut Reading,
    last: &mut LastHead,
    held: &[u8],
    ended: bool,
    looked: &mut Looked<L>,
) -> Next
    requires { IsReading reading.old held.now }
    ensures says { Says ended held.now result }
    ensures keeps { IsReading reading.new (left_of held.now result) }
    ensures few { looked.new + cost reading.old ≤ looked.old + most held.now reading.new result }
    ensures rises { looked.old ≤ looked.new }
{
    match reading.stage {
        Stage::Head(begun) => find_head(pages, reading, last, begun, held, ended, looked),
        Stage::Body(request) => find_body(reading, request, held, ended),
    }
}

/// A request that is answered by a fault and ends the connection.
fn found_refused(reading: &mut Reading, interim: bool, withheld: bool, fault: Fault) -> Next
    ensures found { (ended : Bool) (bytes : List ℕ)
        → IsNextFor ended bytes (refusal interim withheld fault) → IsFound ended bytes result reading.new }
    ensures most { (bytes : List ℕ) → most bytes reading.new result ≡ 4 * head_room bytes }
{
    *reading = Reading::new();
    Next::Request(Request::refused(interim, withheld, fault))
}

/// No whole head yet.
fn found_more(reading: &mut Reading, look: Look, tried: usize) -> Next
    ensures found { (ended : Bool) (bytes : List ℕ) → AwaitsHead ended bytes
        → IsBegun (record { look = look; tried = tried }) bytes → IsFound ended bytes result reading.new }
    ensures most { (bytes : List ℕ) → most bytes reading.new result ≡ look.count + 2 * tried }
{
    *reading = Reading::of_head(look, tried);
    Next::More
}

/// What comes of a request whose head is read: it is whole, or cut off, or more of its body has to come.
fn find_body(reading: &mut Reading, request: Request, held: &[u8], ended: bool) -> Next
    requires { IsBodyAwaited request held.now }
    ensures found { IsFound ended held.now result reading.new }
    ensures most { 4 * request.body ≤ most held.now reading.new result }
{
    if request.size <= held.len() {
        *reading = Reading::new();
        return Next::Request(request);
    }
    if ended {
        return found_refused(
            reading,
            request.interim,
            request.withheld,
            Fault::BadRequest,
        );
    }
    let awaited = Awaited {
        interim: request.interim,
        size: request.size,
    };
    *reading = Reading::of_body(request);
    Next::Body(awaited)
}

/// What comes of bytes of which no whole head was seen yet.
fn find_head<L: Ledger>(
    pages: &Pages,
    reading: &mut Reading,
    last: &mut LastHead,
    begun: Begun,
    held: &[u8],
    ended: bool,
    looked: &mut Looked<L>,
) -> Next
    requires { IsBegun begun held.now }
    ensures found { IsFound ended held.now result reading.new }
    ensures few { looked.new + (begun.look.count + 2 * begun.tried) ≤ looked.old + most held.now reading.new result }
    ensures rises { looked.old ≤ looked.new }
{
    let look = begun.look.on(held, looked);
    if look.place.is_end() {
        return find_request(pages, reading, last, look, begun.tried, held, ended, looked);
    }
    if look.place.is_blank() {
        return find_blank(reading, look, begun.tried, held, ended);
    }
    find_open(reading, look, begun.tried, held, ended, looked)
}

/// What a head becomes that is the same as the last one. Where some of it was given to the parser before, it isn't
/// compared, so that no byte is looked at too often.
fn known_request<L: Ledger>(
    last: &LastHead,
    head: &[u8],
    tried: usize,
    looked: &mut Looked<L>,
) -> Option<Request>
    requires some { 0 < length head.now }
    requires tried { tried ≤ length head.now }
    ensures is { IfSome result (λ request. IsBodyAwaited request head.now) }
    ensures few { looked.new + 2 * tried ≤ looked.old + 2 * length head.now }
    ensures rises { looked.old ≤ looked.new }
{
    if tried == 0 {
        last.request_of(head, looked)
    } else {
        None
    }
}

/// What comes of the bytes that were looked at, which are a head if they begin with one. The last head is known by its
/// bytes, and each other one is parsed.
fn find_request<L: Ledger>(
    pages: &Pages,
    reading: &mut Reading,
    last: &mut LastHead,
    look: Look,
    tried: usize,
    held: &[u8],
    ended: bool,
    looked: &mut Looked<L>,
) -> Next
    requires look { IsLook look held.now }
    requires few { look.count ≤ MAX_HEAD_BYTES }
    requires tried { tried ≤ look.count }
    requires at_end { is_end look.place ≡ true }
    requires first { (n : ℕ) → n < look.count → is_end (place_of (take n held.now)) ≡ false }
    ensures found { IsFound ended held.now result reading.new }
    ensures few { looked.new + (look.count + 2 * tried) ≤ looked.old + most held.now reading.new result }
    ensures rises { looked.old ≤ looked.new }
{
    let front = &held[..look.count];
    if let Some(request) = known_request(last, front, tried, looked) {
        return find_body(reading, request, held, ended);
    }
    match front_of(front, look.lines, looked) {
        Front::Head(head) => match head.becomes(pages) {
            Ok(request) => {
                last.keep(front, &request);
                find_body(reading, request, held, ended)
            }
            Err(fault) => found_refused(reading, false, head.is_head(), fault),
        },
        Front::Open => found_refused(reading, false, false, Fault::BadRequest),
        Front::Never => found_refused(reading, false, false, Fault::BadRequest),
    }
}

/// What comes of bytes that end lines at most.
fn find_blank(reading: &mut Reading, look: Look, tried: usize, held: &[u8], ended: bool) -> Next
    requires through { IsLookThrough look held.now }
    requires tried { IsTried tried look held.now }
    requires blank { is_blank look.place ≡ true }
    ensures found { IsFound ended held.now result reading.new }
    ensures most { look.count + 2 * tried ≤ most held.now reading.new result }
{
    if MAX_HEAD_BYTES <= held.len() {
        return found_refused(reading, false, false, Fault::BadRequest);
    }
    if ended {
        *reading = Reading::new();
        return Next::End;
    }
    found_more(reading, look, tried)
}

/// What comes of bytes that begin a head and don't end it. They are given to the parser where they are at least twice
/// as many as those that it was given last.
fn find_open<L: Ledger>(
    reading: &mut Reading,
    look: Look,
    tried: usize,
    held: &[u8],
    ended: bool,
    looked: &mut Looked<L>,
) -> Next
    requires through { IsLookThrough look held.now }
    requires tried { IsTried tried look held.now }
    requires busy { is_blank look.place ≡ false }
    ensures found { IsFound ended held.now result reading.new }
    ensures few { looked.new + (look.count + 2 * tried) ≤ looked.old + most held.now reading.new result }
    ensures rises { looked.old ≤ looked.new }
{
    if ended {
        return found_refused(reading, false, false, Fault::BadRequest);
    }
    if MAX_HEAD_BYTES <= held.len() {
        return found_refused(reading, false, false, Fault::BadRequest);
    }
    if look.count < 2 * tried {
        return found_more(reading, look, tried);
    }
    if may_become_head(held, look.lines, looked) {
        return found_more(reading, look, look.count);
    }
    found_refused(reading, false, false, Fault::BadRequest)
}

/// Whether bytes that hold no head, and in which so many lines end, may become one.
fn may_become_head<L: Ledger>(bytes: &[u8], lines: usize, looked: &mut Looked<L>) -> bool
    requires few { length bytes.now ≤ MAX_HEAD_BYTES }
    requires lines { feeds bytes.now ≤ lines }
    requires none { (head : RequestHead) → ¬ (HasHead bytes.now head) }
    ensures may { result ≡ true → MayBecomeRequest bytes.now }
    ensures never { result ≡ false → (ended : Bool) → HasNoHeadFor ended bytes.now }
    ensures counted { looked.new ≡ looked.old + length bytes.now }
{
    match front_of(bytes, lines, looked) {
        Front::Head(_) => unreachable!(),
        Front::Open => true,
        Front::Never => false,
    }
}
