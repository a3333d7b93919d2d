//! The bytes that were taken of a link and aren't answered yet.
ghost use Rattle.std.specs.Prelude.{◌≡◌, ◌≤◌, ◌<◌, ◌+◌, ◌++◌, ◌==◌, ◌&&◌, ◌||◌, not, true, false, IfOk, OnOk, OnErr, length, drop, vec_len};
ghost use Rattle.std.specs.Vec.{vec_capacity};
ghost use Rattle.common_types.specs.Counts.{Rose};
ghost use Rattle.link_io.specs.declared.source.TheConstants.{INPUT_LIMIT, PIECE};
ghost use Rattle.connection_laws.specs.Answers.{interim_of};
ghost use Rattle.http_requests.specs.Next.{AwaitsHead, Says};
ghost use Rattle.farm_http.specs.Bytes.{PutSays};
ghost use Rattle.farm_http.specs.Faults.{OnLinkFault, OnPutFault};
ghost use Rattle.farm_http.specs.Received.{IsAdded, IsTaken, is_complete, nothing_received};

use crate::fault_answers::unput;
use connection_laws::{ServeFault, Why};
use http_answers::put_interim;
use http_requests::laws::readings_stay;
use http_requests::{LastHead, Next, Pages, Reading, next_of};
use link_io::{INPUT_LIMIT, Link, PIECE, Sink, Source, Took};
use std::alloc::Global;
use std::marker::Model;

/// The most room for bytes that is kept once a request is answered.
const MOST_HELD: usize = 65_536;

/// The bytes that were taken of a link and aren't answered yet, how many were taken in all, whether the last take
/// found the end of the input, whether the interim answer of the request at the front is out, and how far that request
/// was read.
#[derive(Drop)]
pub(crate) struct Received {
    bytes: Vec<u8>,
    /// The buffer that a piece is taken into. Between takes its bytes mean nothing.
    piece: [u8; PIECE],
    /// Where those begin that aren't answered yet.
    from: usize,
    taken: usize,
    ended: bool,
    interim: bool,
    reading: Reading,
}

impl Model for Received {
    ghost use Rattle.std.specs.Prelude.{◌≤◌, drop, vec_len};
    ghost use Rattle.link_io.specs.declared.source.TheConstants.{INPUT_LIMIT};
    ghost use Rattle.farm_http.specs.Received.{ReceivedState};
    ghost use Rattle.http_requests.specs.Readings.{IsReading};

    ghost Value = { ReceivedState };

    ghost view = { λ r. record {
      held = drop r.from r.bytes.items;
      taken = r.taken;
      ended = r.ended;
      interim = r.interim;
    } };

    ghost invariant = { λ r. (r.from ≤ vec_len r.bytes) × (r.taken ≤ INPUT_LIMIT)
        × IsReading r.reading (drop r.from r.bytes.items) };
}

impl Received {
    /// Nothing was taken yet.
    pub fn new(alloc: Global) -> Received
        ensures { result ≡ nothing_received }
    {
        Received {
            bytes: Vec::new(alloc),
            piece: [0; PIECE],
            from: 0,
            taken: 0,
            ended: false,
            interim: false,
            reading: Reading::new(),
        }
    }

    /// The bytes held.
    pub fn held(&self) -> &[u8]
        ensures { result.now ≡ self.now.held }
    {
        &self.bytes[self.from..]
    }

    /// Whether no more is taken: the input has ended, or as much was taken as is at most.
    pub fn is_complete(&self) -> bool
        ensures { result ≡ is_complete self.now }
    {
        self.ended || self.taken == INPUT_LIMIT
    }

    /// Whether no byte is held, and more may be taken.
    fn awaits_bytes(&self) -> bool
        ensures { result ≡ true → AwaitsHead (is_complete self.now) self.now.held }
    {
        if self.is_complete() {
            return false;
        }
        self.held().is_empty()
    }

    /// What comes next of the bytes held. What was read of them is kept, so that each head is read once here.
    pub fn next(&mut self, pages: &Pages, last: &mut LastHead) -> Next
        ensures same { self.new ≡ self.old }
        ensures says { Says (is_complete self.old) self.old.held result }
    {
        if self.awaits_bytes() {
            return Next::More;
        }
        let mut reading = self.reading;
        let next = next_of(pages, &mut reading, last, self.held(), self.is_complete());
        if !matches!(&next, Next::Request(_)) {
            self.reading = reading;
        }
        next
    }

    /// Why the serving ends where no item closes the connection.
    pub fn why(&self) -> Why
        ensures limit { self.now.taken ≡ INPUT_LIMIT → result ≡ Why.Limit }
        ensures end { self.now.taken < INPUT_LIMIT → result ≡ Why.End }
    {
        if self.taken == INPUT_LIMIT {
            Why::Limit
        } else {
            Why::End
        }
    }

    /// Drops the bytes that are answered. Room that a large body took goes back behind it, and not while one is taken.
    fn compact(&mut self)
        ensures { self.new ≡ self.old }
    {
        if self.from == 0 {
            return;
        }
        if self.from < self.bytes.len() {
            let _ = self.bytes.drain(..self.from);
        } else {
            self.bytes.clear();
        }
        self.from = 0;
        if self.bytes.capacity() > MOST_HELD {
            self.bytes.shrink_to(MOST_HELD);
        }
    }

    /// Tells a link that nothing is held, where that is so.
    fn tell_idle<L: Link>(&self, link: &mut L)
        ensures taken { L.Source.taken link.new ≡ L.Source.taken link.old }
        ensures aside { L.Source.aside link.new ≡ L.Source.aside link.old }
        ensures count { L.Source.count link.new ≡ L.Source.count link.old }
    {
        if self.held().is_empty() {
            link.note_idle();
        }
    }

    /// Takes a piece more, which is held then. A link of which nothing is held is told so before. Where it fails or
    /// memory runs out, nothing was taken.
    pub fn take<L: Link>(&mut self, link: &mut L) -> Result<(), ServeFault>
        requires open_ { is_complete self.old ≡ false }
        ensures taken { OnOk result
            (IsTaken self.old self.new (L.Source.taken link.old) (L.Source.taken link.new) (L.Source.ended link.new)) }
        ensures failed { OnErr result (self.new ≡ self.old) }
        ensures untaken { OnErr result (L.Source.taken link.new ≡ L.Source.taken link.old) }
        ensures aside { L.Source.aside link.new ≡ L.Source.aside link.old }
        ensures cause { OnLinkFault result (Rose (L.Source.count link.old) (L.Source.count link.new)) }
        ensures never_falls { L.Source.count link.old ≤ L.Source.count link.new }
    {
        self.tell_idle(link);
        self.take_piece(link)
    }

    /// Takes a piece more, which is held then. Where the link fails or memory runs out, nothing was taken.
    fn take_piece<S: Source>(&mut self, link: &mut S) -> Result<(), ServeFault>
        requires open_ { is_complete self.old ≡ false }
        ensures taken { OnOk result
            (IsTaken self.old self.new (S.taken link.old) (S.taken link.new) (S.ended link.new)) }
        ensures failed { OnErr result (self.new ≡ self.old) }
        ensures untaken { OnErr result (S.taken link.new ≡ S.taken link.old) }
        ensures aside { S.aside link.new ≡ S.aside link.old }
        ensures cause { OnLinkFault result (Rose (S.count link.old) (S.count link.new)) }
        ensures never_falls { S.count link.old ≤ S.count link.new }
    {
        self.compact();
        let room = PIECE.min(INPUT_LIMIT - self.taken);
        let count = take_behind(&mut self.bytes, &mut self.piece, room, link)?;
        readings_stay();
        self.taken += count;
        self.ended = count == 0;
        Ok(())
    }

    /// Puts the interim answer of the request at the front, where it is asked for, unless it is out.
    pub fn put_interim<K: Sink>(&mut self, asked: bool, link: &mut K) -> Result<(), ServeFault>
        ensures says { PutSays (interim_of (asked && not self.old.interim)) (K.written link.old) (K.written link.new)
            result }
        ensures out { OnOk result (self.new ≡ record self.old { interim = self.old.interim || asked }) }
        ensures kept { OnErr result (self.new ≡ self.old) }
        ensures aside { K.aside link.new ≡ K.aside link.old }
        ensures cause { OnPutFault result (Rose (K.count link.old) (K.count link.new)) }
        ensures never_falls { K.count link.old ≤ K.count link.new }
    {
        if !asked {
            return Ok(());
        }
        if self.interim {
            return Ok(());
        }
        match put_interim(link) {
            Ok(()) => {
                self.interim = true;
                Ok(())
            }
            Err(fault) => Err(unput(fault)),
        }
    }

    /// Passes over the items at the front, which were answered and take so many bytes.
    pub fn pass_over(&mut self, size: usize)
        requires { size ≤ length self.old.held }
        ensures { self.new ≡ record self.old { held = drop size self.old.held; interim = false } }
    {
        self.from += size;
        self.interim = false;
        self.reading = Reading::new();
    }
}

/// Takes a piece of so many bytes at most into a buffer, and adds it to those held. Where the link fails or memory runs
/// out, nothing was taken.
fn take_behind<S: Source>(
    held: &mut Vec<u8>,
    piece: &mut [u8; PIECE],
    room: usize,
    link: &mut S,
) -> Result<usize, ServeFault>
    requires some { 0 < room }
    requires few { room ≤ PIECE }
    ensures taken { IfOk result (λ count. IsAdded count room held.old.items held.new.items (S.taken link.old)
        (S.taken link.new)) }
    ensures ended { IfOk result (λ count. S.ended link.new ≡ (count == 0)) }
    ensures failed { OnErr result (held.new.items ≡ held.old.items) }
    ensures untaken { OnErr result (S.taken link.new ≡ S.taken link.old) }
    ensures aside { S.aside link.new ≡ S.aside link.old }
    ensures cause { OnLinkFault result (Rose (S.count link.old) (S.count link.new)) }
    ensures never_falls { S.count link.old ≤ S.count link.new }
{
    if held.reserve(PIECE).is_err() {
        return Err(ServeFault::Memory);
    }
    match link.take(&mut piece[..room]) {
        Took::Took(count) => {
            append_reserved(held, &piece[..count]);
            Ok(count)
        }
        Took::Failed => Err(ServeFault::ReadFault),
    }
}

/// Adds bytes for which there is room.
fn append_reserved(held: &mut Vec<u8>, piece: &[u8])
    requires { vec_len held.old + length piece.now ≤ vec_capacity held.old }
    ensures { held.new.items ≡ held.old.items ++ piece.now }
{
    if held.extend_from_slice(piece).is_err() {
        unreachable!();
    }
}
