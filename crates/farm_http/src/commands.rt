//! Commands asked of the farm, and their answers put.
ghost use Rattle.std.specs.Prelude.{◌≡◌, ◌≢◌, ◌≤◌, [], Bool, List, All, Ok, OnOk, length, map, true};
ghost use Rattle.common_types.specs.Counts.{Rose};
ghost use Rattle.common_types.specs.Rows.{AreAmong};
ghost use Rattle.turn_lock.specs.Known.{IsReady};
ghost use Rattle.http_requests.specs.Next.{IsNextFor};
ghost use Rattle.connection_laws.specs.Answers.{no_memory, response_of};
ghost use Rattle.connection_laws.specs.Moments.{GivenBy};
ghost use Rattle.connection_laws.specs.Outcomes.{misread};
ghost use Rattle.connection_laws.specs.Progress.{Progress, IsWithin};
ghost use Rattle.farm_wire.specs.Answers.{AnswerHasDates};
ghost use Rattle.farm_http.specs.Bytes.{OutSays, PutSays, farm_response, farm_responses, request_bytes, requests_bytes, said};
ghost use Rattle.farm_http.specs.Callers.{mark_of};
ghost use Rattle.farm_http.specs.Faults.{OnPutFault};
ghost use Rattle.farm_http.specs.Fronts.{FrontSays, halves};
ghost use Rattle.farm_http.specs.Noting.{MayNote, TookNote};
ghost use Rattle.farm_http.specs.Received.{is_complete};
ghost use Rattle.farm_http.specs.Turns.{HasAnswers, IsBatchPut, TurnPut};

use crate::front::Answered;
use crate::kept::Kept;
use crate::received::Received;
use crate::responses::{Says, put_behind, put_out, put_response};
use crate::service::Service;
use connection_laws::ServeFault;
use farm_disk::DatedDisk;
use farm_entry::Answer;
use farm_store::{Answers, Ask, CallFault};
use farm_wire::{WireFault, answer_text_in, command_of, fault_text};
use http_answers::{answer_status, store_fault_text};
use http_requests::Request;
use http_words::{Endpoint, Route, StatusCode};
use link_io::{Clock, Gathered, Link, Sink};
use shared_farm::{Beginning, Pass};
use std::alloc::Global;
use std::mem;
use std::sync::Wait;

/// The most bytes of room for texts that a connection keeps.
const MOST_ROOM: usize = 65_536;

impl Kept {
    /// Answers the command at the front, and with it those behind it that may share its turn.
    pub fn answer_commands<R: Wait, L: Link<Over = D::Over>, D: DatedDisk, B: Beginning, C: Clock>(
        &mut self,
        service: &Service<R, D, B, C>,
        pass: &mut Pass,
        link: &mut L,
        received: &Received,
        first: &Request,
        route: Route,
    ) -> Result<Answered, ServeFault>
        requires ready { IsReady service.now.farm.now pass.old }
        requires next { IsNextFor (is_complete received.now) received.now.held first.now }
        requires asks { first.now.asks ≡ Ok (Endpoint.Command route) }
        requires interim { received.now.interim ≡ first.now.interim }
        requires empty { self.old.out ≡ [] }
        ensures ready { IsReady service.now.farm.now pass.new }
        ensures empty { OnOk result (self.new.out ≡ []) }
        ensures says { (c : Progress) → IsWithin c (mark_of pass.old c.totals)
            → FrontSays (GivenBy C.Clock service.now.clock.now D.count) c (is_complete received.now) received.now.held
            received.now.interim (halves L.Sink link.old link.new)
            (record { pass = pass.old; reader = c.totals }) (record { pass = pass.new; reader = c.totals }) result }
        ensures aside { MayNote (L.Sink.aside link.old) (L.Sink.aside link.new) (L.Sink.written link.old) pass.new }
        ensures rows { AreAmong pass.old.rows pass.new.rows }
        ensures cause { OnPutFault result (Rose (L.Sink.count link.old) (L.Sink.count link.new)) }
        ensures never_falls { L.Sink.count link.old ≤ L.Sink.count link.new }
    {
        let held = received.held();
        let command = match command_of(service.alloc, &route, &held[first.body..first.size]) {
            Ok(command) => command,
            Err(fault) => {
                answer_misread(service.alloc, &mut self.out, link, first, &fault)?;
                return Ok(Answered::one(first));
            }
        };
        let at = service.clock.now();
        if !self.batch.begin(first, Ask { command, at }) {
            put_response(&mut self.out, link, first, &Says::no_memory())?;
            return Ok(Answered::one(first));
        }
        self.batch
            .gather(service, &mut self.last, held, received.is_complete());
        self.answer_batch(service, pass, link)?;
        bound_room(service.alloc, &mut self.text);
        let done = Answered {
            requests: self.batch.asks().len() as u64,
            size: self.batch.size(),
            closes: self.batch.closes(),
        };
        self.batch.clear();
        Ok(done)
    }

    /// Asks the farm for the batch at one turn, and puts its answers. The link first takes a note of a moment that was
    /// over after the turn, whatever that came to.
    fn answer_batch<R: Wait, L: Link<Over = D::Over>, D: DatedDisk, B: Beginning, C: Clock>(
        &mut self,
        service: &Service<R, D, B, C>,
        pass: &mut Pass,
        link: &mut L,
    ) -> Result<(), ServeFault>
        requires ready { IsReady service.now.farm.now pass.old }
        requires some { 1 ≤ length self.old.batch.asks }
        requires empty { self.old.out ≡ [] }
        ensures same { self.new.batch ≡ self.old.batch }
        ensures ready { IsReady service.now.farm.now pass.new }
        ensures empty { OnOk result (self.new.out ≡ []) }
        ensures faults { pass.old.faults ≤ pass.new.faults }
        ensures says { IsBatchPut D.count self.old.batch.asks self.old.batch.requests pass.old pass.new
            (L.Sink.written link.old) (L.Sink.written link.new) result }
        ensures aside { TookNote (L.Sink.aside link.old) (L.Sink.aside link.new) (L.Sink.written link.old) pass.new }
        ensures rows { AreAmong pass.old.rows pass.new.rows }
        ensures cause { OnPutFault result (Rose (L.Sink.count link.old) (L.Sink.count link.new)) }
        ensures never_falls { L.Sink.count link.old ≤ L.Sink.count link.new }
    {
        let (turn, over) = self.batch.ask(service, pass);
        link.note_over(&over);
        self.put_turn(service.alloc, link, turn)
    }

    /// Puts what the batch's turn came to.
    fn put_turn<K: Sink>(
        &mut self,
        alloc: Global,
        link: &mut K,
        turn: Result<Answers, CallFault>,
    ) -> Result<(), ServeFault>
        requires answers { HasAnswers turn self.old.batch.asks }
        requires empty { self.old.out ≡ [] }
        ensures same { self.new.batch ≡ self.old.batch }
        ensures empty { OnOk result (self.new.out ≡ []) }
        ensures says { TurnPut turn self.old.batch.requests (K.written link.old) (K.written link.new) result }
        ensures aside { K.aside link.new ≡ K.aside link.old }
        ensures cause { OnPutFault result (Rose (K.count link.old) (K.count link.new)) }
        ensures never_falls { K.count link.old ≤ K.count link.new }
    {
        match turn {
            Ok(answers) => put_answers(
                alloc,
                &mut self.text,
                &mut self.out,
                link,
                self.batch.requests(),
                answers.as_slice(),
            ),
            Err(CallFault::StoreFault { .. }) => {
                let says = Says::plain(StatusCode::Unavailable, store_fault_text());
                put_each(&mut self.out, link, self.batch.requests(), &says)
            }
            Err(_) => put_each(
                &mut self.out,
                link,
                self.batch.requests(),
                &Says::no_memory(),
            ),
        }
    }
}

/// Lets room go that is larger than is kept from one batch to the next.
fn bound_room(alloc: Global, room: &mut String) {
    if room.capacity() > MOST_ROOM {
        *room = String::new(alloc);
    }
}

/// Answers a request whose body is no command, or for whose reading memory ran out.
fn answer_misread<K: Sink>(
    alloc: Global,
    out: &mut Gathered,
    link: &mut K,
    request: &Request,
    fault: &WireFault,
) -> Result<(), ServeFault>
    requires empty { out.old ≡ [] }
    ensures empty { OnOk result (out.new ≡ []) }
    ensures misread { fault.now ≢ WireFault.Memory → (written : Bool) × PutSays
        (request_bytes request.now (response_of (record { outcome = misread fault.now; written = written })))
        (K.written link.old) (K.written link.new) result }
    ensures unread { fault.now ≡ WireFault.Memory
        → PutSays (request_bytes request.now no_memory) (K.written link.old) (K.written link.new) result }
    ensures aside { K.aside link.new ≡ K.aside link.old }
    ensures cause { OnPutFault result (Rose (K.count link.old) (K.count link.new)) }
    ensures never_falls { K.count link.old ≤ K.count link.new }
{
    if *fault == WireFault::Memory {
        return put_response(out, link, request, &Says::no_memory());
    }
    match fault_text(alloc, fault) {
        Ok(text) => {
            let says = Says::plain(StatusCode::BadRequest, text.as_bytes());
            put_response(out, link, request, &says)
        }
        Err(_) => put_response(out, link, request, &Says::no_memory()),
    }
}

/// Puts the answers of the farm, one for each request, in as few puts as there is room for.
fn put_answers<K: Sink>(
    alloc: Global,
    room: &mut String,
    out: &mut Gathered,
    link: &mut K,
    requests: &[Request],
    answers: &[Answer],
) -> Result<(), ServeFault>
    requires each { length answers.now ≡ length requests.now }
    requires dates { All AnswerHasDates answers.now }
    requires empty { out.old ≡ [] }
    ensures empty { OnOk result (out.new ≡ []) }
    ensures says { (written : List Bool) × (length written ≡ length answers.now)
        × PutSays (requests_bytes requests.now (farm_responses answers.now written)) (K.written link.old)
        (K.written link.new) result }
    ensures aside { K.aside link.new ≡ K.aside link.old }
    ensures cause { OnPutFault result (Rose (K.count link.old) (K.count link.new)) }
    ensures never_falls { K.count link.old ≤ K.count link.new }
{
    let mut place = 0;
    while place < requests.len() {
        put_farm_answer(alloc, room, out, link, &requests[place], &answers[place])?;
        place += 1;
    }
    put_out(out, link)
}

/// Puts an answer of the farm behind those that are gathered. Its text is written in the room.
fn put_farm_answer<K: Sink>(
    alloc: Global,
    room: &mut String,
    out: &mut Gathered,
    link: &mut K,
    request: &Request,
    answer: &Answer,
) -> Result<(), ServeFault>
    requires dates { AnswerHasDates answer.now }
    ensures says { (written : Bool) × OutSays (request_bytes request.now (farm_response answer.now written))
        (record { sent = K.written link.old; held = out.old })
        (record { sent = K.written link.new; held = out.new }) result }
    ensures aside { K.aside link.new ≡ K.aside link.old }
    ensures cause { OnPutFault result (Rose (K.count link.old) (K.count link.new)) }
    ensures never_falls { K.count link.old ≤ K.count link.new }
{
    match answer_text_in(alloc, mem::replace(room, String::new(alloc)), answer) {
        Ok(text) => {
            *room = text;
            let says = Says::plain(answer_status(answer), room.as_bytes());
            put_behind(out, link, request, &says)
        }
        Err(_) => put_behind(out, link, request, &Says::no_memory()),
    }
}

/// Puts the same answer to each request, in as few puts as there is room for.
fn put_each<K: Sink>(
    out: &mut Gathered,
    link: &mut K,
    requests: &[Request],
    says: &Says,
) -> Result<(), ServeFault>
    requires empty { out.old ≡ [] }
    ensures empty { OnOk result (out.new ≡ []) }
    ensures says { PutSays (requests_bytes requests.now (map (λ _. said says.now) requests.now))
        (K.written link.old) (K.written link.new) result }
    ensures aside { K.aside link.new ≡ K.aside link.old }
    ensures cause { OnPutFault result (Rose (K.count link.old) (K.count link.new)) }
    ensures never_falls { K.count link.old ≤ K.count link.new }
{
    let mut place = 0;
    while place < requests.len() {
        put_behind(out, link, &requests[place], says)?;
        place += 1;
    }
    put_out(out, link)
}
