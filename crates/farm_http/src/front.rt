//! The requests at the front of the bytes held, answered.
ghost use Rattle.std.specs.Prelude.{◌≡◌, ◌≤◌, [], Bool, OnOk, true};
ghost use Rattle.common_types.specs.Counts.{Rose};
ghost use Rattle.turn_lock.specs.Known.{IsReady};
ghost use Rattle.http_requests.specs.Next.{IsNextFor};
ghost use Rattle.connection_laws.specs.Moments.{GivenBy};
ghost use Rattle.connection_laws.specs.Progress.{Progress, IsWithin};
ghost use Rattle.farm_entry.specs.Legal.{IsLegal};
ghost use Rattle.common_types.specs.Prefix.{IsPrefix};
ghost use Rattle.common_types.specs.Rows.{AreAmong};
ghost use Rattle.connection_laws.specs.Answers.{response_of, response_to};
ghost use Rattle.connection_laws.specs.Outcomes.{counted, faulted};
ghost use Rattle.farm_http.specs.Bytes.{PutSays, request_bytes};
ghost use Rattle.farm_http.specs.Callers.{mark_of, state_of};
ghost use Rattle.farm_http.specs.Faults.{OnPutFault};
ghost use Rattle.farm_http.specs.Fronts.{FrontSays, halves};
ghost use Rattle.farm_http.specs.Noting.{MayNote};
ghost use Rattle.farm_http.specs.Received.{is_complete};

use crate::caller::Caller;
use crate::kept::Kept;
use crate::log_page::answer_log;
use crate::received::Received;
use crate::responses::{Says, put_bytes, put_response};
use crate::service::Service;
use crate::told::tell;
use connection_laws::ServeFault;
use farm_disk::DatedDisk;
use http_answers::{fault_allow, fault_status, fault_text};
use http_requests::Request;
use http_words::{Endpoint, Fault};
use link_io::{Clock, Gathered, Link, Sink};
use shared_farm::{Beginning, TotalsReader};
use std::alloc::Global;
use std::sync::Wait;

/// Some requests at the front were answered.
#[derive(Clone, Copy)]
pub(crate) struct Answered {
    /// How many.
    pub requests: u64,
    /// How many of the bytes held they take.
    pub size: usize,
    /// Whether the last one closes the connection.
    pub closes: bool,
}

impl Answered {
    /// This request was answered.
    pub fn one(request: &Request) -> Answered
        ensures requests { result.requests ≡ 1 }
        ensures size { result.size ≡ request.now.size }
        ensures closes { result.closes ≡ request.now.closes }
    {
        Answered {
            requests: 1,
            size: request.size,
            closes: request.closes,
        }
    }
}

impl Kept {
    /// Answers the request at the front, and with it the commands behind it that may share its turn.
    pub fn answer_front<R: Wait, L: Link<Over = D::Over>, D: DatedDisk, B: Beginning, C: Clock>(
        &mut self,
        service: &Service<R, D, B, C>,
        caller: &mut Caller<B>,
        link: &mut L,
        received: &Received,
        first: &Request,
    ) -> Result<Answered, ServeFault>
        requires ready { IsReady service.now.farm.now caller.old.pass }
        requires empty { self.old.out ≡ [] }
        requires next { IsNextFor (is_complete received.now) received.now.held first.now }
        requires interim { received.now.interim ≡ first.now.interim }
        ensures ready { IsReady service.now.farm.now caller.new.pass }
        ensures empty { OnOk result (self.new.out ≡ []) }
        ensures says { (c : Progress) → IsWithin c (mark_of caller.old.pass caller.old.reader)
            → caller.old.reader ≡ c.totals
            → FrontSays (GivenBy C.Clock service.now.clock.now D.count) c (is_complete received.now) received.now.held
            received.now.interim (halves L.Sink link.old link.new) (state_of caller.old) (state_of caller.new) result }
        ensures aside { MayNote (L.Sink.aside link.old) (L.Sink.aside link.new) (L.Sink.written link.old)
            caller.new.pass }
        ensures rows { AreAmong caller.old.pass.rows caller.new.pass.rows }
        ensures cause { OnPutFault result (Rose (L.Sink.count link.old) (L.Sink.count link.new)) }
        ensures never_falls { L.Sink.count link.old ≤ L.Sink.count link.new }
    {
        match first.asks {
            Ok(Endpoint::Command(route)) => {
                self.answer_commands(service, &mut caller.pass, link, received, first, route)
            }
            Ok(Endpoint::Totals) => {
                self.answer_totals(service.alloc, &mut caller.reader, link, first)?;
                Ok(Answered::one(first))
            }
            Ok(Endpoint::Log(from)) => {
                answer_log(service, &mut caller.pass, &mut self.out, link, first, from)?;
                Ok(Answered::one(first))
            }
            Err(fault) => {
                answer_fault(&mut self.out, link, first, fault)?;
                Ok(Answered::one(first))
            }
        }
    }

    /// Answers a request for the totals that were posted last.
    fn answer_totals<K: Sink, B: Beginning>(
        &mut self,
        alloc: Global,
        reader: &mut TotalsReader<B>,
        link: &mut K,
        request: &Request,
    ) -> Result<(), ServeFault>
        requires empty { self.old.out ≡ [] }
        ensures empty { OnOk result (self.new.out ≡ []) }
        ensures longer { IsPrefix reader.old reader.new }
        ensures legal { IsLegal reader.new }
        ensures says { (written : Bool) × PutSays
            (request_bytes request.now (response_of (record { outcome = counted reader.new; written = written })))
            (K.written link.old) (K.written link.new) result }
        ensures aside { K.aside link.new ≡ K.aside link.old }
        ensures cause { OnPutFault result (Rose (K.count link.old) (K.count link.new)) }
        ensures never_falls { K.count link.old ≤ K.count link.new }
    {
        let totals = reader.totals();
        tell(alloc, &mut self.told, &totals, request);
        match &self.told {
            Some(last) => put_bytes(link, last.bytes()),
            None => put_response(&mut self.out, link, request, &Says::no_memory()),
        }
    }
}

/// Answers a fault of a request.
fn answer_fault<K: Sink>(
    out: &mut Gathered,
    link: &mut K,
    request: &Request,
    fault: Fault,
) -> Result<(), ServeFault>
    requires empty { out.old ≡ [] }
    ensures empty { OnOk result (out.new ≡ []) }
    ensures says { PutSays (request_bytes request.now (response_to (faulted fault))) (K.written link.old)
        (K.written link.new) result }
    ensures aside { K.aside link.new ≡ K.aside link.old }
    ensures cause { OnPutFault result (Rose (K.count link.old) (K.count link.new)) }
    ensures never_falls { K.count link.old ≤ K.count link.new }
{
    let says = Says {
        status: fault_status(fault),
        allow: fault_allow(fault),
        body: fault_text(fault),
    };
    put_response(out, link, request, &says)
}
