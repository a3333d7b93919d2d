//! One connection, from one request to the next.
ghost use Rattle.std.specs.Prelude.{◌≡◌, ◌≤◌, ◌+◌, [], OnOk, true, length};
ghost use Rattle.farm_entry.specs.Legal.{IsLegal};
ghost use Rattle.common_types.specs.Counts.{Rose};
ghost use Rattle.http_requests.specs.Next.{IsNextFor};
ghost use Rattle.link_io.specs.Links.{LinkState, link_state};
ghost use Rattle.link_io.specs.declared.source.TheConstants.{INPUT_LIMIT};
ghost use Rattle.turn_lock.specs.Known.{IsReady};
ghost use Rattle.connection_laws.specs.Moments.{GivenBy};
ghost use Rattle.connection_laws.specs.Progress.{Progress};
ghost use Rattle.farm_http.specs.Callers.{CallerState, state_of};
ghost use Rattle.farm_http.specs.Connection.{GoesOn, IsServing, work_left};
ghost use Rattle.farm_http.specs.Faults.{OnLinkFault};
ghost use Rattle.farm_http.specs.Received.{AsksInterim, is_complete, nothing_received};

use crate::caller::Caller;
use crate::kept::Kept;
use crate::received::Received;
use crate::service::Service;
use connection_laws::{ServeFault, Why};
use farm_disk::DatedDisk;
use http_requests::{Next, Request};
use link_io::{Clock, Link};
use shared_farm::Beginning;
use std::alloc::Global;
use std::sync::Wait;

/// One connection: the bytes that were taken and aren't answered yet, what is kept from one answer to the next, and how
/// many requests were answered.
#[derive(Drop)]
pub(crate) struct Connection {
    pub received: Received,
    pub kept: Kept,
    pub requests: u64,
}

impl Connection {
    /// Nothing was taken yet.
    pub fn new(alloc: Global) -> Connection
        ensures nothing { result.received ≡ nothing_received }
        ensures empty { result.kept.out ≡ [] }
        ensures none { result.requests ≡ 0 }
    {
        Connection {
            received: Received::new(alloc),
            kept: Kept::new(alloc),
            requests: 0,
        }
    }

    /// Takes what has to be taken until the request at the front is whole, or answers it and those that may share its
    /// turn. Where the serving has ended it says why.
    pub fn serve_next<R: Wait, L: Link<Over = D::Over>, D: DatedDisk, B: Beginning, C: Clock>(
        &mut self,
        service: &Service<R, D, B, C>,
        caller: &mut Caller<B>,
        link: &mut L,
    ) -> Result<Option<Why>, ServeFault>
        requires ready { IsReady service.now.farm.now caller.old.pass }
        requires legal { IsLegal caller.old.reader }
        requires few { self.old.requests + length self.old.received.held ≤ INPUT_LIMIT }
        requires empty { self.old.kept.out ≡ [] }
        requires interim { self.old.received.interim ≡ true → AsksInterim self.old.received.held }
        ensures ready { IsReady service.now.farm.now caller.new.pass }
        ensures legal { IsLegal caller.new.reader }
        ensures empty { OnOk result (self.new.kept.out ≡ []) }
        ensures goes_on { (start : Progress) (old : CallerState) (before : LinkState)
            → IsServing start (GivenBy C.Clock service.now.clock.now D.count) old (state_of caller.old) before
            (link_state L.Source L.Sink link.old) self.old.received self.old.requests
            → IsLegal start.totals
            → GoesOn start (GivenBy C.Clock service.now.clock.now D.count) old before (work_left self.old.received)
            result
            (state_of caller.new) (link_state L.Source L.Sink link.new) self.new.received self.new.requests }
        ensures cause { OnLinkFault result (Rose (L.Source.count link.old) (L.Source.count link.new)) }
        ensures never_falls { L.Source.count link.old ≤ L.Source.count link.new }
    {
        match self.received.next(service.pages, &mut self.kept.last) {
            Next::End => Ok(Some(self.received.why())),
            Next::More => {
                self.received.take(link)?;
                Ok(None)
            }
            Next::Body(awaited) => {
                self.received.put_interim(awaited.interim, link)?;
                self.received.take(link)?;
                Ok(None)
            }
            Next::Request(first) => {
                self.received.put_interim(first.interim, link)?;
                self.answer_next(service, caller, link, &first)
            }
        }
    }

    /// Answers the request at the front, and those that may share its turn. Its interim answer is out, where it has
    /// one.
    fn answer_next<R: Wait, L: Link<Over = D::Over>, D: DatedDisk, B: Beginning, C: Clock>(
        &mut self,
        service: &Service<R, D, B, C>,
        caller: &mut Caller<B>,
        link: &mut L,
        first: &Request,
    ) -> Result<Option<Why>, ServeFault>
        requires ready { IsReady service.now.farm.now caller.old.pass }
        requires legal { IsLegal caller.old.reader }
        requires few { self.old.requests + length self.old.received.held ≤ INPUT_LIMIT }
        requires empty { self.old.kept.out ≡ [] }
        requires next { IsNextFor (is_complete self.old.received) self.old.received.held first.now }
        requires interim { self.old.received.interim ≡ first.now.interim }
        ensures ready { IsReady service.now.farm.now caller.new.pass }
        ensures legal { IsLegal caller.new.reader }
        ensures empty { OnOk result (self.new.kept.out ≡ []) }
        ensures goes_on { (start : Progress) (old : CallerState) (before : LinkState)
            → IsServing start (GivenBy C.Clock service.now.clock.now D.count) old (state_of caller.old) before
            (link_state L.Source L.Sink link.old) self.old.received self.old.requests
            → IsLegal start.totals
            → GoesOn start (GivenBy C.Clock service.now.clock.now D.count) old before (work_left self.old.received)
            result
            (state_of caller.new) (link_state L.Source L.Sink link.new) self.new.received self.new.requests }
        ensures cause { OnLinkFault result (Rose (L.Source.count link.old) (L.Source.count link.new)) }
        ensures never_falls { L.Source.count link.old ≤ L.Source.count link.new }
    {
        let done = self
            .kept
            .answer_front(service, caller, link, &self.received, first)?;
        self.requests += done.requests;
        if done.closes {
            return Ok(Some(Why::Close));
        }
        self.received.pass_over(done.size);
        Ok(None)
    }
}
