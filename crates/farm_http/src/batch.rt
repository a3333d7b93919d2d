//! Commands that stand whole at the front of the bytes held.
ghost use Rattle.std.specs.Prelude.{◌≡◌, ◌≤◌, ◌<◌, ◌+◌, ◌^◌, ◌++◌, ◌∷◌, [], IfSome, true, false, length, Ok};
ghost use Rattle.http_requests.specs.Next.{IsNextFor, item_in};
ghost use Rattle.connection_laws.specs.Kinds.{commands, kind_of};
ghost use Rattle.connection_laws.specs.Moments.{GivenBy};
ghost use Rattle.farm_store.specs.declared.asking.TheConstants.{MAX_BATCH};
ghost use Rattle.farm_http.specs.Batches.{IsBatch};
ghost use Rattle.farm_entry.specs.Legal.{IsLegal};
ghost use Rattle.common_types.specs.Rows.{AreAmong};
ghost use Rattle.shared_farm.specs.Logs.{IsOver};
ghost use Rattle.shared_farm.specs.Turns.{IsTurn};
ghost use Rattle.turn_lock.specs.Known.{IsReady};

use crate::service::Service;
use common_types::Past;
use farm_disk::DatedDisk;
use farm_entry::Command;
use farm_store::{Answers, Ask, CallFault, MAX_BATCH};
use farm_wire::command_of;
use http_requests::{LastHead, Next, Reading, Request, next_of};
use http_words::{Endpoint, Fault};
use link_io::Clock;
use shared_farm::Beginning;
use std::alloc::Global;
use std::marker::Model;
use std::sync::Wait;
use turn_lock::Pass;

/// The commands of a batch, the request of each, and how many of the bytes held the requests take. A connection keeps
/// one, so that its room is made once: it has no commands before the first batch.
#[derive(Drop)]
pub(crate) struct Batch {
    asks: Vec<Ask>,
    requests: [Request; MAX_BATCH],
    size: usize,
    /// Whether the last request closes the connection.
    closes: bool,
}

impl Model for Batch {
    ghost use Rattle.std.specs.Prelude.{◌≤◌, length, take};
    ghost use Rattle.farm_store.specs.declared.asking.TheConstants.{MAX_BATCH};
    ghost use Rattle.farm_http.specs.Batches.{BatchState};

    ghost Value = { BatchState };

    ghost view = { λ b. record {
      asks = b.asks.items;
      requests = take (length b.asks.items) b.requests;
      size = b.size;
      closes = b.closes;
    } };

    ghost invariant = { λ b. length b.asks.items ≤ MAX_BATCH };
}

/// What stands where a batch has no request.
const NO_REQUEST: Request = Request {
    interim: false,
    withheld: false,
    closes: true,
    asks: Err(Fault::BadRequest),
    body: 0,
    size: 0,
};

impl Batch {
    /// No command yet.
    pub fn new(alloc: Global) -> Batch {
        Batch {
            asks: Vec::new(alloc),
            requests: [NO_REQUEST; MAX_BATCH],
            size: 0,
            closes: false,
        }
    }

    /// Begins a batch of one command in the place of the last one, and says whether there was memory for it.
    pub fn begin(&mut self, first: &Request, ask: Ask) -> bool
        ensures { result ≡ true → self.new ≡ record {
          asks = ask ∷ [];
          requests = first.now ∷ [];
          size = first.now.size;
          closes = first.now.closes;
        } }
    {
        self.asks.clear();
        if self.asks.reserve(MAX_BATCH).is_err() {
            return false;
        }
        self.asks.push_reserved(ask);
        self.requests[0] = *first;
        self.size = first.size;
        self.closes = first.closes;
        true
    }

    /// Lets the commands go, whose memory isn't kept while more bytes are waited for.
    pub fn clear(&mut self) {
        self.asks.clear();
    }

    /// Asks the farm for the commands, of which there are some, at one turn of the pass. With the answers comes a moment
    /// of the disk that was over after the turn, by which all that the pass has then seen stood.
    pub fn ask<R: Wait, D: DatedDisk, B: Beginning, C: Clock>(
        &mut self,
        service: &Service<R, D, B, C>,
        pass: &mut Pass,
    ) -> (Result<Answers, CallFault>, D::Over)
        requires ready { IsReady service.now.farm.now pass.old }
        requires some { 1 ≤ length self.old.asks }
        ensures same { self.new ≡ self.old }
        ensures ready { IsReady service.now.farm.now pass.new }
        ensures turn { IsTurn D.count self.old.asks result.0 pass.old pass.new }
        ensures legal { IsLegal pass.new.seen }
        ensures faults { pass.old.faults ≤ pass.new.faults }
        ensures rows { AreAmong pass.old.rows pass.new.rows }
        ensures over { IsOver (D.Over.at result.1) pass.new }
    {
        service
            .farm
            .call_batch(service.rt, service.alloc, pass, &mut self.asks)
    }

    /// The commands, with their moments.
    pub fn asks(&self) -> &[Ask]
        ensures value { result.now ≡ self.now.asks }
        ensures few { length result.now ≤ MAX_BATCH }
    {
        &self.asks
    }

    /// The request of each command.
    pub fn requests(&self) -> &[Request]
        ensures value { result.now ≡ self.now.requests }
        ensures each { length result.now ≡ length self.now.asks }
    {
        &self.requests[..self.asks.len()]
    }

    /// How many of the bytes held the requests take.
    pub fn size(&self) -> usize
        ensures { result ≡ self.now.size }
    {
        self.size
    }

    /// Whether the last request closes the connection.
    pub fn closes(&self) -> bool
        ensures { result ≡ self.now.closes }
    {
        self.closes
    }

    /// Whether one more command may be in it.
    fn is_open(&self) -> bool
        ensures { result ≡ true → (length self.now.asks + 1 ≤ MAX_BATCH) × (self.now.closes ≡ false) }
    {
        self.asks.len() < MAX_BATCH && !self.closes
    }

    /// Adds a command, and says whether there was memory for it.
    fn add(&mut self, request: &Request, ask: Ask) -> bool
        requires room { length self.old.asks + 1 ≤ MAX_BATCH }
        requires size { self.old.size + request.now.size < 2 ^ 64 }
        ensures added { result ≡ true → self.new ≡ record {
          asks = self.old.asks ++ ask ∷ [];
          requests = self.old.requests ++ request.now ∷ [];
          size = self.old.size + request.now.size;
          closes = request.now.closes;
        } }
        ensures kept { result ≡ false → self.new ≡ self.old }
    {
        let place = self.asks.len();
        if self.asks.reserve(1).is_err() {
            return false;
        }
        self.asks.push_reserved(ask);
        self.requests[place] = *request;
        self.size += request.size;
        self.closes = request.closes;
        true
    }

    /// Adds the command that stands whole in the bytes held behind those of the batch, and says whether there is one: a
    /// request whose interim answer has to be put is none, nor is a body that is no command or for which memory runs
    /// out. It is asked at a moment that the clock gives now.
    fn add_next<R, D: DatedDisk, B: Beginning, C: Clock>(
        &mut self,
        service: &Service<R, D, B, C>,
        last: &mut LastHead,
        held: &[u8],
        complete: bool,
    ) -> bool
        requires batch { IsBatch (GivenBy C.Clock service.now.clock.now D.count) complete held.now self.old }
        requires room { length self.old.asks + 1 ≤ MAX_BATCH }
        requires open { self.old.closes ≡ false }
        ensures batch { IsBatch (GivenBy C.Clock service.now.clock.now D.count) complete held.now self.new }
        ensures more { result ≡ true → length self.new.asks ≡ length self.old.asks + 1 }
    {
        let rest = &held[self.size..];
        if rest.is_empty() {
            return false;
        }
        let next = next_of(service.pages, &mut Reading::new(), last, rest, complete);
        let Next::Request(request) = &next else {
            return false;
        };
        if request.interim {
            return false;
        }
        let Ok(Endpoint::Command(route)) = &request.asks else {
            return false;
        };
        match command_of(service.alloc, route, &rest[request.body..request.size]) {
            Ok(command) => {
                let at = service.clock.now();
                self.add(request, Ask { command, at })
            }
            Err(_) => false,
        }
    }

    /// Adds the commands that stand whole in the bytes held behind those of the batch, as many as may share a turn: it
    /// ends before a request that is none, or whose interim answer has to be put, before a body that is no command or
    /// for which memory runs out, and after a request that closes the connection. Each is asked at a moment that the
    /// clock gives now.
    pub fn gather<R, D: DatedDisk, B: Beginning, C: Clock>(
        &mut self,
        service: &Service<R, D, B, C>,
        last: &mut LastHead,
        held: &[u8],
        complete: bool,
    )
        requires batch { IsBatch (GivenBy C.Clock service.now.clock.now D.count) complete held.now self.old }
        ensures { IsBatch (GivenBy C.Clock service.now.clock.now D.count) complete held.now self.new }
    {
        while self.is_open() {
            if !self.add_next(service, last, held, complete) {
                return;
            }
        }
    }
}
