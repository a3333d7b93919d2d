//! The value in the lock round the network.
ghost use Rattle.std.specs.Prelude.{[], length, ◌≡◌, ◌<◌, ◌≤◌, ◌+◌, ◌⊎◌, IfSome, IfOk, IsSome, OnErr, true, false};
ghost use Rattle.connection_laws.specs.Marks.{Follows};
ghost use Rattle.connection_laws.specs.Moments.{MayGive};
ghost use Rattle.farm_http.specs.Callers.{mark_of};
ghost use Rattle.farm_types.specs.declared.moment.Moment.{Moment};
ghost use Rattle.common_types.specs.Counts.{Rose};
ghost use Rattle.link_io.specs.Links.{link_state};
ghost use Rattle.turn_lock.specs.Known.{IsReady, first_stake};
ghost use Rattle.turn_lock.specs.Places.{ArePlaces};
ghost use Rattle.farm_serve.specs.Entries.{start_of};
ghost use Rattle.farm_serve.specs.Links.{IsServedBy};
ghost use Rattle.farm_serve.specs.Nexts.{IsPassOf, IsReaderOf, NextSays};
ghost use Rattle.farm_serve.specs.Serving.{IsGainedBy, IsStaked};
ghost use Rattle.farm_serve.specs.Standings.{IsClosed};

use crate::accepts::accept;
use crate::early_reader::EarlyReader;
use crate::link::serve_one;
use crate::naming::Naming;
use crate::standing::{NextLink, ServeState};
use farm_disk::DatedDisk;
use farm_http::{Caller, Pages, ServeFault, Served, Service};
use farm_types::Memory;
use link_io::{Accepted, Clock, Network};
use shared_farm::{Beginning, Pass, SharedFarm, TotalsMark, TotalsReader};
use std::alloc::Global;
use std::marker::Model;
use std::sync::Wait;
use std::sync::ledger::{Book, Share};

/// The network, with a pass of the farm and a mark of its totals that have seen all that the links taken back were
/// answered at, the book of the links that are out, and the readers of handlers that haven't started yet.
///
/// Its pass is split for each link and joined with the link's pass when that is taken back, and its mark takes in what
/// the link's reader has seen. What the pass had seen when it was split is lent to the link, so that it is known of the
/// links taken back which accepts they began with. Contracts see it as how the serving stands.
#[derive(Drop)]
pub struct Gate<N: Network + Drop, B: Beginning, J: Naming> {
    network: N,
    held: Pass,
    read: TotalsMark<B>,
    out: Book<J>,
    readers: Vec<EarlyReader<B, J>>,
    standing: ServeState,
}

impl<N: Network + Drop, B: Beginning, J: Naming> Model for Gate<N, B, J> {
    ghost use Rattle.std.specs.Prelude.{IsSome};
    ghost use Rattle.farm_serve.specs.Serving.{IsServing, IsStaked};
    ghost use Rattle.farm_serve.specs.declared.standing.ServeState.{ServeState};

    ghost Value = { ServeState };

    ghost view = { λ g. g.standing };

    ghost invariant = { λ g. IsServing J.entry J.gives g.held g.read g.out.total g.standing (N.told g.network)
        (N.count g.network) × IsSome B.board × IsStaked J.entry g.held g.out.total g.standing.left };
}

impl<N: Network + Drop, B: Beginning, J: Naming> Gate<N, B, J> {
    /// No accept was made yet.
    pub fn new(
        alloc: Global,
        network: N,
        held: Pass,
        read: TotalsMark<B>,
        out: Book<J>,
        links: u64,
    ) -> Gate<N, B, J>
        requires ready { IsReady J.entry.lock held }
        requires begins { Follows (start_of J.entry) (mark_of held read) }
        requires picked { IsSome B.board }
        requires told { J.entry.told ≡ N.told network }
        requires count { J.entry.count ≡ N.count network }
        requires links { J.entry.links ≡ links }
        requires stake { held.stake ≡ first_stake J.entry.first [] }
        requires mine { held.mine ≡ [] }
        requires none { out.total ≡ 0 }
    {
        Gate {
            network,
            held,
            read,
            out,
            readers: Vec::new(alloc),
            standing: ServeState {
                left: links,
                ended: false,
                failed: false,
                short: false,
            },
        }
    }

    /// The next link, with a pass that has seen what the held one has. Once no accept follows, the network is told so.
    pub fn next<D: DatedDisk>(
        &mut self,
        farm: &SharedFarm<D, B>,
        mine: &mut Share<J>,
    ) -> NextLink<N::End>
        requires farm { farm.now ≡ J.entry.lock }
        requires parts { 0 < mine.old.parts }
        ensures parts { mine.new.parts ≡ mine.old.parts }
        ensures says { NextSays (λ link. link_state N.End.Source N.End.Sink link) J.entry self.old self.new
            mine.old.amount mine.new.amount result }
    {
        if self.standing.left == 0 || self.standing.ended {
            return NextLink::Closed;
        }
        self.standing.left -= 1;
        match accept(&mut self.network, self.standing.left == 0) {
            Accepted::Linked(link) => {
                let pass = farm.split(&mut self.held);
                self.out.add(mine, 1);
                NextLink::Link(link, pass)
            }
            Accepted::End => {
                self.standing.ended = true;
                NextLink::Nothing
            }
            Accepted::Failed => {
                self.standing.failed = true;
                NextLink::Nothing
            }
        }
    }

    /// A reader of totals, which has seen what the held pass has. Running out of memory is noted.
    pub fn reader<D: DatedDisk, R: Wait>(
        &mut self,
        rt: &R,
        farm: &SharedFarm<D, B>,
    ) -> Result<TotalsReader<B>, Memory>
        requires farm { farm.now ≡ J.entry.lock }
        ensures reader { IfOk result (λ reader. IsReaderOf J.entry reader) }
        ensures short { OnErr result (self.new.short ≡ true) }
    {
        let made = farm.reader(rt, &mut self.held);
        if made.is_err() {
            self.standing.short = true;
        }
        made
    }

    /// A table of paths. Running out of memory is noted.
    pub fn pages(&mut self, alloc: Global) -> Result<Pages, Memory>
        ensures short { OnErr result (self.new.short ≡ true) }
    {
        let made = Pages::new(alloc);
        if made.is_err() {
            self.standing.short = true;
        }
        made
    }

    /// Makes a reader more, for a handler that starts later. Running out of memory is noted.
    fn add_reader<D: DatedDisk, R: Wait>(
        &mut self,
        rt: &R,
        farm: &SharedFarm<D, B>,
    ) -> Result<(), Memory>
        requires farm { farm.now ≡ J.entry.lock }
    {
        let reader = self.reader(rt, farm)?;
        self.keep_reader(EarlyReader::new(reader))
    }

    /// Keeps a reader. Running out of memory is noted.
    fn keep_reader(&mut self, reader: EarlyReader<B, J>) -> Result<(), Memory> {
        let kept = self.readers.push(reader);
        if kept.is_err() {
            self.standing.short = true;
            return Err(Memory);
        }
        Ok(())
    }

    /// Makes the readers of so many handlers, before the first accept: a handler that made its own would take a turn of
    /// the farm under the lock round the network. Where memory runs out there are fewer, which is noted.
    pub fn add_readers<D: DatedDisk, R: Wait>(
        &mut self,
        rt: &R,
        farm: &SharedFarm<D, B>,
        handlers: u8,
    )
        requires farm { farm.now ≡ J.entry.lock }
    {
        for _ in 0..handlers {
            if self.add_reader(rt, farm).is_err() {
                return;
            }
        }
    }

    /// A reader that was made before. Where there is none, memory ran out.
    pub fn take_reader(&mut self) -> Option<EarlyReader<B, J>> {
        self.readers.pop()
    }

    /// Takes a link back, and its pass, and what its reader has seen.
    pub fn back<D: DatedDisk>(
        &mut self,
        farm: &SharedFarm<D, B>,
        link: N::End,
        pass: Pass,
        reader: &mut TotalsReader<B>,
        served: Result<Served, ServeFault>,
        mine: &mut Share<J>,
    )
        requires farm { farm.now ≡ J.entry.lock }
        requires pass { IsPassOf J.entry pass }
        requires reader { IsReaderOf J.entry reader.old }
        requires parts { pass.stake.parts ≡ 1 }
        requires amount { 0 < mine.old.amount }
        requires served { IsServedBy J.entry J.gives pass reader.old (link_state N.End.Source N.End.Sink link) served }
        ensures reader { IsReaderOf J.entry reader.new }
        ensures parts { mine.new.parts ≡ mine.old.parts }
        ensures amount { mine.new.amount + 1 ≡ mine.old.amount }
        ensures left { self.new.left ≡ self.old.left }
    {
        self.standing.note(served);
        farm.join(&mut self.held, pass);
        self.read.take_in(reader);
        self.network.done(link);
        self.out.sub(mine, 1);
    }

    /// All links are back.
    pub fn finish(self, all: Share<J>) -> (N, Pass, TotalsMark<B>, ServeState)
        requires whole { all.parts ≡ J.parts }
        requires none { all.amount ≡ 0 }
        ensures standing { result.3 ≡ self }
        ensures ready { IsReady J.entry.lock result.1 }
        ensures begins { Follows (start_of J.entry) (mark_of result.1 result.2) }
        ensures gained { IfSome J.entry.told
            (λ before. IsGainedBy J.entry J.gives result.1 result.2 0 result.3 before (N.told result.0)) }
        ensures stake { IsStaked J.entry result.1 0 result.3.left }
        ensures places { ArePlaces 0 (length result.1.seen) result.1.mine }
        ensures rose { result.3.failed ≡ true → Rose J.entry.count (N.count result.0) }
        ensures never_falls { J.entry.count ≤ N.count result.0 }
    {
        let Gate {
            network,
            held,
            read,
            mut out,
            standing,
            ..
        } = self;
        let mut all = all;
        out.audit(&mut all);
        (network, held, read, standing)
    }
}

/// Makes the accepts that are left and serves their links, where there is memory for a reader and a table of paths.
pub fn serve_rest<
    D: DatedDisk,
    B: Beginning,
    N: Network<Over = D::Over> + Drop,
    C: Clock,
    J: Naming,
    R: Wait,
>(
    gate: &mut Gate<N, B, J>,
    rt: &R,
    alloc: Global,
    farm: &SharedFarm<D, B>,
    clock: &C,
    mine: &mut Share<J>,
)
    requires farm { farm.now ≡ J.entry.lock }
    requires gives { (at : Moment) → MayGive C.Clock clock.now at → J.gives at }
    requires parts { 0 < mine.old.parts }
    ensures parts { mine.new.parts ≡ mine.old.parts }
    ensures amount { mine.new.amount ≡ mine.old.amount }
    ensures closed { IsClosed gate.new ⊎ (gate.new.short ≡ true) }
{
    let Ok(pages) = gate.pages(alloc) else {
        return;
    };
    let service = Service {
        rt,
        alloc,
        pages: &pages,
        farm,
        clock,
    };
    let Ok(mut reader) = gate.reader(rt, farm) else {
        return;
    };
    loop {
        match gate.next(farm, mine) {
            NextLink::Closed => return,
            NextLink::Nothing => {}
            NextLink::Link(link, pass) => {
                let mut link = link;
                let mut caller = Caller { pass, reader };
                let served = serve_one::<D, B, N, C, J, R>(&service, &mut caller, &mut link);
                let Caller { pass, reader: back } = caller;
                reader = back;
                gate.back(farm, link, pass, &mut reader, served, mine);
            }
        }
    }
}
