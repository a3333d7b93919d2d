//! One link, from its accept on.
ghost use Rattle.std.specs.Prelude.{◌≡◌};
ghost use Rattle.connection_laws.specs.Moments.{MayGive};
ghost use Rattle.farm_types.specs.declared.moment.Moment.{Moment};
ghost use Rattle.link_io.specs.Links.{link_state};
ghost use Rattle.farm_serve.specs.Links.{IsServedBy};
ghost use Rattle.farm_serve.specs.Nexts.{IsFresh, IsNew, IsPassOf, IsReaderOf};

use crate::naming::Naming;
use farm_disk::DatedDisk;
use farm_http::{Caller, ServeFault, Served, Service, serve_link};
use link_io::{Clock, Network};
use shared_farm::Beginning;
use std::sync::Wait;

/// Serves a link that has done nothing yet, and tells its other end that nothing more will come. No lock is held.
pub fn serve_one<
    D: DatedDisk,
    B: Beginning,
    N: Network<Over = D::Over>,
    C: Clock,
    J: Naming,
    R: Wait,
>(
    service: &Service<R, D, B, C>,
    caller: &mut Caller<B>,
    link: &mut N::End,
) -> Result<Served, ServeFault>
    requires farm { service.now.farm.now ≡ J.entry.lock }
    requires gives { (at : Moment) → MayGive C.Clock service.now.clock.now at → J.gives at }
    requires pass { IsPassOf J.entry caller.old.pass }
    requires new { IsNew caller.old.pass }
    requires reader { IsReaderOf J.entry caller.old.reader }
    requires fresh { IsFresh J.entry (link_state N.End.Source N.End.Sink link.old) }
    ensures pass { IsPassOf J.entry caller.new.pass }
    ensures parts { caller.new.pass.stake.parts ≡ 1 }
    ensures reader { IsReaderOf J.entry caller.new.reader }
    ensures served { IsServedBy J.entry J.gives caller.new.pass caller.new.reader
        (link_state N.End.Source N.End.Sink link.new) result }
{
    let served = serve_link(service, caller, link);
    N::finish(link);
    served
}
