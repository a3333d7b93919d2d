//! The serving of one connection.
ghost use Rattle.std.specs.Prelude.{◌≡◌, ◌≤◌};
ghost use Rattle.farm_entry.specs.Legal.{IsLegal};
ghost use Rattle.common_types.specs.Counts.{Rose};
ghost use Rattle.link_io.specs.Links.{link_state};
ghost use Rattle.common_types.specs.Prefix.{IsPrefix};
ghost use Rattle.turn_lock.specs.Known.{IsReady};
ghost use Rattle.connection_laws.specs.Marks.{Follows};
ghost use Rattle.connection_laws.specs.Moments.{GivenBy};
ghost use Rattle.connection_laws.specs.Owners.{holding_of};
ghost use Rattle.connection_laws.specs.Progress.{progress_from};
ghost use Rattle.connection_laws.specs.Serving.{Serves};
ghost use Rattle.connection_laws.specs.Told.{noted_in};
ghost use Rattle.farm_http.specs.Callers.{mark_of};
ghost use Rattle.farm_http.specs.Faults.{OnLinkFault};

use crate::caller::Caller;
use crate::connection::Connection;
use crate::service::Service;
use connection_laws::{ServeFault, Served};
use farm_disk::DatedDisk;
use http_requests::every_input_has_items;
use link_io::{Clock, Link};
use shared_farm::Beginning;
use std::sync::Wait;

/// Serves a connection: takes the bytes of a link, and answers the requests in them one after the other, each as soon
/// as it is whole, until the input ends, a request closes the connection, or [`INPUT_LIMIT`](link_io::INPUT_LIMIT)
/// bytes were taken. What a request asks for is looked up in the service's table of paths. A command is answered at a
/// turn of the caller's pass, at the moment that the clock gives, and commands that stand whole in the bytes held share
/// a turn, up to [`MAX_BATCH`](farm_store::MAX_BATCH) of them. The totals are read by the caller's reader, without a
/// turn. Before the answer to a command or a log page is put, the link takes a note that a moment of the disk is over:
/// one by which the history that the answer tells of stood there.
///
/// # Errors
///
/// The link failed at a take or at a put, or memory ran out for the bytes held. What was put by then is a prefix of the
/// answers, and what was recorded stays.
pub fn serve_link<R: Wait, L: Link<Over = D::Over>, D: DatedDisk, B: Beginning, C: Clock>(
    service: &Service<R, D, B, C>,
    caller: &mut Caller<B>,
    link: &mut L,
) -> Result<Served, ServeFault>
    requires ready { IsReady service.now.farm.now caller.old.pass }
    requires legal { IsLegal caller.old.reader }
    ensures ready { IsReady service.now.farm.now caller.new.pass }
    ensures serves { Serves result (progress_from caller.old.pass.seen caller.old.reader caller.old.pass.faults)
        (mark_of caller.new.pass caller.new.reader) (GivenBy C.Clock service.now.clock.now D.count)
        (noted_in caller.new.pass.rows (link_state L.Source L.Sink link.old) (link_state L.Source L.Sink link.new))
        (link_state L.Source L.Sink link.old)
        (link_state L.Source L.Sink link.new) (holding_of caller.old.pass) (holding_of caller.new.pass)
        caller.new.reader }
    ensures follows { Follows (mark_of caller.old.pass caller.old.reader)
        (mark_of caller.new.pass caller.new.reader) }
    ensures read { IsPrefix caller.old.reader caller.new.reader }
    ensures legal { IsLegal caller.new.reader }
    ensures cause { OnLinkFault result (Rose (L.Source.count link.old) (L.Source.count link.new)) }
    ensures never_falls { L.Source.count link.old ≤ L.Source.count link.new }
{
    let mut connection = Connection::new(service.alloc);
    loop {
        let ended = match connection.serve_next(service, caller, link) {
            Ok(ended) => ended,
            Err(fault) => {
                every_input_has_items(service.pages, connection.received.held());
                return Err(fault);
            }
        };
        if let Some(why) = ended {
            let requests = connection.requests;
            return Ok(Served { requests, why });
        }
    }
}
