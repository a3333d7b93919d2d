//! What a worker reads in the answers to its requests.
ghost use Rattle.std.specs.Prelude.{◌≡◌, ◌≢◌, Err, IfErr, IfOk, Ok};
ghost use Rattle.worker_agent.specs.Replies.{is_network, lease_reply, lost_status, report_event};

use crate::{AnswerFault, LeaseAnswer, WorkFault, is_closed, is_no_run, lease_of};
use http_exchange::{Lost, Response, Sent, status_number};
use http_words::StatusCode;
use std::alloc::Global;
use worker_core::Event;

/// What a response to a request for a run says: a lease, or that there is no run to hand out.
pub(crate) fn lease_reply(
    alloc: Global,
    response: &Response,
) -> Result<Option<LeaseAnswer>, WorkFault>
    ensures read { IfOk result (λ read. lease_reply response.now ≡ Ok read) }
    ensures ended { IfErr result (λ fault. fault ≢ WorkFault.Memory → lease_reply response.now ≡ Err fault) }
{
    let status = response.status;
    if status == status_number(StatusCode::Ok) {
        match lease_of(alloc, response.body.as_slice()) {
            Ok(lease) => Ok(Some(lease)),
            Err(AnswerFault::Shape) => Err(WorkFault::Peer(status)),
            Err(AnswerFault::Memory) => Err(WorkFault::Memory),
        }
    } else if status == status_number(StatusCode::Conflict) {
        match is_no_run(alloc, response.body.as_slice()) {
            Ok(true) => Ok(None),
            Ok(false) => Err(WorkFault::Peer(status)),
            Err(_) => Err(WorkFault::Memory),
        }
    } else {
        Err(WorkFault::Peer(status))
    }
}

/// What comes of a report.
pub(crate) fn report_event(alloc: Global, sent: &Sent) -> Result<Event, WorkFault>
    ensures read { IfOk result (λ event. report_event sent.now ≡ Ok event) }
    ensures ended { IfErr result (λ fault. fault ≢ WorkFault.Memory → report_event sent.now ≡ Err fault) }
{
    match sent {
        Sent::Answered(response) => report_reply(alloc, response),
        Sent::Lost(lost) => Ok(Event::Lost(lost_status(*lost))),
    }
}

/// What a response to a report says: that it is noted, as it is where the farm is closed.
fn report_reply(alloc: Global, response: &Response) -> Result<Event, WorkFault>
    ensures read { IfOk result (λ event. report_event (Sent.Answered response.now) ≡ Ok event) }
    ensures ended { IfErr result
        (λ fault. fault ≢ WorkFault.Memory → report_event (Sent.Answered response.now) ≡ Err fault) }
{
    if response.status == status_number(StatusCode::Ok) {
        return Ok(Event::Noted);
    }
    if response.status != status_number(StatusCode::Conflict) {
        return Err(WorkFault::Peer(response.status));
    }
    match is_closed(alloc, response.body.as_slice()) {
        Ok(true) => Ok(Event::Noted),
        Ok(false) => Err(WorkFault::Peer(response.status)),
        Err(_) => Err(WorkFault::Memory),
    }
}

/// The status that a request was lost with, or 0 where no whole response came.
pub(crate) fn lost_status(lost: Lost) -> u16
    ensures { result ≡ lost_status lost }
{
    match lost {
        Lost::Network => 0,
        Lost::Peer(status) => status,
    }
}

/// Whether a request was lost by the network.
pub(crate) fn is_network(sent: &Sent) -> bool
    ensures { result ≡ is_network sent.now }
{
    matches!(sent, Sent::Lost(Lost::Network))
}
