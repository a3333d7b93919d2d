//! A request that is sent, and sent again where it is lost.
ghost use Rattle.std.specs.Prelude.{◌≡◌, ◌≤◌, IfOk};
ghost use Rattle.common_types.specs.Counts.{Rose};
ghost use Rattle.http_exchange.specs.Sending.{Sends, SendsOnce, sent_of};

use crate::status::is_lost_with;
use crate::{Exchanged, Response, exchange};
use common_types::Memory;
use link_io::Network;
use std::alloc::Global;

/// How often a request is sent at most.
pub const MAX_TRIES: u32 = 3;

/// What a request came to that was sent.
#[derive(Drop)]
pub enum Sent {
    /// A whole response, of a status that no request is lost with.
    Answered(Response),
    /// The request is lost, and may be sent again as it was.
    Lost(Lost),
}

/// What a request was lost by.
#[derive(Clone, Copy)]
pub enum Lost {
    /// No connection was made, or it failed, and the network's count of faults rose.
    Network,
    /// The other end, which couldn't serve the request and said so by this status, or with 0, where it sent no whole
    /// response.
    Peer(u16),
}

/// Sends a request over a connection of its own, until it is answered, or [`MAX_TRIES`] times, and each time as it was.
/// Answers what the last try came to.
pub fn send<N: Network>(alloc: Global, network: &mut N, request: &[u8]) -> Result<Sent, Memory>
    ensures sends { Sends request.now (N.told network.old) (N.told network.new) result }
    ensures rises { IfOk result (λ sent. sent ≡ Sent.Lost Lost.Network
        → Rose (N.count network.old) (N.count network.new)) }
    ensures never_falls { N.count network.old ≤ N.count network.new }
{
    let mut left = MAX_TRIES - 1;
    while left > 0 {
        left -= 1;
        match send_once(alloc, network, request)? {
            Sent::Answered(response) => return Ok(Sent::Answered(response)),
            Sent::Lost(_) => {}
        }
    }
    send_once(alloc, network, request)
}

/// Sends a request once, over a connection of its own.
pub fn send_once<N: Network>(alloc: Global, network: &mut N, request: &[u8]) -> Result<Sent, Memory>
    ensures sends { SendsOnce request.now (N.told network.old) (N.told network.new) result }
    ensures rises { IfOk result (λ sent. sent ≡ Sent.Lost Lost.Network
        → Rose (N.count network.old) (N.count network.new)) }
    ensures never_falls { N.count network.old ≤ N.count network.new }
{
    let came = exchange(alloc, network, request)?;
    Ok(outcome_of(came))
}

/// What is made of a request by what became of its exchange.
fn outcome_of(came: Exchanged) -> Sent
    ensures { result ≡ sent_of came }
{
    match came {
        Exchanged::Answered(response) => {
            if is_lost_with(response.status) {
                Sent::Lost(Lost::Peer(response.status))
            } else {
                Sent::Answered(response)
            }
        }
        Exchanged::Failed => Sent::Lost(Lost::Network),
        Exchanged::Broken => Sent::Lost(Lost::Peer(0)),
    }
}
