//! The ask for a page, sent again where it is lost.

ghost use Rattle.std.specs.Prelude.{◌≡◌, ◌≤◌, IsErrOf};
ghost use Rattle.common_types.specs.Counts.{Rose};
ghost use Rattle.journal_follow.specs.Asked.{AskComesTo, given_up};

use crate::FollowFault;
use crate::answer::{Page, page_in};
use crate::request::ask_request;
use http_exchange::{Lost, Sent, send};
use link_io::Network;
use std::alloc::Global;

/// Asks for the entries from this one on, over a connection of its own for each try.
pub(crate) fn ask<N: Network>(
    alloc: Global,
    network: &mut N,
    from: u32,
) -> Result<Page, FollowFault>
    ensures comes { AskComesTo from (N.told network.old) (N.told network.new) result }
    ensures net_fault { IsErrOf result FollowFault.NetFault → Rose (N.count network.old) (N.count network.new) }
    ensures never_falls { N.count network.old ≤ N.count network.new }
{
    let request = ask_request(alloc, from)?;
    let sent = send(alloc, network, &request)?;
    match sent {
        Sent::Answered(response) => page_in(alloc, from, &response),
        Sent::Lost(lost) => Err(given_up(lost)),
    }
}

/// What is answered once the last try was lost.
fn given_up(lost: Lost) -> FollowFault
    ensures { result ≡ given_up lost }
{
    match lost {
        Lost::Network => FollowFault::NetFault,
        Lost::Peer(status) => FollowFault::Peer(status),
    }
}
