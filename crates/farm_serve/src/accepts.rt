//! One accept.
ghost use Rattle.std.specs.Prelude.{◌≡◌, ◌≤◌, false, IfSome};
ghost use Rattle.common_types.specs.Counts.{Rose};
ghost use Rattle.link_io.specs.Links.{link_state, fresh_link};
ghost use Rattle.link_io.specs.Telling.{add_told};
ghost use Rattle.link_io.specs.Answers.{IfAccepted, OnAcceptFailed};
ghost use Rattle.link_io.specs.Events.{accept_event};

use link_io::{Accepted, Network};

/// The next link of a network. Where this was the last accept, or it answered that no more will come, the network is
/// told that no accept follows.
pub fn accept<N: Network>(network: &mut N, is_last: bool) -> Accepted<N::End>
    ensures told { N.told network.new ≡ add_told (accept_event result) (N.told network.old) }
    ensures fresh { IfAccepted result (λ link. IfSome (N.told network.old)
        (λ _. link_state N.End.Source N.End.Sink link ≡ fresh_link)) }
    ensures unended { IfAccepted result (λ link. N.End.Source.ended link ≡ false) }
    ensures unfailed { IfAccepted result (λ link. N.End.Source.count link ≡ 0) }
    ensures rises { OnAcceptFailed result (Rose (N.count network.old) (N.count network.new)) }
    ensures never_falls { N.count network.old ≤ N.count network.new }
{
    let accepted = network.accept();
    if is_last || matches!(&accepted, Accepted::End) {
        network.stop_accepting();
    }
    accepted
}
