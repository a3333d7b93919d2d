//! Following a leader.

ghost use Rattle.std.specs.Prelude.{◌≡◌, ◌≤◌, ◌++◌, true, length, IsErrOf};
ghost use Rattle.common_types.specs.Counts.{Rose};
ghost use Rattle.farm_disk.specs.Images.{LeavesOnly};
ghost use Rattle.journal_follow.specs.Page.{MayBeHeld};
ghost use Rattle.common_types.specs.Prefix.{IsPrefix};
ghost use Rattle.journal_follow.specs.Following.{Follows, IsOfFollowing};
ghost use Rattle.journal_follow.specs.Rounds.{EndedSays, RoundSays};
ghost use Rattle.journal_follow.specs.Shown.{IsKept, ShowsBetween, ShowsLeft};
ghost use Rattle.journal_follow.specs.Taken.{HasCause, HasCauseWithin, IsSoundly};

use crate::asking::ask;
use crate::{FollowFault, Follower};
use farm_disk::Disk;
use link_io::Network;
use std::alloc::Global;

/// How far a leader was followed.
#[derive(Clone, Copy)]
pub struct Followed {
    /// How many entries are held.
    pub entries: u32,
    /// Whether the leader had no more when it was asked last.
    pub whole: bool,
}

/// What a round came to.
#[derive(Clone, Copy)]
enum Went {
    /// A page was taken, with which so many entries are compared.
    On(u32),
    /// The leader has no more.
    Whole(Followed),
}

/// Asks a leader for its entries, from the first on, and takes each page, for so many rounds or until the leader has no
/// more. What is held already is compared again. An ask that is lost is sent again as it was, three times in all. Every
/// connection is given back to the network.
pub fn follow<N: Network, D: Disk>(
    alloc: Global,
    network: &mut N,
    follower: &mut Follower<D>,
    rounds: u32,
) -> Result<Followed, FollowFault>
    // What was done, by what the network tells, and what came of it.
    ensures follows { Follows rounds follower.old.held follower.new.held (N.told network.old) (N.told network.new) result }
    // No entry of the history is ever taken back.
    ensures grows { IsPrefix follower.old.held.history follower.new.held.history }
    // What is held is legal, with all that is pending, whatever the disk tells.
    ensures legal { MayBeHeld (follower.new.held.history ++ follower.new.held.pending) }
    ensures same { follower.new.tells ≡ follower.old.tells }
    ensures any_moment { follower.old.tells ≡ true
        → LeavesOnly follower.old.disk follower.new.disk
        (ShowsBetween follower.old.held follower.new.held) }
    ensures kept { follower.old.tells ≡ true → IsKept follower.new.held follower.new.disk }

    ensures of_following { IsOfFollowing result }
    ensures soundly { follower.old.tells ≡ true → IsSoundly result }
    // A fault of the outside is answered only where that object's count rose.
    ensures net_fault { IsErrOf result FollowFault.NetFault → Rose (N.count network.old) (N.count network.new) }
    ensures store_fault { HasCauseWithin result follower.old.count follower.new.count }
    ensures network_count { N.count network.old ≤ N.count network.new }
    ensures disk_count { follower.old.count ≤ follower.new.count }
{
    follower.tell();
    let mut compared = 0;
    let mut left = rounds;
    while left > 0 {
        left -= 1;
        let went = go_round(alloc, network, follower, compared)?;
        match went {
            Went::On(more) => compared = more,
            Went::Whole(followed) => return Ok(followed),
        }
    }
    Ok(Followed {
        entries: follower.history().len() as u32,
        whole: false,
    })
}

/// One round, once so many entries are compared.
fn go_round<N: Network, D: Disk>(
    alloc: Global,
    network: &mut N,
    follower: &mut Follower<D>,
    compared: u32,
) -> Result<Went, FollowFault>
    requires within { compared ≤ length follower.old.held.history }
    ensures says { RoundSays compared follower.old.held follower.new.held (N.told network.old) (N.told network.new) result }
    ensures legal { MayBeHeld (follower.new.held.history ++ follower.new.held.pending) }
    ensures same { follower.new.tells ≡ follower.old.tells }
    ensures any_moment { follower.old.tells ≡ true
        → LeavesOnly follower.old.disk follower.new.disk (ShowsLeft follower.old.held follower.new.held) }
    ensures kept { follower.old.tells ≡ true → IsKept follower.new.held follower.new.disk }

    ensures of_following { IsOfFollowing result }
    ensures soundly { follower.old.tells ≡ true → IsSoundly result }
    ensures net_fault { IsErrOf result FollowFault.NetFault → Rose (N.count network.old) (N.count network.new) }
    ensures store_fault { HasCause result follower.old.count follower.new.count }
    ensures network_count { N.count network.old ≤ N.count network.new }
    ensures disk_count { follower.old.count ≤ follower.new.count }
{
    follower.tell();
    let page = ask(alloc, network, compared + 1)?;
    if page.is_empty() {
        return ended(follower, compared);
    }
    follower.take(alloc, compared + 1, page.as_slice())?;
    Ok(Went::On(compared + page.len() as u32))
}

/// What is answered where the leader has no more than what was compared.
fn ended<D: Disk>(follower: &Follower<D>, compared: u32) -> Result<Went, FollowFault>
    requires { compared ≤ length follower.now.held.history }
    ensures { EndedSays compared follower.now.held result }
{
    let entries = follower.history().len() as u32;
    if entries == compared {
        Ok(Went::Whole(Followed {
            entries,
            whole: true,
        }))
    } else {
        Err(FollowFault::Foreign(compared))
    }
}
