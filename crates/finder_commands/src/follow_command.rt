//! The subcommand `follow JOURNAL ADDRESS ROUNDS`.

ghost use Rattle.std.specs.Prelude.{◌≡◌, ◌≢◌, ◌≤◌, ℕ, true, IfOk};
ghost use Rattle.farm_disk.specs.Images.{LeavesOnly};
ghost use Rattle.outside_seen.specs.Outside.{disk_seen, network_seen, outside, output_seen};
ghost use Rattle.finder_commands.specs.Disks.{HasStoreCause};
ghost use Rattle.finder_commands.specs.FollowCommand.{
  EndsBy,
  FollowCompletes,
  FollowEnds,
  LeaderFollowed,
  follow_line,
};
ghost use Rattle.finder_commands.specs.TextPut.{TextPut};
ghost use Rattle.journal_follow.specs.Following.{IsOfFollowing};
ghost use Rattle.journal_follow.specs.Shown.{IsKept, ShowsBetween};
ghost use Rattle.common_types.specs.Prefix.{IsPrefix};
ghost use Rattle.std.specs.Prelude.{Err};

use crate::opening::status_of_opening;
use crate::put_text::put_text;
use crate::status::Status;
use farm_disk::Disk;
use journal_follow::{FollowFault, Followed, Follower, follow};
use link_io::{Network, Sink};
use std::alloc::Global;

/// Opens the journal, or takes an empty file for one without an entry, and follows the leader at the network's address
/// from what it holds, for so many rounds or until the leader has no more. Then it writes the line of how far it came.
pub fn follow_command<K: Sink, D: Disk, N: Network>(
    alloc: Global,
    output: &mut K,
    disk: D,
    network: &mut N,
    rounds: u32,
) -> (Status, D)
    ensures ends { let before = outside (network_seen (N.told network.old) (N.count network.old))
        (output_seen K.Sink output.old) (disk_seen D.Disk disk) in
        let after = outside (network_seen (N.told network.new) (N.count network.new)) (output_seen K.Sink output.new)
        (disk_seen D.Disk result.1) in
        FollowEnds rounds result.0 before after }
    ensures completes { let before = outside (network_seen (N.told network.old) (N.count network.old))
        (output_seen K.Sink output.old) (disk_seen D.Disk disk) in
        let after = outside (network_seen (N.told network.new) (N.count network.new)) (output_seen K.Sink output.new)
        (disk_seen D.Disk result.1) in
        FollowCompletes result.0 before after }
    ensures cause { HasStoreCause result.0 (disk_seen D.Disk disk) (disk_seen D.Disk result.1) }
    ensures tells { D.tells result.1 ≡ D.tells disk }
    ensures never_falls { D.count disk ≤ D.count result.1 }
    ensures network_never_falls { N.count network.old ≤ N.count network.new }
{
    let before = disk.faults();
    match Follower::open_on(alloc, disk) {
        Ok(follower) => {
            let mut follower = follower;
            let status = follow_leader(alloc, output, &mut follower, network, rounds, before);
            (status, follower.into_disk())
        }
        Err((disk, fault)) => (status_of_opening(fault), disk),
    }
}

/// Follows the leader from what a follower holds, where this was the disk's count of faults before it was opened, and
/// writes how far it came.
fn follow_leader<K: Sink, D: Disk, N: Network>(
    alloc: Global,
    output: &mut K,
    follower: &mut Follower<D>,
    network: &mut N,
    rounds: u32,
    before: u64,
) -> Status
    requires { before ≤ follower.old.count }
    ensures followed { LeaderFollowed rounds result follower.old.held follower.new.held
        (network_seen (N.told network.old) (N.count network.old))
        (network_seen (N.told network.new) (N.count network.new))
        (output_seen K.Sink output.old) (output_seen K.Sink output.new) }
    ensures grows { IsPrefix follower.old.held.history follower.new.held.history }
    ensures sound { follower.old.tells ≡ true → (offset : ℕ) → result ≢ Status.Damaged offset }
    ensures any_moment { follower.old.tells ≡ true
        → LeavesOnly follower.old.disk follower.new.disk (ShowsBetween follower.old.held follower.new.held) }
    ensures same { follower.new.tells ≡ follower.old.tells }
    ensures cause { HasStoreCause result
        (record { tells = follower.old.tells; told = follower.old.disk; faults = before })
        (record { tells = follower.new.tells; told = follower.new.disk; faults = follower.new.count }) }
    ensures never_falls { follower.old.count ≤ follower.new.count }
    ensures network_never_falls { N.count network.old ≤ N.count network.new }
{
    match follow(alloc, network, follower, rounds) {
        Ok(followed) => put_followed(alloc, output, followed),
        Err(fault) => status_of_follow(fault, before, follower.faults()),
    }
}

/// How a call ends whose leader was not followed on, by the disk's counts of faults before and after.
fn status_of_follow(fault: FollowFault, before: u64, after: u64) -> Status
    requires { IsOfFollowing {T = Followed} (Err fault) }
    ensures ends { EndsBy fault result }
    ensures counts { (first last : ℕ) → fault ≡ FollowFault.StoreFault first last → result ≡ Status.StoreFault before after }
{
    match fault {
        FollowFault::Gap { .. } => unreachable!(),
        FollowFault::Foreign(place) => Status::Foreign(u64::from(place)),
        FollowFault::StoreFault { .. } => Status::StoreFault { before, after },
        FollowFault::Damaged(offset) => Status::Damaged(offset),
        FollowFault::NetFault => Status::NetFault,
        FollowFault::Peer(answer) => Status::Peer(answer),
        FollowFault::Memory => Status::Memory,
    }
}

/// Writes the line of how far a leader was followed.
fn put_followed<K: Sink>(alloc: Global, output: &mut K, followed: Followed) -> Status
    ensures { TextPut (follow_line followed) result (output_seen K.Sink output.old) (output_seen K.Sink output.new) }
{
    let extent = if followed.whole { "whole" } else { "more" };
    match format!(in alloc; "followed {} entries {extent}\n", followed.entries) {
        Ok(line) => put_text(output, &line),
        Err(_) => Status::Memory,
    }
}
