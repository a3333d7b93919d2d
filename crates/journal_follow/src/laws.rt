//! What a follower holds. A function here does nothing: its contract is the law.
ghost use Rattle.std.specs.Prelude.{◌++◌, List};
ghost use Rattle.common_types.specs.Prefix.{IsPrefix};
ghost use Rattle.journal_follow.specs.Happenings.{Happening, AllHappen};
ghost use Rattle.journal_follow.specs.World.{World, founded};

use farm_entry::Settings;
use farm_types::Moment;

/// Whatever the network loses, repeats and reorders, whenever leader and follower stop and start anew, and wherever the
/// follower's disk fails: its history, with what is pending or without, is a beginning of the leader's. It never
/// shrinks but by what is pending.
pub fn followers_hold_a_beginning()
    ensures history { (settings : Settings) (at : Moment) (all : List Happening) (w : World)
        → AllHappen (founded settings at) all w → IsPrefix w.follower.history w.leader }
    ensures pending { (settings : Settings) (at : Moment) (all : List Happening) (w : World)
        → AllHappen (founded settings at) all w → IsPrefix (w.follower.history ++ w.follower.pending) w.leader }
    ensures grows { (w later : World) (all : List Happening) → AllHappen w all later
        → IsPrefix w.follower.history later.follower.history }
{}
