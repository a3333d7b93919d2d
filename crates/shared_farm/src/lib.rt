//! A farm of many callers: each call is one turn at a farm whose history stands on a disk, and its totals are read
//! without waiting.
//!
//! A [`SharedFarm`] is a store behind a turn lock, with a board of totals beside it. A caller in a thread has a `Pass`
//! of `turn_lock`; a call waits for the caller's turn, answers at the history that there is then, stores what is new,
//! posts the new totals, and passes the turn on. So there is one legal history, in which each caller's recorded calls
//! stand, each once and in its order, and which begins with all that the caller has seen. A caller in the same process
//! who needs no reply but the run that it hands out enters a command in place of calling with it. A [`TotalsReader`]
//! reads the totals and takes no turn.
//!
//! Callers who wait with batches while turns are long share a record (`sharing`): each posts its batch and its pass as
//! an errand in a table of jobs. Whoever of them has the turn waits a little for those who had the last record
//! (`group_wait`), takes over the errands of others, answers their asks behind its own, stores the new entries of all
//! in one record, and gives each errand a turn of its own at its place in the history (`round`). What an errand and its
//! outcome hold to is `specs/Errands` and `specs/Outcomes`, what is shared `specs/Rounds`.
//!
//! `SharedFarm::close` gives the store back: its history begins with all that the pass has seen, and its disk's count
//! of faults is at least what the pass knew of it. Where the call that shares the farm picks its [`Beginning`], it is
//! known too what became of the store turn by turn, and so what a crash leaves at each moment; or that commands alone
//! added to it, so that it isn't closed (`specs/Rests`). Where that call picks the board of the totals, too, all that
//! readers have seen begins the history: their [`TotalsMark`] takes in what each has seen, and [`SharedFarm::meet`]
//! holds it against the history in a turn. So that there is a board to pick, a [`PostedStore`] has it before the farm
//! is shared. Where the pass that closes has all parts of the farm, each entry behind the first history is at one of
//! its places, or was pending as a turn failed (`IsOwned` of `turn_lock`).
//!
//! The crate stands on `farm_store` for the farm, on `turn_lock` for turns and passes, on `farm_board` for errands and
//! for the totals, and on `entry_codec` for log pages. Contracts see a shared farm as the name of its lock, and a
//! reader as the history that it has seen; what a turn came to is `IsCall` and `IsTurn` of `specs/Turns`, and what it
//! keeps of its pass is `KeepsPass`. The layers above may use every name below.
#![tactic(auto)]

mod beginning;
mod errand;
mod farm;
mod group_wait;
mod locked;
mod posted;
mod reader;
mod round;
mod sharing;
mod turn_log;

pub use beginning::Beginning;
pub use farm::SharedFarm;
pub use posted::PostedStore;
pub use reader::{TotalsMark, TotalsReader};
pub use turn_lock::Pass;
