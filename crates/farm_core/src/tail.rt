//! The end of what is kept: what is left of it where it is cut, and the reply of an entry or the run that it hands out.

ghost use Rattle.std.specs.Prelude.{◌≡◌, ◌<◌, ◌≤◌, length, take, Some, IfOk};
ghost use Rattle.farm_entry.specs.Reply.{reply_at};
ghost use Rattle.farm_core.specs.Outcome.{IsOfCommand, IsRunAt, handed_out};

use farm_entry::{LeasedRun, Reply};
use farm_types::Memory;
use kept_farm::KeptFarm;

/// Takes the last entries away, down to a count. It takes no memory.
pub fn cut(kept: &mut KeptFarm, count: usize)
    requires some { 0 < count }
    requires within { count ≤ length kept.old }
    ensures { kept.new ≡ take count kept.old }
{
    while count < kept.history().len() {
        kept.pop();
    }
}

/// The reply of the entry at a place, which a command made.
pub fn reply_of(kept: &KeptFarm, place: usize) -> Result<Reply, Memory>
    requires { IsOfCommand kept.now place }
    ensures { IfOk result (λ reply. reply_at kept.now place ≡ Some reply) }
{
    let _history = kept.history();
    match kept.reply_at(place) {
        Ok(Some(reply)) => Ok(reply),
        Ok(None) => unreachable!(),
        Err(memory) => Err(memory),
    }
}

/// The run that the entry at a place, which a command made, hands out, if it does.
pub fn run_at(kept: &KeptFarm, place: usize) -> Option<LeasedRun>
    requires { IsOfCommand kept.now place }
    ensures { IsRunAt kept.now place result }
{
    kept.history()[place].what.lease()
}

/// The run that a reply hands out, if it does.
pub fn handed_out(reply: &Reply) -> Option<LeasedRun>
    ensures { result ≡ handed_out reply.now }
{
    match reply {
        Reply::Leased {
            run,
            search,
            stage,
            position,
            deadline,
            ..
        } => Some(LeasedRun {
            run: *run,
            search: *search,
            stage: *stage,
            position: *position,
            deadline: *deadline,
        }),
        _ => None,
    }
}
