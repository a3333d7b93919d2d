//! One command of the caller, to a store that no other thread shares.
ghost use Rattle.std.specs.Prelude.{◌≡◌, ◌++◌, [], IfOk, OnOk};
ghost use Rattle.farm_drill.specs.Asked.{AskSays};
ghost use Rattle.farm_entry.specs.Legal.{IsLegal};
ghost use Rattle.common_types.specs.Prefix.{IsPrefix};
ghost use Rattle.shared_farm.specs.Rests.{IsByCommands};

use farm_disk::CalmDisk;
use farm_entry::{Command, Refusal, Reply};
use farm_store::{CallFault, Store};
use farm_types::{Memory, Moment};
use std::alloc::Global;

/// Asks a store, and gives its reply or its refusal. What was pending is decided then. The disk never fails.
pub(crate) fn ask(
    alloc: Global,
    store: &mut Store<CalmDisk>,
    command: &Command,
    at: Moment,
) -> Result<Result<Reply, Refusal>, Memory>
    ensures says { store.old.pending ≡ []
        → IfOk result (λ given. AskSays store.old.history command.now at given store.new.history) }
    ensures decided { OnOk result (store.new.pending ≡ []) }
    ensures by_commands { IsByCommands (store.old.history ++ store.old.pending)
        → OnOk result (IsByCommands store.new.history) }
    ensures longer { IsPrefix store.old.history store.new.history }
    ensures legal { IsLegal store.new.history }
{
    match store.call(alloc, command, at) {
        Ok(reply) => Ok(Ok(reply)),
        Err(CallFault::Refused(refusal)) => Ok(Err(refusal)),
        Err(CallFault::StoreFault { .. }) => unreachable!(),
        Err(CallFault::Memory) => Err(Memory),
    }
}
