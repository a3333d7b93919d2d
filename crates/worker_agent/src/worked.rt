//! The work of a worker.
ghost use Rattle.std.specs.Prelude.{◌≡◌, ◌≤◌, IsErrOf};
ghost use Rattle.common_types.specs.Counts.{Rose};
ghost use Rattle.worker_agent.specs.Work.{Works};

use crate::agent::Agent;
use farm_types::{Memory, Name};
use link_io::Network;
use std::alloc::Global;
use worker_core::{Action, KeySource, Runner};

/// What a worker did until it stopped.
#[derive(Clone, Copy)]
pub struct Worked {
    /// How many leases it took.
    pub leased: u32,
    /// How many of its reports the farm noted, or refused as it was closed.
    pub reported: u32,
    /// Whether it stopped as the farm had no run to hand out, and not as it took as many leases as it was to take.
    pub idle: bool,
}

/// Why a worker ended before that.
#[derive(Clone, Copy)]
pub enum WorkFault {
    /// No connection was made for the last try of a request, or that connection failed. The network's count rose.
    NetFault,
    /// The runner failed, and its count rose.
    RunnerFault,
    /// The farm answered otherwise than workers are answered, with this status; or the last try of a request was lost
    /// with it, or with 0, where no whole response came.
    Peer(u16),
    /// Out of memory.
    Memory,
}

impl From<Memory> for WorkFault {
    ghost use Rattle.std.specs.Prelude.{◌≡◌};
    ghost use Rattle.worker_agent.specs.declared.worked.WorkFault.TheVariants.{Memory};

    ghost from_gives = { λ _ fault. fault ≡ Memory };

    fn from(_error: Memory) -> WorkFault {
        WorkFault::Memory
    }
}

/// Leases runs under a name, runs their tests and reports what came of them, until the farm has no run to hand out, or
/// so many leases were taken. A closed farm has no run, and needs no report: one that it refuses counts as noted. A
/// request that is lost is sent again as it was, three times in all. Every connection is given back to the network.
pub fn work<N: Network, R: Runner, Q: KeySource>(
    alloc: Global,
    network: &mut N,
    runner: &mut R,
    keys: &mut Q,
    worker: &Name,
    runs: u32,
) -> Result<Worked, WorkFault>
    requires { 1 ≤ runs }

    // What was done, by what the network, the runner and the keys tell, and what came of it.
    ensures works { Works worker.now runs
        (record { network = N.told network.old; runner = R.told runner.old; keys = Q.told keys.old })
        (record { network = N.told network.new; runner = R.told runner.new; keys = Q.told keys.new }) result }

    // A fault of the outside is answered only where that object's count rose.
    ensures net_fault { IsErrOf result WorkFault.NetFault → Rose (N.count network.old) (N.count network.new) }
    ensures runner_fault { IsErrOf result WorkFault.RunnerFault → Rose (R.count runner.old) (R.count runner.new) }
    ensures network_count { N.count network.old ≤ N.count network.new }
    ensures runner_count { R.count runner.old ≤ R.count runner.new }
{
    let mut agent = Agent::start(runs);
    loop {
        if let Action::Stop(end) = agent.action() {
            return agent.finish(end, runs);
        }
        agent.step(alloc, network, runner, keys, worker)?;
    }
}
