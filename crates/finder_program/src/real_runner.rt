//! The runner of a real worker.

use std::alloc::AllocError;
use std::{fs, io};
use tcp_net::{AnyByte, Limits, TcpNetwork};
use test_runners::{RunnerName, TableFault, TestRunner, read_table, runner_named};

/// How long a run at a test host may last in all, in milliseconds: as long as the longest lease lasts.
const HOST_EXCHANGE_MS: u64 = 86_400_000;

/// Why there is no runner.
pub(crate) enum NoRunner {
    /// The table of verdicts can't be read, or a line of it is no row; or the test host can't be reached.
    Refused,
    /// Out of memory.
    Memory,
}

impl From<AllocError> for NoRunner {
    fn from(_error: AllocError) -> NoRunner {
        NoRunner::Memory
    }
}

impl From<TableFault> for NoRunner {
    fn from(fault: TableFault) -> NoRunner {
        match fault {
            TableFault::Line(_, _) => NoRunner::Refused,
            TableFault::Memory => NoRunner::Memory,
        }
    }
}

/// The runner that a word names. A table is read now, and a host is called: the connection is that of the first run.
pub(crate) fn make_runner(
    rt: HostRuntime,
    word: &str,
) -> Result<TestRunner<TcpNetwork<HostRuntime, AnyByte>>, NoRunner> {
    match runner_named(word) {
        RunnerName::Table(path) => table_runner(rt, path),
        RunnerName::Host(address) => host_runner(rt, address),
        RunnerName::Nothing => Ok(TestRunner::nothing()),
    }
}

/// The runner that asks the test host at an address.
fn host_runner(
    rt: HostRuntime,
    address: &str,
) -> Result<TestRunner<TcpNetwork<HostRuntime, AnyByte>>, NoRunner> {
    let limits = Limits::usual(HOST_EXCHANGE_MS);
    let mut network = TcpNetwork::at(rt.alloc(), rt, AnyByte, address, limits)?;
    if network.reach() {
        Ok(TestRunner::host(network))
    } else {
        Err(NoRunner::Refused)
    }
}

/// The runner whose verdicts stand in the file at a path.
fn table_runner(
    rt: HostRuntime,
    path: &str,
) -> Result<TestRunner<TcpNetwork<HostRuntime, AnyByte>>, NoRunner> {
    let bytes = match fs::read(&rt, path) {
        Ok(bytes) => bytes,
        Err(fault) => {
            return match fault.kind() {
                io::ErrorKind::OutOfMemory => Err(NoRunner::Memory),
                _ => Err(NoRunner::Refused),
            };
        }
    };
    Ok(TestRunner::table(read_table(rt.alloc(), &bytes)?))
}
