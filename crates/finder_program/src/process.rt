//! The process: the subcommand over the real objects outside, and what the process ends with.

use crate::asked::AskedWhole;
use crate::openings::read_opening;
use crate::program::finder;
use crate::real_runner::{NoRunner, make_runner};
use crate::stand_ins::stand_ins;
use file_disk::FileDisk;
use finder_commands::Status;
use finder_words::read_places;
use link_io::{InputSource, OutputSink, SystemClock};
use std::process::ExitCode;
use std::sync::Wait;
use std::thread::Threads;
use std::{env, io};
use tcp_net::{Limits, TcpNetwork};
use worker_core::RandomKeys;

/// How long what a worker or a follower asks may last in all, with its connect, in milliseconds.
const EXCHANGE_MS: u64 = 60_000;

/// Runs the subcommand that the process's words name over the real input, output, disk, clock, network, runner and
/// keys, and ends with the status of that. `threads` is the same runtime, as `main` has it: the threads of the process.
/// Where the subcommand did not do its work, the status's text is the one line on standard error, but for a handler of
/// a service that can't be started, which is told of as it happens; what can't be written there is lost. A standard
/// stream that the process began without stays one that can be neither read nor written, whatever is opened meanwhile.
///
/// The adapters over standard input and output, over the journal's file, over TCP, over the machine's clock and over
/// its random bytes are the trusted edge: no contract says which bytes the system or a peer gives, takes or keeps,
/// what its clock shows, or that a key was never drawn before. What the program does with them is the contract of
/// [`finder`], and the line of a status on standard error is that of [`Status::write_line`].
pub fn run_process<H: Threads + Wait + Eprint + Sync>(rt: HostRuntime, threads: &H) -> ExitCode {
    let _streams = stand_ins(rt);
    let status = run_own_words(rt, threads);
    let _ = status.write_line(&mut rt.stderr());
    ExitCode::from(status.exit_code())
}

/// Runs the subcommand that the process's words name. Words that aren't text name none.
fn run_own_words<H: Threads + Wait + Eprint + Sync>(rt: HostRuntime, threads: &H) -> Status {
    let words = match env::args(&rt) {
        Ok(words) => words,
        Err(fault) => {
            return match fault.kind() {
                io::ErrorKind::OutOfMemory => Status::Memory,
                _ => Status::Usage,
            };
        }
    };
    match words.skip(1).collect::<Vec<String>>(rt.alloc()) {
        Ok(words) => run_words(rt, threads, &words),
        Err(_) => Status::Memory,
    }
}

/// Runs the subcommand that these words name over the real objects. The journal's file is opened at its first use, for
/// what the subcommand does with it, so none is touched where the words name no journal; and the address is listened at
/// from the first accept on and nobody is called before a worker's first request, so that no port is taken where they
/// name no address. A worker's table of verdicts is read first, or its test host called: where the table can't be read,
/// or a line of it is no row, or the host can't be reached, the runner failed, and nothing else is done.
pub fn run_words<H: Threads + Wait + Eprint + Sync>(
    rt: HostRuntime,
    threads: &H,
    words: &[String],
) -> Status {
    let Ok(places) = read_places(rt.alloc(), words) else {
        return Status::Memory;
    };
    let mut runner = match make_runner(rt, places.runner.as_str()) {
        Ok(runner) => runner,
        Err(NoRunner::Refused) => return Status::RunnerFault,
        Err(NoRunner::Memory) => return Status::Memory,
    };
    let Ok(opening) = read_opening(rt.alloc(), words) else {
        return Status::Memory;
    };
    let Ok(disk) = FileDisk::at(rt.alloc(), rt, places.journal.as_str(), opening) else {
        return Status::Memory;
    };
    let Ok(whole) = AskedWhole::new(rt.alloc()) else {
        return Status::Memory;
    };
    let limits = Limits::usual(EXCHANGE_MS);
    let Ok(network) = TcpNetwork::at(rt.alloc(), rt, whole, places.address.as_str(), limits) else {
        return Status::Memory;
    };
    // A system without random bytes is told as one without memory: nothing was done.
    let Ok(mut keys) = RandomKeys::new(&rt) else {
        return Status::Memory;
    };
    let mut input = InputSource::new(rt.reader());
    let mut output = OutputSink::new(io::writer(&rt));
    let clock = SystemClock::new(rt);
    let (status, _, _) = finder(
        threads,
        rt.alloc(),
        words,
        &mut input,
        &mut output,
        disk,
        &clock,
        network,
        &mut runner,
        &mut keys,
    );
    status
}
