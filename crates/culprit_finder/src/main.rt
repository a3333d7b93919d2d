//! The program: its process is `finder_program::run_process`, over the real input, output, disk and clock.
#![tactic(auto)]

use finder_program::run_process;
use std::process::ExitCode;

fn main(rt: HostRuntime) -> ExitCode {
    run_process(rt, &rt)
}
