//! The subcommand `run`, over a farm in memory.

ghost use Rattle.std.specs.Prelude.{◌≡◌, ◌≢◌, Some};
ghost use Rattle.link_io.specs.Streams.{streams};
ghost use Rattle.finder_commands.specs.RunCommand.{MemoryRunCompletes, MemoryRunEnds, script_end};

use crate::memory_farm::{memory_moment, memory_settings};
use crate::status::Status;
use farm_script::{RunEnd, run_founded};
use link_io::{Sink, Source};
use std::alloc::Global;

/// Founds a farm in memory, and answers the script's lines from it, each as soon as it is whole.
pub fn run_command<S: Source, K: Sink>(alloc: Global, input: &mut S, output: &mut K) -> Status
    ensures ends { let before = streams S.Source K.Sink input.old output.old in
        let after = streams S.Source K.Sink input.new output.new in
        MemoryRunEnds result before after }
    ensures completes { let before = streams S.Source K.Sink input.old output.old in
        let after = streams S.Source K.Sink input.new output.new in
        MemoryRunCompletes result before after }
{
    let end = run_founded(alloc, memory_settings(), memory_moment(), input, output);
    status_of_script(end)
}

/// The status that stands for the end of a script's run over a farm in memory, which has no store that could fail.
fn status_of_script(end: RunEnd) -> Status
    requires { end ≢ RunEnd.StoreFault }
    ensures { script_end result ≡ Some end }
{
    match end {
        RunEnd::Done => Status::Done,
        RunEnd::ReadFault => Status::ReadFault,
        RunEnd::WriteFault => Status::WriteFault,
        RunEnd::StoreFault => unreachable!(),
        RunEnd::Memory => Status::Memory,
        RunEnd::InputLimit => Status::InputLimit,
    }
}
