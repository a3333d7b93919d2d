//! The subcommand `judge`.

ghost use Rattle.link_io.specs.Streams.{streams};
ghost use Rattle.finder_commands.specs.JudgeCommand.{JudgeEnds, JudgeCompletes};
ghost use Rattle.finder_commands.specs.Statuses.{status_of};

use crate::read_input::read_input;
use crate::status::Status;
use judge::judge;
use link_io::{Sink, Source, put_all};
use std::alloc::Global;

/// Reads the whole input, and then writes the answer. Nothing is written before the input was found good.
pub fn judge_command<S: Source, K: Sink>(alloc: Global, input: &mut S, output: &mut K) -> Status
    ensures ends { let before = streams S.Source K.Sink input.old output.old in
        let after = streams S.Source K.Sink input.new output.new in
        JudgeEnds result before after }
    ensures completes { let before = streams S.Source K.Sink input.old output.old in
        let after = streams S.Source K.Sink input.new output.new in
        JudgeCompletes result before after }
{
    match answer_input(alloc, input, output) {
        Ok(()) => Status::Done,
        Err(status) => status,
    }
}

/// Answers the whole input, or says how the call ends.
fn answer_input<S: Source, K: Sink>(
    alloc: Global,
    input: &mut S,
    output: &mut K,
) -> Result<(), Status>
    ensures ends { let before = streams S.Source K.Sink input.old output.old in
        let after = streams S.Source K.Sink input.new output.new in
        JudgeEnds (status_of result) before after }
    ensures completes { let before = streams S.Source K.Sink input.old output.old in
        let after = streams S.Source K.Sink input.new output.new in
        JudgeCompletes (status_of result) before after }
{
    let bytes = read_input(alloc, input)?;
    let answer = judge(alloc, &bytes)?;
    put_all(output, answer.as_bytes())?;
    Ok(())
}
