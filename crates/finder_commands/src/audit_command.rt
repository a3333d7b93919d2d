//! The subcommand `audit`.

ghost use Rattle.link_io.specs.Streams.{streams};
ghost use Rattle.finder_commands.specs.AuditCommand.{AuditCompletes, AuditEnds};
ghost use Rattle.finder_commands.specs.Statuses.{status_of};

use crate::read_input::read_input;
use crate::status::Status;
use audit_check::audit_line;
use link_io::{Sink, Source, put_all};
use std::alloc::Global;

/// Reads the whole input as the bytes of a journal, and then writes the line of what is found of them.
pub fn audit_command<S: Source, K: Sink>(alloc: Global, input: &mut S, output: &mut K) -> Status
    ensures ends { let before = streams S.Source K.Sink input.old output.old in
        let after = streams S.Source K.Sink input.new output.new in
        AuditEnds result before after }
    ensures completes { let before = streams S.Source K.Sink input.old output.old in
        let after = streams S.Source K.Sink input.new output.new in
        AuditCompletes result before after }
{
    match audit_input(alloc, input, output) {
        Ok(()) => Status::Done,
        Err(status) => status,
    }
}

/// Audits the whole input, or says how the call ends.
fn audit_input<S: Source, K: Sink>(
    alloc: Global,
    input: &mut S,
    output: &mut K,
) -> Result<(), Status>
    ensures ends { let before = streams S.Source K.Sink input.old output.old in
        let after = streams S.Source K.Sink input.new output.new in
        AuditEnds (status_of result) before after }
    ensures completes { let before = streams S.Source K.Sink input.old output.old in
        let after = streams S.Source K.Sink input.new output.new in
        AuditCompletes (status_of result) before after }
{
    let bytes = read_input(alloc, input)?;
    let line = audit_line(alloc, &bytes)?;
    put_all(output, line.as_bytes())?;
    Ok(())
}
