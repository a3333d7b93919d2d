//! The lines of a script, read one after the other, or one alone.

ghost use Rattle.std.specs.Prelude.{◌≡◌, ◌≢◌, Err, IfErr, IfOk, Ok};
ghost use Rattle.farm_wire.specs.Reading.{line_reading};

use crate::WireFault;
use crate::command::{command_in, object_of};
use crate::fields::{moment_in, verb_in};
use farm_entry::Command;
use farm_types::Moment;
use json::Scratch;
use std::alloc::Global;

/// A reader of lines. It keeps the room that a line is read in, so that the next line finds it made.
#[derive(Drop)]
pub struct LineReader {
    alloc: Global,
    scratch: Scratch,
}

impl LineReader {
    /// A reader that has read no line yet.
    pub fn new(alloc: Global) -> LineReader {
        LineReader {
            alloc,
            scratch: Scratch::new(alloc),
        }
    }

    /// What a script line asks for, and when, as [`line_of`](crate::line_of) reads it.
    #[tactic(auto, unfolding(crate::specs::Reading::line_reading))]
    pub fn read(&mut self, line: &[u8]) -> Result<(Moment, Command), WireFault>
        ensures read { IfOk result (λ asked. line_reading line.now ≡ Ok asked) }
        ensures refused { IfErr result (λ fault. fault ≢ WireFault.Memory → line_reading line.now ≡ Err fault) }
    {
        let object = object_of(self.alloc, line, &mut self.scratch)?;
        let at = moment_in(&object)?;
        let verb = verb_in(&object)?;
        let command = command_in(self.alloc, verb, &object)?;
        Ok((at, command))
    }
}

/// What a script line asks for, and when: the line is one JSON object of at most [`MAX_COMMAND_BYTES`], without its
/// line feed. Else the first fault of the line is answered.
pub fn line_of(alloc: Global, line: &[u8]) -> Result<(Moment, Command), WireFault>
    ensures read { IfOk result (λ asked. line_reading line.now ≡ Ok asked) }
    ensures refused { IfErr result (λ fault. fault ≢ WireFault.Memory → line_reading line.now ≡ Err fault) }
{
    LineReader::new(alloc).read(line)
}
