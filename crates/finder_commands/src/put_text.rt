//! Putting a text to the output.

ghost use Rattle.outside_seen.specs.Outside.{output_seen};
ghost use Rattle.finder_commands.specs.TextPut.{TextPut};

use crate::status::Status;
use link_io::{Sink, put_all};

/// Puts a whole text, and says how the call ends.
pub fn put_text<K: Sink>(output: &mut K, text: &str) -> Status
    ensures { TextPut text.now result (output_seen K.Sink output.old) (output_seen K.Sink output.new) }
{
    match put_all(output, text.as_bytes()) {
        Ok(()) => Status::Done,
        Err(fault) => Status::from(fault),
    }
}
