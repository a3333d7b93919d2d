//! Answers as JSON.

ghost use Rattle.std.specs.Prelude.{◌≡◌, IfOk, string_bytes};
ghost use Rattle.farm_wire.specs.Answers.{AnswerHasDates, answer_text};

use crate::refusal::refusal_text;
use crate::reply::{reply_text, reply_text_in};
use farm_entry::Answer;
use farm_types::Memory;
use std::alloc::Global;

/// The text of an answer: a JSON object with no space in it, whose members stand in the order of their names. The days
/// that it shows need dates, which those of each answer of a farm have.
pub fn answer_text(alloc: Global, answer: &Answer) -> Result<String, Memory>
    requires { AnswerHasDates answer.now }
    ensures { IfOk result (λ text. string_bytes text ≡ answer_text answer.now) }
{
    match answer {
        Answer::Done(reply) => reply_text(alloc, reply),
        Answer::Refused(refusal) => refusal_text(alloc, refusal),
    }
}

/// The same, where a reply is written in this room, whose bytes go.
pub fn answer_text_in(alloc: Global, room: String, answer: &Answer) -> Result<String, Memory>
    requires { AnswerHasDates answer.now }
    ensures { IfOk result (λ text. string_bytes text ≡ answer_text answer.now) }
{
    match answer {
        Answer::Done(reply) => reply_text_in(alloc, room, reply),
        Answer::Refused(refusal) => refusal_text(alloc, refusal),
    }
}
