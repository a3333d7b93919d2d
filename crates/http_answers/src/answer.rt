//! One answer.
ghost use Rattle.std.specs.Prelude.{◌≡◌, ◌<◌, ◌≤◌, ℕ, OnOk, OnErr, IsErrOf, length, take};
ghost use Rattle.std.specs.Io.KnownBytes.{append_known};
ghost use Rattle.common_types.specs.Counts.{Rose};
ghost use Rattle.http_answers.specs.Answers.{answer_bytes, body_put, interim_bytes};

use crate::lines::{ending, interim};
use crate::pieces::put_parts;
use crate::status::opening;
use http_words::{Allow, StatusCode};
use itoa::Buffer;
use link_io::{PutFault, Sink, put_all};

/// An answer to a request.
#[derive(Clone, Copy)]
pub struct HttpAnswer<'b> {
    pub status: StatusCode,
    /// The methods that the answer names, where another one was asked for.
    pub allow: Option<Allow>,
    /// The connection closes after it.
    pub closes: bool,
    /// Its body isn't put, though its length is stated, as the request's method was `HEAD`.
    pub withheld: bool,
    /// Its body in JSON.
    pub body: &'b [u8],
}

/// The body that is put.
fn body_put<'b>(withheld: bool, body: &'b [u8]) -> &'b [u8]
    ensures { result.now ≡ body_put withheld body.now }
{
    if withheld { b"" } else { body }
}

/// Puts an answer, and stops at the first put that moves nothing. What was put by then is a prefix of the answer.
#[tactic(auto, unfolding(crate::specs::Answers::answer_bytes))]
pub fn put_answer<K: Sink>(output: &mut K, answer: &HttpAnswer) -> Result<(), PutFault>
    ensures done { OnOk result
        (K.written output.new ≡ append_known (K.written output.old) (answer_bytes answer.now)) }
    ensures stopped { OnErr result
        ((n : ℕ) × (n < length (answer_bytes answer.now))
        × (K.written output.new ≡ append_known (K.written output.old) (take n (answer_bytes answer.now)))) }
    ensures aside { K.aside output.new ≡ K.aside output.old }
    ensures rises { IsErrOf result PutFault.Failed → Rose (K.count output.old) (K.count output.new) }
    ensures never_falls { K.count output.old ≤ K.count output.new }
{
    let mut digits = Buffer::new();
    let length = digits.format(answer.body.len()).as_bytes();
    let ending = ending(answer.allow, answer.closes);
    let body = body_put(answer.withheld, answer.body);
    put_parts(output, opening(answer.status), length, ending, body)
}

/// Puts the interim answer, which says that the body may be sent.
pub fn put_interim<K: Sink>(output: &mut K) -> Result<(), PutFault>
    ensures done { OnOk result
        (K.written output.new ≡ append_known (K.written output.old) interim_bytes) }
    ensures stopped { OnErr result
        ((n : ℕ) × (n < length interim_bytes)
        × (K.written output.new ≡ append_known (K.written output.old) (take n interim_bytes))) }
    ensures aside { K.aside output.new ≡ K.aside output.old }
    ensures rises { IsErrOf result PutFault.Failed → Rose (K.count output.old) (K.count output.new) }
    ensures never_falls { K.count output.old ≤ K.count output.new }
{
    put_all(output, interim())
}
