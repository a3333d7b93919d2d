//! The length of the body behind a head.
ghost use Rattle.std.specs.Prelude.{◌≡◌, codes};
ghost use Rattle.http_requests.specs.FieldTexts.{field_texts, named_values};
ghost use Rattle.http_requests.specs.Lengths.{StatesWithin, length_by, length_in, stated_length};

use crate::fields::Fields;
use common_types::{are_digits, digits_up_to};
use http_words::MAX_BODY_BYTES;

/// What the `Content-Length` fields of a head state.
#[derive(Clone, Copy)]
pub enum StatedLength {
    /// There is no such field.
    Absent,
    /// So many bytes, at most [`MAX_BODY_BYTES`].
    Bytes(usize),
    /// More than [`MAX_BODY_BYTES`].
    TooLong,
    /// There are several such fields, or the value of the one isn't one or more digits.
    Malformed,
}

/// The length that a value of `Content-Length` states.
#[tactic(auto, using(std::proofs::lemmas::Bool::Decides::nat_tests))]
pub fn length_in(value: &[u8]) -> StatedLength
    ensures { result ≡ length_in value.now }
{
    if !are_digits(value) {
        return StatedLength::Malformed;
    }
    match digits_up_to(value, MAX_BODY_BYTES as u32) {
        Some(len) => StatedLength::Bytes(len as usize),
        None => StatedLength::TooLong,
    }
}

/// The length that the fields of a name state.
fn length_named(fields: &Fields, name: &[u8]) -> StatedLength
    ensures { result ≡ length_by (named_values name.now (field_texts fields.now)) }
{
    let Some((value, behind)) = fields.find(name) else {
        return StatedLength::Absent;
    };
    match behind.find(name) {
        Some(_) => StatedLength::Malformed,
        None => length_in(value),
    }
}

impl<'b> Fields<'b> {
    /// What the `Content-Length` fields state. A length is at most [`MAX_BODY_BYTES`].
    #[tactic(auto, unfolding(crate::specs::Lengths::stated_length))]
    pub fn stated_length(&self) -> StatedLength
        ensures exact { result ≡ stated_length (field_texts self.now) }
        ensures bounded { StatesWithin result }
    {
        length_named(self, b"content-length")
    }
}
