//! The length of a body, by the fields of its head.
ghost use Rattle.std.specs.Prelude.{◌≡◌, ◌≤◌};
ghost use Rattle.std.specs.Option.{ForSome};
ghost use Rattle.http_requests.specs.FieldTexts.{field_texts};
ghost use Rattle.http_requests.specs.Lengths.{stated_length};
ghost use Rattle.http_exchange.specs.Framing.{length_by};
ghost use Rattle.http_words.specs.declared.limits.TheConstants.{MAX_BODY_BYTES};

use http_requests::{Fields, StatedLength};

/// The length that the fields of a head state, if exactly one of them does and it is within the limit.
pub(crate) fn body_length(fields: &Fields) -> Option<usize>
    ensures exact { result ≡ length_by (stated_length (field_texts fields.now)) }
    ensures bounded { ForSome result (λ length. length ≤ MAX_BODY_BYTES) }
{
    match fields.stated_length() {
        StatedLength::Bytes(length) => Some(length),
        StatedLength::Absent | StatedLength::TooLong | StatedLength::Malformed => None,
    }
}
