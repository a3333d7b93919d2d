//! How long the body of a request is.
ghost use Rattle.std.specs.Prelude.{◌≡◌, ◌≤◌, IfOk, List};
ghost use Rattle.http_requests.specs.FieldTexts.{FieldText};
ghost use Rattle.http_requests.specs.Lengths.{StatesWithin};
ghost use Rattle.http_requests.specs.Facts.{facts_of};
ghost use Rattle.http_requests.specs.Framing.{body_length, has_host, is_foreign, is_post, length_by};

use crate::StatedLength;
use crate::facts::Facts;
use http_words::{Fault, MAX_BODY_BYTES};

/// Whether exactly one `Host` field stands where one has to.
fn has_host(minor: u8, facts: &Facts) -> bool
    ensures { (fields : List FieldText) → facts.now ≡ facts_of fields → result ≡ has_host minor fields }
{
    minor == 0 || facts.hosts.is_once()
}

/// Whether the method is `POST`.
fn is_post(method: &[u8]) -> bool
    ensures { result ≡ is_post method.now }
{
    method == b"POST".as_slice()
}

/// Whether a page in a browser may have sent the request: it is a `POST` with an `Origin` field.
fn is_foreign(method: &[u8], facts: &Facts) -> bool
    ensures { (fields : List FieldText) → facts.now ≡ facts_of fields → result ≡ is_foreign method.now fields }
{
    facts.origin && is_post(method)
}

/// The length of a request's body, by what its fields state.
fn length_by(method: &[u8], stated: StatedLength) -> Result<usize, Fault>
    requires { StatesWithin stated }
    ensures exact { result ≡ length_by method.now stated }
    ensures bounded { IfOk result (λ len. len ≤ MAX_BODY_BYTES) }
{
    match stated {
        StatedLength::Absent => {
            if is_post(method) {
                Err(Fault::LengthRequired)
            } else {
                Ok(0)
            }
        }
        StatedLength::Bytes(len) => Ok(len),
        StatedLength::TooLong => Err(Fault::TooLarge),
        StatedLength::Malformed => Err(Fault::BadRequest),
    }
}

/// The length of a request's body, or the fault for which none is read.
#[tactic(auto, unfolding(crate::specs::Framing::body_length))]
pub(crate) fn body_length(method: &[u8], minor: u8, facts: &Facts) -> Result<usize, Fault>
    requires { StatesWithin facts.now.stated }
    ensures exact { (fields : List FieldText) → facts.now ≡ facts_of fields
        → result ≡ body_length method.now minor fields }
    ensures bounded { IfOk result (λ len. len ≤ MAX_BODY_BYTES) }
{
    if !has_host(minor, facts) {
        return Err(Fault::BadRequest);
    }
    if is_foreign(method, facts) {
        return Err(Fault::Foreign);
    }
    if facts.coding {
        return Err(Fault::NotImplemented);
    }
    length_by(method, facts.stated)
}
