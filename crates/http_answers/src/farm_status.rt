//! The statuses of a farm's answers.

ghost use Rattle.std.specs.Prelude.{◌≡◌};
ghost use Rattle.http_answers.specs.Statuses.{answer_status, refusal_status};

use farm_entry::{Answer, Refusal};
use http_words::StatusCode;

/// The status of a refusal.
pub fn refusal_status(refusal: &Refusal) -> StatusCode
    ensures { result ≡ refusal_status refusal.now }
{
    match refusal {
        Refusal::BadOpen(_) => StatusCode::BadRequest,
        Refusal::UnknownRun(_) => StatusCode::NotFound,
        Refusal::UnknownSearch(_) => StatusCode::NotFound,
        Refusal::KeyClash(_) => StatusCode::Conflict,
        Refusal::Full => StatusCode::Conflict,
        Refusal::Closed => StatusCode::Conflict,
        Refusal::TooManySearches => StatusCode::Conflict,
        Refusal::NoRun => StatusCode::Conflict,
        Refusal::NoRevert => StatusCode::Conflict,
        Refusal::SearchEnded(_) => StatusCode::Conflict,
        Refusal::DailyLimit { .. } => StatusCode::TooManyRequests,
    }
}

/// The status of an answer.
pub fn answer_status(answer: &Answer) -> StatusCode
    ensures { result ≡ answer_status answer.now }
{
    match answer {
        Answer::Done(_) => StatusCode::Ok,
        Answer::Refused(refusal) => refusal_status(refusal),
    }
}
