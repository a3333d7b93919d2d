//! The statuses of answers by their numbers.
ghost use Rattle.std.specs.Prelude.{◌≡◌};
ghost use Rattle.http_exchange.specs.Statuses.{is_lost_with, status_number};

use http_words::StatusCode;

/// The number of a status, as a response states it.
pub fn status_number(status: StatusCode) -> u16
    ensures { result ≡ status_number status }
{
    match status {
        StatusCode::Ok => 200,
        StatusCode::BadRequest => 400,
        StatusCode::Forbidden => 403,
        StatusCode::NotFound => 404,
        StatusCode::MethodNotAllowed => 405,
        StatusCode::Conflict => 409,
        StatusCode::LengthRequired => 411,
        StatusCode::TooLarge => 413,
        StatusCode::TooManyRequests => 429,
        StatusCode::NotImplemented => 501,
        StatusCode::Unavailable => 503,
        StatusCode::NoStorage => 507,
    }
}

/// Whether a request is lost with this status: the service's store failed, or it ran out of memory.
pub(crate) fn is_lost_with(status: u16) -> bool
    ensures { result ≡ is_lost_with status }
{
    status == status_number(StatusCode::Unavailable)
        || status == status_number(StatusCode::NoStorage)
}
