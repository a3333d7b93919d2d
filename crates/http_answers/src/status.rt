//! The status lines of answers.
ghost use Rattle.std.specs.Prelude.{◌≡◌};
ghost use Rattle.http_answers.specs.Answers.{status_line};
ghost use Rattle.http_answers.specs.Pieces.{opening_of};

use http_words::StatusCode;

/// How many bytes of an opening stand behind the status line.
const BEHIND_STATUS: usize = 48;

/// The status line, with its line end.
pub fn status_line(status: StatusCode) -> &'static [u8]
    ensures { result.now ≡ status_line status }
{
    let whole = opening(status);
    &whole[..whole.len() - BEHIND_STATUS]
}

/// What an answer opens with: all of it up to the number of its body's length. It stands as one text, so that it is put
/// at once.
pub(crate) fn opening(status: StatusCode) -> &'static [u8]
    ensures { result.now ≡ opening_of (status_line status) }
{
    match status {
        StatusCode::Ok => {
            b"HTTP/1.1 200 OK\r\nContent-Type: application/json\r\nContent-Length: "
        }
        StatusCode::BadRequest => {
            b"HTTP/1.1 400 Bad Request\r\nContent-Type: application/json\r\nContent-Length: "
        }
        StatusCode::Forbidden => {
            b"HTTP/1.1 403 Forbidden\r\nContent-Type: application/json\r\nContent-Length: "
        }
        StatusCode::NotFound => {
            b"HTTP/1.1 404 Not Found\r\nContent-Type: application/json\r\nContent-Length: "
        }
        StatusCode::MethodNotAllowed => {
            b"HTTP/1.1 405 Method Not Allowed\r\nContent-Type: application/json\r\nContent-Length: "
        }
        StatusCode::Conflict => {
            b"HTTP/1.1 409 Conflict\r\nContent-Type: application/json\r\nContent-Length: "
        }
        StatusCode::LengthRequired => {
            b"HTTP/1.1 411 Length Required\r\nContent-Type: application/json\r\nContent-Length: "
        }
        StatusCode::TooLarge => {
            b"HTTP/1.1 413 Content Too Large\r\nContent-Type: application/json\r\nContent-Length: "
        }
        StatusCode::TooManyRequests => {
            b"HTTP/1.1 429 Too Many Requests\r\nContent-Type: application/json\r\nContent-Length: "
        }
        StatusCode::NotImplemented => {
            b"HTTP/1.1 501 Not Implemented\r\nContent-Type: application/json\r\nContent-Length: "
        }
        StatusCode::Unavailable => {
            b"HTTP/1.1 503 Service Unavailable\r\nContent-Type: application/json\r\nContent-Length: "
        }
        StatusCode::NoStorage => {
            b"HTTP/1.1 507 Insufficient Storage\r\nContent-Type: application/json\r\nContent-Length: "
        }
    }
}
