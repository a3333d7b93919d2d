//! The lines of answers behind the length of the body.
ghost use Rattle.std.specs.Prelude.{◌≡◌};
ghost use Rattle.http_answers.specs.Answers.{allow_line, close_line, interim_bytes, methods_line};
ghost use Rattle.http_answers.specs.Pieces.{ending_of};

use http_words::Allow;

/// What stands between the number of the body's length and the body: the end of its line, the methods that are named,
/// that the connection closes, and the empty line.
pub(crate) fn ending(allow: Option<Allow>, closes: bool) -> &'static [u8]
    ensures { result.now ≡ ending_of (allow_line allow) (close_line closes) }
{
    match allow {
        None => {
            if closes {
                b"\r\nConnection: close\r\n\r\n"
            } else {
                b"\r\n\r\n"
            }
        }
        Some(methods) => naming_end(methods, closes),
    }
}

/// The same, where methods are named.
fn naming_end(methods: Allow, closes: bool) -> &'static [u8]
    ensures { result.now ≡ ending_of (methods_line methods) (close_line closes) }
{
    match methods {
        Allow::Post => {
            if closes {
                b"\r\nAllow: POST\r\nConnection: close\r\n\r\n"
            } else {
                b"\r\nAllow: POST\r\n\r\n"
            }
        }
        Allow::GetAndHead => {
            if closes {
                b"\r\nAllow: GET, HEAD\r\nConnection: close\r\n\r\n"
            } else {
                b"\r\nAllow: GET, HEAD\r\n\r\n"
            }
        }
    }
}

/// The interim answer.
pub(crate) fn interim() -> &'static [u8]
    ensures { result.now ≡ interim_bytes }
{
    b"HTTP/1.1 100 Continue\r\n\r\n"
}
