//! The path of a request's target.
ghost use Rattle.std.specs.Prelude.{◌≡◌, true, false, codes, take, drop, MatchOption};
ghost use Rattle.std.specs.Str.{IsUtf8};
ghost use Rattle.http_requests.specs.Texts.{same_text};
ghost use Rattle.http_requests.specs.Paths.{path_of, from_slash, scheme_bytes};

use crate::{cut, is_same};
use std::str::from_utf8;

/// What begins at the first slash, or a slash where there is none.
fn from_slash(mut text: &[u8]) -> &[u8]
    ensures { result.now ≡ from_slash text.now }
{
    while let [first, behind @ ..] = text {
        if *first == b'/' {
            return text;
        }
        text = behind;
    }
    b"/"
}

/// What follows the scheme `http`, which may be written in any case of letters.
fn behind_scheme(target: &[u8]) -> Option<&[u8]>
    ensures { MatchOption result
        (same_text (take scheme_bytes target.now) (codes "http://") ≡ false)
        (λ rest. (same_text (take scheme_bytes target.now) (codes "http://") ≡ true)
        × (rest.now ≡ drop scheme_bytes target.now)) }
{
    let scheme = b"http://";
    let front = &target[..target.len().min(scheme.len())];
    if is_same(front, scheme) {
        Some(&target[front.len()..])
    } else {
        None
    }
}

/// The path of a target, as bytes.
#[tactic(auto, unfolding(crate::specs::Paths::path_of))]
fn path_bytes(target: &[u8]) -> &[u8]
    ensures { result.now ≡ path_of target.now }
{
    let (path, _) = match behind_scheme(target) {
        Some(rest) => cut(from_slash(rest), b'?'),
        None => cut(target, b'?'),
    };
    path
}

/// The path of a target that is a text, which is one too.
pub(crate) fn path_of(target: &[u8]) -> &[u8]
    requires { IsUtf8 target.now }
    ensures value { result.now ≡ path_of target.now }
    ensures text { IsUtf8 result.now }
{
    path_bytes(target)
}

/// A path as a text.
pub(crate) fn text_of(path: &[u8]) -> &str
    requires { IsUtf8 path.now }
    ensures { result.now ≡ path.now }
{
    match from_utf8(path) {
        Ok(text) => text,
        Err(_) => unreachable!(),
    }
}
