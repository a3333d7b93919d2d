//! The numbers in paths.
ghost use Rattle.std.specs.Prelude.{◌≡◌};
ghost use Rattle.http_requests.specs.Routes.{number_at, path_number, text_at};

use common_types::number;

/// The place of a path's first number among its parts, the empty one before its first slash counted.
pub(crate) const FIRST_NUMBER: usize = 3;

/// The place of a path's second number among its parts.
pub(crate) const SECOND_NUMBER: usize = 5;

/// The text at this place among the parts of a path, which is empty where the path has fewer.
fn text_at(place: usize, path: &str) -> &str
    ensures { result.now ≡ text_at place path.now }
{
    match path.split('/').nth(place) {
        Some(number) => number,
        None => "",
    }
}

/// The number from 1 on that a text writes, without zeros in front.
fn path_number(text: &[u8]) -> Option<u32>
    ensures { result ≡ path_number text.now }
{
    let Some(number) = number(text) else {
        return None;
    };
    if number == 0 { None } else { Some(number) }
}

/// The number from 1 on at this place among the parts of a path.
pub(crate) fn number_at(place: usize, path: &str) -> Option<u32>
    ensures { result ≡ number_at place path.now }
{
    path_number(text_at(place, path).as_bytes())
}
