//! Counts among the words, and their limits.

ghost use Rattle.std.specs.Prelude.{◌≡◌, ◌≤◌, IfSome};
ghost use Rattle.finder_words.specs.Words.{count_named};

use common_types::number;

/// The most threads that serve.
pub const MAX_HANDLERS: u32 = 16;

/// The most connections that a service accepts.
pub const MAX_LINKS: u32 = 1_000_000_000;

/// The most runs that a worker leases.
pub const MAX_RUNS: u32 = 1_000_000;

/// The most rounds in which a follower asks.
pub const MAX_ROUNDS: u32 = 1_000_000;

/// The greatest number that is asked for.
pub const MAX_NUMBER: u32 = u32::MAX;

/// The number that a word writes, where it is from 1 to `most`.
pub(crate) fn read_count(word: &str, most: u32) -> Option<u32>
    ensures count { result ≡ count_named most word.now }
    ensures range { IfSome result (λ count. (1 ≤ count) × (count ≤ most)) }
{
    let count = number(word.as_bytes())?;
    if 1 <= count && count <= most {
        Some(count)
    } else {
        None
    }
}
