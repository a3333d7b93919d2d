//! Numbers and bytes from the front of some bytes.

ghost use Rattle.std.specs.Prelude.{◌≡◌};
ghost use Rattle.entry_codec.specs.Gives.{Gives};
ghost use Rattle.entry_codec.specs.Reading.{bytes_at, number_at};

use crate::fault::Unread;
use byteorder::{BigEndian, ByteOrder};

/// So many bytes.
#[tactic(auto, unfolding(crate::specs::Reading::bytes_at))]
pub(crate) fn bytes_at(count: usize, bytes: &[u8]) -> Result<(&[u8], &[u8]), Unread>
    ensures { Gives (λ x. (x.0.now, x.1.now)) result (bytes_at count bytes.now) }
{
    match bytes.split_at_checked(count) {
        Some((front, rest)) => Ok((front, rest)),
        None => Err(Unread::Malformed),
    }
}

/// A number of one byte.
#[tactic(auto, unfolding(crate::specs::Reading::number_at))]
pub(crate) fn u8_at(bytes: &[u8]) -> Result<(u8, &[u8]), Unread>
    ensures { Gives (λ x. (x.0, x.1.now)) result (number_at 1 bytes.now) }
{
    match bytes.split_at_checked(1) {
        Some((front, rest)) => Ok((front[0], rest)),
        None => Err(Unread::Malformed),
    }
}

/// A number of two bytes.
#[tactic(auto, unfolding(crate::specs::Reading::number_at))]
pub(crate) fn u16_at(bytes: &[u8]) -> Result<(u16, &[u8]), Unread>
    ensures { Gives (λ x. (x.0, x.1.now)) result (number_at 2 bytes.now) }
{
    match bytes.split_at_checked(2) {
        Some((front, rest)) => Ok((BigEndian::read_u16(front), rest)),
        None => Err(Unread::Malformed),
    }
}

/// A number of four bytes.
#[tactic(auto, unfolding(crate::specs::Reading::number_at))]
pub(crate) fn u32_at(bytes: &[u8]) -> Result<(u32, &[u8]), Unread>
    ensures { Gives (λ x. (x.0, x.1.now)) result (number_at 4 bytes.now) }
{
    match bytes.split_at_checked(4) {
        Some((front, rest)) => Ok((BigEndian::read_u32(front), rest)),
        None => Err(Unread::Malformed),
    }
}

/// A number of eight bytes.
#[tactic(auto, unfolding(crate::specs::Reading::number_at))]
pub(crate) fn u64_at(bytes: &[u8]) -> Result<(u64, &[u8]), Unread>
    ensures { Gives (λ x. (x.0, x.1.now)) result (number_at 8 bytes.now) }
{
    match bytes.split_at_checked(8) {
        Some((front, rest)) => Ok((BigEndian::read_u64(front), rest)),
        None => Err(Unread::Malformed),
    }
}

/// A number of sixteen bytes.
#[tactic(auto, unfolding(crate::specs::Reading::number_at))]
pub(crate) fn u128_at(bytes: &[u8]) -> Result<(u128, &[u8]), Unread>
    ensures { Gives (λ x. (x.0, x.1.now)) result (number_at 16 bytes.now) }
{
    match bytes.split_at_checked(16) {
        Some((front, rest)) => Ok((BigEndian::read_u128(front), rest)),
        None => Err(Unread::Malformed),
    }
}
