//! Bytes and numbers from the front of some bytes: the value, and the bytes behind it. Numbers stand with their highest
//! byte first.

ghost use Rattle.std.specs.Prelude.{◌≡◌};
ghost use Rattle.entry_codec.specs.Reading.{bytes_at, number_at};
ghost use Rattle.audit_check.specs.Reads.{Reads};

use crate::stop::Stop;

/// So many bytes.
#[tactic(auto, unfolding(entry_codec::specs::Reading::bytes_at))]
pub(crate) fn part(count: usize, bytes: &[u8]) -> Result<(&[u8], &[u8]), Stop>
    ensures { Reads (λ x. (x.0.now, x.1.now)) result (bytes_at count bytes.now) }
{
    if bytes.len() < count {
        Err(Stop::Malformed)
    } else {
        Ok((&bytes[..count], &bytes[count..]))
    }
}

/// A number of one byte.
#[tactic(auto, unfolding(entry_codec::specs::Reading::number_at))]
pub(crate) fn number_1(bytes: &[u8]) -> Result<(u8, &[u8]), Stop>
    ensures { Reads (λ x. (x.0, x.1.now)) result (number_at 1 bytes.now) }
{
    if bytes.is_empty() {
        Err(Stop::Malformed)
    } else {
        Ok((bytes[0], &bytes[1..]))
    }
}

/// A number of two bytes.
#[tactic(auto, unfolding(entry_codec::specs::Reading::number_at))]
pub(crate) fn number_2(bytes: &[u8]) -> Result<(u16, &[u8]), Stop>
    ensures { Reads (λ x. (x.0, x.1.now)) result (number_at 2 bytes.now) }
{
    match bytes.split_first_chunk() {
        Some((front, rest)) => Ok((u16::from_be_bytes(*front), rest)),
        None => Err(Stop::Malformed),
    }
}

/// A number of four bytes.
#[tactic(auto, unfolding(entry_codec::specs::Reading::number_at))]
pub(crate) fn number_4(bytes: &[u8]) -> Result<(u32, &[u8]), Stop>
    ensures { Reads (λ x. (x.0, x.1.now)) result (number_at 4 bytes.now) }
{
    match bytes.split_first_chunk() {
        Some((front, rest)) => Ok((u32::from_be_bytes(*front), rest)),
        None => Err(Stop::Malformed),
    }
}

/// A number of eight bytes.
#[tactic(auto, unfolding(entry_codec::specs::Reading::number_at))]
pub(crate) fn number_8(bytes: &[u8]) -> Result<(u64, &[u8]), Stop>
    ensures { Reads (λ x. (x.0, x.1.now)) result (number_at 8 bytes.now) }
{
    match bytes.split_first_chunk() {
        Some((front, rest)) => Ok((u64::from_be_bytes(*front), rest)),
        None => Err(Stop::Malformed),
    }
}

/// A number of sixteen bytes.
#[tactic(auto, unfolding(entry_codec::specs::Reading::number_at))]
pub(crate) fn number_16(bytes: &[u8]) -> Result<(u128, &[u8]), Stop>
    ensures { Reads (λ x. (x.0, x.1.now)) result (number_at 16 bytes.now) }
{
    match bytes.split_first_chunk() {
        Some((front, rest)) => Ok((u128::from_be_bytes(*front), rest)),
        None => Err(Stop::Malformed),
    }
}
