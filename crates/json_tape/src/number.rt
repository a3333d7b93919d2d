//! Numbers, as `serde_json` reads their texts.

ghost use Rattle.std.specs.Prelude.{◌≡◌, ◌<◌, ◌==◌, IfSome, IsTrue, Some, is_some, length, option_and_then, slice_index, true, false};
ghost use Rattle.json_tape.specs.Digits.{digit_after, digits_after};
ghost use Rattle.serde_json.specs.Data.{unsigned};
ghost use Rattle.serde_json.specs.Find.{as_u64};
ghost use Rattle.serde_json.specs.Read.{float_of, number_from, number_of};

use fast_float::Numeral;
use serde_json::Number;

/// The most that an integer below zero can be below it, as 64 bits hold it.
const MOST_BELOW: u64 = 1 << 63;

/// The greatest number behind which 64 bits have room for any digit.
const MOST_BEFORE_A_DIGIT: u64 = (u64::MAX - 9) / 10;

/// The whole number that a number's text is, below 2^64 and written without a point or an exponent.
pub(crate) fn whole_number(text: &str) -> Option<u64>
    ensures { result ≡ option_and_then as_u64 (number_of text.now) }
{
    let bytes = text.as_bytes();
    match plain_number(bytes) {
        Some(number) => Some(number),
        None => other_whole_number(bytes),
    }
}

/// The same of any text. It stands apart, so that the usual way takes few registers.
#[inline(never)]
fn other_whole_number(bytes: &[u8]) -> Option<u64>
    ensures { result ≡ option_and_then as_u64 (number_of bytes.now) }
{
    if has_minus(bytes) {
        None
    } else {
        whole_numeral(&Numeral::scan(bytes))
    }
}

fn whole_numeral(numeral: &Numeral<'_>) -> Option<u64>
    ensures { result ≡ option_and_then as_u64 (number_from false numeral.now) }
{
    numeral.to_u64()
}

/// Whether a number's text is in the range of a float, or of an integer of 64 bits.
pub(crate) fn is_number(text: &str) -> bool
    ensures { result ≡ is_some (number_of text.now) }
{
    let bytes = text.as_bytes();
    plain_number(bytes).is_some() || is_other_number(bytes)
}

/// The same of any text, apart as well.
#[inline(never)]
fn is_other_number(bytes: &[u8]) -> bool
    ensures { result ≡ is_some (number_of bytes.now) }
{
    if has_minus(bytes) {
        is_below_zero(&Numeral::scan(&bytes[1..]))
    } else {
        is_above_zero(&Numeral::scan(bytes))
    }
}

fn is_above_zero(numeral: &Numeral<'_>) -> bool
    ensures { result ≡ is_some (number_from false numeral.now) }
{
    match numeral.to_u64() {
        Some(_) => true,
        None => is_float(false, numeral),
    }
}

fn is_below_zero(numeral: &Numeral<'_>) -> bool
    ensures { result ≡ is_some (number_from true numeral.now) }
{
    match numeral.to_u64() {
        Some(size) => (0 < size && size <= MOST_BELOW) || is_float(true, numeral),
        None => is_float(true, numeral),
    }
}

fn is_float(negative: bool, numeral: &Numeral<'_>) -> bool
    ensures { result ≡ is_some (float_of negative numeral.now) }
{
    Number::from_f64(numeral.to_float::<f64>(negative)).is_some()
}

fn has_minus(bytes: &[u8]) -> bool
    ensures value { result ≡ (slice_index bytes.now 0 == 45) }
    ensures some { IsTrue result → 0 < length bytes.now }
{
    !bytes.is_empty() && bytes[0] == b'-'
}

/// The number that digits alone write, as most numbers are written. The greatest of 64 bits may be left out.
fn plain_number(bytes: &[u8]) -> Option<u64>
    ensures { IfSome result (λ number. number_of bytes.now ≡ Some (unsigned number)) }
{
    if bytes.is_empty() {
        None
    } else {
        digits_number(bytes)
    }
}

fn digits_number(bytes: &[u8]) -> Option<u64>
    ensures { result ≡ digits_after 0 bytes.now }
{
    let mut number = 0;
    for byte in bytes {
        match digit_after(number, *byte) {
            Some(next) => number = next,
            None => return None,
        }
    }
    Some(number)
}

/// The number with one digit more.
fn digit_after(number: u64, byte: u8) -> Option<u64>
    ensures { result ≡ digit_after number byte }
{
    if byte.is_ascii_digit() && number <= MOST_BEFORE_A_DIGIT {
        Some(number * 10 + (byte - b'0') as u64)
    } else {
        None
    }
}
