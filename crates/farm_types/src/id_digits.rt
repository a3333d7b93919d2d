//! The digits of a commit's id, read all at once.

ghost use Rattle.std.specs.Prelude.{◌≡◌, ◌<◌, length, Ok, Some, IfSome, IsTrue};
ghost use Rattle.farm_types.specs.IdDigits.{AreValues};
ghost use Rattle.farm_types.specs.declared.commit_id.TheConstants.{ID_BYTES, ID_DIGITS};
ghost use Rattle.farm_types.specs.declared.id_digits.TheConstants.{NO_DIGIT};
ghost use Rattle.hex.specs.Hex.{decode_sized, hex_digit_value};

use crate::commit_id::{ID_BYTES, ID_DIGITS};

/// What stands for a byte that is no hexadecimal digit: how many values a digit has.
const NO_DIGIT: u8 = 16;

/// The bytes that 40 hexadecimal digits write, or none where a text is no such digits. It looks at all digits whatever
/// they are, so that the processor takes many of them at once.
pub(crate) fn bytes_of(text: &[u8]) -> Option<[u8; ID_BYTES]>
    ensures { IfSome result (λ bytes. decode_sized text.now ID_BYTES ≡ Ok bytes) }
{
    if text.len() != ID_DIGITS {
        return None;
    }
    let mut values = [0; ID_DIGITS];
    if digit_values(text, &mut values) {
        Some(paired(text, &values))
    } else {
        None
    }
}

/// Puts the values of 40 digits, and says whether all were digits.
fn digit_values(text: &[u8], values: &mut [u8; ID_DIGITS]) -> bool
    requires { length text.now ≡ ID_DIGITS }
    ensures { IsTrue result → AreValues text.now values.new ID_DIGITS }
{
    let mut are_digits = true;
    'digits: for i in 0..ID_DIGITS {
        let value = digit_value(text[i]);
        values[i] = value;
        are_digits &= value < NO_DIGIT;
    }
    are_digits
}

/// The bytes that these digits write, whose values these are.
fn paired(text: &[u8], values: &[u8; ID_DIGITS]) -> [u8; ID_BYTES]
    requires len { length text.now ≡ ID_DIGITS }
    requires values { AreValues text.now values.now ID_DIGITS }
    ensures { decode_sized text.now ID_BYTES ≡ Ok result }
{
    let mut bytes = [0; ID_BYTES];
    'bytes: for i in 0..ID_BYTES {
        bytes[i] = values[2 * i] * NO_DIGIT + values[2 * i + 1];
    }
    bytes
}

/// The value of a hexadecimal digit, or [`NO_DIGIT`] of any other byte.
fn digit_value(byte: u8) -> u8
    ensures { result < NO_DIGIT → hex_digit_value byte ≡ Some result }
{
    match byte {
        b'0'..=b'9' => byte - b'0',
        b'A'..=b'F' => byte - b'A' + 10,
        b'a'..=b'f' => byte - b'a' + 10,
        _ => NO_DIGIT,
    }
}
