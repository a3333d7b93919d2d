//! Numbers in decimal digits.

ghost use Rattle.std.specs.Prelude.{◌≡◌, ◌^◌, ◌<◌, ◌≤◌, ℕ, true, Some, IfSome, IfNone};
ghost use Rattle.std.specs.Char.{is_ascii_digit, digit_value};
ghost use Rattle.std.specs.List.{list_all};
ghost use Rattle.common_types.specs.Decimals.{are_digits, digits_behind, digits_up_to, number};

/// Whether a text is one or more digits.
pub fn are_digits(text: &[u8]) -> bool
    ensures { result ≡ are_digits text.now }
{
    0 < text.len() && all_digits(text)
}

/// Whether each byte of a text is a digit.
fn all_digits(text: &[u8]) -> bool
    ensures { result ≡ list_all is_ascii_digit text.now }
{
    text.iter().all(|b| b.is_ascii_digit())
}

/// The number that one or more digits write, zeros in front among them, if it is at most `most`. `None` where the text
/// is empty or a byte is no digit, and where the number is greater.
pub fn digits_up_to(text: &[u8], most: u32) -> Option<u32>
    ensures { result ≡ digits_up_to most text.now }
{
    if text.is_empty() {
        return None;
    }
    value_up_to(text, most)
}

/// The number that digits write, 0 where there are none, if each byte is one and the number is at most `most`.
fn value_up_to(mut digits: &[u8], most: u32) -> Option<u32>
    ensures { result ≡ digits_behind most 0 digits.now }
{
    let most = most as u64;
    let mut number = 0;
    while let [digit, behind @ ..] = digits {
        if !digit.is_ascii_digit() {
            return None;
        }
        number = number * 10 + value_of(*digit);
        if most < number {
            return None;
        }
        digits = behind;
    }
    Some(number as u32)
}

/// The number that a digit writes.
#[tactic(auto, using(std::proofs::lemmas::Bool::Decides::nat_tests))]
fn value_of(digit: u8) -> u64
    requires { is_ascii_digit digit ≡ true }
    ensures value { result ≡ digit_value digit }
    ensures small { result < 10 }
{
    (digit - b'0') as u64
}

/// The number that a word writes: `0`, or a digit from 1 to 9 and further digits.
///
/// `None` where the word writes no number, and where its number is 2^32 or more. A word may have
/// any number of digits.
pub fn number(word: &[u8]) -> Option<u32>
    ensures value { IfSome result (λ value. number word.now ≡ Some value) }
    ensures none { IfNone result ((value : ℕ) → number word.now ≡ Some value → 2 ^ 32 ≤ value) }
{
    match word {
        [] | [b'0', _, ..] => None,
        digits => digits_up_to(digits, u32::MAX),
    }
}
