//! Texts in heads: without regard to case, without blanks around them, and in parts.
ghost use Rattle.std.specs.Prelude.{◌≡◌, ◌<◌, ◌==◌, ◌∷◌, [], length, reverse, MatchOption, IfSome};
ghost use Rattle.std.specs.List.{position, slice_split};
ghost use Rattle.httparse.specs.Grammar.{skip_ows, trim_ows};
ghost use Rattle.http_requests.specs.Texts.{same_text};

use httparse::is_space_or_tab;

/// Whether two texts are the same but for the case of letters.
pub fn is_same(a: &[u8], b: &[u8]) -> bool
    ensures { result ≡ same_text a.now b.now }
{
    a.eq_ignore_ascii_case(b)
}

fn without_blanks_before(mut text: &[u8]) -> &[u8]
    ensures { result.now ≡ skip_ows text.now }
{
    while let [first, rest @ ..] = text
        && is_space_or_tab(*first)
    {
        text = rest;
    }
    text
}

fn without_blanks_behind(mut text: &[u8]) -> &[u8]
    ensures { result.now ≡ reverse (skip_ows (reverse text.now)) }
{
    while let [rest @ .., last] = text
        && is_space_or_tab(*last)
    {
        text = rest;
    }
    text
}

/// The text without the spaces and tabs at both ends.
#[tactic(auto, unfolding(httparse::specs::Grammar::trim_ows))]
pub fn trimmed(text: &[u8]) -> &[u8]
    ensures { result.now ≡ trim_ows text.now }
{
    without_blanks_behind(without_blanks_before(text))
}

/// Where the first byte `at` stands.
fn first_place(text: &[u8], at: u8) -> Option<usize>
    ensures first { result ≡ position (λ b. b == at) text.now }
    ensures within { IfSome result (λ i. i < length text.now) }
{
    text.iter().position(|b| *b == at)
}

/// The text up to the first byte `at`, and what follows that byte, if there is one.
pub fn cut(text: &[u8], at: u8) -> (&[u8], Option<&[u8]>)
    ensures parts { MatchOption result.1
        (slice_split (λ b. b == at) text.now ≡ result.0.now ∷ [])
        (λ rest. slice_split (λ b. b == at) text.now ≡ result.0.now ∷ slice_split (λ b. b == at) rest.now) }
    ensures shorter { IfSome result.1 (λ rest. length rest.now < length text.now) }
{
    match first_place(text, at) {
        Some(i) => (&text[..i], Some(&text[i + 1..])),
        None => (text, None),
    }
}
