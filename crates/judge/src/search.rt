//! The search line of an input.

ghost use Rattle.std.specs.Prelude.{◌≡◌, IsTrue, Some, None, IfOk, IfSome, IfNone, option_map, option_and_then};
ghost use Rattle.flake_rate.specs.Miss.{miss_numerator, miss_denominator, FitsRate};
ghost use Rattle.judge.specs.Form.{search_line, search_of};
ghost use Rattle.common_types.specs.Decimals.{number};
ghost use Rattle.judge.specs.Text.{numbers};
ghost use Rattle.judge.specs.Weights.{as_weight, as_weights};
ghost use Rattle.judge.specs.Words.{words_left};
ghost use Rattle.weight_exact.specs.Limits.{are_weights, IsCalm};

use crate::words::Words;
use common_types::number;
use flake_rate::{Bar, Miss, Rate};
use std::alloc::{AllocError, Global};
use weight_exact::{MAX_CALM, MAX_SUSPECTS, MAX_WEIGHT};

/// What a search is opened with.
#[derive(Drop)]
pub struct Search {
    /// The prior weights of the suspects, in the order of their positions.
    pub weights: Vec<u32>,
    pub terms: Terms,
    ghost within_limits: { IsTrue (are_weights weights.items) },
}

/// What a search is opened with besides its suspects.
#[derive(Clone, Copy)]
pub struct Terms {
    pub rate: Rate,
    pub miss: Miss,
    pub bar: Bar,
    /// The prior weight of "no culprit".
    pub calm: u32,
    ghost calm_in_limits: { IsCalm calm },
    ghost told: { FitsRate miss rate },
}

impl Search {
    ghost use Rattle.judge.specs.Setup.{setup_of};

    /// The search of a line `search A B T U CALM WEIGHT ..`, with this miss rate.
    ///
    /// `None` where the line is outside the form: also where a number is outside its limits, and
    /// where the miss rate does not fit the flake rate.
    pub fn parse(alloc: Global, miss: Miss, line: &[u8]) -> Result<Option<Search>, AllocError>
        ensures { IfOk result (λ found. option_map setup_of found
            ≡ search_line (miss_numerator miss) (miss_denominator miss) line.now) }
    {
        let Some(mut words) = Words::after(b"search", line) else {
            return Ok(None);
        };
        let Some(terms) = Terms::parse(miss, &mut words) else {
            return Ok(None);
        };
        let Some(weights) = weights(alloc, words)? else {
            return Ok(None);
        };
        Ok(Some(Search { weights, terms }))
    }
}

impl Terms {
    ghost use Rattle.judge.specs.Setup.{search_with};

    /// The terms at the head of a search line, which are read off it. `None` where they are outside
    /// the form.
    fn parse(miss: Miss, words: &mut Words) -> Option<Terms>
        ensures some { let form = search_of (miss_numerator miss) (miss_denominator miss) in
            IfSome result (λ terms. option_and_then form (numbers (words_left words.old))
            ≡ option_and_then (search_with terms) (numbers (words_left words.new))) }
        ensures none { let form = search_of (miss_numerator miss) (miss_denominator miss) in
            IfNone result (option_and_then form (numbers (words_left words.old)) ≡ None) }
        ensures miss { IfSome result (λ terms. terms.miss ≡ miss) }
    {
        let rate = Rate::of(words.next_number()?, words.next_number()?).ok()?;
        let bar = Bar::of(words.next_number()?, words.next_number()?).ok()?;
        let calm = words.next_number()?;
        if calm == 0 || calm > MAX_CALM || !miss.fits(&rate) {
            return None;
        }
        Some(Terms {
            rate,
            miss,
            bar,
            calm,
        })
    }
}

/// The numbers of the words, where each is a weight and there are enough and not too many.
fn weights(alloc: Global, words: Words) -> Result<Option<Vec<u32>>, AllocError>
    ensures weights { IfOk result (λ found. option_map (λ weights. weights.items) found
        ≡ option_and_then as_weights (numbers (words_left words.entry))) }
    ensures within_limits { IfOk result (λ found. IfSome found (λ weights.
        IsTrue (are_weights weights.items))) }
{
    let mut weights = Vec::new(alloc);
    for word in words {
        match weight(word) {
            Some(weight) if weights.len() < MAX_SUSPECTS => weights.push(weight)?,
            _ => return Ok(None),
        }
    }
    if weights.is_empty() {
        return Ok(None);
    }
    Ok(Some(weights))
}

/// The weight that a word writes. `None` where it writes none.
fn weight(word: &[u8]) -> Option<u32>
    ensures { result ≡ option_and_then as_weight (number word.now) }
{
    number(word).filter(|weight| (1..=MAX_WEIGHT).contains(weight))
}
