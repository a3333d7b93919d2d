//! The words of a line.

ghost use Rattle.std.specs.Prelude.{◌≡◌, ◌∷◌, IfSome, IfNone, option_map};
ghost use Rattle.judge.specs.Text.{words};
ghost use Rattle.judge.specs.Form.{after_keyword};
ghost use Rattle.judge.specs.Words.{words_of_rest, ReadsNumber, LacksNumber};

use common_types::number;

/// The words of a line that are still to be read, in order. One space stands between two, so two
/// spaces in a row have an empty word between them.
#[derive(Drop)]
pub struct Words<'a> {
    /// What follows the space after the last word that was read, if one stood there.
    rest: Option<&'a [u8]>,
}

impl<'a> Words<'a> {
    ghost use Rattle.judge.specs.Words.{words_left};

    /// All words of a line.
    pub fn of(line: &'a [u8]) -> Words<'a>
        ensures { words_left result ≡ words line.now }
    {
        Words { rest: Some(line) }
    }

    /// The words of a line after its first one, where that is the keyword.
    pub fn after(keyword: &[u8], line: &'a [u8]) -> Option<Words<'a>>
        ensures { option_map words_left result ≡ after_keyword keyword.now (words line.now) }
    {
        let mut words = Words::of(line);
        (words.next()? == keyword).then_some(words)
    }

    /// The number that the next word writes. `None` where no word is left, and where the next one
    /// writes no number below 2^32.
    pub fn next_number(&mut self) -> Option<u32>
        ensures number { IfSome result (λ n. ReadsNumber (words_left self.old) n (words_left self.new)) }
        ensures none { IfNone result (LacksNumber (words_left self.old)) }
    {
        number(self.next()?)
    }
}

impl<'a> Iterator for Words<'a> {
    type Item = &'a [u8];

    ghost use Rattle.std.specs.Iterator.{YieldsFirstRef, item_count};
    ghost use Rattle.judge.specs.Words.{words_left};

    ghost next_gives = { YieldsFirstRef words_left };

    ghost remaining = { item_count words_left };

    fn next(&mut self) -> Option<&'a [u8]> {
        let (word, rest) = split_word(self.rest?);
        self.rest = rest;
        Some(word)
    }
}

/// The first word of a text, and what follows the space after it.
fn split_word(text: &[u8]) -> (&[u8], Option<&[u8]>)
    ensures { words text.now ≡ result.0.now ∷ words_of_rest result.1 }
{
    match text.iter().position(|byte| *byte == b' ') {
        Some(end) => (&text[..end], Some(&text[end + 1..])),
        None => (text, None),
    }
}
