//! The lines of an input, with their numbers.

ghost use Rattle.std.specs.Prelude.{◌≡◌, ◌+◌, ◌^◌, ◌<◌, ◌∷◌, length};
ghost use Rattle.judge.specs.Text.{lines};

use memchr::memchr;

/// A line of an input, without its line feed.
#[derive(Clone, Copy)]
pub struct Line<'a> {
    /// Which line it is, counted from 1.
    pub number: u64,
    /// Its bytes. A carriage return at its end is one of them.
    pub text: &'a [u8],
}

/// The lines of an input that are still to be read, in order.
///
/// Each line ends with a line feed, which the last one may lack. What follows the last line feed
/// is no line if it is empty.
#[derive(Drop)]
pub struct Lines<'a> {
    /// The number of the next line.
    number: u64,
    rest: &'a [u8],
    ghost countable: { number + length rest.now < 2 ^ 64 },
}

impl<'a> Lines<'a> {
    ghost use Rattle.judge.specs.Lines.{lines_left, next_number};

    /// All lines of an input.
    pub fn of(input: &'a [u8]) -> Lines<'a>
        ensures left { lines_left result ≡ lines input.now }
        ensures number { next_number result ≡ 1 }
    {
        Lines {
            number: 1,
            rest: input,
        }
    }

    /// The number of the next line, whether or not there is one.
    pub fn next_number(&self) -> u64
        ensures { result ≡ next_number self.now }
    {
        self.number
    }
}

impl<'a> Iterator for Lines<'a> {
    type Item = Line<'a>;

    ghost use Rattle.std.specs.Iterator.{item_count};
    ghost use Rattle.judge.specs.Lines.{lines_left, GivesLine};

    ghost next_gives = { GivesLine };

    ghost remaining = { item_count lines_left };

    fn next(&mut self) -> Option<Line<'a>> {
        if self.rest.is_empty() {
            return None;
        }
        let (text, rest) = split_line(self.rest);
        let number = self.number;
        self.number += 1;
        self.rest = rest;
        Some(Line { number, text })
    }
}

/// The first line of a text that is not empty, and what follows its line feed.
fn split_line(text: &[u8]) -> (&[u8], &[u8])
    requires { 0 < length text.now }
    ensures lines { lines text.now ≡ result.0.now ∷ lines result.1.now }
    ensures shorter { length result.1.now < length text.now }
{
    match memchr(b'\n', text) {
        Some(end) => (&text[..end], &text[end + 1..]),
        None => (text, &text[text.len()..]),
    }
}
