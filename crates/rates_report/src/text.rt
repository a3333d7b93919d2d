//! The lines of all tests.

ghost use Rattle.std.specs.Prelude.{◌≡◌, ◌<◌, ◌++◌, length, IfOk, OnOk, slice_index, string_bytes};
ghost use Rattle.farm_entry.specs.Legal.{IsLegal};
ghost use Rattle.rates_report.specs.Tally.{tests_of};
ghost use Rattle.rates_report.specs.RateLines.{rate_line_at, rates_text};

use crate::FlakeBook;
use crate::rate::rate_text;
use crate::replay::book_of;
use farm_entry::Entry;
use farm_types::Memory;
use std::alloc::Global;

/// The lines of the tests that a history tells of, in the order of their bytes: how often each failed, in how many
/// runs, at trees that turned out to be sound, and the flake rate that is offered for it.
///
/// # Errors
///
/// [`Memory`].
pub fn rates_text(alloc: Global, history: &[Entry]) -> Result<String, Memory>
    requires { IsLegal history.now }
    ensures { IfOk result (λ text. string_bytes text ≡ rates_text history.now) }
{
    let book = book_of(alloc, history)?;
    let mut text = String::new(alloc);
    for index in 0..book.tests() {
        push_line(alloc, &mut text, &book, index)?;
    }
    Ok(text)
}

/// Adds the line of the test at an index.
fn push_line(alloc: Global, text: &mut String, book: &FlakeBook, index: usize) -> Result<(), Memory>
    requires { index < length (tests_of book.now) }
    ensures { OnOk result (string_bytes text.new ≡ string_bytes text.old ++ rate_line_at book.now index) }
{
    let test = book.test(index);
    let (fails, runs) = book.tally(test);
    let line = rate_text(alloc, test, fails, runs, book.rate(test))?;
    text.push_str(line.as_str())?;
    text.push('\n')?;
    Ok(())
}
