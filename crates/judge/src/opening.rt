//! The first lines of an input, which open a search.

ghost use Rattle.std.specs.Prelude.{◌≡◌, ◌+◌, ◌∷◌, [], Some, None, Err, ℕ, IfOk, IfErr, IsErrOf};
ghost use Rattle.flake_rate.specs.Miss.{miss_numerator, miss_denominator};
ghost use Rattle.judge.specs.Form.{inquiry, inquiry_of, run_lines, search_line};
ghost use Rattle.judge.specs.Lines.{lines_left, next_number};
ghost use Rattle.judge.specs.Setup.{setup_of};
ghost use Rattle.weight_exact.specs.Weights.{suspects};

use crate::fault::JudgeFault;
use crate::lines::{Line, Lines};
use crate::miss::miss_line;
use crate::search::Search;
use flake_rate::Miss;
use std::alloc::Global;

/// Reads the search that an input opens: the search line, and before it the miss line if there is
/// one. Without a miss line a broken test never passes.
pub fn read_search(alloc: Global, lines: &mut Lines) -> Result<Search, JudgeFault>
    requires { next_number lines.old ≡ 1 }
    ensures search { IfOk result (λ search. inquiry (lines_left lines.old) ≡ inquiry_of (setup_of search)
        (run_lines (suspects (setup_of search)) 0 (next_number lines.new) (lines_left lines.new))) }
    ensures bad_input { (number : ℕ) → IsErrOf result (JudgeFault.BadInput number) →
        inquiry (lines_left lines.old) ≡ Err number }
{
    let first = expect_line(lines)?;
    match miss_line(first.text) {
        Some(miss) => parse_search(alloc, miss, expect_line(lines)?),
        None => parse_search(alloc, Miss::none(), first),
    }
}

/// The next line, which the form asks for.
fn expect_line<'a>(lines: &mut Lines<'a>) -> Result<Line<'a>, JudgeFault>
    ensures line { IfOk result (λ line. (lines_left lines.old ≡ line.text.now ∷ lines_left lines.new)
        × (line.number ≡ next_number lines.old) × (next_number lines.new ≡ next_number lines.old + 1)) }
    ensures none { IfErr result (λ fault. (lines_left lines.old ≡ [])
        × (fault ≡ JudgeFault.BadInput (next_number lines.old))) }
{
    let number = lines.next_number();
    lines.next().ok_or(JudgeFault::BadInput(number))
}

/// The search of the line that the form asks to be a search line.
fn parse_search(alloc: Global, miss: Miss, line: Line) -> Result<Search, JudgeFault>
    ensures search { IfOk result (λ search.
        search_line (miss_numerator miss) (miss_denominator miss) line.entry.text.now ≡ Some (setup_of search)) }
    ensures bad_input { (number : ℕ) → IsErrOf result (JudgeFault.BadInput number) →
        (search_line (miss_numerator miss) (miss_denominator miss) line.entry.text.now ≡ None)
        × (number ≡ line.entry.number) }
{
    Search::parse(alloc, miss, line.text)?.ok_or(JudgeFault::BadInput(line.number))
}
