//! The miss line of an input.

ghost use Rattle.std.specs.Prelude.{◌≡◌, option_map};
ghost use Rattle.judge.specs.Form.{miss_line};
ghost use Rattle.judge.specs.Miss.{miss_terms};

use crate::words::Words;
use flake_rate::Miss;

/// The miss rate of a line `miss C D`. `None` where the line is no miss line, and where its
/// numbers are no miss rate.
pub fn miss_line(line: &[u8]) -> Option<Miss>
    ensures { option_map miss_terms result ≡ miss_line line.now }
{
    let mut words = Words::after(b"miss", line)?;
    let c = words.next_number()?;
    let d = words.next_number()?;
    if words.next().is_some() {
        return None;
    }
    Miss::of(c, d).ok()
}
