//! The lines of a search and of its runs.

ghost use Rattle.std.specs.Prelude.{◌≡◌, ◌++◌, ◌∷◌, [], OnOk, map, string_bytes};
ghost use Rattle.judge.specs.Text.{text_of};
ghost use Rattle.search_evidence.specs.Evidence.{miss_lines, run_line, run_lines, search_line, spaced};

use farm_entry::Opening;
use farm_types::Memory;
use flake_rate::Miss;
use suspect_range::Suspect;
use weight_exact::{Run, Verdict};

/// Appends the miss line, where a broken test may pass.
pub(crate) fn push_miss(text: &mut String, miss: Miss) -> Result<(), Memory>
    ensures { OnOk result (string_bytes text.new ≡ string_bytes text.old ++ text_of (miss_lines miss)) }
{
    let c = miss.c();
    let d = miss.d();
    if 0 < c {
        writeln!(text, "miss {c} {d}")?;
    }
    Ok(())
}

/// Appends the search line.
pub(crate) fn push_search(text: &mut String, opening: &Opening) -> Result<(), Memory>
    ensures { OnOk result (string_bytes text.new ≡ string_bytes text.old ++ text_of (search_line opening.now ∷ [])) }
{
    let a = opening.rate.a();
    let b = opening.rate.b();
    let t = opening.bar.t();
    let u = opening.bar.u();
    let calm = opening.range.calm();
    write!(text, "search {a} {b} {t} {u} {calm}")?;
    push_weights(text, opening.range.suspects())?;
    writeln!(text)?;
    Ok(())
}

/// Appends the weights of suspects, each behind a space.
fn push_weights(text: &mut String, suspects: &[Suspect]) -> Result<(), Memory>
    ensures { OnOk result (string_bytes text.new
        ≡ string_bytes text.old ++ spaced (map (λ suspect. suspect.weight) suspects.now)) }
{
    for suspect in suspects {
        let weight = suspect.weight;
        write!(text, " {weight}")?;
    }
    Ok(())
}

/// Appends the line of a run with its number.
fn push_run(text: &mut String, number: usize, run: Run) -> Result<(), Memory>
    ensures { OnOk result (string_bytes text.new ≡ string_bytes text.old ++ text_of (run_line number run ∷ [])) }
{
    let position = run.position;
    match run.verdict {
        Verdict::Pass => writeln!(text, "run {number} {position} pass")?,
        Verdict::Fail => writeln!(text, "run {number} {position} fail")?,
    }
    Ok(())
}

/// Appends the lines of runs, numbered from 1.
pub(crate) fn push_runs(text: &mut String, runs: &[Run]) -> Result<(), Memory>
    ensures { OnOk result (string_bytes text.new ≡ string_bytes text.old ++ text_of (run_lines 1 runs.now)) }
{
    for index in 0..runs.len() {
        push_run(text, index + 1, runs[index])?;
    }
    Ok(())
}
