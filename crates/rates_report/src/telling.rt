//! What a standing tells of the trees that a search ran its test at.

ghost use Rattle.std.specs.Prelude.{◌≡◌, count_by};
ghost use Rattle.rates_report.specs.Tally.{failed, failed_below, is_below, tells};

use farm_entry::Standing;
use weight_exact::Run;

/// Whether a search that stands so says which of its runs were made at sound trees.
pub(crate) fn tells(standing: Standing) -> bool
    ensures { result ≡ tells standing }
{
    match standing {
        Standing::NoCulprit | Standing::Confirmed(_) => true,
        _ => false,
    }
}

/// How many of these runs failed.
pub(crate) fn count_failed(runs: &[Run]) -> usize
    ensures { result ≡ count_by failed runs.now }
{
    runs.iter().filter(|run| run.verdict.is_fail()).count()
}

/// How many of these runs were made below a position.
pub(crate) fn count_below(runs: &[Run], position: u16) -> usize
    ensures { result ≡ count_by (is_below position) runs.now }
{
    runs.iter().filter(|run| run.position < position).count()
}

/// How many of these runs were made below a position and failed.
pub(crate) fn count_failed_below(runs: &[Run], position: u16) -> usize
    ensures { result ≡ count_by (failed_below position) runs.now }
{
    let failed = runs
        .iter()
        .filter(|run| run.position < position && run.verdict.is_fail());
    failed.count()
}
