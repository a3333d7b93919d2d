//! What was reported of a run, as it is shown.

ghost use Rattle.std.specs.Prelude.{◌≡◌};
ghost use Rattle.farm_entry.specs.RunPages.{report_of, report_shown};

use crate::filters::is_report_of;
use farm_entry::{Entry, RunOutcome, RunReport, What};

/// The report that an entry records, with a verdict or not.
pub fn report_shown(entry: &Entry) -> Option<RunReport>
    ensures { result ≡ report_shown entry.now }
{
    let outcome = match &entry.what {
        What::Reported { verdict, fate, .. } => RunOutcome::Tested(*verdict, *fate),
        What::Skipped { fate, .. } => RunOutcome::Untestable(*fate),
        _ => return None,
    };
    Some(RunReport {
        at: entry.at,
        outcome,
    })
}

/// What was reported of a run.
pub fn report_of(history: &[Entry], run: u32) -> Option<RunReport>
    ensures { result ≡ report_of history.now run }
{
    for entry in history {
        if is_report_of(run, entry) {
            return report_shown(entry);
        }
    }
    None
}
