//! What the report of a run comes to, with a verdict or as one whose tree can't be tested.

ghost use Rattle.std.specs.Prelude.{◌≡◌, Some};
ghost use Rattle.farm_entry.specs.Decision.{fate_of, report_decision, skip_decision, skip_fate_of};
ghost use Rattle.farm_entry.specs.History.{lease_of, opening_numbered};

use farm_entry::{Decision, Entry, Fate, LeasedRun, Refusal, SkipFate, What};
use farm_types::Moment;
use kept_farm::KeptFarm;
use weight_exact::Verdict;

/// The fate of the first report of a run, which the state of its search tells. That of a search that isn't there would
/// be late.
fn fate_of(farm: &KeptFarm, lease: LeasedRun, verdict: Verdict) -> Fate
    requires { lease_of farm.now lease.run ≡ Some lease }
    ensures { result ≡ fate_of farm.now lease verdict (opening_numbered farm.now lease.search) }
{
    // (the call says that the history is legal)
    let _history = farm.history();
    match farm.search(lease.search) {
        None => Fate::Late,
        Some(search) => search.fate(lease.stage, lease.run_with(verdict)),
    }
}

/// The first report of a run that was handed out.
pub(crate) fn report_decision(farm: &KeptFarm, run: u32, verdict: Verdict, at: Moment) -> Decision
    ensures { result ≡ report_decision farm.now run verdict at (lease_of farm.now run) }
{
    let Some(lease) = farm.lease_of(run) else {
        return Decision::Refuse(Refusal::UnknownRun(run));
    };
    let fate = fate_of(farm, lease, verdict);
    let what = What::Reported { run, verdict, fate };
    Decision::New(Entry { at, what })
}

/// The fate of the first report of a run whose tree can't be tested, which the state of its search tells. That of a
/// search that isn't there would be late.
fn skip_fate_of(farm: &KeptFarm, lease: LeasedRun) -> SkipFate
    ensures { result ≡ skip_fate_of farm.now lease (opening_numbered farm.now lease.search) }
{
    // (the call says that the history is legal)
    let _history = farm.history();
    match farm.search(lease.search) {
        None => SkipFate::Late,
        Some(search) => search.skip_fate(lease.stage),
    }
}

/// The first report of a run that was handed out and whose tree can't be tested.
pub(crate) fn skip_decision(farm: &KeptFarm, run: u32, at: Moment) -> Decision
    ensures { result ≡ skip_decision farm.now run at (lease_of farm.now run) }
{
    let Some(lease) = farm.lease_of(run) else {
        return Decision::Refuse(Refusal::UnknownRun(run));
    };
    let fate = skip_fate_of(farm, lease);
    let what = What::Skipped { run, fate };
    Decision::New(Entry { at, what })
}
