//! The leases of a history, found by the numbers of their runs.

ghost use Rattle.std.specs.Prelude.{◌≡◌, IfOk};
ghost use Rattle.farm_entry.specs.History.{all_leases, lease_of};
ghost use Rattle.search_evidence.specs.Kept.{AreLeases};

use farm_entry::{Entry, LeasedRun};
use farm_types::Memory;
use std::alloc::Global;

/// All leases, in the order in which they were handed out.
pub(crate) fn all_leases(alloc: Global, history: &[Entry]) -> Result<Vec<LeasedRun>, Memory>
    ensures { IfOk result (λ found. found.items ≡ all_leases history.now) }
{
    let leases = history.iter().filter_map(|entry| entry.what.lease());
    Ok(leases.collect(alloc)?)
}

/// The lease of a run, among all leases of the history. Runs are numbered from 1, in the order of their leases.
pub(crate) fn lease_of(history: &[Entry], leases: &[LeasedRun], run: u32) -> Option<LeasedRun>
    requires { AreLeases history.now leases.now }
    ensures { result ≡ lease_of history.now run }
{
    let place = (run as usize).checked_sub(1)?;
    if place < leases.len() {
        Some(leases[place])
    } else {
        None
    }
}
