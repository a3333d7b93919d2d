//! The look along a search's chain for the leases that are out.

ghost use Rattle.std.specs.Prelude.{◌≡◌, ◌<◌, ◌≤◌, ◌∷◌, ℕ, true, length, get_or, drop, if◌then◌else◌};
ghost use Rattle.search_books.specs.LeaseChains.{AreKept, AreTimed, IsWhole, held_of, helds, kept_of, kepts, none};
ghost use Rattle.search_books.specs.Outstanding.{is_awaited, is_waiting, positions_out, same_stage};

use crate::lease::Lease;
use crate::lease_chains::Row;
use farm_types::Stage;

/// Whether two stages are the same.
fn is_at(stage: Stage, other: Stage) -> bool
    ensures { result ≡ same_stage stage other }
{
    match stage {
        Stage::Search => match other {
            Stage::Search => true,
            Stage::Verify => false,
        },
        Stage::Verify => match other {
            Stage::Search => false,
            Stage::Verify => true,
        },
    }
}

/// Whether a lease is of a stage, and its deadline lies later than a moment.
fn awaits(lease: Lease, stage: Stage, moment: u64) -> bool
    ensures { result ≡ is_awaited stage moment lease }
{
    is_at(lease.stage, stage) && moment < lease.deadline
}

/// Puts a row's position in front of those that were found so far, which begin at `from`, where its lease waits for an
/// answer, is of the stage, and its deadline lies later than the moment. Returns where they begin then.
fn find_more(row: Row, stage: Stage, moment: u64, found: &mut [u16], from: usize) -> usize
    requires space { is_waiting stage moment (held_of (kept_of row)) ≡ true → 0 < from }
    requires within { from ≤ length found.old }
    ensures found { drop result found.new ≡ (if is_waiting stage moment (held_of (kept_of row))
        then row.lease.position ∷ drop from found.old else drop from found.old) }
    ensures within { result ≤ length found.new }
{
    if !row.is_answered && awaits(row.lease, stage, moment) {
        found[from - 1] = row.lease.position;
        from - 1
    } else {
        from
    }
}

/// Fills the end of `found` with the positions of a search's leases that are out, by the numbers of their runs, and
/// returns where they begin. The chain is followed from its newest row, up to where no older lease can be out.
pub(crate) fn find_out(
    heads: &[usize],
    rows: &[Row],
    search: usize,
    stage: Stage,
    moment: u64,
    found: &mut [u16],
) -> usize
    requires linked { IsWhole heads.now rows.now }
    requires kept { AreKept (kepts rows.now) (length heads.now) }
    requires search { search < length heads.now }
    requires few { length (positions_out search stage moment (helds (kepts rows.now))) ≤ length found.old }
    ensures found { drop result found.new ≡ positions_out search stage moment (helds (kepts rows.now)) }
    ensures within { result ≤ length found.new }
{
    let mut from = found.len();
    let mut at = heads[search];
    while at > 0 {
        let row = rows[at - 1];
        if row.greatest <= moment {
            return from;
        }
        from = find_more(row, stage, moment, found, from);
        at = row.below;
    }
    from
}

/// The latest deadline of all leases, or 0.
pub(crate) fn latest(rows: &[Row]) -> u64
    requires { AreTimed (kepts rows.now) }
    ensures { (k : ℕ) → k < length rows.now → (get_or (kepts rows.now) k none).lease.deadline ≤ result }
{
    if rows.is_empty() {
        return 0;
    }
    rows[rows.len() - 1].greatest
}
