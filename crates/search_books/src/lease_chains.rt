//! The rows of the book: of each search, a chain of leases from the newest to the oldest, with all that wait for an
//! answer.

ghost use Rattle.std.specs.Prelude.{ℕ, suc, ◌≡◌, ◌<◌, ◌+◌, ◌-◌, ◌++◌, ◌∷◌, [], true, false, List, length, get_or, take};
ghost use Rattle.std.specs.Vec.{vec_capacity};
ghost use Rattle.search_books.specs.LeaseChains.{IsLinked, IsMoved, IsWhole, chains, kept_marked, kepts, none, top};

use crate::lease::{Lease, OUT_MAX};

/// One lease, whether it was answered, whether it stands in its search's chain, the latest deadline of all leases up to
/// it, and the next older lease of the chain, as one more than its index, or 0. Of a row in no chain the last says
/// nothing.
#[derive(Clone, Copy)]
pub(crate) struct Row {
    pub(crate) lease: Lease,
    pub(crate) is_answered: bool,
    pub(crate) is_linked: bool,
    pub(crate) greatest: u64,
    pub(crate) below: usize,
}

/// How many rows of a chain an answer goes through to find its own. A search has at most that many runs out, so that
/// what lies further down has expired, and may stay in the chain.
const NEAR: usize = 2 * OUT_MAX;

/// Adds a lease that waits for an answer, which takes no memory.
pub(crate) fn link(heads: &mut Vec<usize>, rows: &mut Vec<Row>, lease: Lease, greatest: u64)
    requires linked { IsWhole heads.old.items rows.old.items }
    requires search { lease.search < length heads.old.items }
    requires room { length rows.old.items < vec_capacity rows.old }
    ensures linked { IsWhole heads.new.items rows.new.items }
    ensures kept { kepts rows.new.items
        ≡ kepts rows.old.items ++ record {
          lease = lease;
          is_answered = false;
          is_linked = true;
          greatest = greatest;
        } ∷ [] }
    ensures len { length rows.new.items ≡ length rows.old.items + 1 }
    ensures capacity { vec_capacity rows.new ≡ vec_capacity rows.old }
    ensures heads { length heads.new.items ≡ length heads.old.items }
{
    let search = lease.search as usize;
    let below = heads[search];
    rows.push_reserved(Row {
        lease,
        is_answered: false,
        is_linked: true,
        greatest,
        below,
    });
    heads[search] = rows.len();
}

/// Takes the newest lease away, whose room is free then.
pub(crate) fn unlink_last(heads: &mut Vec<usize>, rows: &mut Vec<Row>)
    requires linked { IsWhole heads.old.items rows.old.items }
    requires some { 0 < length rows.old.items }
    requires search { let last = get_or (kepts rows.old.items) (length rows.old.items - 1) none in
        last.lease.search < length heads.old.items }
    ensures linked { IsWhole heads.new.items rows.new.items }
    ensures kept { kepts rows.new.items ≡ take (length rows.old.items - 1) (kepts rows.old.items) }
    ensures len { length rows.new.items + 1 ≡ length rows.old.items }
    ensures capacity { vec_capacity rows.new ≡ vec_capacity rows.old }
    ensures heads { length heads.new.items ≡ length heads.old.items }
{
    let Some(last) = rows.pop() else {
        unreachable!();
    };
    if last.is_linked {
        heads[last.lease.search as usize] = last.below;
    }
}

/// Sets the pointer of a search's chain that leads to a lease up to `at`, or to none, and returns what it was.
pub(crate) fn point(
    heads: &mut Vec<usize>,
    rows: &mut Vec<Row>,
    search: usize,
    at: usize,
    to: usize,
) -> usize
    requires linked { IsWhole heads.old.items rows.old.items }
    requires search { search < length heads.old.items }
    requires at { at < length rows.old.items }
    ensures was { result ≡ top (chains (kepts rows.old.items)) (suc search) (suc at) }
    ensures linked { (k : ℕ → ℕ) → IsMoved (chains (kepts rows.old.items)) k at (suc search)
        → to ≡ top k (suc search) (suc at) → IsLinked k at heads.new.items rows.new.items }
    ensures kept { kepts rows.new.items ≡ kepts rows.old.items }
    ensures len { length rows.new.items ≡ length rows.old.items }
    ensures capacity { vec_capacity rows.new ≡ vec_capacity rows.old }
    ensures heads { length heads.new.items ≡ length heads.old.items }
{
    let mut above = 0;
    let mut next = heads[search];
    while next > at + 1 {
        above = next;
        next = rows[above - 1].below;
    }
    if above == 0 {
        heads[search] = to;
    } else {
        rows[above - 1].below = to;
    }
    next
}

/// Whether a row is among the first ones of its search's chain. It only tells which way to mark it is shorter.
pub(crate) fn is_near(heads: &[usize], rows: &[Row], search: usize, at: usize) -> bool {
    let mut next = if search < heads.len() {
        heads[search]
    } else {
        0
    };
    for _ in 0..NEAR {
        if next == 0 || next > rows.len() || next <= at {
            return false;
        }
        if next == at + 1 {
            return true;
        }
        next = rows[next - 1].below;
    }
    false
}

/// Marks a row of a chain as answered, or as not answered, and leaves it in the chain.
pub(crate) fn mark(rows: &mut Vec<Row>, at: usize, is_answered: bool)
    requires at { at < length rows.old.items }
    requires linked { (get_or (kepts rows.old.items) at none).is_linked ≡ true }
    ensures linked { (heads : List ℕ) → IsWhole heads rows.old.items → IsWhole heads rows.new.items }
    ensures kept { kepts rows.new.items ≡ kept_marked is_answered true at (kepts rows.old.items) }
    ensures len { length rows.new.items ≡ length rows.old.items }
    ensures capacity { vec_capacity rows.new ≡ vec_capacity rows.old }
{
    let row = rows[at];
    rows[at] = Row {
        lease: row.lease,
        is_answered,
        is_linked: true,
        greatest: row.greatest,
        below: row.below,
    };
}

/// Takes a row out of its chain, as answered.
pub(crate) fn close(heads: &mut Vec<usize>, rows: &mut Vec<Row>, at: usize)
    requires linked { IsWhole heads.old.items rows.old.items }
    requires at { at < length rows.old.items }
    requires search { (get_or (kepts rows.old.items) at none).lease.search < length heads.old.items }
    requires inside { (get_or (kepts rows.old.items) at none).is_linked ≡ true }
    ensures linked { IsWhole heads.new.items rows.new.items }
    ensures kept { kepts rows.new.items ≡ kept_marked true false at (kepts rows.old.items) }
    ensures len { length rows.new.items ≡ length rows.old.items }
    ensures capacity { vec_capacity rows.new ≡ vec_capacity rows.old }
    ensures heads { length heads.new.items ≡ length heads.old.items }
{
    let row = rows[at];
    point(heads, rows, row.lease.search as usize, at, row.below);
    rows[at] = Row {
        lease: row.lease,
        is_answered: true,
        is_linked: false,
        greatest: row.greatest,
        below: row.below,
    };
}

/// Puts a row back into its chain, as waiting for an answer.
pub(crate) fn reopen(heads: &mut Vec<usize>, rows: &mut Vec<Row>, at: usize)
    requires linked { IsWhole heads.old.items rows.old.items }
    requires at { at < length rows.old.items }
    requires search { (get_or (kepts rows.old.items) at none).lease.search < length heads.old.items }
    requires outside { (get_or (kepts rows.old.items) at none).is_linked ≡ false }
    ensures linked { IsWhole heads.new.items rows.new.items }
    ensures kept { kepts rows.new.items ≡ kept_marked false true at (kepts rows.old.items) }
    ensures len { length rows.new.items ≡ length rows.old.items }
    ensures capacity { vec_capacity rows.new ≡ vec_capacity rows.old }
    ensures heads { length heads.new.items ≡ length heads.old.items }
{
    let row = rows[at];
    let below = point(heads, rows, row.lease.search as usize, at, at + 1);
    rows[at] = Row {
        lease: row.lease,
        is_answered: false,
        is_linked: true,
        greatest: row.greatest,
        below,
    };
}
