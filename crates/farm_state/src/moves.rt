//! What an entry changes in the order of turns, and how that is undone.

ghost use Rattle.std.specs.Prelude.{◌≡◌, ◌≤◌, ◌+◌};
ghost use Rattle.farm_state.specs.Moves.{AreFew, MayMove, MayUndo, StandsIn, about_move, added, change_of, count_after, count_before, is_going, made, move_in, place_of, turns_in, undone};

use crate::FarmState;
use farm_entry::What;
use search_books::ActiveOrder;
use std::ops::Deref;

/// What an entry does to the order.
#[derive(Clone, Copy)]
pub(crate) enum Move {
    /// Nothing.
    Stay,
    /// It opens the next search.
    Open(u32),
    /// It leases a run of a search.
    Lease(u32),
    /// It reports a run of an active search, with a verdict or not, or cancels it, and so may end it.
    Touch(u32),
}

/// What was changed in the order for an entry. Each entry keeps one: since the numbers of searches fit 16 bits, it
/// takes 8 bytes.
#[derive(Clone, Copy)]
pub(crate) enum Change {
    /// Nothing.
    Nothing,
    /// A search was opened.
    Opened,
    /// A search that stood in the order was moved or struck.
    Moved {
        /// The search.
        search: u16,
        /// Whether it had never been leased.
        fresh: bool,
        /// The search in front of it among those that shared this with it, or 0.
        prior: u16,
    },
}

/// What an entry that may come next does to the order.
pub(crate) fn move_of(state: &FarmState, what: &What) -> Move
    ensures { result ≡ move_in state.now what.now }
{
    match what {
        What::Opened(opening) => Move::Open(opening.deref().search),
        What::Leased { search, .. } => Move::Lease(*search),
        What::Reported { run, .. } | What::Skipped { run, .. } => {
            match state.books().lease_of(*run) {
                Some(lease) => touch(state, lease.search),
                None => Move::Stay,
            }
        }
        What::Cancelled { search, .. } => touch(state, *search),
        _ => Move::Stay,
    }
}

/// What an entry about a search does to the order.
fn touch(state: &FarmState, search: u32) -> Move
    ensures { result ≡ about_move state.now search }
{
    if is_going(state, search) {
        Move::Touch(search)
    } else {
        Move::Stay
    }
}

/// Whether the search with a number was opened and is active.
fn is_going(state: &FarmState, search: u32) -> bool
    ensures { result ≡ is_going state.now search }
{
    match state.search(search) {
        Some(search) => search.standing().is_active(),
        None => false,
    }
}

/// Makes a move in the order, where the state has the entry already. It takes no memory.
pub(crate) fn make(active: &mut ActiveOrder, state: &FarmState, step: Move) -> Change
    requires room { 1 ≤ active.old.room }
    requires may { MayMove (turns_in active.old) active.old.count step }
    requires few { AreFew (turns_in active.old) }
    ensures change { result ≡ change_of state.now step (turns_in active.old) }
    ensures turns { turns_in active.new ≡ made state.now step (turns_in active.old) }
    ensures count { active.new.count ≡ count_after step active.old.count }
{
    match step {
        Move::Stay => Change::Nothing,
        Move::Open(search) => {
            add(active, search, is_going(state, search));
            Change::Opened
        }
        Move::Lease(search) => {
            let change = place(active, search);
            active.lease(search as usize);
            change
        }
        Move::Touch(search) => {
            if is_going(state, search) {
                return Change::Nothing;
            }
            let change = place(active, search);
            active.end(search as usize);
            change
        }
    }
}

/// Opens the next search, which has ended already where it doesn't go on.
fn add(active: &mut ActiveOrder, search: u32, goes_on: bool)
    requires room { 1 ≤ active.old.room }
    requires next { search ≡ active.old.count }
    ensures turns { turns_in active.new ≡ added goes_on search (turns_in active.old) }
    ensures count { active.new.count ≡ active.old.count + 1 }
{
    let number = active.open();
    if !goes_on {
        active.end(number);
    }
}

/// Where a search stands in the order, as it is kept.
fn place(active: &ActiveOrder, search: u32) -> Change
    requires stands { StandsIn (turns_in active.now) search }
    requires few { AreFew (turns_in active.now) }
    ensures { result ≡ place_of search (turns_in active.now) }
{
    let (fresh, prior) = active.place(search as usize);
    Change::Moved {
        search: search as u16,
        fresh,
        prior: prior as u16,
    }
}

/// Undoes what was changed for the last entry. It takes no memory.
pub(crate) fn undo(active: &mut ActiveOrder, change: Change)
    requires { MayUndo (turns_in active.old) active.old.count change }
    ensures turns { turns_in active.new ≡ undone change active.old.count (turns_in active.old) }
    ensures count { active.new.count ≡ count_before change active.old.count }
{
    match change {
        Change::Nothing => {}
        Change::Opened => active.close(),
        Change::Moved {
            search,
            fresh,
            prior,
        } => active.put_back(usize::from(search), fresh, usize::from(prior)),
    }
}
