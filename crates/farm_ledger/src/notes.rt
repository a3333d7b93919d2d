//! What is read of an entry and of a history, and what one entry writes into the register.

ghost use Rattle.std.specs.Prelude.{◌≡◌, ◌≤◌, ◌<◌, ◌+◌, ◌-◌, ◌^◌, true, length, get_or, IfSome, OnOk};
ghost use Rattle.std.specs.Vec.{vec_capacity};
ghost use Rattle.farm_types.specs.Moment.{moment_ms};
ghost use Rattle.farm_entry.specs.Orders.{confirmed_at, day_in};
ghost use Rattle.farm_ledger.specs.Booked.{MayBook, booking_in, given_in, is_booked, one_if, with_booking, without_order};
ghost use Rattle.farm_ledger.specs.Rows.{blank, row_numbered, with_lease, with_row, without_lease, without_row};

use farm_entry::{Entry, LeasedRun, Opening, Standing, What};
use farm_rules::{Candidate, Draft, OrderedCommit, Orders, day_of};
use farm_types::{Memory, Moment};
use plain_history::zone_minutes;

/// What is kept of a search beside its state: the place of the entry that opened it, and how many of its runs were
/// handed out.
#[derive(Clone, Copy)]
pub(crate) struct Row {
    pub(crate) place: u32,
    pub(crate) leases: u32,
}

/// What an entry is to the book of orders.
#[derive(Clone, Copy)]
pub(crate) enum Booking {
    /// Nothing.
    Nothing,
    /// An order that is given, without its agent.
    Given(Draft),
    /// An order that is carried over.
    Carried(OrderedCommit),
}

// What an entry holds, and what a search is.

/// What an entry is to the book of orders.
pub(crate) fn booking_in(what: &What) -> Booking
    ensures { result ≡ booking_in what.now }
{
    match what {
        What::Ordered {
            order,
            commit,
            search,
            day,
            ..
        } => Booking::Given(Draft {
            order: *order,
            commit: *commit,
            search: *search,
            day: *day,
        }),
        What::Carried { commit, day } => Booking::Carried(OrderedCommit {
            commit: *commit,
            day: *day,
        }),
        _ => Booking::Nothing,
    }
}

/// A search whose culprit is confirmed.
pub(crate) fn confirmed_at(standing: Standing, opening: &Opening) -> Option<Candidate>
    ensures { result ≡ confirmed_at standing opening.now }
{
    match standing {
        Standing::Confirmed(culprit) => Some(Candidate {
            search: opening.search,
            commit: opening.commit(culprit),
        }),
        _ => None,
    }
}

/// The day of a moment in the farm's zone, in days since 1970-01-01.
pub(crate) fn day_in(history: &[Entry], moment: Moment) -> u32
    ensures { result ≡ day_in history.now (moment_ms moment) }
{
    day_of(moment, zone_minutes(history))
}

// Rows.

/// The row of the search with a number.
pub(crate) fn row_of(rows: &[Row], number: u32) -> Option<Row>
    ensures { result ≡ row_numbered number rows.now }
{
    if number == 0 || number as usize > rows.len() {
        return None;
    }
    Some(rows[number as usize - 1])
}

/// Adds the row of the search that an entry at a place opens.
pub(crate) fn put_row(rows: &mut Vec<Row>, is_opening: bool, place: u32)
    requires { length rows.old.items < vec_capacity rows.old }
    ensures { rows.new.items ≡ with_row rows.old.items is_opening place }
{
    if is_opening {
        rows.push_reserved(Row { place, leases: 0 });
    }
}

/// Takes the last row out, where it is to go.
pub(crate) fn take_row(rows: &mut Vec<Row>, is_opening: bool)
    ensures { rows.new.items ≡ without_row rows.old.items is_opening }
{
    if is_opening {
        rows.truncate(rows.len().saturating_sub(1));
    }
}

/// Counts a lease of a search.
pub(crate) fn put_lease(rows: &mut Vec<Row>, lease: Option<LeasedRun>)
    requires there { IfSome lease (λ l. (0 < l.search) × (l.search ≤ length rows.old.items)) }
    requires few { IfSome lease (λ l. (get_or rows.old.items (l.search - 1) blank).leases + 1 < 2 ^ 32) }
    ensures rows { rows.new.items ≡ with_lease rows.old.items lease }
    ensures capacity { vec_capacity rows.new ≡ vec_capacity rows.old }
    ensures len { length rows.new.items ≡ length rows.old.items }
{
    if let Some(lease) = lease {
        rows[lease.search as usize - 1].leases += 1;
    }
}

/// Counts a lease of a search no more.
pub(crate) fn take_lease(rows: &mut Vec<Row>, lease: Option<LeasedRun>)
    requires there { IfSome lease (λ l. (0 < l.search) × (l.search ≤ length rows.old.items)) }
    requires counted { IfSome lease (λ l. 0 < (get_or rows.old.items (l.search - 1) blank).leases) }
    ensures { rows.new.items ≡ without_lease rows.old.items lease }
{
    if let Some(lease) = lease {
        rows[lease.search as usize - 1].leases -= 1;
    }
}

// Orders.

/// Makes room in the book for what an entry is to it.
///
/// # Errors
///
/// [`Memory`]. Nothing changes.
pub(crate) fn make_room(orders: &mut Orders, booking: &Booking) -> Result<(), Memory>
    ensures orders { orders.new.orders ≡ orders.old.orders }
    ensures given { orders.new.given ≡ orders.old.given }
    ensures room { OnOk result (is_booked booking.now ≡ true → 1 ≤ orders.new.room) }
{
    match booking {
        Booking::Nothing => Ok(()),
        _ => orders.reserve(1),
    }
}

/// Books an order, given or carried over, where the entry is one.
pub(crate) fn book(orders: &mut Orders, booking: Booking)
    requires { MayBook orders.old booking }
    ensures orders { orders.new.orders ≡ with_booking orders.old.orders booking }
    ensures given { orders.new.given ≡ orders.old.given + given_in booking }
{
    match booking {
        Booking::Nothing => {}
        Booking::Given(draft) => orders.add(draft),
        Booking::Carried(carried) => orders.carry(carried),
    }
}

/// Takes the last order out, given or carried over, where it is to go.
pub(crate) fn take_order(orders: &mut Orders, is_order: bool)
    requires { is_order ≡ true → 0 < length orders.old.orders }
    ensures orders { orders.new.orders ≡ without_order orders.old.orders is_order }
    ensures given { orders.new.given ≡ orders.old.given - one_if is_order }
{
    if is_order {
        let _last = orders.take_last();
    }
}
