//! The line of a drill.
ghost use Rattle.std.specs.Prelude.{◌≡◌, [], length, IfOk, Some, string_bytes};
ghost use Rattle.farm_entry.specs.History.{opening_numbered, openings};
ghost use Rattle.farm_entry.specs.Legal.{IsLegal};
ghost use Rattle.farm_entry.specs.Standing.{standing};
ghost use Rattle.farm_entry.specs.declared.opening.Opening.{Opening};
ghost use Rattle.farm_entry.specs.declared.limits.TheConstants.{MAX_SEARCHES};
ghost use Rattle.farm_drill.specs.Line.{IsBelow, drill_line, tally_of, tally_with};

use farm_disk::CalmDisk;
use farm_entry::Standing;
use farm_store::Store;
use farm_types::Memory;
use std::alloc::Global;
use std::fmt;

/// The searches of a farm, by where they stand.
#[derive(Clone, Copy)]
pub struct Tally {
    /// Those with a confirmed culprit.
    pub confirmed: u32,
    /// Those that ended with no culprit.
    pub no_culprit: u32,
    /// All others.
    pub other: u32,
}

/// The numbers of a farm. Their text is the line of a drill, without its line feed.
#[derive(Clone, Copy)]
struct Numbers {
    searches: u32,
    tally: Tally,
    orders: u64,
}

impl fmt::Display for Numbers {
    ghost use Rattle.std.specs.Prelude.{Some};
    ghost use Rattle.farm_drill.specs.Line.{numbers_line};

    ghost output = { λ n. Some (numbers_line n.searches n.tally.confirmed n.tally.no_culprit n.tally.other n.orders) };

    fn fmt<W: fmt::Write>(&self, f: &mut fmt::Formatter<W>) -> fmt::Result {
        let Numbers {
            searches,
            tally,
            orders,
        } = *self;
        let Tally {
            confirmed,
            no_culprit,
            other,
        } = tally;
        write!(
            f,
            "searches {searches} confirmed {confirmed} no-culprit {no_culprit} other {other} orders {orders}"
        )
    }
}

/// The line of the history of a store: the numbers of its searches, of those of each standing, and of its orders.
pub(crate) fn drill_line(alloc: Global, store: &mut Store<CalmDisk>) -> Result<String, Memory>
    requires { store.old.pending ≡ [] }
    ensures line { IfOk result (λ line. string_bytes line ≡ drill_line store.old.history) }
    ensures kept { store.new ≡ store.old }
{
    let searches = searches_count(store);
    let tally = count_standings(store, searches);
    let numbers = Numbers {
        searches,
        tally,
        orders: store.totals().orders,
    };
    Ok(format!(in alloc; "{numbers}\n")?)
}

/// How many searches were opened.
fn searches_count(store: &Store<CalmDisk>) -> u32
    ensures count { result ≡ length (openings store.now.history) }
    ensures legal { IsLegal store.now.history }
{
    let _history = store.history();
    store.totals().searches as u32
}

/// Where all searches stand.
fn count_standings(store: &mut Store<CalmDisk>, searches: u32) -> Tally
    requires decided { store.old.pending ≡ [] }
    requires all { searches ≡ length (openings store.old.history) }
    requires legal { IsLegal store.old.history }
    ensures tally { result ≡ tally_of store.old.history (openings store.old.history) }
    ensures kept { store.new ≡ store.old }
{
    let mut tally = Tally {
        confirmed: 0,
        no_culprit: 0,
        other: 0,
    };
    for before in 0..searches {
        tally.note(standing_of(store, before + 1));
    }
    tally
}

/// Where a search stands that was opened.
fn standing_of(store: &mut Store<CalmDisk>, search: u32) -> Standing
    requires decided { store.old.pending ≡ [] }
    requires opened { (o : Opening) × (opening_numbered store.old.history search ≡ Some o) }
    ensures standing { (o : Opening) → opening_numbered store.old.history search ≡ Some o
        → result ≡ standing store.old.history o }
    ensures kept { store.new ≡ store.old }
{
    match store.standing(search) {
        Some(standing) => standing,
        None => unreachable!(),
    }
}

impl Tally {
    /// Counts one search more, among so many before it.
    fn note(&mut self, standing: Standing)
        requires { IsBelow MAX_SEARCHES self.old }
        ensures { self.new ≡ tally_with self.old standing }
    {
        match standing {
            Standing::Confirmed(_) => self.confirmed += 1,
            Standing::NoCulprit => self.no_culprit += 1,
            _ => self.other += 1,
        }
    }
}
