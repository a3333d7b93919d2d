//! The farm as it is kept.

ghost use Rattle.std.specs.Prelude.{◌≡◌, ◌<◌, ◌≤◌, ◌-◌, ◌++◌, ◌∷◌, [], Some, length, take, IfOk, OnOk, OnErr};
ghost use Rattle.std.specs.List.{list_all};
ghost use Rattle.std.specs.Option.{option_copied, option_map};
ghost use Rattle.flake_rate.specs.Miss.{FitsRate};
ghost use Rattle.farm_types.specs.Moment.{moment_ms};
ghost use Rattle.farm_entry.specs.Closing.{begins_at, has_active, is_busy, may_carry, may_close};
ghost use Rattle.farm_entry.specs.Due.{next_run};
ghost use Rattle.farm_entry.specs.History.{all_leases, is_closed, lease_of, leases, opening_in, opening_numbered, openings, order_lines, place_of_key, place_of_report};
ghost use Rattle.farm_entry.specs.Legal.{IsLegal};
ghost use Rattle.farm_entry.specs.Orders.{next_order_at};
ghost use Rattle.farm_entry.specs.Pages.{totals};
ghost use Rattle.farm_entry.specs.Reply.{reply_at};
ghost use Rattle.farm_entry.specs.RunPages.{runs_page};
ghost use Rattle.farm_entry.specs.SearchLines.{search_list};
ghost use Rattle.farm_laws.specs.Laws.{IsNotBefore};
ghost use Rattle.kept_farm.specs.Replying.{reply_with};
ghost use Rattle.search_state.specs.Seen.{seen};

use crate::changes::{search_in, standing_of, with_entry, with_standings};
use crate::entry_kind::kind_of;
use crate::order_places::{lines_at, put_place, take_place};
use crate::replies::{reply_to_lease, reply_to_opening, reply_to_report, reply_to_skip};
use crate::row::Row;
use crate::run_page::{lines_from, run_lines_at, runs_in};
use crate::search_list::search_lines_at;
use common_types::ItemList;
use farm_books::Books;
use farm_entry::{
    DueRun, Entry, LeasedRun, MAX_ENTRIES, Opening, OrderPage, Reply, ReportedRun, RunPage,
    SearchList, Settings, SkippedRun, Standing, Totals, What, last_moment,
};
use farm_ledger::Ledger;
use farm_rules::{Draft, NoOrder};
use farm_state::FarmState;
use farm_types::{CommitId, Key, LAST_DAY, Memory, Moment};
use search_books::SearchPlaces;
use search_state::SearchState;
use std::alloc::Global;
use std::marker::Model;

/// What is kept beside the founding.
const FOUNDED: Row = Row {
    counted: 0,
    orders: 0,
    searches: 0,
    searching: 0,
    verifying: 0,
    confirmed: 0,
    ended: 0,
    standing: Standing::Searching,
};

/// A farm as it is kept: its history, beside each entry its row, the places of the entries that record an order, and
/// those of the entries of each search. Contracts see it as its history.
#[derive(Drop)]
pub struct KeptFarm {
    ledger: Ledger,
    rows: Vec<Row>,
    places: Vec<u32>,
    searches: SearchPlaces,
}

impl Model for KeptFarm {
    ghost use Rattle.std.specs.Prelude.{List};
    ghost use Rattle.farm_entry.specs.declared.entry.Entry.{Entry};

    ghost Value = { List Entry };

    ghost view = { λ farm. farm.ledger };

    ghost use Rattle.kept_farm.specs.KeptInside.{IsKeptFarm};

    ghost invariant = { IsKeptFarm };
}

impl KeptFarm {
    /// A farm that was founded with these settings at this moment.
    ///
    /// # Errors
    ///
    /// [`Memory`].
    pub fn found(alloc: Global, settings: Settings, at: Moment) -> Result<KeptFarm, Memory>
        ensures { IfOk result (λ farm. farm ≡ record { at = at; what = What.Founded settings } ∷ []) }
    {
        let mut rows = Vec::new(alloc);
        rows.push(FOUNDED)?;
        Ok(KeptFarm {
            ledger: Ledger::found(alloc, settings, at)?,
            rows,
            places: Vec::new(alloc),
            searches: SearchPlaces::start(alloc),
        })
    }

    /// The history, which is legal.
    pub fn history(&self) -> &[Entry]
        ensures history { result.now ≡ self.now }
        ensures legal { IsLegal self.now }
    {
        self.books().history()
    }

    /// The history with the state of each search.
    fn state(&self) -> &FarmState
        ensures { result.now ≡ self.now }
    {
        self.ledger.turns().state()
    }

    /// The history with its books.
    fn books(&self) -> &Books
        ensures { result.now ≡ self.now }
    {
        self.state().books()
    }

    // What is looked up.

    /// The place of the entry that holds a key.
    pub fn place_of_key(&self, key: Key) -> Option<u32>
        ensures { result ≡ place_of_key self.now key }
    {
        self.books().place_of_key(key)
    }

    /// The place of the report of a run, with a verdict or not.
    pub fn place_of_report(&self, run: u32) -> Option<u32>
        ensures { result ≡ place_of_report self.now run }
    {
        self.books().place_of_report(run)
    }

    /// The lease of a run.
    pub fn lease_of(&self, run: u32) -> Option<LeasedRun>
        ensures { result ≡ lease_of self.now run }
    {
        self.books().lease_of(run)
    }

    /// How many runs were handed out.
    pub fn leases_count(&self) -> usize
        ensures { result ≡ length (all_leases self.now) }
    {
        self.books().leases_count()
    }

    /// How many searches were opened.
    pub fn searches_count(&self) -> usize
        ensures { result ≡ length (openings self.now) }
    {
        self.state().searches_count()
    }

    /// The search with a number, as it was opened.
    pub fn opening(&self, number: u32) -> Option<&Opening>
        ensures { option_copied result ≡ opening_numbered self.now number }
    {
        self.ledger.opening(number)
    }

    /// The state of the search with a number, if it was opened.
    pub fn search(&self, number: u32) -> Option<&SearchState>
        ensures { option_copied result ≡ option_map (seen self.now) (opening_numbered self.now number) }
    {
        self.state().search(number)
    }

    /// How many runs of the search with a number were handed out, at both stages; none, where no such search was
    /// opened.
    pub fn leases_of(&self, number: u32) -> u32
        ensures { result ≡ length (leases self.now number) }
    {
        self.ledger.leases_of(number)
    }

    // What is to come next.

    /// The run that is handed out next, over all searches, at a moment that is not before the last entry.
    pub fn next_run(&self, moment: Moment) -> Option<DueRun>
        requires { IsNotBefore self.now (moment_ms moment) }
        ensures { result ≡ next_run self.now (moment_ms moment) }
    {
        self.ledger.turns().next_run(moment)
    }

    /// What the next request for an order comes to at a moment: the next order, or why there is none.
    pub fn next_order(&self, moment: Moment) -> Result<Draft, NoOrder>
        ensures { result ≡ next_order_at self.now (moment_ms moment) }
    {
        self.ledger.next_order(moment)
    }

    // Whether it may be closed, and what it may carry over.

    /// Whether the farm was closed: a closing is the last entry of its history.
    pub fn is_closed(&self) -> bool
        ensures { result ≡ is_closed self.now }
    {
        let history = self.history();
        history[history.len() - 1].what.is_closing()
    }

    /// Whether some search goes on.
    fn has_active(&self) -> bool
        ensures { result ≡ has_active self.now }
    {
        let entries = self.history().len();
        let row = &self.rows[entries - 1];
        row.searching > 0 || row.verifying > 0
    }

    /// Whether the farm is busy: a search goes on, or an order is still to be taken. A full farm isn't.
    pub fn is_busy(&self) -> bool
        ensures { result ≡ is_busy self.now }
    {
        let history = self.history();
        history.len() < MAX_ENTRIES && (self.has_active() || self.ledger.has_order_to_take())
    }

    /// Whether a closing may come next at a moment.
    pub fn may_close(&self, at: Moment) -> bool
        ensures { result ≡ may_close self.now at }
    {
        !self.is_closed() && !self.is_busy() && last_moment(at, self.history()).ms() <= at.ms()
    }

    /// Whether the founding and carried orders are all that stands there, at one moment.
    fn is_begun_at(&self, at: Moment) -> bool
        ensures { result ≡ list_all (begins_at at) self.now }
    {
        let history = self.history();
        let carried = self.ledger.carried_count() as usize;
        history.len() == 1 + carried && last_moment(at, history).ms() == at.ms()
    }

    /// Whether a carried order may come next at a moment.
    pub fn may_carry(&self, at: Moment, commit: CommitId, day: u32) -> bool
        ensures { result ≡ may_carry self.now at commit day }
    {
        let history = self.history();
        let begun = self.is_begun_at(at);
        let ordered = self.ledger.has_order(commit);
        history.len() < MAX_ENTRIES && begun && !ordered && day <= LAST_DAY
    }

    // What is shown.

    /// What is counted of the first entries of the history.
    pub fn totals_at(&self, count: usize) -> Totals
        requires some { 0 < count }
        requires within { count ≤ length self.now }
        ensures { result ≡ totals (take count self.now) }
    {
        self.rows[count - 1].totals(count)
    }

    /// All orders, as they are shown.
    ///
    /// # Errors
    ///
    /// [`Memory`].
    pub fn order_page(&self, alloc: Global) -> Result<OrderPage, Memory>
        ensures { IfOk result (λ page. page ≡ order_lines self.now) }
    {
        Ok(OrderPage::of(lines_at(alloc, self.history(), &self.places)?))
    }

    /// The runs of a search from one on, as they are shown: a page of them.
    ///
    /// # Errors
    ///
    /// [`Memory`].
    pub fn runs_page(&self, alloc: Global, opening: &Opening, from: u32) -> Result<RunPage, Memory>
        ensures { IfOk result (λ page. page ≡ runs_page self.now from opening.now) }
    {
        let places = lines_from(runs_in(self.searches.row(opening.search)), from);
        let runs = run_lines_at(alloc, self.books(), opening, places)?;
        Ok(RunPage {
            search: opening.search,
            from,
            runs: ItemList::of(runs),
        })
    }

    /// The searches from a number on, as they are shown: a page of them.
    ///
    /// # Errors
    ///
    /// [`Memory`].
    pub fn search_list(&self, alloc: Global, from: u32) -> Result<SearchList, Memory>
        ensures { IfOk result (λ list. list ≡ search_list self.now from) }
    {
        let rows = lines_from(self.searches.rows(), from);
        let lines = search_lines_at(alloc, &self.ledger, &self.searches, rows)?;
        Ok(SearchList {
            from,
            searches: ItemList::of(lines),
        })
    }

    /// The reply of the entry at a place: the same whatever came later.
    ///
    /// # Errors
    ///
    /// [`Memory`].
    pub fn reply_at(&self, place: usize) -> Result<Option<Reply>, Memory>
        ensures { IfOk result (λ reply. reply ≡ reply_at self.now place) }
    {
        let history = self.history();
        if place >= history.len() {
            return Ok(None);
        }
        self.reply_with(self.rows[place].standing, &history[place].what)
    }

    /// The reply to what an entry records, where the search that it is about stood so then.
    fn reply_with(&self, stood: Standing, what: &What) -> Result<Option<Reply>, Memory>
        requires { (o : Opening) → opening_in what.now ≡ Some o → FitsRate o.miss o.rate }
        ensures { IfOk result (λ reply. reply ≡ reply_with self.now stood what.now) }
    {
        match what {
            What::Founded { .. } | What::Carried { .. } | What::Closed => Ok(None),
            What::Opened(opening) => Ok(Some(reply_to_opening(opening, stood))),
            What::Leased {
                run,
                search,
                stage,
                position,
                deadline,
                ..
            } => {
                let lease = LeasedRun {
                    run: *run,
                    search: *search,
                    stage: *stage,
                    position: *position,
                    deadline: *deadline,
                };
                reply_to_lease(lease, self.opening(*search))
            }
            What::Reported { run, verdict, fate } => {
                let report = ReportedRun {
                    run: *run,
                    verdict: *verdict,
                    fate: *fate,
                };
                Ok(reply_to_report(report, stood, self.lease_of(*run)))
            }
            What::Skipped { run, fate } => {
                let skip = SkippedRun {
                    run: *run,
                    fate: *fate,
                };
                Ok(reply_to_skip(skip, stood, self.lease_of(*run)))
            }
            What::Cancelled { search, .. } => Ok(Some(Reply::Cancelled { search: *search })),
            What::Ordered {
                order,
                commit,
                search,
                day,
                ..
            } => Ok(Some(Reply::Ordered {
                order: *order,
                commit: *commit,
                search: *search,
                day: *day,
            })),
        }
    }

    // One entry more, and one less.

    /// Adds an entry that may come next.
    ///
    /// # Errors
    ///
    /// [`Memory`]. The history stays.
    pub fn push(&mut self, alloc: Global, entry: Entry) -> Result<(), Memory>
        requires { IsLegal (self.old ++ entry ∷ []) }
        ensures pushed { OnOk result (self.new ≡ self.old ++ entry ∷ []) }
        ensures kept { OnErr result (self.new ≡ self.old) }
    {
        let entries = self.rows.len();
        let place = entries as u32;
        let counted = with_entry(self.rows[entries - 1].totals(entries), &entry.what);
        let search = search_in(&self.ledger, &entry.what);
        let before = standing_of(&self.ledger, search);
        let is_order = entry.what.is_order();
        let kind = kind_of(&entry.what);
        self.rows.reserve(1)?;
        self.places.reserve(1)?;
        self.searches.add(alloc, kind, place)?;
        if let Err(memory) = self.ledger.push(alloc, entry) {
            self.searches.take_back(kind, place);
            return Err(memory);
        }
        let after = standing_of(&self.ledger, search);
        let totals = with_standings(counted, before, after);
        let stands = after.unwrap_or(Standing::Searching);
        self.rows.push_reserved(Row::of(totals, stands));
        put_place(&mut self.places, is_order, place);
        Ok(())
    }

    /// Takes the last entry away, which takes no memory.
    pub fn pop(&mut self)
        requires { 1 < length self.old }
        ensures { self.new ≡ take (length self.old - 1) self.old }
    {
        let history = self.history();
        let place = history.len() - 1;
        let what = &history[place].what;
        let is_order = what.is_order();
        let kind = kind_of(what);
        self.ledger.pop();
        let _row = self.rows.pop();
        take_place(&mut self.places, is_order);
        self.searches.take_back(kind, place as u32);
    }
}
