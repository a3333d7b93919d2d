//! The board.
ghost use Rattle.std.specs.Prelude.{
  ◌≡◌,
  ◌≤◌,
  ◌<◌,
  ◌+◌,
  ◌*◌,
  ◌^◌,
  [],
  true,
  false,
  length,
  slice_index,
  slice_set,
  IfOk,
  IfSome,
  IfNone,
  List,
};
ghost use Rattle.farm_entry.specs.Legal.{IsLegal};
ghost use Rattle.farm_entry.specs.Pages.{totals as totals_of};
ghost use Rattle.farm_entry.specs.declared.entry.Entry.{Entry as HistoryEntry};
ghost use Rattle.common_types.specs.Prefix.{IsPrefix, longer};
ghost use Rattle.farm_board.specs.Row.{number_of, numbers_of, totals_from};
ghost use Rattle.farm_board.specs.Rule.{AreOf, IsPosted};
ghost use Rattle.farm_board.specs.Views.{idle, posting, resting};
ghost use Rattle.farm_board.specs.declared.row.TheConstants.{NUMBERS};

use crate::pass::BoardPass;
use crate::row::{
    Begin, Check, End, Meet, NUMBERS, Peek, Posted, Put, PutTogether, Reading, Row, Start, Tell,
    VERSION, View,
};
use atomic_table::{Seat, Shared, Table};
use crossbeam_utils::{Backoff, CachePadded};
use farm_entry::{Entry, Totals};
use farm_types::Memory;
use std::alloc::Global;
use std::marker::{Brand, Model};

/// How often a reader tries, before it answers what it read last.
pub const TRIES: u32 = 64;

/// The totals of a farm, as they were posted last. Contracts see the board as the name of its table, by which a pass
/// is known to be its own.
#[derive(Drop)]
pub struct Board {
    table: CachePadded<Table<(), View, (), Row, Global>>,
}

impl Model for Board {
    ghost use Rattle.std.specs.Prelude.{◌≡◌, ◌+◌};
    ghost use Rattle.atomic_table.specs.Seated.{TableId};
    ghost use Rattle.farm_board.specs.declared.row.TheConstants.{NUMBERS};
    ghost use Rattle.crossbeam_utils.specs.Padded.{padded_value};

    ghost Value = { TableId };

    ghost view = { λ b. (padded_value b.table).shared.table_id };

    ghost invariant = { λ b. ((padded_value b.table).shared.table_id.words ≡ NUMBERS + 1)
        × ((padded_value b.table).shared.table_id.slots ≡ 0) };
}

impl Board {
    /// The board with the totals of a legal history, which is for contracts alone, and the pass that posts.
    pub fn of(
        alloc: Global,
        totals: Totals,
        history: &[Entry],
    ) -> Result<(Board, BoardPass), Memory>
        requires legal { IsLegal history.now }
        requires totals { totals ≡ totals_of history.now }
        ensures pass { IfOk result (λ made. made.1 ≡ record { board = made.0; posts = true; seen = history.now }) }
    {
        let Ok((table, mut seat)) = Table::of_words(alloc, &[0; NUMBERS + 1], &()) else {
            return Err(Memory);
        };
        let board = Board {
            table: CachePadded::new(table),
        };
        board.write::<Brand>(&mut seat, &no_totals(), &totals, history);
        let pass = BoardPass {
            seat,
            posts: true,
            last: totals,
        };
        Ok((board, pass))
    }

    /// Posts the totals of a legal history that begins with the one posted before, and which is for contracts alone.
    /// Where it has no new entry there is nothing to post. It doesn't wait, and takes no memory.
    pub fn post(&self, pass: &mut BoardPass, totals: Totals, history: &[Entry])
        requires own { pass.old.board ≡ self.now }
        requires posts { pass.old.posts ≡ true }
        requires legal { IsLegal history.now }
        requires totals { totals ≡ totals_of history.now }
        requires longer { IsPrefix pass.old.seen history.now }
        ensures pass { pass.new ≡ record { board = self.now; posts = true; seen = history.now } }
    {
        if totals.entries != pass.last.entries {
            let last = pass.last;
            self.write::<Brand>(&mut pass.seat, &last, &totals, history);
            pass.last = totals;
        }
    }

    /// The totals of a legal history that begins with all that the pass has seen, and the pass has then seen that
    /// history. It waits for nobody and takes no memory: where posts come between all of its tries, it answers what it
    /// read last.
    pub fn read(&self, pass: &mut BoardPass) -> Totals
        requires own { pass.old.board ≡ self.now }
        ensures same { (pass.new.board ≡ pass.old.board) × (pass.new.posts ≡ pass.old.posts) }
        ensures longer { IsPrefix pass.old.seen pass.new.seen }
        ensures legal { IsLegal pass.new.seen }
        ensures totals { result ≡ totals_of pass.new.seen }
    {
        if !pass.posts {
            self.renew(pass);
        }
        pass.last
    }

    /// A pass that reads, and has seen as much. It takes no memory.
    pub fn split(&self, pass: &mut BoardPass) -> BoardPass
        requires own { pass.old.board ≡ self.now }
        ensures same { pass.new ≡ pass.old }
        ensures other { result ≡ record { board = self.now; posts = false; seen = pass.old.seen } }
    {
        let seat = self.words().split_seat::<Reading>(&mut pass.seat);
        BoardPass {
            seat,
            posts: false,
            last: pass.last,
        }
    }

    /// Has a pass that reads take in another one: the longer of the two histories, which begins with both. It takes no
    /// memory.
    pub fn join(&self, pass: &mut BoardPass, other: BoardPass)
        requires own { pass.old.board ≡ self.now }
        requires other { other.board ≡ self.now }
        requires reads { (pass.old.posts ≡ false) × (other.posts ≡ false) }
        ensures pass { pass.new ≡ record { board = self.now; posts = false; seen = longer pass.old.seen other.seen } }
        ensures first { IsPrefix pass.old.seen pass.new.seen }
        ensures second { IsPrefix other.seen pass.new.seen }
    {
        let BoardPass {
            seat,
            posts: _,
            last,
        } = other;
        self.put_together(&mut pass.seat, seat);
        if pass.last.entries <= last.entries {
            pass.last = last;
        }
    }

    /// Has the pass that posts take in one that reads: what that one has seen begins the history that was posted last.
    /// It takes no memory.
    pub fn meet(&self, posting: &mut BoardPass, other: BoardPass)
        requires own { posting.old.board ≡ self.now }
        requires other { other.board ≡ self.now }
        requires posts { posting.old.posts ≡ true }
        requires reads { other.posts ≡ false }
        ensures same { posting.new ≡ posting.old }
        ensures seen { IsPrefix other.seen posting.old.seen }
    {
        let BoardPass {
            seat,
            posts: _,
            last: _,
        } = other;
        self.take_in(&mut posting.seat, seat);
    }

    /// The words of the board.
    fn words(&self) -> &Shared<(), View, (), Row>
        ensures own { result.now.table_id ≡ self.now }
        ensures sized { (result.now.table_id.words ≡ NUMBERS + 1) × (result.now.table_id.slots ≡ 0) }
    {
        let table: &Table<(), View, (), Row, Global> = &self.table;
        &table.shared
    }

    /// Reads what is posted, in so many tries.
    fn renew(&self, pass: &mut BoardPass)
        requires own { pass.old.board ≡ self.now }
        requires reads { pass.old.posts ≡ false }
        ensures same { (pass.new.board ≡ pass.old.board) × (pass.new.posts ≡ pass.old.posts) }
        ensures longer { IsPrefix pass.old.seen pass.new.seen }
    {
        let backoff = Backoff::new();
        for _ in 0..TRIES {
            if self.renew_once(pass) {
                return;
            }
            backoff.spin();
        }
    }

    /// One try. False where a post was under way or came between.
    fn renew_once(&self, pass: &mut BoardPass) -> bool
        requires own { pass.old.board ≡ self.now }
        requires reads { pass.old.posts ≡ false }
        ensures same { (pass.new.board ≡ pass.old.board) × (pass.new.posts ≡ pass.old.posts) }
        ensures longer { IsPrefix pass.old.seen pass.new.seen }
    {
        match self.row(&mut pass.seat) {
            Some(row) => {
                pass.last = totals_of_row(&row);
                true
            }
            None => false,
        }
    }

    fn row(&self, seat: &mut Seat<(), View>) -> Option<[u64; NUMBERS]>
        requires own { seat.old.table_id ≡ self.now }
        requires still { seat.old.me ≡ (idle seat.old.me.0.seen, []) }
        ensures own { (seat.new.table_id ≡ seat.old.table_id) × (seat.new.id ≡ seat.old.id) }
        ensures some { IfSome result (λ row. (at : List HistoryEntry) × IsPrefix seat.old.me.0.seen at × IsPosted at
            × (seat.new.me ≡ (idle at, [])) × (length row ≡ NUMBERS) × AreOf number_of at row) }
        ensures none { IfNone result (seat.new.me ≡ seat.old.me) }
    {
        let shared = self.words();
        let version = shared.load::<Begin>(seat, VERSION);
        if version % 2 != 0 {
            return None;
        }
        let mut row = [0u64; NUMBERS];
        for k in 0..NUMBERS {
            row[k] = shared.load::<Peek>(seat, k + 1);
        }
        if shared.load::<Check>(seat, VERSION) == version {
            Some(row)
        } else {
            None
        }
    }

    /// Makes one seat of two that read.
    fn put_together(&self, seat: &mut Seat<(), View>, other: Seat<(), View>)
        requires own { seat.old.table_id ≡ self.now }
        requires other { other.table_id ≡ self.now }
        requires still { seat.old.me ≡ (idle seat.old.me.0.seen, []) }
        requires still_too { other.me ≡ (idle other.me.0.seen, []) }
        ensures own { (seat.new.table_id ≡ seat.old.table_id) × (seat.new.id ≡ seat.old.id) }
        ensures me { seat.new.me ≡ (idle (longer seat.old.me.0.seen other.me.0.seen), []) }
        ensures first { IsPrefix seat.old.me.0.seen (longer seat.old.me.0.seen other.me.0.seen) }
        ensures second { IsPrefix other.me.0.seen (longer seat.old.me.0.seen other.me.0.seen) }
    {
        let shared = self.words();
        shared.join_seat::<PutTogether>(seat, other);
        shared.load::<Tell>(seat, VERSION);
    }

    /// Has the seat that posts take in one that reads.
    fn take_in(&self, seat: &mut Seat<(), View>, other: Seat<(), View>)
        requires own { seat.old.table_id ≡ self.now }
        requires other { other.table_id ≡ self.now }
        requires still { seat.old.me ≡ (resting seat.old.me.0.version seat.old.me.0.seen, []) }
        requires still_too { other.me ≡ (idle other.me.0.seen, []) }
        ensures own { (seat.new.table_id ≡ seat.old.table_id) × (seat.new.id ≡ seat.old.id) }
        ensures me { seat.new.me ≡ seat.old.me }
        ensures seen { IsPrefix other.me.0.seen seat.old.me.0.seen }
    {
        let shared = self.words();
        shared.join_seat::<Meet>(seat, other);
        shared.load::<Tell>(seat, VERSION);
    }

    /// Posts totals, where those of the history before were posted last. A number that stays isn't written again.
    fn write<H: Posted>(
        &self,
        seat: &mut Seat<(), View>,
        last: &Totals,
        totals: &Totals,
        history: &[Entry],
    )
        requires own { seat.old.table_id ≡ self.now }
        requires still { seat.old.me ≡ (resting seat.old.me.0.version seat.old.me.0.seen, []) }
        requires few { seat.old.me.0.version ≤ 2 * length seat.old.me.0.seen }
        requires picked { history.now ≡ H.entries }
        requires legal { IsLegal history.now }
        requires last { last.now ≡ totals_of seat.old.me.0.seen }
        requires totals { totals.now ≡ totals_of history.now }
        requires longer { IsPrefix seat.old.me.0.seen history.now }
        requires more { length seat.old.me.0.seen < length history.now }
        ensures own { (seat.new.table_id ≡ seat.old.table_id) × (seat.new.id ≡ seat.old.id) }
        ensures me { seat.new.me ≡ (resting (seat.old.me.0.version + 2) history.now, []) }
    {
        let shared = self.words();
        let posted = row_of(last);
        let row = row_of(totals);
        let version = shared.fetch_add::<Start>(seat, VERSION, 1);
        for k in 0..NUMBERS {
            self.put(seat, k, posted[k], row[k]);
        }
        shared.compare_exchange::<End<H>>(seat, VERSION, version + 1, version + 2);
    }

    /// Writes the number at a place of the row, where it isn't the one that stands there.
    fn put(&self, seat: &mut Seat<(), View>, place: usize, posted: u64, number: u64)
        requires own { seat.old.table_id ≡ self.now }
        requires posting { seat.old.me ≡ (posting seat.old.me.0.version seat.old.me.0.seen seat.old.me.0.numbers, []) }
        requires sized { length seat.old.me.0.numbers ≡ NUMBERS }
        requires within { place < NUMBERS }
        requires posted { slice_index seat.old.me.0.numbers place ≡ posted }
        ensures own { (seat.new.table_id ≡ seat.old.table_id) × (seat.new.id ≡ seat.old.id) }
        ensures me { seat.new.me ≡ (
          posting seat.old.me.0.version seat.old.me.0.seen
              (slice_set seat.old.me.0.numbers place number),
          [],
        ) }
    {
        if number == posted {
            return;
        }
        self.words().store::<Put>(seat, place + 1, number);
    }
}

/// The totals of a history without entries.
fn no_totals() -> Totals
    ensures { result ≡ totals_of [] }
{
    Totals {
        entries: 0,
        searches: 0,
        searching: 0,
        verifying: 0,
        confirmed: 0,
        ended: 0,
        counted: 0,
        orders: 0,
    }
}

/// Totals as a row.
fn row_of(totals: &Totals) -> [u64; NUMBERS]
    ensures { result ≡ numbers_of totals.now }
{
    [
        totals.entries,
        totals.searches,
        totals.searching,
        totals.verifying,
        totals.confirmed,
        totals.ended,
        totals.counted,
        totals.orders,
    ]
}

/// A row as totals.
fn totals_of_row(row: &[u64; NUMBERS]) -> Totals
    ensures { result ≡ totals_from row.now }
{
    Totals {
        entries: row[0],
        searches: row[1],
        searching: row[2],
        verifying: row[3],
        confirmed: row[4],
        ended: row[5],
        counted: row[6],
        orders: row[7],
    }
}
