//! The row of a board: what its seats know, its rule, and what each kind of step tells.
ghost use Rattle.std.specs.Prelude.{List, [], ℕ};
ghost use Rattle.farm_entry.specs.declared.entry.Entry.{Entry};
ghost use Rattle.farm_board.specs.Row.{number_of, row_of};
ghost use Rattle.farm_board.specs.Rule.{IsKept};
ghost use Rattle.farm_board.specs.Steps.{Begins, Checks, Ends, Peeks, Puts, Starts, Tells};
ghost use Rattle.farm_board.specs.Views.{idle, met, put_together, resting, spent};

use atomic_table::{Join, Play, Split, TableRule};
use farm_entry::Entry;
use std::collections::LinkedList;
use std::marker::{Brand, PhantomData};

/// The word that has the version: even where the numbers are those of one history, and odd while they are being
/// written.
pub const VERSION: usize = 0;

/// How many numbers the totals are. They stand in the words after the version.
pub const NUMBERS: usize = 8;

/// What a seat knows. No value of it is ever made.
pub struct View {
    /// Whether it is the seat that posts.
    pub posts: bool,
    /// Whether it is in the middle of a post.
    pub writes: bool,
    /// Whether it is in the middle of a look at the numbers.
    pub reads: bool,
    /// The version: the one that stands there, of the seat that posts, and of one that reads the one it began with.
    pub version: u64,
    /// A history that it has seen.
    pub seen: LinkedList<Entry>,
    /// The history whose totals stood there when it began to read.
    pub at: LinkedList<Entry>,
    /// The numbers that it has read so far, or, in the middle of a post, those that stand in the row.
    pub numbers: LinkedList<u64>,
    /// What two seats had seen that were joined to this one, until it is told how they go together.
    pub joined: Option<(LinkedList<Entry>, LinkedList<Entry>)>,
}

/// The rule.
pub struct Row;

impl TableRule<(), View, ()> for Row {
    ghost holds = { λ _. IsKept number_of };

    ghost first = { λ _. resting 0 [] };
}

/// A look at the version, with which a reading begins where it is even.
pub struct Begin;

impl Play<(), View> for Begin {
    ghost then = { Begins };
}

/// A look at a number.
pub struct Peek;

impl Play<(), View> for Peek {
    ghost then = { Peeks };
}

/// A second look at the version, which tells what was read where it is the same.
pub struct Check;

impl Play<(), View> for Check {
    ghost then = { Checks number_of };
}

/// The version becomes odd.
pub struct Start;

impl Play<(), View> for Start {
    ghost then = { Starts row_of };
}

/// A number is written.
pub struct Put;

impl Play<(), View> for Put {
    ghost then = { Puts };
}

/// A history that the caller of a function picks.
pub trait Posted {
    ghost entries: { List Entry };
}

impl Posted for Brand {
    ghost entries = { [] };
}

/// The version becomes even, and the numbers are those of the history.
pub struct End<H> {
    marker: PhantomData<H>,
}

impl<H: Posted> Play<(), View> for End<H> {
    ghost then = { Ends H.entries };
}

/// A seat is split off that reads, and has seen as much.
pub struct Reading;

impl Split<View> for Reading {
    ghost left = { λ v. v };

    ghost right = { λ v. idle v.seen };
}

/// Two seats that read become one.
pub struct PutTogether;

impl Join<View> for PutTogether {
    ghost both = { put_together };

    ghost spent = { spent };
}

/// The seat that posts takes in one that reads.
pub struct Meet;

impl Join<View> for Meet {
    ghost both = { met };

    ghost spent = { spent };
}

/// The one seat that two became is told how what they had seen goes together.
pub struct Tell;

impl Play<(), View> for Tell {
    ghost then = { Tells };
}
