//! The traits through which the program meets the outside. A `Source` gives bytes, a `Sink` takes them, a `Link` is
//! both in one object, a `Network` gives links, and a `Clock` says what moment it is. Their contracts say all that code
//! above may rely on, whatever stands behind them: which bytes a call moved, that a call which failed moved none, that
//! a call on one half of a link keeps what the other half has done, whether the last take found the end, and that each
//! failure is counted. Code above is generic over them and proved once.
//!
//! A network accepts links and makes them, takes each back when it is over, and tells contracts all of that, where it
//! tells: the list of what it did, with what each link had done when it was taken back.
//!
//! The crate stands on `farm_types` for moments, and on `common_types` for counts, notes and moments that are over. The
//! layers above may use
//! - the traits with their answers, `take_piece`, which gives the bytes of one take, and `put_all`, which puts a whole
//!   slice;
//! - `Gathered`, a sink in memory with room for [`GATHERED_BYTES`], in which many short pieces are gathered to go out
//!   to another sink in one put;
//! - `MemSource`, `MemSink` and `MemLink`, which tell their bytes to contracts, and fail at the calls that they are
//!   told to, `MemNetwork`, which gives links in memory, tells all that it did, and fails so too, `MemClock`, which
//!   stands still, and `FaultPlan`, the calls of an object in memory that are to fail;
//! - `InputSource`, `OutputSink` and `StreamLink`, over any reader, writer and stream of the standard library, and
//!   `SystemClock`: the trusted edge, since no contract says which bytes the system itself gives or takes, or what its
//!   clock shows.
//!
//! Clauses above cite `specs/` (`Took`, `Put`, `Intake`, `Links`, `Notes`, `Streams`, `Telling`, `FaultPlan`, `Pieces`,
//! `Events`, `Answers`), and proofs above the lemmas of `proofs/Told`.
#![tactic(auto)]

mod clock;
mod gathered;
mod link;
mod memory;
mod network;
mod sink;
mod source;
mod standard;
mod stream_link;
mod system_clock;

pub use clock::Clock;
pub use gathered::{GATHERED_BYTES, Gathered};
pub use link::Link;
pub use memory::{FaultPlan, MemClock, MemLink, MemNetwork, MemSink, MemSource};
pub use network::{Accepted, Connected, Network};
pub use sink::{Put, PutFault, Sink, put_all};
pub use source::{INPUT_LIMIT, PIECE, Source, TakeFailed, Took, take_piece};
pub use standard::{InputSource, OutputSink};
pub use stream_link::StreamLink;
pub use system_clock::SystemClock;
