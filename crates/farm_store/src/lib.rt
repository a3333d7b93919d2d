//! A farm whose history stands on a disk: what was answered stays, wherever a crash comes.
//!
//! A [`Store`] is a farm in memory over a journal. A command that records something is answered once its entry is
//! stored in a record of its own, and a list of asks once the new entries of all of them are stored in one record, so
//! that a crash leaves all of these or none. Where the disk fails, it is undecided whether the record was kept: its
//! entries are pending, and the next call begins by finding out, before anything else is decided. Several callers can
//! share a record: the asks of each, a [`Part`], are answered after those of the one before, and what all of them
//! record is stored at once, where their [`most_bytes`] are [`MAX_RECORD_BYTES`] together at most. A caller who needs
//! no reply but the run that it hands out enters a command, which spares the look at the search that the run is for.
//!
//! A store also admits copies of entries that came from elsewhere, all of them in one record, and is created with the
//! farm that such entries make ([`farm_by`]), for a node that follows another one's history.
//!
//! Each call is one settling (repair, decide, record), behind which the decisions of `deciding` differ. What it leaves
//! alone, and what never falls, is one record, `KeepsStore` of `specs/Keeping`.
//!
//! The crate stands on `farm_core` for the farm, on `farm_journal` and `farm_disk` for the records and what a crash may
//! leave of them, and on `entry_codec` for entries as bytes. What the entries of asks take at most is told by the
//! commands' kinds, whose decisions name drafts of `farm_rules` and verdicts of `weight_exact`. The layers above may
//! use every name below; clauses above cite `specs/` (`Bytes`, `Damage`, `State`, `Answering`, `Keeping`, `Together`,
//! `Sizes`, `Entering`, `Opened`, `Founded`, `Closed`, `Admitted`, `Faults`).
#![tactic(auto)]

mod admitting;
mod answering;
mod asking;
mod closing;
mod deciding;
mod founding;
pub mod laws;
mod recording;
mod showing;
mod store;

pub use admitting::{copies, farm_by};
pub use asking::{
    Answers, Ask, CallFault, MAX_BATCH, MAX_BATCH_BYTES, MAX_RECORD_BYTES, MAX_SHORT_ENTRY_BYTES,
    Part, most_bytes,
};
pub use closing::CloseFault;
pub use farm_entry::Answer;
pub use farm_journal::{CreateFault, JournalFault, OpeningFault};
pub use store::Store;
