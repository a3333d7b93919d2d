//! A disk, as a journal sees it: what a read of it gives, and which bytes a crash may leave of it at each moment.
//!
//! A `Disk` tells contracts a log of steps. What a crash may leave, the images, is a definition over that log, so a
//! contract above can speak of every image of every moment of a call, whatever disk stands behind it. The one over a
//! file of the system is in `file_disk`.
//!
//! The crate stands on `common_types`. The layers above may use
//! - the trait `Disk` with its answers `Did`, `Size` and `Written`;
//! - the trait `DatedDisk`, of a disk that gives values for its moments that are over;
//! - `CalmDisk` and `MemDisk`, disks in memory that tell everything; `MemDisk` fails at the calls that it is told to,
//!   and makes images for tests;
//! - `laws`, on what the definitions come to.
//!
//! Clauses above cite `specs/` (`Images`, `Answers`), and proofs above the lemmas of `proofs/Moments` and
//! `proofs/Sound`.
#![tactic(auto)]

mod call;
mod dated;
mod disk;
mod in_memory;
pub mod laws;

pub use call::Call;
pub use common_types::Memory;
pub use dated::DatedDisk;
pub use disk::{Did, Disk, Size, Written};
pub use in_memory::{CalmDisk, DiskFail, MemDisk};
