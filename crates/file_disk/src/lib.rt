//! A disk over a file of the system: `FileDisk` is a `Disk`. It is a trusted edge, of which contracts are told nothing
//! but its path and its count of faults, since no contract says what a real file keeps.
//!
//! The crate stands on `farm_disk`, on `common_types`, and on `farm_journal` for the limits of the layout. The program
//! puts a `FileDisk` in place where it is generic over disks. The layers above may use
//! - `FileDisk`, and `Opening`, what its file is opened for;
//! - `DiskFile`, the calls that it makes of a file, with `Access`, so that a test may stand in for the system; and
//!   `SystemFile`, those of the system.
#![tactic(auto)]

mod disk;
mod extent;
mod file;
mod opening;
mod system_file;
mod unsynced;
mod written;

pub use disk::FileDisk;
pub use file::{Access, DiskFile};
pub use opening::Opening;
pub use system_file::SystemFile;
