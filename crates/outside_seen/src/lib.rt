//! What contracts see of the outside of a service and of a program: its input, its output, its network, and the disk
//! of its journal.
//!
//! Nothing here runs. `specs/Outside` says what is seen of each, and `proofs/Openings` what a crash leaves as the disk
//! of a journal is opened and then goes on.
//!
//! The crate stands on `net_io`, `link_io` and `farm_disk` for what each tells, and on `farm_journal` and `farm_store`
//! for what opening a journal does to its disk. The layers above may use all of it.
#![tactic(auto)]
