//! What a disk in memory tells of a call.
use std::snapshot::Snapshot;

/// What a call of a disk did, as its log keeps it for contracts.
#[derive(Drop)]
pub enum Call {
    /// It changed nothing.
    Still,
    /// It wrote so many bytes at an offset, or failed to: the offset, and the number of bytes.
    Write(u64, u64),
    /// It cut the bytes off behind a size, or failed to.
    Cut(u64),
    /// It synced the bytes that a read gave then.
    Sync(Snapshot<Vec<u8>>),
}
