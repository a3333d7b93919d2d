//! What a turn left.

/// So many entries of a history stand on the disk at this moment, and in whatever a crash leaves of it since. For
/// contracts alone: no value of it is ever made.
pub struct Row {
    /// How many entries.
    pub entries: u64,
    /// The moment: how many steps of the disk were done.
    pub moment: u64,
}
