use crate::{Entry, Refusal, Reply};

/// What a command comes to, at a history and a moment. There is one decision on each.
#[derive(Drop)]
pub enum Decision {
    /// The command is refused, and changes nothing.
    Refuse(Refusal),
    /// The command was done before, and made the entry at this place: its first reply is given again.
    Repeat(u32),
    /// The command shows something, and changes nothing.
    Show(Reply),
    /// The command makes this entry the next one.
    New(Entry),
}
