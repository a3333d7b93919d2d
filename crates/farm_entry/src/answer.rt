//! The answers to commands.

use crate::refusal::Refusal;
use crate::reply::Reply;

/// The answer to a command, for which a refusal is an answer like another.
#[derive(Drop)]
pub enum Answer {
    /// The reply: of the entry that the command made, now or before, or what it shows.
    Done(Reply),
    /// The farm refuses the command.
    Refused(Refusal),
}
