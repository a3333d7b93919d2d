//! The head at the front of the bytes held.

use crate::facts::Facts;

/// What the rules look at in a head.
#[derive(Clone, Copy)]
pub(crate) struct Head<'b> {
    pub(crate) method: &'b [u8],
    pub(crate) target: &'b [u8],
    /// How many bytes the head has.
    pub(crate) size: usize,
    /// What its fields say.
    pub(crate) facts: Facts,
    pub(crate) minor: u8,
}
