//! How much of a message is taken.

/// The greatest length of a head in bytes, with the empty lines before it.
pub const MAX_HEAD_BYTES: usize = 8_192;

/// The greatest number of fields in a head.
pub const MAX_FIELDS: usize = 64;

/// The greatest length of a body in bytes.
pub const MAX_BODY_BYTES: usize = 262_144;
