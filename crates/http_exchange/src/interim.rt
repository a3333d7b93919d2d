//! The statuses that a reader of responses tells apart.

/// The status of an interim response, which another one follows (RFC 9110, section 15.2.1). It has no body.
pub const INTERIM_STATUS: u16 = 100;
