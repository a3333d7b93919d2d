//! How long each thing may last, and how many may wait.

/// How long a connection may take for each thing, in milliseconds, and how many may wait in the lobby.
#[derive(Clone, Copy, Drop)]
pub struct Limits {
    /// How many may wait in the lobby. Where one more comes, the one that has waited longest is closed.
    pub waiting: usize,
    /// How long one may wait there without a byte.
    pub idle_ms: u64,
    /// How long a request may take, from its first byte to its last one.
    pub request_ms: u64,
    /// How long an answer may take, from the first time that its peer doesn't take it.
    pub answer_ms: u64,
    /// How long a connection that is idle may say nothing once no accept follows, and one that was made from here.
    pub last_idle_ms: u64,
    /// How long a connection that is made from here may last in all, with the connect.
    pub exchange_ms: u64,
}

impl Limits {
    /// Up to 10,000 that wait, for 75 seconds without a byte; 30 seconds for a request, and as many for an answer; a
    /// second without a byte once no accept follows; and so long for a connection that is made from here.
    pub fn usual(exchange_ms: u64) -> Limits {
        Limits {
            waiting: 10_000,
            idle_ms: 75_000,
            request_ms: 30_000,
            answer_ms: 30_000,
            last_idle_ms: 1_000,
            exchange_ms,
        }
    }
}

/// How many bytes of a connection that waits are looked at, at most.
pub(crate) const LOOK: usize = 16_384;

/// How many connections are let into the lobby at once, before those that wait there are looked at.
pub(crate) const LET_IN: u32 = 64;

/// How long the listener, or the set, is left alone after it failed, in milliseconds.
pub(crate) const PAUSE_MS: u64 = 100;

/// How often an accept that waits looks for those who have waited too long, in milliseconds.
pub(crate) const SWEEP_MS: u64 = 500;

/// How many of those are looked at, or closed, before others have their turn.
pub(crate) const SWEPT: u32 = 16;

/// How long a link that is idle waits while somebody accepts, in milliseconds, before it looks again whether that is so.
pub(crate) const LOOK_MS: u64 = 1;

/// How long it waits in all, in milliseconds. Then its connection goes back to the lobby, whoever accepts.
pub(crate) const QUIET_MS: u64 = 50;

/// How long one connection is served in a row, in milliseconds, while others wait, though it goes on sending.
pub(crate) const SHARE_MS: u64 = 5;

/// How long a read waits, in milliseconds, before its link looks whether others wait. The system rounds it up.
pub(crate) const READ_MS: u64 = 1;

/// How long a write waits, in milliseconds, before its link looks whether its answer lasts too long.
pub(crate) const WRITE_MS: u64 = 100;

/// How long a wait for the rest of a request lasts, in milliseconds, before its link looks again whether others wait.
pub(crate) const REST_MS: u64 = 100;

/// How long a peer that goes on sending to a connection which is over is listened to, in milliseconds.
pub(crate) const LINGER_MS: u64 = 250;

/// How many reads are made of what it has sent then, at most, before others have their turn.
pub(crate) const LINGER_READS: u32 = 4;
