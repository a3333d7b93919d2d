use thiserror::Error;
use weight_exact::{MAX_CALM, MAX_SUSPECTS, MAX_WEIGHT};

/// Why suspects make no range. Where several causes stand, the first in this order is answered. Positions count the
/// suspects from 1, since the base has position 0.
#[derive(Clone, Copy, Debug, Error)]
pub enum RangeFault {
    /// There is no suspect.
    #[error("there is no suspect")]
    NoSuspects,
    /// There are this many suspects, more than [`MAX_SUSPECTS`].
    #[error("{0} suspects are more than {max}", max = MAX_SUSPECTS)]
    TooManySuspects(usize),
    /// The suspect at this position is the first whose weight is outside 1 to [`MAX_WEIGHT`].
    #[error("the weight of suspect {0} is outside 1 to {max}", max = MAX_WEIGHT)]
    WeightRange(usize),
    /// This calm weight is outside 1 to [`MAX_CALM`].
    #[error("the calm weight {0} is outside 1 to {max}", max = MAX_CALM)]
    CalmRange(u32),
    /// There was no memory. [`SuspectRange::of`](crate::SuspectRange::of) takes none and never answers this; calls that
    /// build a range from something else may.
    #[error("out of memory")]
    Memory,
    /// The suspect at this position is the first whose commit is the base or an earlier suspect's.
    #[error("the commit of suspect {0} is the base or an earlier suspect's")]
    RepeatedCommit(usize),
}
