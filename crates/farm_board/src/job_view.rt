//! What the seats of the table know, and what lies in its slots. No value of a view is ever made.

/// What a seat knows.
pub struct View<K, Q> {
    /// What the table was made about.
    pub key: K,
    /// What the seat does.
    pub part: SeatPart<Q>,
}

/// What a seat does, with which slot.
pub enum SeatPart<Q> {
    /// Nothing.
    Idle,
    /// It has the slot for itself: it is about to post a job there, or it has its job or the answer back.
    Claims(usize),
    /// It posted the job there.
    Asks(usize, Q),
    /// It took the job from there, and is to answer it.
    Helps(usize, Q),
}

/// What lies in a slot that isn't empty.
#[derive(Drop)]
pub enum Slot<Q, A> {
    /// A job that is posted.
    Job(Q),
    /// The answer to the job that was posted there.
    Answer(A),
}
