//! What a rerun came to.

/// What [`Verify::note`](crate::Verify::note) made of a rerun.
#[derive(Clone, Copy)]
pub enum Outcome {
    /// It counted, and the reruns go on.
    Open,
    /// It counted, and now each side has its reruns: the culprit failed whenever it was in, and its parent passed.
    Confirmed,
    /// It counted, and it speaks against the culprit: a pass with it in the tree, or a fail without it.
    Vindicated,
    /// It came after the end, or after its side had its reruns. It doesn't count, and nothing changed.
    Late,
}
