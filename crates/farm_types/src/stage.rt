/// What a run of a test is for.
#[derive(Clone, Copy, PartialEq, Eq)]
pub enum Stage {
    /// To find the culprit among the suspects.
    Search,
    /// To confirm the culprit that was found, at it and just below it.
    Verify,
}
