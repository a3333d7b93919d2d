//! What jobs and their answers are to hold to.

/// What holds of a job that is posted, and what an answer says of its job. `K` is what the table was made about, `Q`
/// are the jobs and `A` their answers.
pub trait JobRule<K, Q, A> {
    /// What a job that is posted is.
    ghost may: { K → Q → Type 0 };

    /// What an answer says of its job.
    ghost says: { K → Q → A → Type 0 };
}
