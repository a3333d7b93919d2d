//! What callers of one farm share beside its lock: the board of its totals, which any number of others read without
//! waiting, and the table of jobs that one caller posts and another does.
//!
//! A [`Board`] is a row of words with a version, which is odd while the row is being written. One caller posts the
//! totals. A reader takes the numbers between two looks at the version, and tries again where a post came between;
//! after some tries it answers what it read last. So `read` takes no handle of the runtime: it can't wait, and always
//! answers. Each [`BoardPass`] knows a history that it has seen, and what it reads are the totals of a legal history
//! that begins with it. That a reader sees what was posted since is shown by a test alone. Contracts see a board as the
//! name of its table, and a pass as a `Reader` of `specs/Reader`.
//!
//! A [`JobTable`] has a slot for each job that is under way. `post` puts a job into one that is free, and gives a
//! [`Posted`], with which the caller later fetches the answer, or takes the job back as long as nobody has taken it.
//! `take` takes a job that is posted, and gives a [`Taken`], with which it is answered. What a job has to be, and what
//! an answer says of its job, is a [`JobRule`], which may speak of what the table was made about. No job is lost or
//! taken twice, and an answer is that of the caller's own job. What holds between any two steps, of all threads
//! together, is one definition, `specs/JobRules`, and `proofs/KeepsJobs` shows it of each kind of step by a lemma.
//! Contracts see a table as a `Jobs` of `specs/Jobs`, its name and what it was made about, and a [`Posted`] and a
//! [`Taken`] as a `JobOf`, the table and the job.
//!
//! None of the calls on jobs waits. A caller that waits for its answer does so at the bell of its job (`bells`), which
//! `answer` rings, and `ring_next` where somebody is to look after its job itself. That an answer comes isn't proved.
//!
//! The crate stands on `farm_entry` for totals and histories, on `common_types` for prefixes, on `atomic_table` for
//! words and slots under a rule, and on `crossbeam_utils` for waiting, which also keeps the board away from what its
//! neighbours write and spaces the tries of a reader. The layers above may use every name below, and the definitions of
//! `specs/Jobs`.
#![tactic(auto)]

mod bells;
mod board;
mod job_rule;
mod job_steps;
mod job_view;
mod jobs;
mod pass;
mod posted;
mod row;
mod taken;

pub use board::Board;
pub use job_rule::JobRule;
pub use jobs::{JobTable, SLOTS};
pub use pass::BoardPass;
pub use posted::Posted;
pub use taken::Taken;
