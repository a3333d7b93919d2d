ghost use Rattle.std.specs.Prelude.{◌≡◌, IfOk};

use crate::{BoxedOpening, Settings};
use farm_types::{CommitId, Key, Memory, Moment, Name, Stage};
use std::mem::size_of;
use weight_exact::Verdict;

/// One entry of a farm's history: what was recorded, and at which moment. The place of an entry is its index in the
/// history, from 0.
///
/// It takes 112 bytes, and its name a block of memory beside them, so that a million entries fit a machine.
#[derive(PartialEq, Eq)]
pub struct Entry {
    /// When it was recorded. Along a history moments never fall.
    pub at: Moment,
    /// What was recorded.
    pub what: What,
}

// Written out, so that the crates above cite its proof, and prove none of its fields' drops again.
impl Drop for Entry {
    fn drop(self) {
        let Entry { at: _, what: _ } = self;
    }
}

// Most of a history are leases and reports, so what is large and rare stands on the heap.
const _: () = prove!(size_of::<Entry>() <= 112);

/// What an entry records. Searches, runs and orders are numbered from 1, each in the order of their entries. The
/// numbers of an entry are plain: that they are the next ones is a matter of the history.
#[derive(PartialEq, Eq, Drop)]
pub enum What {
    /// The farm was founded, which is the first entry of each history and of it alone.
    Founded {
        /// What the farm keeps to from then on.
        settings: Settings,
    },
    /// A search was opened.
    Opened(BoxedOpening),
    /// A run was given to a worker.
    Leased {
        /// The key of the request.
        key: Key,
        /// Who is to make the run.
        worker: Name,
        /// The number of the run.
        run: u32,
        /// The search that the run is for.
        search: u32,
        /// What the run is for.
        stage: Stage,
        /// The position to be tested: the base with suspects 1 to this one applied.
        position: u16,
        /// From when on the run may be given to another worker, in milliseconds since 1970-01-01 in UTC. It is later
        /// than the entry by the farm's lease time, and so may lie past the last moment.
        deadline: u64,
    },
    /// A run was reported, for the first time.
    Reported {
        /// The number of the run.
        run: u32,
        /// What the test said.
        verdict: Verdict,
        /// What the report did to the search.
        fate: Fate,
    },
    /// A run was reported, for the first time, as one whose tree can't be tested.
    Skipped {
        /// The number of the run.
        run: u32,
        /// What the report did to the search.
        fate: SkipFate,
    },
    /// A search was cancelled.
    Cancelled {
        /// The key of the request.
        key: Key,
        /// The number of the search.
        search: u32,
    },
    /// An agent was told to revert a culprit that had been confirmed.
    Ordered {
        /// The key of the request.
        key: Key,
        /// Who is to revert the commit.
        agent: Name,
        /// The number of the order.
        order: u32,
        /// The culprit.
        commit: CommitId,
        /// The search that confirmed it.
        search: u32,
        /// The day of the order in the farm's time zone, in days since 1970-01-01.
        day: u32,
    },
    /// An order of a farm before this one. Its commit is ordered no more, and it counts on its day. Such entries stand
    /// right behind the founding, at its moment, and have no number.
    Carried {
        /// The commit that was ordered.
        commit: CommitId,
        /// The day of that order, in days since 1970-01-01.
        day: u32,
    },
    /// The farm was closed: from then on it only shows, and repeats what it answered before. It is the last entry.
    Closed,
}

/// What a report did to its search.
#[derive(Clone, Copy, PartialEq, Eq)]
pub enum Fate {
    /// It counts among the runs of the search, or among the reruns that verify it.
    Counted,
    /// It came when the search had no more use for it. It is recorded, and changes no weight.
    Late,
    /// It would have taken the search past its budget, beyond which weights no longer fit exact numbers. It ended the
    /// search, as inconclusive.
    Over,
}

/// What a report did to its search that says that the run's tree can't be tested.
#[derive(Clone, Copy, PartialEq, Eq)]
pub enum SkipFate {
    /// It closes the run's position: the search runs nothing there any more.
    Taken,
    /// It came when the search had no more use for it. It is recorded, and closes nothing.
    Late,
}

impl Entry {
    /// A copy of the entry, on the allocators of its own parts.
    pub fn copy(&self) -> Result<Entry, Memory>
        ensures { IfOk result (λ entry. entry ≡ self.now) }
    {
        Ok(Entry {
            at: self.at,
            what: self.what.copy()?,
        })
    }
}

impl What {
    fn copy(&self) -> Result<What, Memory>
        ensures { IfOk result (λ what. what ≡ self.now) }
    {
        match self {
            What::Founded { settings } => Ok(What::Founded {
                settings: *settings,
            }),
            What::Opened(opening) => Ok(What::Opened(opening.copy()?)),
            What::Leased {
                key,
                worker,
                run,
                search,
                stage,
                position,
                deadline,
            } => Ok(What::Leased {
                key: *key,
                worker: worker.copy()?,
                run: *run,
                search: *search,
                stage: *stage,
                position: *position,
                deadline: *deadline,
            }),
            What::Reported { run, verdict, fate } => Ok(What::Reported {
                run: *run,
                verdict: *verdict,
                fate: *fate,
            }),
            What::Skipped { run, fate } => Ok(What::Skipped {
                run: *run,
                fate: *fate,
            }),
            What::Cancelled { key, search } => Ok(What::Cancelled {
                key: *key,
                search: *search,
            }),
            What::Ordered {
                key,
                agent,
                order,
                commit,
                search,
                day,
            } => Ok(What::Ordered {
                key: *key,
                agent: agent.copy()?,
                order: *order,
                commit: *commit,
                search: *search,
                day: *day,
            }),
            What::Carried { commit, day } => Ok(What::Carried {
                commit: *commit,
                day: *day,
            }),
            What::Closed => Ok(What::Closed),
        }
    }
}
