//! What words are matched.

/// A command with the words that follow its name.
#[derive(Clone, Copy)]
pub enum Matched<'a> {
    /// `judge`.
    Judge,
    /// `run`.
    Run,
    /// `run JOURNAL`.
    RunJournal {
        /// The journal's path.
        journal: &'a str,
    },
    /// `found JOURNAL LEASE_MS DAILY ZONE`.
    Found {
        /// The journal's path.
        journal: &'a str,
        /// How long a lease lasts.
        lease_ms: &'a str,
        /// How many orders a day may have.
        daily: &'a str,
        /// Where the farm's time zone lies.
        zone: &'a str,
    },
    /// `show JOURNAL`.
    Show {
        /// The journal's path.
        journal: &'a str,
    },
    /// `audit`.
    Audit,
    /// `serve JOURNAL ADDRESS HANDLERS LINKS`.
    Serve {
        /// The journal's path.
        journal: &'a str,
        /// The address at which it serves.
        address: &'a str,
        /// How many threads serve.
        handlers: &'a str,
        /// How many connections are accepted.
        links: &'a str,
    },
    /// `work ADDRESS WORKER RUNS RUNNER`.
    Work {
        /// The address of the service.
        address: &'a str,
        /// The worker's name.
        worker: &'a str,
        /// How many runs are leased at most.
        runs: &'a str,
        /// What runs the tests.
        runner: &'a str,
    },
    /// `rates JOURNAL`.
    Rates {
        /// The journal's path.
        journal: &'a str,
    },
    /// `drill SEARCHES WORKERS`.
    Drill {
        /// How many searches the drill opens.
        searches: &'a str,
        /// How many workers it has.
        workers: &'a str,
    },
    /// `follow JOURNAL ADDRESS ROUNDS`.
    Follow {
        /// The path of the copy.
        journal: &'a str,
        /// The address of the service.
        address: &'a str,
        /// How often it asks at most.
        rounds: &'a str,
    },
    /// `evidence JOURNAL SEARCH`.
    Evidence {
        /// The journal's path.
        journal: &'a str,
        /// The number of the search.
        search: &'a str,
    },
    /// `close JOURNAL`.
    Close {
        /// The journal's path.
        journal: &'a str,
    },
    /// `inherit JOURNAL LEASE_MS DAILY ZONE`.
    Inherit {
        /// The journal's path.
        journal: &'a str,
        /// How long a lease lasts, in milliseconds.
        lease_ms: &'a str,
        /// How many orders a day may have.
        daily: &'a str,
        /// How far the farm's zone lies east or west of UTC.
        zone: &'a str,
    },
}
