//! The farm's definitions as a slow and obvious program over a list of entries.
//!
//! Each definition of `farm_entry` that a farm has to compute is one function of the same name, whose contract is that
//! definition, exactly: it scans the history anew each time, and keeps no index and no cache. Running out of memory is
//! the only other answer. The crate is the reference of every faster body, and [`first_illegal`]
//! decides whether a list of entries that came from elsewhere is a history that a farm can have. That call goes
//! through the list once, and keeps a row of each search from entry to entry: the same functions then read the runs,
//! the plan, the leases and the standing of a search off its row, where one is there, in place of a scan. Of the orders
//! that a farm carries over it keeps a book. Neither is kept for the other calls.
//!
//! Most calls speak of legal histories, and of searches that were opened in them: the laws of `farm_laws` give what a
//! belief asks for, that runs are in range and within the budget. [`first_illegal`] takes any list.
//!
//! It stands on `plain_history` for what a history holds, on `farm_entry` for the types and the definitions, on
//! `posterior`, `threshold_pick` and `farm_rules` for the belief of a search, the positions that were skipped, the
//! position to run next and the day of a moment, and on the crates below them for values. The layer above may use every
//! name below, and none of its lemmas.
#![tactic(auto)]

mod beginning;
mod closing;
mod decision_known;
mod decision_new;
mod decisions;
mod due_run;
mod kept;
mod legal;
mod orders;
mod pages;
mod reply;
mod rows;
mod run_page;
mod search_lines;
mod standings;

pub use closing::is_busy;
pub use decisions::decide;
pub use due_run::{due, due_runs, is_open, next_run, open_leases, outstanding_positions, plan};
pub use legal::{first_illegal, is_next};
pub use orders::{confirmed_searches, day_in, next_order_at};
pub use pages::{order_page, page_of, shares_of, totals, untestable_of};
pub use reply::{reply_at, reply_to};
pub use run_page::runs_page;
pub use search_lines::search_list;
pub use standings::{belief, belief_after, first_belief, skips, standing};
