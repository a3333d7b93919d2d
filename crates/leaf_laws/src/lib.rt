//! Laws on which no code stands: of the inference, of values, of every legal history, of workers that serve a farm, of
//! evidence, of farms that follow one another, and of what a farm, a worker and a follower send each other; and farms
//! that are played by evaluating the definitions. A function here does nothing: its contract is the law.
//!
//! Of the inference they say what holds of likelihoods, weights, shares, budgets and plans, over every list of runs.
//! `specs/Plain` has the table that is not in lowest terms, `specs/Example` a small search. Of values: the digits of
//! commit ids, the numbers of rates, ranges and settings, and the texts of days.
//!
//! Of every legal history they say what a farm decides, where its searches stand, what their leases, reruns and orders
//! are, and what the totals come to; most say both ways: where it is so, and only there. `specs/Causes` says for each
//! refusal what a history holds where it comes, without the order in which the definition looks at things,
//! `specs/Spelled` which opens differ in the spelling of their rates alone, and `specs/Stands` of each standing what a
//! history holds where a search stands so.
//!
//! [`workers`] has the law of workers that serve a farm over a network which may lose, repeat and reorder whatever is
//! sent. `specs/World` says what there is, `specs/Workers` and `specs/Happenings` what may happen, and `specs/Given`
//! what a runner said of a run.
//!
//! [`evidence`] has the law that `judge` says of the lines that `search_evidence` writes of a search what the farm's
//! page says. So anyone can judge a search anew, by another program, from nothing but its runs. `specs/Judgements` says
//! what judge is asked by the evidence, and what it answers.
//!
//! [`succession`] has the law that over a chain of farms, each of which follows the one before it, each commit is
//! ordered once, for good, and no day has more orders than its limit. `specs/Chain` says what a chain of farms is. That
//! the lines which a closed farm writes are those that the next one carries over is a law of `farm_handover`.
//!
//! What one side writes, the other reads as it was meant: [`sent_leases`] has the laws of the farm's answers to a
//! request for a run, [`sent_requests`] those of a worker's requests, [`sent_pages`] those of a follower's ask and of a
//! page of the log. `specs/Sent` says what one request alone on a connection is, `specs/LeaseNumbers` which numbers a
//! lease has.
//!
//! [`worked`] has farms that are played: numbers that were worked out by hand, and that the definitions compute.
//!
//! The crate stands on the crates whose definitions the laws speak of, those of both sides of a connection among them,
//! and on the lemmas of `farm_laws`, which has the laws that its lemmas alone give. Nothing stands on it but readers.
#![tactic(auto)]

mod dates;
mod entries;
pub mod evidence;
mod ids;
mod numbers;
mod orders;
mod outstanding;
mod playing;
mod refusals;
mod repeats;
mod reruns;
pub mod sent_leases;
pub mod sent_pages;
pub mod sent_requests;
mod standings;
pub mod succession;
mod totals;
mod weights;
pub mod worked;
pub mod workers;

pub use dates::days_and_their_texts_go_together;
pub use entries::{each_key_stands_once, each_run_is_reported_once};
pub use ids::ids_are_written_in_lower_case;
pub use numbers::{equal_fractions_are_one_rate, values_are_made_again_from_their_readers};
pub use orders::{orders_are_few, orders_are_for_confirmed_culprits};
pub use outstanding::{
    due_runs_go_by_outstanding_leases, expired_leases_stay_expired,
    leases_are_open_until_their_deadline, skipped_positions_are_never_leased_again,
};
pub use playing::played_histories_are_legal;
pub use refusals::refusals_have_their_causes;
pub use repeats::{
    entries_past_the_founding_are_repeated, repeats_are_of_the_same_command,
    repeats_hold_for_all_that_ask_the_same,
};
pub use reruns::{reruns_are_those_of_a_verification, verifications_keep_their_suspect};
pub use standings::{
    beliefs_decide_standings, entries_end_searches, named_suspects_stand_by_their_reruns,
};
pub use totals::{
    orders_are_at_most_the_confirmed_searches, standings_add_up_to_the_searches,
    what_is_shown_does_not_depend_on_the_moment,
};
pub use weights::{
    a_pass_clears, at_most_one_reaches_the_bar, likelihood_numbers_of_rates,
    only_parts_of_the_total_count, plain_table_gives_the_same, plan_is_nearest,
    there_is_one_budget, total_is_positive, worked_numbers,
};
