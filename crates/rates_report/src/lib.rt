//! What a farm's history tells of the flake rates of its tests, as the lines that the program writes: how often each
//! test failed at trees that turned out to be sound.
//!
//! A search without a culprit says that all its runs were made at sound trees, and one whose culprit is confirmed says
//! so of its runs and reruns below it. [`FlakeBook`] is noted the entries of a history one by one, and offers a rate
//! for each test; contracts see it as the list of the entries noted. `specs/Tally` says what a test's tally, its
//! offered rate and the tests are, over a whole history.
//!
//! A history is played again in a farm of its own (`farm_core`), which says after each entry where its search stands,
//! and is noted in a book; `rate` writes the line of a test. The layer above may use [`rates_text`], whose text is that
//! of `specs/RateLines` over the whole history.
//!
//! The crate stands on `farm_core`, on `farm_entry` for entries and the definitions of the farm, on `flake_rate` for
//! the rate that is offered, and on `common_types` for what contracts alone see; its proofs stand on `search_state` and
//! on `farm_laws`.
#![tactic(auto)]

mod book;
pub mod laws;
mod notes;
mod object;
mod offer;
mod rate;
mod replay;
mod telling;
mod text;

pub use book::FlakeBook;
pub use replay::book_of;
pub use text::rates_text;
