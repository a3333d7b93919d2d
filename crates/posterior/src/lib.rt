//! The belief of a search: what Bayes' rule says of its suspects after any list of runs, in exact whole numbers.
//!
//! A [`Belief`] is started from prior weights, a flake rate, a miss rate and a bar, and takes runs one by one. Its
//! contracts say what it stands for (`specs/StandsFor.antt`): the plain list of the runs that it was told, by the
//! definitions of `weight_exact`, on which it stands with `flake_rate`. It keeps counts and not runs, so a long search
//! costs no more memory than a short one. The layer above may cite `StandsFor` and the setup, and nothing else of it.
//!
//! A started belief has the setup of its arguments and stands for no runs; so does a cleared one, and clearing takes no
//! memory. A run is over exactly where the load with it is greater than the budget, and then nothing changes; else the
//! belief stands for the list with the run at its end. A run costs at most 2(n + 1) steps for n suspects, and one at or
//! below the floor costs none: a step is a product, or a sum that is read or changed.
#![tactic(auto)]

mod belief;
mod middle;
mod tallies;
mod weigh;
mod weighed;

pub use belief::{Belief, Noted};
