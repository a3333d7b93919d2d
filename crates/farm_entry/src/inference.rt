//! What an opening says of the inference of its search, and of the commits of its range.

ghost use Rattle.std.specs.Prelude.{◌≡◌, ◌≤◌, length, map, sum, IfOk};
ghost use Rattle.flake_rate.specs.Miss.{FitsRate};
ghost use Rattle.weight_exact.specs.Limits.{ArePriors};
ghost use Rattle.farm_entry.specs.Setup.{budget_of_search, commit_of, setup_of};
ghost use Rattle.farm_entry.specs.Standing.{named_commit};

use crate::{Opening, Standing};
use farm_types::{CommitId, Memory};
use std::alloc::Global;
use suspect_range::Suspect;
use weight_exact::{MAX_PRIOR_TOTAL, MAX_SUSPECTS, MIN_PRIOR_TOTAL, budget};

impl Opening {
    /// The prior weights of its suspects in commit order, as a list of their own. With the calm weight of its range
    /// they are what a belief of the search starts from.
    pub fn weights(&self, alloc: Global) -> Result<Vec<u32>, Memory>
        ensures weights { IfOk result (λ weights. weights.items ≡ map (λ suspect. suspect.weight) self.now.range.suspects) }
        ensures priors { IfOk result (λ weights. ArePriors weights.items self.now.range.calm) }
    {
        self.range.weights(alloc)
    }

    /// The budget of the search, which bounds its load: the greatest for which its exact arithmetic has room.
    pub fn budget(&self) -> u32
        requires told { FitsRate self.now.miss self.now.rate }
        ensures { result ≡ budget_of_search self.now }
    {
        budget(self.prior_total(), self.rate, self.miss)
    }

    /// The sum of its prior weights, that of "no culprit" among them.
    fn prior_total(&self) -> u64
        ensures total { result ≡ sum (setup_of self.now).priors }
        ensures in_range { (MIN_PRIOR_TOTAL ≤ result) × (result ≤ MAX_PRIOR_TOTAL) }
    {
        weights_total(self.range.suspects()) + u64::from(self.range.calm())
    }

    /// The commit at a position of its range; that of the base, where the position lies above the range.
    pub fn commit(&self, position: u16) -> CommitId
        ensures { result ≡ commit_of self.now position }
    {
        if usize::from(position) <= self.range.len() {
            self.range.commit(usize::from(position))
        } else {
            self.range.commit(0)
        }
    }

    /// The commit of the suspect that a standing of the search names, if it names one.
    pub fn named_commit(&self, standing: Standing) -> Option<CommitId>
        ensures { result ≡ named_commit self.now standing }
    {
        match standing {
            Standing::Verifying(culprit)
            | Standing::Confirmed(culprit)
            | Standing::Vindicated(culprit) => Some(self.commit(culprit)),
            _ => None,
        }
    }
}

/// The sum of the weights of suspects.
fn weights_total(suspects: &[Suspect]) -> u64
    requires { length suspects.now ≤ MAX_SUSPECTS }
    ensures { result ≡ sum (map (λ suspect. suspect.weight) suspects.now) }
{
    let weights = suspects.iter().map(|suspect| u64::from(suspect.weight));
    weights.sum()
}
