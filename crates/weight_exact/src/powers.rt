//! Products of likelihood numbers to given powers.

ghost use Rattle.std.specs.Prelude.{◌≡◌, ◌+◌, ◌*◌, ◌^◌, ◌<◌, ◌≤◌, IfOk};
ghost use Rattle.weight_exact.specs.Factors.{factors_of};
ghost use Rattle.weight_exact.specs.Powers.{count_of, product};

use crate::Memory;
use crate::factors::Factors;
use crate::power_table::PowerTable;
use crate::steps::Steps;
use flake_rate::{Miss, Rate};
use std::alloc::Global;
use std::marker::Model;
use std::sync::ledger::Ledger;

/// How many runs there are of each kind: failed or passed, with the culprit of a hypothesis in the tree or out of it.
#[derive(Clone, Copy)]
pub struct Counts {
    /// Fails with the culprit in.
    pub fail_in: u32,
    /// Fails with the culprit out.
    pub fail_out: u32,
    /// Passes with the culprit in.
    pub pass_in: u32,
    /// Passes with the culprit out.
    pub pass_out: u32,
}

/// The powers of the four likelihood numbers of a search, as tables, so that a product over all of its runs takes four
/// multiplications. A contract sees the four numbers, and to how many of them together they serve: the budget.
#[derive(Drop)]
pub struct Powers {
    fail_in: PowerTable,
    fail_out: PowerTable,
    pass_in: PowerTable,
    pass_out: PowerTable,
    budget: u32,
}

impl Model for Powers {
    ghost use Rattle.weight_exact.specs.Powers.{PowersOf};

    ghost Value = { PowersOf };

    ghost use Rattle.weight_exact.specs.PowersInside.{served, AreServed};

    ghost view = { served };

    ghost invariant = { AreServed };
}

impl Powers {
    /// The powers of the numbers of these two rates, for counts that come to at most `budget` together, as the load of
    /// a search does. Any budget will do: a table holds no more than 128 powers.
    ///
    /// # Errors
    ///
    /// [`Memory`], where the tables can't be had.
    pub fn of(alloc: Global, rate: Rate, miss: Miss, budget: u32) -> Result<Powers, Memory>
        ensures { IfOk result (λ powers. powers ≡ record { factors = factors_of rate miss; budget = budget }) }
    {
        let factors = Factors::of(rate, miss);
        Ok(Powers {
            fail_in: PowerTable::of(alloc, factors.fail_in, budget)?,
            fail_out: PowerTable::of(alloc, factors.fail_out, budget)?,
            pass_in: PowerTable::of(alloc, factors.pass_in, budget)?,
            pass_out: PowerTable::of(alloc, factors.pass_out, budget)?,
            budget,
        })
    }

    /// `x` times the four likelihood numbers to the powers of these counts, at the cost of one step.
    pub fn times<L: Ledger>(&self, x: u128, counts: Counts, steps: &mut Steps<L>) -> u128
        requires together { count_of counts ≤ self.now.budget }
        requires fits { product self.now.factors x counts < 2 ^ 128 }
        ensures value { result ≡ product self.now.factors x counts }
        ensures cost { steps.new ≡ steps.old + 1 }
    {
        steps.tick();
        // A product of 0 may have other factors that leave 128 bits. Else each factor is at most the product.
        if x == 0 || self.pass_in.vanishes(counts.pass_in) {
            return 0;
        }
        x * self.fail_in.power(counts.fail_in)
            * self.fail_out.power(counts.fail_out)
            * self.pass_in.power(counts.pass_in)
            * self.pass_out.power(counts.pass_out)
    }
}
