//! Laws of this crate's definitions. Each function does nothing: its contract is the law.

ghost use Rattle.std.specs.Prelude.{◌≡◌, ◌≤◌, ℕ};
ghost use Rattle.flake_rate.specs.Limits.{IsRate};
ghost use Rattle.rates_report.specs.Tally.{lowest, offered};

/// What is offered for a tally is within the limits of a flake rate.
pub fn offers_are_rates()
    ensures { (fails runs : ℕ) → fails ≤ runs → let offer = offered fails runs in IsRate offer.0 offer.1 }
{}

/// What is offered at the limits: a quarter for two passes, no less than a thousandth, the greatest denominator, and
/// thousandths above it.
pub fn worked_offers()
    ensures passes { lowest (offered 0 2) ≡ (1, 4) }
    ensures none { lowest (offered 0 0) ≡ (1, 2) }
    ensures greatest { lowest (offered 0 998) ≡ (1, 1000) }
    ensures least { lowest (offered 0 1998) ≡ (1, 1000) }
    ensures rounded { lowest (offered 2 2998) ≡ (1, 1000) }
    ensures all_failed { lowest (offered 999 999) ≡ (999, 1000) }
{}
