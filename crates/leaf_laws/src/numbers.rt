//! Values that are made again from their own readers.
ghost use Rattle.std.specs.Prelude.{◌≡◌, ℕ, ◌*◌, None, Some};
ghost use Rattle.flake_rate.specs.Bar.{bar_denominator, bar_numerator};
ghost use Rattle.flake_rate.specs.Limits.{IsMiss, IsRate};
ghost use Rattle.flake_rate.specs.Miss.{FitsRate, miss_denominator, miss_numerator};
ghost use Rattle.flake_rate.specs.Rate.{rate_denominator, rate_numerator};
ghost use Rattle.suspect_range.specs.Faults.{range_fault};
ghost use Rattle.suspect_range.specs.Range.{IsSuspectRange, RangeView};
ghost use Rattle.farm_entry.specs.Ask.{bar_of, fitting, miss_of, rate_of};
ghost use Rattle.farm_entry.specs.Settings.{settings_daily, settings_fault, settings_lease_ms, settings_zone_minutes};

use farm_entry::Settings;
use flake_rate::{Bar, Miss, Rate};

/// A rate, a miss rate and a bar are themselves when they are made of their own numbers; a miss rate that fits a rate
/// still does; and a range and settings are taken again as they are.
pub fn values_are_made_again_from_their_readers()
    ensures rate { (rate : Rate) → rate_of (rate_numerator rate) (rate_denominator rate) ≡ Some rate }
    ensures miss { (miss : Miss) → miss_of (miss_numerator miss) (miss_denominator miss) ≡ Some miss }
    ensures bar { (bar : Bar) → bar_of (bar_numerator bar) (bar_denominator bar) ≡ Some bar }
    ensures fits { (rate : Rate) (miss : Miss) → FitsRate miss rate → fitting rate miss ≡ Some miss }
    ensures range { (range : RangeView) → IsSuspectRange range.base range.suspects range.calm
        → range_fault range.base range.suspects range.calm ≡ None }
    ensures settings { (settings : Settings)
        → settings_fault (settings_lease_ms settings) (settings_daily settings) (settings_zone_minutes settings) ≡ None }
{}

/// A flake rate, and a miss rate, is one however its fraction is spelled within the limits.
pub fn equal_fractions_are_one_rate()
    ensures rate { (a b c d : ℕ) → IsRate a b → IsRate c d → a * d ≡ c * b → rate_of a b ≡ rate_of c d }
    ensures miss { (a b c d : ℕ) → IsMiss a b → IsMiss c d → a * d ≡ c * b → miss_of a b ≡ miss_of c d }
{}
