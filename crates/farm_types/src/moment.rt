ghost use Rattle.std.specs.Prelude.{◌≡◌, ◌↔◌, IsOk, IfOk, IfErr};
ghost use Rattle.farm_types.specs.Limits.{IsMoment};

use thiserror::Error;

/// The earliest moment, 1970-01-02 in UTC, in milliseconds since 1970-01-01. The day before it is left out, so that a
/// time zone west of UTC has no day before day 0.
pub const MOMENT_MIN_MS: u64 = 86_400_000;

/// The latest moment, 2100-01-01 in UTC, in milliseconds since 1970-01-01.
pub const MOMENT_MAX_MS: u64 = 4_102_444_800_000;

/// The last day that a moment can fall on in any time zone, 2100-01-01, in days since 1970-01-01.
pub const LAST_DAY: u32 = 47_482;

/// A moment in time: milliseconds since 1970-01-01 in UTC with no leap seconds, from [`MOMENT_MIN_MS`] to
/// [`MOMENT_MAX_MS`]. Moments are ordered as their numbers are.
#[derive(Clone, Copy, PartialEq, Eq)]
pub struct Moment {
    ms: u64,
    ghost in_range: { IsMoment ms },
}

/// The number that is no moment, since it lies before [`MOMENT_MIN_MS`] or after [`MOMENT_MAX_MS`].
#[derive(Clone, Copy, Debug, Error)]
#[error("{0} ms after 1970-01-01 is no moment, which is at {min} to {max} ms", min = MOMENT_MIN_MS, max = MOMENT_MAX_MS)]
pub struct MomentFault(pub u64);

impl Moment {
    ghost use Rattle.farm_types.specs.Moment.{moment_ms};

    /// The moment that lies `ms` milliseconds after 1970-01-01, or that number where it is outside the limits.
    pub fn of(ms: u64) -> Result<Moment, MomentFault>
        ensures taken { IsOk result ↔ IsMoment ms }
        ensures kept { IfOk result (λ moment. moment_ms moment ≡ ms) }
        ensures refused { IfErr result (λ fault. fault.0 ≡ ms) }
    {
        if (MOMENT_MIN_MS..=MOMENT_MAX_MS).contains(&ms) {
            Ok(Moment { ms })
        } else {
            Err(MomentFault(ms))
        }
    }

    /// Its milliseconds since 1970-01-01 in UTC.
    pub fn ms(&self) -> u64
        ensures number { result ≡ moment_ms self.now }
        ensures in_range { IsMoment result }
    {
        self.ms
    }
}
