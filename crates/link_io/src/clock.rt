//! Where moments come from.
ghost use Rattle.std.specs.Prelude.{◌≡◌, Option};
ghost use Rattle.std.specs.Option.{ForSome};
ghost use Rattle.farm_types.specs.declared.moment.Moment.{Moment};

use farm_types::Moment;

/// A clock, which says what moment it is.
///
/// A clock may tell contracts the one moment that it shows. A real one doesn't: what it shows next, nobody knows.
pub trait Clock {
    /// The moments that it may show.
    ghost shows: { Self → Moment → Type 0 };

    /// The one moment that it shows, where the clock tells.
    ghost told: { Self → Option Moment };

    /// The moment that it is.
    fn now(&self) -> Moment
        ensures shown { shows self.now result }
        ensures told { ForSome (told self.now) (λ at. result ≡ at) };
}
