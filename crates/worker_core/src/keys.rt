//! Where keys come from.
ghost use Rattle.std.specs.Prelude.{◌≡◌, List, Option};
ghost use Rattle.farm_types.specs.declared.key.Key.{Key};
ghost use Rattle.link_io.specs.Telling.{add_told};

use farm_types::Key;

/// A source of keys. It should never give a key that it or another source has given; no contract says so.
///
/// It may tell contracts which keys it has given. One that tells goes on telling, and one that doesn't never will.
pub trait KeySource {
    /// The keys that it has given so far, the newest first, where it tells.
    ghost told: { Self → Option (List Key) };

    /// A key.
    fn next(&mut self) -> Key
        ensures told { told self.new ≡ add_told result (told self.old) };
}
