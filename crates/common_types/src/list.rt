//! A list for contracts alone.
ghost use Rattle.std.specs.Prelude.{◌≡◌, [], ◌∷◌};

use std::marker::Model;
use std::snapshot::Snapshot;

/// What was told so far. Contracts see it as a list, the newest first. It keeps no item: whatever was told, it takes
/// the bytes of a flag, and telling needs no memory. So a call that has no answer for running out of memory can tell,
/// too.
#[derive(Drop)]
pub struct ToldList<T> {
    newest: Option<(Snapshot<T>, Snapshot<ToldList<T>>)>,
}

impl<T> Model for ToldList<T> {
    ghost use Rattle.std.specs.Prelude.{List, ℕ, length};
    ghost use Rattle.common_types.specs.Contents.{told};

    ghost Value = { List T };

    ghost view = { λ l. told l.newest };

    ghost size = { length };

    ghost use Rattle.std.proofs.Common.{arith, length-append};

    ghost size_decreases = { λ a h. Prim.grind (arith, length-append) };
}

impl<T> ToldList<T> {
    /// A list to which nothing was told.
    pub fn new() -> ToldList<T>
        ensures { result ≡ [] }
    {
        ToldList { newest: None }
    }

    /// Tells one more.
    pub fn tell(&mut self, item: &T)
        ensures { self.new ≡ item.now ∷ self.old }
    {
        let before = Snapshot::of(&*self);
        self.newest = Some((Snapshot::of(item), before));
    }
}
