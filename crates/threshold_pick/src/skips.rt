//! The positions that were skipped.

ghost use Rattle.std.specs.Prelude.{◌≡◌, ◌↔◌, ◌+◌, ◌≤◌, ℕ, [], ◌∷◌, ◌++◌, IsTrue, IfOk};
ghost use Rattle.std.specs.List.{filter, range_with_len};
ghost use Rattle.weight_exact.specs.declared.limits.TheConstants.{MAX_SUSPECTS};
ghost use Rattle.threshold_pick.specs.Open.{is_skipped};
ghost use Rattle.threshold_pick.specs.HiddenBlocks.{first_at, last_below};

use common_types::ToldList;
use std::alloc::Global;
use std::marker::Model;
use weight_exact::{MAX_SUSPECTS, Memory};

/// How many words of 64 bits have a bit for each position: for the suspects of a search, and for the base.
const WORDS: usize = MAX_SUSPECTS / 64 + 1;

/// The positions of a search that were skipped, as their trees can't be tested. Contracts see them as a list, in the
/// order in which they were skipped; one that was skipped twice stands there twice.
///
/// All room is taken with the value, and none later.
#[derive(Drop)]
pub struct Skips {
    words: [u64; WORDS],
    is_empty: bool,
    told: ToldList<u16>,
}

impl Model for Skips {
    ghost use Rattle.std.specs.Prelude.{List, ℕ, reverse};
    ghost use Rattle.threshold_pick.specs.SkipsInside.{IsSkips};

    ghost Value = { List ℕ };

    ghost view = { λ s. reverse s.told };

    ghost invariant = { IsSkips };
}

impl Skips {
    /// No position.
    pub fn new() -> Skips
        ensures { result ≡ [] }
    {
        Skips {
            words: [0; WORDS],
            is_empty: true,
            told: ToldList::new(),
        }
    }

    /// Skips a position, from 0 for the base to the greatest number of suspects.
    pub fn skip(&mut self, position: u16)
        requires within { position ≤ MAX_SUSPECTS }
        ensures { self.new ≡ self.old ++ position ∷ [] }
    {
        self.words[usize::from(position / 64)] |= 1 << u32::from(position % 64);
        self.is_empty = false;
        self.told.tell(&position);
    }

    /// Forgets all positions.
    pub fn clear(&mut self)
        ensures { self.new ≡ [] }
    {
        if !self.is_empty {
            *self = Skips::new();
        }
    }

    /// Whether no position was skipped.
    pub fn is_empty(&self) -> bool
        ensures { IsTrue result ↔ (self.now ≡ []) }
    {
        self.is_empty
    }

    /// Whether a position was skipped.
    pub fn is_skipped(&self, position: u16) -> bool
        requires within { position ≤ MAX_SUSPECTS }
        ensures { result ≡ is_skipped self.now position }
    {
        self.words[usize::from(position / 64)] >> u32::from(position % 64) & 1 == 1
    }

    /// The positions that were skipped, rising, each once, of a search with so many suspects.
    ///
    /// # Errors
    ///
    /// [`Memory`].
    pub fn positions(&self, alloc: Global, suspects: u16) -> Result<Vec<u16>, Memory>
        requires few { suspects ≤ MAX_SUSPECTS }
        ensures { IfOk result (λ v. v.items ≡ filter (is_skipped self.now) (range_with_len 0 (suspects + 1))) }
    {
        let mut positions = Vec::new(alloc);
        if self.is_empty() {
            return Ok(positions);
        }
        for position in 0..suspects + 1 {
            if self.is_skipped(position) {
                positions.push(position)?;
            }
        }
        Ok(positions)
    }

    /// The last position below a hypothesis that wasn't skipped, or 0.
    pub fn last_below(&self, hypothesis: u16) -> u16
        requires within { hypothesis ≤ MAX_SUSPECTS + 1 }
        ensures { result ≡ last_below self.now hypothesis }
    {
        let mut behind = hypothesis;
        while 0 < behind {
            let position = behind - 1;
            if !self.is_skipped(position) {
                return position;
            }
            behind = position;
        }
        0
    }

    /// The first position from a hypothesis on, up to the last position, that wasn't skipped, or the one behind the
    /// last.
    pub fn first_at(&self, hypothesis: u16, last: u16) -> u16
        requires first { 1 ≤ hypothesis }
        requires order { hypothesis ≤ last + 1 }
        requires within { last ≤ MAX_SUSPECTS }
        ensures { result ≡ first_at self.now hypothesis last }
    {
        let mut position = hypothesis;
        while position <= last && self.is_skipped(position) {
            position += 1;
        }
        position
    }
}
