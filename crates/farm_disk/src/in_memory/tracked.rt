//! What a disk in memory keeps, as data, for the images that it makes.
ghost use Rattle.std.specs.Prelude.{
  ◌≡◌,
  ◌≤◌,
  ◌<◌,
  ◌+◌,
  ◌∷◌,
  ◌^◌,
  ℕ,
  List,
  IfOk,
  max,
  min,
  length,
  slice_index,
  unwrap_or,
};
ghost use Rattle.farm_disk.specs.Images.{Step, sync, write, cut};
ghost use Rattle.farm_disk.specs.Certain.{certain};
ghost use Rattle.farm_disk.specs.Model.{least, greatest, IsRun};
ghost use Rattle.farm_disk.specs.Tracks.{Tracks};

use super::marks::{filled, marks_of, unmark};
use crate::Memory;
use std::alloc::Global;

/// The certain bytes of the images, where there was memory for them, and the least and the greatest size.
#[derive(Drop)]
pub(super) struct Tracked {
    marks: Option<Vec<Option<u8>>>,
    least: u64,
    greatest: u64,
}

impl Tracked {
    /// After a sync that was done.
    pub(super) fn synced(bytes: &Vec<u8>) -> Tracked
        ensures { (older : List Step) → Tracks result (sync bytes.now.items ∷ older) }
    {
        let size = bytes.len() as u64;
        Tracked {
            marks: marks_of(*bytes.allocator(), bytes).ok(),
            least: size,
            greatest: size,
        }
    }

    /// A write of so many bytes at an offset, done or failed.
    pub(super) fn write(&mut self, at: u64, n: u64)
        requires { at + n < 2 ^ 64 }
        ensures { (steps : List Step) → at ≤ greatest steps → Tracks self.old steps
            → Tracks self.new (write at n ∷ steps) }
    {
        if let Some(marks) = &mut self.marks {
            unmark(marks, at as usize, (at + n) as usize);
        }
        self.greatest = self.greatest.max(at + n);
    }

    /// A cut to a size, done or failed.
    pub(super) fn cut(&mut self, size: u64)
        ensures { (steps : List Step) → Tracks self.old steps → Tracks self.new (cut size ∷ steps) }
    {
        if let Some(marks) = &mut self.marks {
            marks.truncate(size as usize);
        }
        self.least = self.least.min(size);
    }

    /// The image of this size, or of the nearest that there is, with this byte wherever any may stand.
    pub(super) fn image(&self, alloc: Global, size: u64, fill: u8) -> Result<Vec<u8>, Memory>
        ensures size { IfOk result (λ image. (steps : List Step) → Tracks self.now steps
            → length image.items ≡ min (max size (least steps)) (greatest steps)) }
        ensures bytes { IfOk result (λ image. (steps : List Step) → Tracks self.now steps → (i : ℕ)
            → i < length image.items → slice_index image.items i ≡ unwrap_or (certain steps i) fill) }
    {
        let Some(marks) = &self.marks else {
            return Err(Memory);
        };
        let nearest = size.max(self.least).min(self.greatest);
        Ok(filled(alloc, marks, nearest as usize, fill)?)
    }
}
