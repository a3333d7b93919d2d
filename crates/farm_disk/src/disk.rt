//! A disk, and what a crash may leave of it.
ghost use Rattle.std.specs.Prelude.{◌≡◌, ◌≤◌, ◌+◌, ℕ, Bool, true, length, take, drop};
ghost use Rattle.common_types.specs.Counts.{Rose};
ghost use Rattle.farm_disk.specs.Images.{DiskState};
ghost use Rattle.farm_disk.specs.Model.{IsSound};
ghost use Rattle.farm_disk.specs.Answers.{
  rested,
  Writes,
  Cuts,
  Syncs,
  IfSize,
  OnSizeFailed,
  OnDid,
  OnFailed,
  OnWriteFailed,
  OnWriteMemory,
};

/// What a call answers that is done or not.
#[derive(Clone, Copy)]
pub enum Did {
    /// It was done.
    Did,
    /// The disk failed, and its count of faults rose.
    Failed,
}

/// What a disk answers that is asked for its size.
#[derive(Clone, Copy)]
pub enum Size {
    /// So many bytes.
    Size(u64),
    /// The disk failed, and its count of faults rose.
    Failed,
}

/// What a write answers.
#[derive(Clone, Copy)]
pub enum Written {
    /// It was done.
    Did,
    /// The disk failed, and its count of faults rose. Some of the bytes may have been written.
    Failed,
    /// Out of memory, and nothing was done.
    Memory,
}

/// A disk holds a list of bytes.
///
/// A crash at any moment leaves one of its images. A crash inside a call leaves an image of the moment before the call
/// or of the moment after it: what a call does to the images has room for all that it may have done by then.
///
/// A disk may tell contracts what it holds; each clause on content speaks of a disk that tells. One that tells goes on
/// telling, and one that doesn't, as a real file, never will. Of such a disk the conditions of the calls are tested: a
/// call that breaks one fails.
pub trait Disk {
    /// Whether it tells what it holds.
    ghost tells: { Self → Bool };

    /// What a read gives, and each step so far, from which the images of each moment follow.
    ghost told: { Self → DiskState };

    /// How often it has failed so far, whatever the call.
    ghost count: { Self → ℕ };

    /// How often it has failed so far, whatever the call: a count that never falls, and stands still at `u64::MAX`.
    fn faults(&self) -> u64
        ensures { result ≡ count self.now };

    /// How many bytes it holds.
    fn size(&mut self) -> Size
        ensures same { tells self.new ≡ tells self.old }
        // What a read gives is one of the images that a crash may leave.
        ensures sound { tells self.old ≡ true → IsSound (told self.old) }
        ensures size { tells self.old ≡ true → IfSize result (λ n. n ≡ length (told self.old).bytes) }
        ensures still { tells self.old ≡ true → told self.new ≡ rested (told self.old) }
        ensures cause { OnSizeFailed result (Rose (count self.old) (count self.new)) }
        ensures never_falls { count self.old ≤ count self.new };

    /// Fills the buffer with the bytes from an offset on. It stays within the size.
    fn read(&mut self, at: u64, buf: &mut [u8]) -> Did
        requires { tells self.old ≡ true → at + length buf.old ≤ length (told self.old).bytes }
        ensures same { tells self.new ≡ tells self.old }
        ensures sound { tells self.old ≡ true → IsSound (told self.old) }
        ensures bytes { tells self.old ≡ true
            → OnDid result (buf.new ≡ take (length buf.old) (drop at (told self.old).bytes)) }
        ensures still { tells self.old ≡ true → told self.new ≡ rested (told self.old) }
        ensures cause { OnFailed result (Rose (count self.old) (count self.new)) }
        ensures never_falls { count self.old ≤ count self.new };

    /// Writes bytes at an offset, over what is there and past the end. It begins within the size, or at its end.
    fn write_at(&mut self, at: u64, bytes: &[u8]) -> Written
        requires { tells self.old ≡ true → at ≤ length (told self.old).bytes }
        ensures same { tells self.new ≡ tells self.old }
        ensures writes { tells self.old ≡ true → Writes at bytes.now result (told self.old) (told self.new) }
        // A write that stays within the size never runs out of memory.
        ensures within { tells self.old ≡ true → at + length bytes.now ≤ length (told self.old).bytes
            → OnWriteMemory result ⊥ }
        ensures cause { OnWriteFailed result (Rose (count self.old) (count self.new)) }
        ensures never_falls { count self.old ≤ count self.new };

    /// Cuts off what stands behind a size, at most the present one.
    fn cut(&mut self, size: u64) -> Did
        requires { tells self.old ≡ true → size ≤ length (told self.old).bytes }
        ensures same { tells self.new ≡ tells self.old }
        ensures cuts { tells self.old ≡ true → Cuts size result (told self.old) (told self.new) }
        ensures cause { OnFailed result (Rose (count self.old) (count self.new)) }
        ensures never_falls { count self.old ≤ count self.new };

    /// Once it is done, each crash leaves the bytes that a read gives now, until the next call that changes them.
    fn sync(&mut self) -> Did
        ensures same { tells self.new ≡ tells self.old }
        ensures syncs { tells self.old ≡ true → Syncs result (told self.old) (told self.new) }
        ensures cause { OnFailed result (Rose (count self.old) (count self.new)) }
        ensures never_falls { count self.old ≤ count self.new };
}
