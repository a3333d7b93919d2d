//! A disk that dates: moments of it that are over, as values.
ghost use Rattle.std.specs.Prelude.{◌≡◌, ℕ, true};
ghost use Rattle.farm_disk.specs.Images.{moment};

use crate::Disk;
use common_types::Past;

/// A disk that gives a value for each of its moments that is over.
///
/// Code that is generic over the disk knows nothing of these values but that they are moments of this disk, so it has
/// none but those that the disk gave. That is what a promise on time may rest on: of a moment that a value names, the
/// disk has been past.
pub trait DatedDisk: Disk {
    /// What it gives for a moment that is over. It needs no byte.
    type Over: Past + Drop + Send;

    /// The number of its moment: how many steps were done, where it tells them. A disk that does nothing stays at it.
    ghost dated: { Self → ℕ };

    /// This moment, as one that is over. Nothing is done.
    fn passed(&self) -> Self::Over
        ensures over { Self.Over.at result ≡ dated self.now }
        ensures moment { Self.tells self.now ≡ true → dated self.now ≡ moment (Self.told self.now) };
}
