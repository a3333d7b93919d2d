//! The farm that the workers of a drill share.

use farm_disk::CalmDisk;
use shared_farm::{Beginning, SharedFarm};

/// Commands alone add to a farm: nobody closes it, and it carried no orders over.
#[derive(Drop)]
pub struct CommandsAlone;

impl Beginning for CommandsAlone {
    ghost use Rattle.std.specs.Prelude.{None, Some};
    ghost use Rattle.shared_farm.specs.Rests.{commanded};

    ghost begun = { Some commanded };

    ghost board = { None };
}

/// A farm on a disk in memory, to which commands alone add.
pub type DrillFarm = SharedFarm<CalmDisk, CommandsAlone>;
