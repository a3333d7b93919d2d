//! How the service ends.
ghost use Rattle.std.specs.Prelude.{◌≡◌};
ghost use Rattle.farm_serve.specs.Ending.{ending_of};

use crate::standing::ServeState;
use farm_store::OpeningFault;
use link_io::PutFault;

/// How the service ended.
#[derive(Clone, Copy)]
pub enum Ending {
    /// All accepts were made, or one answered that no more will come, and the farm's line was put.
    Done,
    /// The same, and an accept failed.
    NetFault,
    /// The output failed, and not all of the line was put.
    WriteFault,
    /// Out of memory: at a link, before an accept, or for the line.
    Memory,
    /// The journal was not opened.
    NotOpened(OpeningFault),
}

impl Ending {
    /// How the service ends, by how the serving stands and by what became of the last line: the first that fits of
    /// running out of memory, a fault of the output, and an accept that failed.
    pub fn of(standing: ServeState, line: Result<(), PutFault>) -> Ending
        ensures { result ≡ ending_of standing line }
    {
        if standing.short {
            return Ending::Memory;
        }
        match line {
            Ok(()) if standing.failed => Ending::NetFault,
            Ok(()) => Ending::Done,
            Err(PutFault::Failed) => Ending::WriteFault,
            Err(PutFault::Memory) => Ending::Memory,
        }
    }
}
