//! Why the serving of a connection stops, by what the layers below answer.
ghost use Rattle.std.specs.Prelude.{◌≡◌};

use connection_laws::ServeFault;
use link_io::PutFault;

/// A put failed, or memory ran out for it.
pub(crate) fn unput(fault: PutFault) -> ServeFault
    ensures failed { fault ≡ PutFault.Failed → result ≡ ServeFault.WriteFault }
    ensures memory { fault ≡ PutFault.Memory → result ≡ ServeFault.Memory }
{
    match fault {
        PutFault::Failed => ServeFault::WriteFault,
        PutFault::Memory => ServeFault::Memory,
    }
}
