//! Who asks.
ghost use Rattle.std.specs.Prelude.{◌≡◌, None, codes, IfOk};
ghost use Rattle.farm_types.specs.Name.{name_fault};
ghost use Rattle.drill_plan.specs.Start.{drill_moment};

use drill_plan::DRILL_MS;
use farm_types::{Memory, Moment, Name, NameFault};
use std::alloc::Global;

/// The name under which the caller leases what the workers left, and takes the reverts.
pub(crate) const CALLER: &str = "caller";

/// The name that a text spells, which has no fault.
pub(crate) fn name(alloc: Global, text: &str) -> Result<Name, Memory>
    requires { name_fault text.now ≡ None }
    ensures { IfOk result (λ name. name ≡ text.now) }
{
    match Name::of(alloc, text) {
        Ok(name) => Ok(name),
        Err(NameFault::Memory) => Err(Memory),
        Err(_) => unreachable!(),
    }
}

/// The name of the caller.
pub(crate) fn caller_name(alloc: Global) -> Result<Name, Memory>
    ensures { IfOk result (λ name. name ≡ codes "caller") }
{
    name(alloc, CALLER)
}

/// The name of the worker with a number, from 1 to the most workers of a drill.
pub(crate) fn worker_name(alloc: Global, worker: u32) -> Result<Name, Memory> {
    match worker {
        1 => name(alloc, "w1"),
        2 => name(alloc, "w2"),
        3 => name(alloc, "w3"),
        _ => name(alloc, "w4"),
    }
}

/// The moment of a drill.
pub(crate) fn drill_moment() -> Moment
    ensures { result ≡ drill_moment }
{
    match Moment::of(DRILL_MS) {
        Ok(at) => at,
        Err(_) => unreachable!(),
    }
}
