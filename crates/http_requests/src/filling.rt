//! A router that is filled route by route.
ghost use Rattle.std.specs.Prelude.{◌≡◌, OnOk};
ghost use Rattle.matchit.specs.Route.{parse_route};
ghost use Rattle.http_requests.specs.Filled.{IsFree, with_route};

use matchit::{InsertError, Router};
use std::alloc::AllocError;

/// Adds a pattern with its value. It has to be read well by `matchit`, and no path that it fits may fit another one of
/// the router, so that running out of memory alone is answered. The router is dropped then.
pub fn add_route<T: Drop>(router: &mut Router<T>, pattern: &str, value: T) -> Result<(), AllocError>
    requires { IsFree (parse_route pattern.now) router.old }
    ensures { OnOk result (router.new ≡ with_route (parse_route pattern.now) value router.old) }
{
    match router.insert(pattern, value) {
        Ok(()) => Ok(()),
        Err(InsertError::OutOfMemory) => Err(AllocError),
        Err(_) => unreachable!(),
    }
}
