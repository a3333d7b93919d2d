//! The ask for a page, as bytes.

ghost use Rattle.std.specs.Prelude.{◌≡◌, ◌++◌, IfOk, decimal};
ghost use Rattle.journal_follow.specs.Asks.{ask_request, log_path};

use common_types::Memory;
use http_exchange::get_request;
use itoa::Buffer;
use std::alloc::Global;

/// The request for the entries from the one of this number on.
pub(crate) fn ask_request(alloc: Global, from: u32) -> Result<Vec<u8>, Memory>
    ensures { IfOk result (λ bytes. bytes.items ≡ ask_request from) }
{
    let path = ask_path(alloc, from)?;
    get_request(alloc, &path)
}

fn ask_path(alloc: Global, from: u32) -> Result<Vec<u8>, Memory>
    ensures { IfOk result (λ path. path.items ≡ log_path ++ decimal from) }
{
    let mut digits = Buffer::new();
    let number = digits.format(from).as_bytes();
    let mut path = Vec::new(alloc);
    path.extend_from_slice(log_path())?;
    path.extend_from_slice(number)?;
    Ok(path)
}

/// The path of a page, up to the number of its first entry.
fn log_path<'p>() -> &'p [u8]
    ensures { result.now ≡ log_path }
{
    b"/v1/log/"
}
