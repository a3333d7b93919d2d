//! The bytes of a request.
ghost use Rattle.std.specs.Prelude.{◌≡◌, [], IfOk};
ghost use Rattle.http_exchange.specs.Requests.{close_lines, get_method, get_request, host_lines, length_name, line, post_method, post_request};

use common_types::Memory;
use itoa::Buffer;
use std::alloc::Global;

/// A request for what a path shows, on a connection that closes behind it.
pub fn get_request(alloc: Global, path: &[u8]) -> Result<Vec<u8>, Memory>
    ensures { IfOk result (λ bytes. bytes.items ≡ get_request path.now) }
{
    let mut bytes = Vec::new(alloc);
    bytes.extend_from_slice(get_method())?;
    bytes.extend_from_slice(path)?;
    bytes.extend_from_slice(host_lines())?;
    bytes.extend_from_slice(close_lines())?;
    Ok(bytes)
}

/// A request that sends a body to a path, on a connection that closes behind it.
pub fn post_request(alloc: Global, path: &[u8], body: &[u8]) -> Result<Vec<u8>, Memory>
    ensures { IfOk result (λ bytes. bytes.items ≡ post_request path.now body.now) }
{
    let mut digits = Buffer::new();
    let size = digits.format(body.len()).as_bytes();
    let mut bytes = Vec::new(alloc);
    bytes.extend_from_slice(post_method())?;
    bytes.extend_from_slice(path)?;
    bytes.extend_from_slice(host_lines())?;
    bytes.extend_from_slice(length_name())?;
    bytes.extend_from_slice(size)?;
    bytes.extend_from_slice(line_end())?;
    bytes.extend_from_slice(close_lines())?;
    bytes.extend_from_slice(body)?;
    Ok(bytes)
}

fn get_method<'p>() -> &'p [u8]
    ensures { result.now ≡ get_method }
{
    b"GET "
}

fn post_method<'p>() -> &'p [u8]
    ensures { result.now ≡ post_method }
{
    b"POST "
}

/// What follows the path: the rest of its line, and the host.
fn host_lines<'p>() -> &'p [u8]
    ensures { result.now ≡ host_lines }
{
    b" HTTP/1.1\r\nHost: farm\r\n"
}

/// What stands before the length of a body.
fn length_name<'p>() -> &'p [u8]
    ensures { result.now ≡ length_name }
{
    b"Content-Length: "
}

fn line_end<'p>() -> &'p [u8]
    ensures { result.now ≡ line [] }
{
    b"\r\n"
}

/// The last field, and the end of the fields.
fn close_lines<'p>() -> &'p [u8]
    ensures { result.now ≡ close_lines }
{
    b"Connection: close\r\n\r\n"
}
