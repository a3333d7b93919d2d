//! The requests of a worker, as bytes.

ghost use Rattle.std.specs.Prelude.{◌≡◌, ◌++◌, IfOk, decimal, string_bytes};
ghost use Rattle.serde_json.specs.Written.{compact_text};
ghost use Rattle.worker_agent.specs.Requests.{lease_data, lease_path, lease_request, report_data, report_end};
ghost use Rattle.worker_agent.specs.Requests.{report_request, runs_path};

use crate::body::{lease_body, report_body};
use crate::lines;
use farm_types::{Key, Memory, Name};
use http_exchange::post_request;
use itoa::Buffer;
use std::alloc::Global;
use worker_core::Tested;

/// The request for a run, under a key, by the worker of this name.
pub fn lease_request(alloc: Global, key: Key, worker: &Name) -> Result<Vec<u8>, Memory>
    ensures { IfOk result (λ bytes. bytes.items ≡ lease_request key worker.now) }
{
    let body = lease_body(alloc, key, worker)?;
    post_request(alloc, lines::lease_path(), body.as_bytes())
}

/// The request that reports what came of a run.
pub fn report_request(alloc: Global, run: u32, tested: Tested) -> Result<Vec<u8>, Memory>
    ensures { IfOk result (λ bytes. bytes.items ≡ report_request run tested) }
{
    let path = report_path(alloc, run)?;
    let body = report_body(alloc, tested)?;
    post_request(alloc, &path, body.as_bytes())
}

fn report_path(alloc: Global, run: u32) -> Result<Vec<u8>, Memory>
    ensures { IfOk result (λ path. path.items ≡ runs_path ++ decimal run ++ report_end) }
{
    let mut digits = Buffer::new();
    let number = digits.format(run).as_bytes();
    let mut path = Vec::new(alloc);
    path.extend_from_slice(lines::runs_path())?;
    path.extend_from_slice(number)?;
    path.extend_from_slice(lines::report_end())?;
    Ok(path)
}
