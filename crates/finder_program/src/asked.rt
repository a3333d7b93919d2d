//! When a connection that waits is given to a handler.

use farm_types::Memory;
use http_requests::{LastHead, Next, Pages, Reading, next_of};
use std::alloc::Global;
use tcp_net::Enough;

/// A connection is given to a handler once something would be put for what it has sent, by the reader that the handler
/// has too: a request is whole, or bytes stand in its place that get an answer, or an interim answer is asked for; or
/// its input has ended.
#[derive(Drop)]
pub(crate) struct AskedWhole {
    pages: Pages,
}

impl AskedWhole {
    pub(crate) fn new(alloc: Global) -> Result<AskedWhole, Memory> {
        Ok(AskedWhole {
            pages: Pages::new(alloc)?,
        })
    }
}

impl Enough for AskedWhole {
    fn is_enough(&self, bytes: &[u8], ended: bool) -> bool {
        let mut reading = Reading::new();
        let mut last = LastHead::none();
        match next_of(&self.pages, &mut reading, &mut last, bytes, ended) {
            Next::More => false,
            Next::Body(awaited) => awaited.interim,
            Next::Request(_) | Next::End => true,
        }
    }
}
