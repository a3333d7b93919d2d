//! What a connection keeps from one answer to the next, so that it isn't made anew.
ghost use Rattle.std.specs.Prelude.{◌≡◌, []};

use crate::batch::Batch;
use crate::told::ToldTotals;
use http_requests::LastHead;
use link_io::Gathered;
use std::alloc::Global;

/// What is kept: the head that was read last, room for a batch, for the text of an answer and for the answers that go
/// out together, and the answer that told totals last.
#[derive(Drop)]
pub(crate) struct Kept {
    pub last: LastHead,
    pub batch: Batch,
    pub text: String,
    pub out: Gathered,
    pub told: Option<ToldTotals>,
}

impl Kept {
    /// Nothing yet.
    pub fn new(alloc: Global) -> Kept
        ensures { result.out ≡ [] }
    {
        Kept {
            last: LastHead::none(),
            batch: Batch::new(alloc),
            text: String::new(alloc),
            out: Gathered::new(),
            told: None,
        }
    }
}
