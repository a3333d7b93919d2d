//! The items of an input that is held as a whole.
ghost use Rattle.std.specs.Prelude.{List};
ghost use Rattle.http_requests.specs.Items.{Item, Items, End};

use crate::Pages;
use crate::last_head::LastHead;
use crate::next::{Next, next_of};
use crate::reading::Reading;

/// A law that a call shows: every input has a list of items. The input is read to its end, and nothing is kept of it.
pub fn every_input_has_items(pages: &Pages, bytes: &[u8])
    ensures { (items : List Item) × (end : End) × Items bytes.now items end }
{
    let mut from = 0;
    let mut last = LastHead::none();
    loop {
        let mut reading = Reading::new();
        match next_of(pages, &mut reading, &mut last, &bytes[from..], true) {
            Next::Request(request) => {
                if request.closes {
                    return;
                }
                from += request.size;
            }
            Next::End => return,
            Next::More => unreachable!(),
            Next::Body(_) => unreachable!(),
        }
    }
}
