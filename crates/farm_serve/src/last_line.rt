//! The line that the service puts last.
ghost use Rattle.std.specs.Prelude.{◌≡◌, IfOk, string_bytes};
ghost use Rattle.farm_serve.specs.LastLine.{LineSays, farm_line, page_line};
ghost use Rattle.outside_seen.specs.Outside.{output_seen};

use farm_disk::Disk;
use farm_entry::{Reply, Totals};
use farm_store::Store;
use farm_types::Memory;
use farm_wire::reply_text;
use link_io::{PutFault, Sink, put_all};
use std::alloc::Global;

/// Puts the farm's line, of the history without what is pending.
pub fn put_farm_line<D: Disk, K: Sink>(
    alloc: Global,
    store: &Store<D>,
    output: &mut K,
) -> Result<(), PutFault>
    ensures { LineSays (farm_line store.now.history) result
        (output_seen K.Sink output.old) (output_seen K.Sink output.new) }
{
    match line_of(alloc, store.totals()) {
        Ok(line) => put_all(output, line.as_bytes()),
        Err(Memory) => Err(PutFault::Memory),
    }
}

/// The farm's line for these totals.
fn line_of(alloc: Global, counted: Totals) -> Result<String, Memory>
    ensures { IfOk result (λ line. string_bytes line ≡ page_line counted) }
{
    let mut line = reply_text(alloc, &Reply::Farm(counted))?;
    line.push('\n')?;
    Ok(line)
}
