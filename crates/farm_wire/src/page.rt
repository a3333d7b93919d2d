//! What is shown of a farm, as JSON.

ghost use Rattle.std.specs.Prelude.{◌≡◌, IfOk, string_bytes};
ghost use Rattle.serde_json.specs.Data.{object};
ghost use Rattle.serde_json.specs.Written.{compact_text};
ghost use Rattle.farm_wire.specs.Object.{members_in};
ghost use Rattle.farm_wire.specs.Replies.{log_data, page_data, totals_data};

use crate::object::JsonObject;
use crate::standing::standing_word;
use crate::text::JsonText;
use farm_entry::{SearchPage, Totals};
use farm_types::Memory;
use std::alloc::Global;

/// What is shown of a search, as a text.
pub(crate) fn page_text(alloc: Global, room: String, page: &SearchPage) -> Result<String, Memory>
    ensures { IfOk result (λ text. string_bytes text ≡ compact_text (page_data page.now)) }
{
    let mut out = JsonText::within(alloc, room)?;
    out.put_number("{\"budget\":", page.budget as u64)?;
    out.put_commit_if(",\"commit\":", &page.commit)?;
    out.put_number(",\"counted\":", page.counted as u64)?;
    out.put_culprit(",\"culprit\":", page.standing)?;
    out.put_number(",\"leases\":", page.leases as u64)?;
    out.put_number(",\"reply\":\"search\",\"search\":", page.search as u64)?;
    out.put(",\"shares\":")?;
    out.put_numbers(page.shares.as_slice())?;
    out.put_text(",\"standing\":", standing_word(page.standing))?;
    out.put_text(",\"test\":", page.test.text())?;
    out.put_positions(",\"untestable\":", page.untestable.as_slice())?;
    out.put_number(",\"verified\":", page.verified as u64)?;
    out.put("}")?;
    Ok(out.into_text())
}

/// The totals of a farm, as a text of a kind of reply.
pub(crate) fn totals_reply(
    alloc: Global,
    room: String,
    kind: &str,
    totals: &Totals,
) -> Result<String, Memory>
    ensures { IfOk result (λ text. string_bytes text ≡ compact_text (totals_data kind.now totals.now)) }
{
    let mut out = JsonText::within(alloc, room)?;
    out.put_number("{\"confirmed\":", totals.confirmed)?;
    out.put_number(",\"counted\":", totals.counted)?;
    out.put_number(",\"ended\":", totals.ended)?;
    out.put_number(",\"entries\":", totals.entries)?;
    out.put_number(",\"orders\":", totals.orders)?;
    out.put_text(",\"reply\":", kind)?;
    out.put_number(",\"searches\":", totals.searches)?;
    out.put_number(",\"searching\":", totals.searching)?;
    out.put_number(",\"verifying\":", totals.verifying)?;
    out.put("}")?;
    Ok(out.into_text())
}

/// A log page, as an object.
#[tactic(auto, unfolding(crate::specs::Replies::log_data))]
pub(crate) fn log_object(alloc: Global, from: u32, bytes: &[u8]) -> Result<JsonObject, Memory>
    ensures { IfOk result (λ made. object (members_in made) ≡ log_data from bytes.now) }
{
    JsonObject::new(alloc)
        .with_text("reply", "log")?
        .with_number("from", from as u64)?
        .with_bytes("entries", bytes)
}
