//! All orders as JSON.

ghost use Rattle.std.specs.Prelude.{◌≡◌, ◌≤◌, ◌++◌, All, IfOk, OnOk, string_bytes};
ghost use Rattle.farm_types.specs.declared.moment.TheConstants.{LAST_DAY};
ghost use Rattle.serde_json.specs.Written.{compact_text};
ghost use Rattle.farm_wire.specs.Dates.{day_text};
ghost use Rattle.farm_wire.specs.Pieces.{array_on, array_text};
ghost use Rattle.farm_wire.specs.Replies.{order_data, reply_data};

use crate::date::day_text;
use crate::text::JsonText;
use farm_entry::{OrderLine, OrderPage, Reply};
use farm_types::Memory;
use std::alloc::Global;

/// All orders, as a text in this room.
pub(crate) fn orders_text(alloc: Global, room: String, page: &OrderPage) -> Result<String, Memory>
    requires { All (λ line. line.day ≤ LAST_DAY) page.now }
    ensures { IfOk result (λ text. string_bytes text ≡ compact_text (reply_data (Reply.Orders page.now))) }
{
    let mut out = JsonText::within(alloc, room)?;
    out.put("{\"orders\":")?;
    put_orders(alloc, &mut out, page.as_slice())?;
    out.put(",\"reply\":\"orders\"}")?;
    Ok(out.into_text())
}

/// Puts orders as an array.
fn put_orders(alloc: Global, out: &mut JsonText, lines: &[OrderLine]) -> Result<(), Memory>
    requires { All (λ line. line.day ≤ LAST_DAY) lines.now }
    ensures { OnOk result (out.new ≡ out.old ++ array_text order_data lines.now) }
{
    match lines.split_first() {
        Some((first, more)) => {
            let date = day_text(alloc, first.day)?;
            put_order(out, "[", first, date.as_str())?;
            put_more(alloc, out, more, first.day, date)
        }
        None => out.put("[]"),
    }
}

/// Puts what that array goes on with, behind its first order. The date of that one's day comes with it: mostly the next
/// orders are of the same day.
fn put_more(
    alloc: Global,
    out: &mut JsonText,
    lines: &[OrderLine],
    day: u32,
    date: String,
) -> Result<(), Memory>
    requires days { All (λ line. line.day ≤ LAST_DAY) lines.now }
    requires date { string_bytes date ≡ day_text day }
    ensures { OnOk result (out.new ≡ out.old ++ array_on order_data lines.now) }
{
    let mut day = day;
    let mut date = date;
    for line in lines {
        date = date_on(alloc, line.day, day, date)?;
        day = line.day;
        put_order(out, ",", line, date.as_str())?;
    }
    out.put("]")
}

/// The date of a day, where that of another day is at hand.
fn date_on(alloc: Global, day: u32, other: u32, date: String) -> Result<String, Memory>
    requires in_range { day ≤ LAST_DAY }
    requires date { string_bytes date ≡ day_text other }
    ensures { IfOk result (λ text. string_bytes text ≡ day_text day) }
{
    if day == other {
        Ok(date)
    } else {
        day_text(alloc, day)
    }
}

/// Puts an order behind a piece, with the date of its day.
fn put_order(out: &mut JsonText, piece: &str, line: &OrderLine, date: &str) -> Result<(), Memory>
    requires { date.now ≡ day_text line.now.day }
    ensures { OnOk result (out.new ≡ out.old ++ (piece.now ++ compact_text (order_data line.now))) }
{
    out.put(piece)?;
    out.put_text("{\"agent\":", line.agent.text())?;
    out.put_commit(",\"commit\":", &line.commit)?;
    out.put_text(",\"date\":", date)?;
    out.put_number(",\"order\":", line.order as u64)?;
    out.put_number(",\"search\":", line.search as u64)?;
    out.put("}")
}
