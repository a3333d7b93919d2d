//! Replies as JSON.

ghost use Rattle.std.specs.Prelude.{◌≡◌, ◌≤◌, IfOk, codes, string_bytes};
ghost use Rattle.farm_types.specs.declared.moment.TheConstants.{LAST_DAY};
ghost use Rattle.farm_laws.specs.Days.{HasDays};
ghost use Rattle.serde_json.specs.Written.{compact_text};
ghost use Rattle.farm_wire.specs.Members.{culprit_in};
ghost use Rattle.farm_wire.specs.Pieces.{fate_name};
ghost use Rattle.farm_wire.specs.Replies.{log_data, reply_data, report_data, totals_data};

use crate::date::day_text;
use crate::orders::orders_text;
use crate::page::{log_object, page_text, totals_reply};
use crate::runs::runs_text;
use crate::searches::searches_text;
use crate::standing::{culprit_in, standing_word};
use crate::text::JsonText;
use crate::words::{fate_word, skip_fate_word, skip_word, stage_word, verdict_word};
use farm_entry::{DueRun, Fate, Reply, SkipFate, Standing, Totals};
use farm_types::{CommitId, Memory, Name};
use std::alloc::Global;
use weight_exact::Verdict;

/// The text of a reply: a JSON object with no space in it, whose members stand in the order of their names.
pub fn reply_text(alloc: Global, reply: &Reply) -> Result<String, Memory>
    requires { HasDays reply.now }
    ensures { IfOk result (λ text. string_bytes text ≡ compact_text (reply_data reply.now)) }
{
    reply_text_in(alloc, String::new(alloc), reply)
}

/// The same, written in this room, whose bytes go.
pub fn reply_text_in(alloc: Global, room: String, reply: &Reply) -> Result<String, Memory>
    requires { HasDays reply.now }
    ensures { IfOk result (λ text. string_bytes text ≡ compact_text (reply_data reply.now)) }
{
    match reply {
        Reply::Opened {
            search,
            budget,
            standing,
        } => opened(alloc, room, *search, *budget, *standing),
        Reply::Leased {
            run,
            search,
            stage,
            position,
            commit,
            test,
            deadline,
        } => {
            let due = DueRun {
                search: *search,
                stage: *stage,
                position: *position,
            };
            leased(alloc, room, *run, due, commit, test, *deadline)
        }
        Reply::Reported {
            run,
            search,
            verdict,
            fate,
            standing,
        } => reported(alloc, room, *run, *search, *verdict, *fate, *standing),
        Reply::Skipped {
            run,
            search,
            fate,
            standing,
        } => skipped(alloc, room, *run, *search, *fate, *standing),
        Reply::Cancelled { search } => cancelled(alloc, room, *search),
        Reply::Ordered {
            order,
            commit,
            search,
            day,
        } => ordered(alloc, room, *order, commit, *search, *day),
        Reply::Search(page) => page_text(alloc, room, page),
        Reply::Farm(totals) => totals_reply(alloc, room, "farm", totals),
        Reply::Orders(page) => orders_text(alloc, room, page),
        Reply::Runs(page) => runs_text(alloc, room, page),
        Reply::Searches(page) => searches_text(alloc, room, page),
    }
}

/// The text of the totals that were posted last, as an answer of their own.
pub fn totals_text(alloc: Global, totals: &Totals) -> Result<String, Memory>
    ensures { IfOk result (λ text. string_bytes text ≡ compact_text (totals_data (codes "totals") totals.now)) }
{
    totals_reply(alloc, String::new(alloc), "totals", totals)
}

/// The text of a log page: the bytes of the history's entries from this one on, counted from 1, in hexadecimal digits.
pub fn log_text(alloc: Global, from: u32, bytes: &[u8]) -> Result<String, Memory>
    ensures { IfOk result (λ text. string_bytes text ≡ compact_text (log_data from bytes.now)) }
{
    log_object(alloc, from, bytes)?.into_text()
}

/// The text of a search that was opened.
fn opened(
    alloc: Global,
    room: String,
    search: u32,
    budget: u32,
    standing: Standing,
) -> Result<String, Memory>
    ensures { IfOk result (λ text. string_bytes text
        ≡ compact_text (reply_data (Reply.Opened search budget standing))) }
{
    let mut out = JsonText::within(alloc, room)?;
    out.put_number("{\"budget\":", budget as u64)?;
    out.put_culprit(",\"culprit\":", standing)?;
    out.put_number(",\"reply\":\"open\",\"search\":", search as u64)?;
    out.put_text(",\"standing\":", standing_word(standing))?;
    out.put("}")?;
    Ok(out.into_text())
}

/// The text of a run that was leased.
fn leased(
    alloc: Global,
    room: String,
    run: u32,
    due: DueRun,
    commit: &CommitId,
    test: &Name,
    deadline: u64,
) -> Result<String, Memory>
    ensures { IfOk result (λ text. string_bytes text
        ≡ compact_text (reply_data (Reply.Leased run due.search due.stage due.position commit.now test.now deadline))) }
{
    let mut out = JsonText::within(alloc, room)?;
    out.put_commit("{\"commit\":", commit)?;
    out.put_number(",\"deadline\":", deadline)?;
    out.put_number(",\"position\":", due.position as u64)?;
    out.put_number(",\"reply\":\"lease\",\"run\":", run as u64)?;
    out.put_number(",\"search\":", due.search as u64)?;
    out.put_text(",\"stage\":", stage_word(due.stage))?;
    out.put_text(",\"test\":", test.text())?;
    out.put("}")?;
    Ok(out.into_text())
}

/// The text of a run that was reported.
#[tactic(auto, unfolding(crate::specs::Replies::reply_data))]
fn reported(
    alloc: Global,
    room: String,
    run: u32,
    search: u32,
    verdict: Verdict,
    fate: Fate,
    standing: Standing,
) -> Result<String, Memory>
    ensures { IfOk result (λ text. string_bytes text
        ≡ compact_text (reply_data (Reply.Reported run search verdict fate standing))) }
{
    let said = verdict_word(verdict);
    report_text(alloc, room, run, search, said, fate_word(fate), standing)
}

/// The text of a run that was reported as one whose tree can't be tested.
#[tactic(auto, unfolding(crate::specs::Replies::reply_data))]
fn skipped(
    alloc: Global,
    room: String,
    run: u32,
    search: u32,
    fate: SkipFate,
    standing: Standing,
) -> Result<String, Memory>
    ensures { IfOk result (λ text. string_bytes text
        ≡ compact_text (reply_data (Reply.Skipped run search fate standing))) }
{
    let did = skip_fate_word(fate);
    report_text(alloc, room, run, search, skip_word(), did, standing)
}

/// The text of a report, with the words for its verdict and for what it did.
fn report_text(
    alloc: Global,
    room: String,
    run: u32,
    search: u32,
    verdict: &str,
    fate: &str,
    standing: Standing,
) -> Result<String, Memory>
    ensures { IfOk result (λ text. string_bytes text
        ≡ compact_text (report_data run search verdict.now fate.now standing)) }
{
    let mut out = JsonText::within(alloc, room)?;
    out.put_culprit("{\"culprit\":", standing)?;
    out.put_text(fate_name(standing), fate)?;
    out.put_number(",\"reply\":\"report\",\"run\":", run as u64)?;
    out.put_number(",\"search\":", search as u64)?;
    out.put_text(",\"standing\":", standing_word(standing))?;
    out.put_text(",\"verdict\":", verdict)?;
    out.put("}")?;
    Ok(out.into_text())
}

/// What stands before what became of a run: the object's beginning, where its standing names no culprit.
fn fate_name(standing: Standing) -> &'static str
    ensures { result.now ≡ fate_name (culprit_in standing) }
{
    match culprit_in(standing) {
        Some(_) => ",\"fate\":",
        None => "{\"fate\":",
    }
}

/// The text of a search that was cancelled.
fn cancelled(alloc: Global, room: String, search: u32) -> Result<String, Memory>
    ensures { IfOk result (λ text. string_bytes text ≡ compact_text (reply_data (Reply.Cancelled search))) }
{
    let mut out = JsonText::within(alloc, room)?;
    out.put_number("{\"reply\":\"cancel\",\"search\":", search as u64)?;
    out.put(",\"standing\":\"cancelled\"}")?;
    Ok(out.into_text())
}

/// The text of an order to revert a commit.
fn ordered(
    alloc: Global,
    room: String,
    order: u32,
    commit: &CommitId,
    search: u32,
    day: u32,
) -> Result<String, Memory>
    requires { day ≤ LAST_DAY }
    ensures { IfOk result (λ text. string_bytes text
        ≡ compact_text (reply_data (Reply.Ordered order commit.now search day))) }
{
    let date = day_text(alloc, day)?;
    let mut out = JsonText::within(alloc, room)?;
    out.put_commit("{\"commit\":", commit)?;
    out.put_text(",\"date\":", date.as_str())?;
    out.put_number(",\"day\":", day as u64)?;
    out.put_number(",\"order\":", order as u64)?;
    out.put_number(",\"reply\":\"revert\",\"search\":", search as u64)?;
    out.put("}")?;
    Ok(out.into_text())
}
