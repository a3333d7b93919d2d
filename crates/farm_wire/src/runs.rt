//! The runs of a search as JSON.

ghost use Rattle.std.specs.Prelude.{◌≡◌, ◌++◌, IfOk, OnOk, string_bytes};
ghost use Rattle.serde_json.specs.Written.{compact_text};
ghost use Rattle.farm_wire.specs.Pieces.{array_on, array_text, fate_piece, reported_piece, verdict_piece};
ghost use Rattle.farm_wire.specs.Replies.{reply_data, run_data};

use crate::text::JsonText;
use crate::words::{outcome_fate, outcome_verdict, stage_word};
use farm_entry::{Reply, RunLine, RunPage, RunReport};
use farm_types::Memory;
use std::alloc::Global;

/// Runs of a search, as a text in this room.
pub(crate) fn runs_text(alloc: Global, room: String, page: &RunPage) -> Result<String, Memory>
    ensures { IfOk result (λ text. string_bytes text ≡ compact_text (reply_data (Reply.Runs page.now))) }
{
    let mut out = JsonText::within(alloc, room)?;
    out.put_number("{\"from\":", page.from as u64)?;
    out.put(",\"reply\":\"runs\",\"runs\":")?;
    put_runs(&mut out, page.runs.as_slice())?;
    out.put_number(",\"search\":", page.search as u64)?;
    out.put("}")?;
    Ok(out.into_text())
}

/// Puts runs as an array.
fn put_runs(out: &mut JsonText, lines: &[RunLine]) -> Result<(), Memory>
    ensures { OnOk result (out.new ≡ out.old ++ array_text run_data lines.now) }
{
    match lines.split_first() {
        Some((first, more)) => {
            put_run(out, "[", first)?;
            put_more(out, more)
        }
        None => out.put("[]"),
    }
}

/// Puts what that array goes on with, behind its first run.
fn put_more(out: &mut JsonText, lines: &[RunLine]) -> Result<(), Memory>
    ensures { OnOk result (out.new ≡ out.old ++ array_on run_data lines.now) }
{
    for line in lines {
        put_run(out, ",", line)?;
    }
    out.put("]")
}

/// Puts a run behind a piece.
fn put_run(out: &mut JsonText, piece: &str, line: &RunLine) -> Result<(), Memory>
    ensures { OnOk result (out.new ≡ out.old ++ (piece.now ++ compact_text (run_data line.now))) }
{
    out.put(piece)?;
    out.put_commit("{\"commit\":", &line.commit)?;
    out.put_number(",\"deadline\":", line.deadline)?;
    put_fate(out, &line.report)?;
    out.put_number(",\"leased\":", line.leased.ms())?;
    out.put_number(",\"position\":", line.position as u64)?;
    put_reported(out, &line.report)?;
    out.put_number(",\"run\":", line.run as u64)?;
    out.put_text(",\"stage\":", stage_word(line.stage))?;
    put_verdict(out, &line.report)?;
    out.put_text(",\"worker\":", line.worker.text())?;
    out.put("}")
}

/// Puts what the report of a run did, where there is a report.
fn put_fate(out: &mut JsonText, report: &Option<RunReport>) -> Result<(), Memory>
    ensures { OnOk result (out.new ≡ out.old ++ fate_piece report.now) }
{
    match report {
        Some(report) => out.put_text(",\"fate\":", outcome_fate(report.outcome)),
        None => Ok(()),
    }
}

/// Puts when a run was reported, where it was.
fn put_reported(out: &mut JsonText, report: &Option<RunReport>) -> Result<(), Memory>
    ensures { OnOk result (out.new ≡ out.old ++ reported_piece report.now) }
{
    match report {
        Some(report) => out.put_number(",\"reported\":", report.at.ms()),
        None => Ok(()),
    }
}

/// Puts what was reported of a run, where something was.
fn put_verdict(out: &mut JsonText, report: &Option<RunReport>) -> Result<(), Memory>
    ensures { OnOk result (out.new ≡ out.old ++ verdict_piece report.now) }
{
    match report {
        Some(report) => out.put_text(",\"verdict\":", outcome_verdict(report.outcome)),
        None => Ok(()),
    }
}
