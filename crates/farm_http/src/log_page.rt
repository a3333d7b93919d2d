//! Log pages, answered.
ghost use Rattle.std.specs.Prelude.{◌≡◌, ◌≤◌, [], ℕ, Bool, List, IfOk, OnOk, if◌then◌else◌, string_bytes};
ghost use Rattle.connection_laws.specs.Answers.{no_memory, plain, response_of};
ghost use Rattle.connection_laws.specs.Outcomes.{copied};
ghost use Rattle.entry_codec.specs.LogPage.{log_page};
ghost use Rattle.farm_wire.specs.Replies.{log_data};
ghost use Rattle.common_types.specs.Counts.{Rose};
ghost use Rattle.common_types.specs.Prefix.{IsPrefix};
ghost use Rattle.serde_json.specs.Written.{compact_text};
ghost use Rattle.farm_entry.specs.declared.entry.Entry.{Entry};
ghost use Rattle.http_words.specs.declared.status_code.StatusCode.TheVariants as status;
ghost use Rattle.common_types.specs.Rows.{AreAmong};
ghost use Rattle.shared_farm.specs.Logs.{IsOver};
ghost use Rattle.turn_lock.specs.Known.{IsReady};
ghost use Rattle.connection_laws.specs.Owners.{holding_of};
ghost use Rattle.farm_http.specs.Bytes.{PutSays, request_bytes};
ghost use Rattle.farm_http.specs.Faults.{OnPutFault};
ghost use Rattle.farm_http.specs.Noting.{TookNote};

use crate::responses::{Says, put_response};
use crate::service::Service;
use common_types::{Memory, Past};
use connection_laws::ServeFault;
use farm_disk::DatedDisk;
use farm_wire::log_text;
use http_requests::Request;
use http_words::StatusCode;
use link_io::{Clock, Gathered, Link, Sink};
use shared_farm::{Beginning, Pass};
use std::alloc::Global;
use std::sync::Wait;

/// Answers a request for a log page: the entries from this one on, counted from 1, in a turn that changes nothing. The
/// link first takes a note of a moment that was over in the turn.
pub(crate) fn answer_log<R: Wait, D: DatedDisk, B: Beginning, C: Clock, L: Link<Over = D::Over>>(
    service: &Service<R, D, B, C>,
    pass: &mut Pass,
    out: &mut Gathered,
    link: &mut L,
    request: &Request,
    from: u32,
) -> Result<(), ServeFault>
    requires ready { IsReady service.now.farm.now pass.old }
    requires from { 1 ≤ from }
    requires empty { out.old ≡ [] }
    ensures ready { IsReady service.now.farm.now pass.new }
    ensures empty { OnOk result (out.new ≡ []) }
    ensures longer { IsPrefix pass.old.seen pass.new.seen }
    ensures holds { holding_of pass.new ≡ holding_of pass.old }
    ensures faults { pass.old.faults ≤ pass.new.faults }
    ensures says { (written : Bool) × PutSays
        (request_bytes request.now (response_of (record { outcome = copied pass.new.seen from; written = written })))
        (L.Sink.written link.old) (L.Sink.written link.new) result }
    ensures aside { TookNote (L.Sink.aside link.old) (L.Sink.aside link.new) (L.Sink.written link.old) pass.new }
    ensures rows { AreAmong pass.old.rows pass.new.rows }
    ensures cause { OnPutFault result (Rose (L.Sink.count link.old) (L.Sink.count link.new)) }
    ensures never_falls { L.Sink.count link.old ≤ L.Sink.count link.new }
{
    let (text, over) = page_text(service, pass, from);
    link.note_over(&over);
    put_page(out, link, request, text)
}

/// Puts the answer to a request for a log page: its text, or that there was no memory for it.
fn put_page<K: Sink>(
    out: &mut Gathered,
    link: &mut K,
    request: &Request,
    text: Result<String, Memory>,
) -> Result<(), ServeFault>
    requires empty { out.old ≡ [] }
    ensures empty { OnOk result (out.new ≡ []) }
    ensures says { (body : List ℕ) → IfOk text (λ text. string_bytes text ≡ body) → (written : Bool) × PutSays
        (request_bytes request.now (if written then plain status.Ok body else no_memory)) (K.written link.old)
        (K.written link.new) result }
    ensures aside { K.aside link.new ≡ K.aside link.old }
    ensures cause { OnPutFault result (Rose (K.count link.old) (K.count link.new)) }
    ensures never_falls { K.count link.old ≤ K.count link.new }
{
    match text {
        Ok(text) => {
            let says = Says::plain(StatusCode::Ok, text.as_bytes());
            put_response(out, link, request, &says)
        }
        Err(_) => put_response(out, link, request, &Says::no_memory()),
    }
}

/// The text of the log page from this entry on, counted from 1, and a moment that was over in the turn.
fn page_text<R: Wait, D: DatedDisk, B: Beginning, C: Clock>(
    service: &Service<R, D, B, C>,
    pass: &mut Pass,
    from: u32,
) -> (Result<String, Memory>, D::Over)
    requires ready { IsReady service.now.farm.now pass.old }
    requires from { 1 ≤ from }
    ensures ready { IsReady service.now.farm.now pass.new }
    ensures longer { IsPrefix pass.old.seen pass.new.seen }
    ensures holds { holding_of pass.new ≡ holding_of pass.old }
    ensures faults { pass.old.faults ≤ pass.new.faults }
    ensures rows { AreAmong pass.old.rows pass.new.rows }
    ensures over { IsOver (D.Over.at result.1) pass.new }
    ensures text { IfOk result.0
        (λ text. string_bytes text ≡ compact_text (log_data from (log_page from pass.new.seen))) }
{
    let (page, over) = service.farm.tail(service.rt, service.alloc, pass, from);
    (text_of(service.alloc, from, page), over)
}

/// The text of a log page from this entry on, by its bytes.
fn text_of(alloc: Global, from: u32, page: Result<Vec<u8>, Memory>) -> Result<String, Memory>
    ensures { IfOk result (λ text. (H : List Entry) → IfOk page (λ bytes. bytes.items ≡ log_page from H)
        → string_bytes text ≡ compact_text (log_data from (log_page from H))) }
{
    let bytes = page?;
    log_text(alloc, from, &bytes)
}
