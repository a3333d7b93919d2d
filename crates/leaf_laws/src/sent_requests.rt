//! A worker's requests, as the service reads them on a connection. A function here does nothing: its contract is the
//! law.
ghost use Rattle.std.specs.Prelude.{◌≡◌, ◌<◌, ◌≤◌, ◌^◌, Ok, List, ℕ};
ghost use Rattle.farm_entry.specs.declared.command.Command.TheVariants as command;
ghost use Rattle.farm_types.specs.Limits.{IsName};
ghost use Rattle.farm_wire.specs.Reading.{body_reading};
ghost use Rattle.http_words.specs.declared.endpoint.Endpoint.TheVariants.{Command};
ghost use Rattle.http_words.specs.declared.route.Route.TheVariants.{Lease, Report};
ghost use Rattle.leaf_laws.specs.Sent.{IsOneRequest};
ghost use Rattle.serde_json.specs.Written.{compact_text};
ghost use Rattle.worker_agent.specs.Requests.{key_text, lease_data, lease_request, report_data, report_request};

use farm_types::Key;
use weight_exact::Verdict;
use worker_core::Tested;

/// A worker's request for a run is, on a connection of its own, that request and nothing else, and its body is read as
/// the command that asks for a run under this key, by the worker of this name.
pub fn lease_requests_are_read()
    ensures request { (key : Key) (worker : List ℕ) → IsName worker
        → IsOneRequest (Command Lease) (lease_request key worker) (compact_text (lease_data (key_text key) worker)) }
    ensures command { (key : Key) (worker : List ℕ) → key.0 < 2 ^ 128 → IsName worker
        → body_reading Lease (compact_text (lease_data (key_text key) worker)) ≡ Ok (command.Lease key worker) }
{}

/// A worker's report is, on a connection of its own, that request and nothing else, and its body is read as the report
/// of this run with this verdict, or as the command that says that this run's tree can't be tested.
pub fn report_requests_are_read()
    ensures request { (run : ℕ) (tested : Tested) → 1 ≤ run → run < 2 ^ 32
        → IsOneRequest (Command (Report run)) (report_request run tested) (compact_text (report_data tested)) }
    ensures command { (run : ℕ) (verdict : Verdict)
        → body_reading (Report run) (compact_text (report_data (Tested.Verdict verdict)))
        ≡ Ok (command.Report run verdict) }
    ensures skip { (run : ℕ)
        → body_reading (Report run) (compact_text (report_data Tested.Untestable)) ≡ Ok (command.Skip run) }
{}
