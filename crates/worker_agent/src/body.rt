//! The bodies of a worker's requests.

ghost use Rattle.std.specs.Prelude.{◌≡◌, IfOk, string_bytes};
ghost use Rattle.serde_json.specs.Written.{compact_text};
ghost use Rattle.worker_agent.specs.Requests.{key_text, lease_data, report_data, tested_word};

use crate::object::TextObject;
use farm_types::{Key, Memory, Name};
use std::alloc::Global;
use uuid::Uuid;
use weight_exact::Verdict;
use worker_core::Tested;

/// The body of a request for a run.
pub(crate) fn lease_body(alloc: Global, key: Key, worker: &Name) -> Result<String, Memory>
    ensures { IfOk result (λ text. string_bytes text ≡ compact_text (lease_data (key_text key) worker.now)) }
{
    let mut buffer = Uuid::encode_buffer();
    let digits = Uuid::from_u128(key.0)
        .hyphenated()
        .encode_lower(&mut buffer);
    lease_text(alloc, digits, worker)
}

#[tactic(auto, unfolding(crate::specs::Requests::lease_data))]
fn lease_text(alloc: Global, key: &str, worker: &Name) -> Result<String, Memory>
    ensures { IfOk result (λ text. string_bytes text ≡ compact_text (lease_data key.now worker.now)) }
{
    TextObject::new(alloc)
        .with("key", key)?
        .with("worker", worker.text())?
        .into_text()
}

/// The body of a report.
#[tactic(auto, unfolding(crate::specs::Requests::report_data))]
pub(crate) fn report_body(alloc: Global, tested: Tested) -> Result<String, Memory>
    ensures { IfOk result (λ text. string_bytes text ≡ compact_text (report_data tested)) }
{
    TextObject::new(alloc)
        .with("verdict", tested_word(tested))?
        .into_text()
}

fn tested_word(tested: Tested) -> &'static str
    ensures { result.now ≡ tested_word tested }
{
    match tested {
        Tested::Verdict(Verdict::Pass) => "pass",
        Tested::Verdict(Verdict::Fail) => "fail",
        Tested::Untestable => "skip",
    }
}
