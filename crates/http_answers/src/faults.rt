//! How the faults of requests are answered.
ghost use Rattle.std.specs.Prelude.{◌≡◌};
ghost use Rattle.http_answers.specs.Faults.{fault_text, fault_status, fault_allow, bad_field_text};
ghost use Rattle.http_answers.specs.Faults.{memory_text, store_fault_text};

use http_words::{Allow, Fault, PathField, StatusCode};

/// The body of an answer whose command's entry the store couldn't take.
pub fn store_fault_text() -> &'static [u8]
    ensures { result.now ≡ store_fault_text }
{
    br#"{"refused":"StoreFault"}"#
}

/// The body of an answer for which memory ran out.
pub fn memory_text() -> &'static [u8]
    ensures { result.now ≡ memory_text }
{
    br#"{"refused":"Memory"}"#
}

/// The body of the answer to a fault: a JSON object whose members stand in the order of their names.
#[tactic(auto, unfolding(crate::specs::Faults::fault_text))]
pub fn fault_text(fault: Fault) -> &'static [u8]
    ensures { result.now ≡ fault_text fault }
{
    match fault {
        Fault::BadRequest => br#"{"refused":"BadRequest"}"#,
        Fault::Foreign => br#"{"refused":"Foreign"}"#,
        Fault::NotImplemented => br#"{"refused":"NotImplemented"}"#,
        Fault::TooLarge => br#"{"refused":"TooLarge"}"#,
        Fault::LengthRequired => br#"{"refused":"LengthRequired"}"#,
        Fault::NotFound => br#"{"refused":"NotFound"}"#,
        Fault::MethodNotAllowed(_) => br#"{"refused":"MethodNotAllowed"}"#,
        Fault::BadField(field) => bad_field_text(field),
    }
}

/// The body of the answer to a path whose number isn't one.
fn bad_field_text(field: PathField) -> &'static [u8]
    ensures { result.now ≡ bad_field_text field }
{
    match field {
        PathField::Run => br#"{"field":"run","refused":"BadField"}"#,
        PathField::Search => br#"{"field":"search","refused":"BadField"}"#,
        PathField::From => br#"{"field":"from","refused":"BadField"}"#,
    }
}

/// The status of the answer to a fault.
pub fn fault_status(fault: Fault) -> StatusCode
    ensures { result ≡ fault_status fault }
{
    match fault {
        Fault::BadRequest => StatusCode::BadRequest,
        Fault::Foreign => StatusCode::Forbidden,
        Fault::NotImplemented => StatusCode::NotImplemented,
        Fault::TooLarge => StatusCode::TooLarge,
        Fault::LengthRequired => StatusCode::LengthRequired,
        Fault::NotFound => StatusCode::NotFound,
        Fault::MethodNotAllowed(_) => StatusCode::MethodNotAllowed,
        Fault::BadField(_) => StatusCode::BadRequest,
    }
}

/// The methods that the answer to a fault names.
pub fn fault_allow(fault: Fault) -> Option<Allow>
    ensures { result ≡ fault_allow fault }
{
    match fault {
        Fault::MethodNotAllowed(allow) => Some(allow),
        _ => None,
    }
}
