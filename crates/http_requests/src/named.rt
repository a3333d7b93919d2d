//! What the fields of a head say.
ghost use Rattle.std.specs.Prelude.{◌≡◌, ◌<◌, length, MatchOption, IfSome, [], ◌∷◌};
ghost use Rattle.http_requests.specs.FieldTexts.{named_values, lists_close, field_texts};

use crate::fields::Fields;
use crate::text::{cut, is_same, trimmed};

impl<'b> Fields<'b> {
    /// The value of the first field with this name, and the fields behind it.
    pub fn find(&self, name: &[u8]) -> Option<(&'b [u8], Fields<'b>)>
        ensures found { MatchOption result
            (named_values name.now (field_texts self.now) ≡ [])
            (λ found. named_values name.now (field_texts self.now)
            ≡ found.0.now ∷ named_values name.now (field_texts found.1)) }
        ensures fewer { IfSome result (λ found. length found.1.spans.now < length self.now.spans.now) }
    {
        let bytes = self.bytes;
        let mut spans = self.spans;
        while let [span, behind @ ..] = spans {
            if is_same(span.name.of(bytes), name) {
                let value = span.value.of(bytes);
                let spans = behind;
                return Some((value, Fields { bytes, spans }));
            }
            spans = behind;
        }
        None
    }
}

/// Whether `close` stands between the commas of a value.
pub fn lists_close(value: &[u8]) -> bool
    ensures { result ≡ lists_close value.now }
{
    let mut rest = Some(value);
    while let Some(text) = rest {
        let (option, behind) = cut(text, b',');
        if is_same(trimmed(option), b"close") {
            return true;
        }
        rest = behind;
    }
    false
}
