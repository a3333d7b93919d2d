//! Where the fields of a head stand.
ghost use Rattle.std.specs.Prelude.{All, length};
ghost use Rattle.httparse.specs.Spans.{IsHeaderWithin};

use httparse::spans::HeaderSpan;

/// The fields of a head, as spans over its bytes.
#[derive(Clone, Copy)]
pub struct Fields<'b> {
    /// The bytes of the head.
    pub bytes: &'b [u8],
    /// Where the name and the value of each field stand.
    pub spans: &'b [HeaderSpan],
    pub ghost within: { All (IsHeaderWithin (length bytes.now)) spans.now },
}
