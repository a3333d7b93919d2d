//! When a connection that waits is given to a handler.

/// Says of the bytes that a connection has sent, and that nobody took yet, whether a handler is to have it now.
///
/// A connection is given to a handler all the same once its bytes fill the buffer into which they are looked at.
pub trait Enough {
    /// Whether these bytes, of which there is one at least, are enough; `ended` says that no more will follow.
    fn is_enough(&self, bytes: &[u8], ended: bool) -> bool;
}

/// The first byte is enough.
#[derive(Clone, Copy, Drop)]
pub struct AnyByte;

impl Enough for AnyByte {
    fn is_enough(&self, _bytes: &[u8], _ended: bool) -> bool {
        true
    }
}
