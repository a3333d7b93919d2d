/// The key by which a request that is sent again is known again: 128 bits that the sender picks, as in a UUID. A second
/// request with the same key and the same contents is answered as the first was, and done once.
#[derive(Clone, Copy, PartialEq, Eq)]
pub struct Key(pub u128);
