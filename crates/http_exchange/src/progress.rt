//! What stands at the front of the bytes held.

/// What stands at the front of the bytes held.
#[derive(Clone, Copy)]
pub enum ResponseProgress {
    /// No response is whole yet, nor will one be before so many bytes are held, which is more than there are now.
    More(usize),
    /// An interim response of so many bytes: the response begins behind it.
    Interim(usize),
    /// A whole response.
    Whole(Response),
    /// No response, whatever bytes follow.
    Never,
}

/// A whole response, by where its body stands in the bytes held.
#[derive(Clone, Copy)]
pub struct Response {
    /// The status, which isn't that of an interim response.
    pub status: u16,
    /// Where the body begins.
    pub body: usize,
    /// Where the body ends.
    pub end: usize,
}
