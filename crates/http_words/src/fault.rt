//! Why a request is answered without a command.

/// The methods that a path allows.
#[derive(Clone, Copy)]
pub enum Allow {
    /// `POST` alone.
    Post,
    /// `GET` and `HEAD`.
    GetAndHead,
}

/// A number that stands in a path.
#[derive(Clone, Copy)]
pub enum PathField {
    /// The number of a run.
    Run,
    /// The number of a search.
    Search,
    /// The number of the first line of a page: an entry of the log, a run of a search, a search of the list.
    From,
}

/// Why a request is answered without a command.
#[derive(Clone, Copy)]
pub enum Fault {
    /// The head can't be read, HTTP/1.1 comes without exactly one `Host` field, `Content-Length` stands twice or is no
    /// number, or the input ends before the body does.
    BadRequest,
    /// A `POST` comes with an `Origin` field, as browsers send it for the pages that they show.
    Foreign,
    /// There is a `Transfer-Encoding` field.
    NotImplemented,
    /// `Content-Length` is above [`MAX_BODY_BYTES`](crate::MAX_BODY_BYTES).
    TooLarge,
    /// A `POST` comes without `Content-Length`.
    LengthRequired,
    /// The path stands in no row of the table.
    NotFound,
    /// The path allows other methods, which are these.
    MethodNotAllowed(Allow),
    /// This number in the path isn't from 1 to 2^32 - 1, written without a sign and without zeros in front.
    BadField(PathField),
}
