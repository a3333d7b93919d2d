//! The statuses of answers.

/// The status of an answer (RFC 9110, section 15, and RFC 6585).
#[derive(Clone, Copy)]
pub enum StatusCode {
    /// 200: what was asked for was done, or is shown.
    Ok,
    /// 400: the request can't be read.
    BadRequest,
    /// 403: a page in a browser may have sent the request.
    Forbidden,
    /// 404: the path, or what it names, isn't there.
    NotFound,
    /// 405: the path allows other methods.
    MethodNotAllowed,
    /// 409: what was asked for doesn't go with what is recorded.
    Conflict,
    /// 411: the request has to state the length of its body.
    LengthRequired,
    /// 413: the body is too long.
    TooLarge,
    /// 429: a limit by the day is reached.
    TooManyRequests,
    /// 501: the request has a transfer coding.
    NotImplemented,
    /// 503: the store failed.
    Unavailable,
    /// 507: out of memory.
    NoStorage,
}
