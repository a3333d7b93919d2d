use http_words::MAX_BODY_BYTES;

/// The most bytes of the text that a command is read from: of a script line without its line feed, or of the body of a
/// request.
pub const MAX_COMMAND_BYTES: usize = MAX_BODY_BYTES;
