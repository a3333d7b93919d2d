//! The standard streams that the process began without.
use std::fs::File;
use std::os::fd::{AsRawFd, RawFd};

/// The greatest number of a standard stream: input, output and error are the descriptors 0 to 2.
const LAST_STREAM: RawFd = 2;

/// What stands in for each standard stream that the process began without. The system opens a file as the least
/// descriptor that is free, so the journal, or a connection, would be opened as a stream that is closed, and what the
/// program writes to that stream would be written there. A stand-in is the root folder, of which the system reads and
/// writes no bytes: each use of the stream fails, as it did without. Where that folder can't be opened nothing stands
/// in, and a journal that is opened as a stream is refused by its disk alone.
pub fn stand_ins(rt: HostRuntime) -> [Option<File>; 3] {
    [stand_in(rt), stand_in(rt), stand_in(rt)]
}

/// What stands in for the first standard stream that is closed, if one is.
fn stand_in(rt: HostRuntime) -> Option<File> {
    match File::open(&rt, "/") {
        Ok(folder) if folder.as_raw_fd() <= LAST_STREAM => Some(folder),
        _ => None,
    }
}
