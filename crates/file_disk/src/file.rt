//! The calls of a file that a disk makes.
ghost use Rattle.std.specs.Io.{WritesAtMost};

use std::io;

/// How a file is opened.
#[derive(Clone, Copy)]
pub enum Access {
    /// To be read.
    Read,
    /// To be read and written.
    Write,
    /// The same, and a missing one is made.
    Make,
}

/// The calls that a [`FileDisk`](crate::FileDisk) makes of its file. Those of the system are
/// [`SystemFile`](crate::SystemFile); a test may stand in for it. Each call but the first is made of an open file.
pub trait DiskFile {
    /// Opens the file, where it isn't open yet, and takes its advisory lock: those who read it share one, and who writes
    /// it has it alone. Answers whether it is open. A missing one stays missing, unless it is to be made; where its
    /// folder is missing too that is an error.
    fn open(&mut self, access: Access) -> io::Result<bool>;

    /// How many bytes the file has. An error where it doesn't stand at its path any more: it was removed or renamed, or
    /// another one was put in its place.
    fn look(&mut self) -> io::Result<u64>;

    /// Fills the buffer with the bytes from an offset on.
    fn read_exact_at(&mut self, buf: &mut [u8], at: u64) -> io::Result<()>;

    /// Writes some of the bytes at an offset, from the first one on. Answers how many.
    fn write_at(&mut self, bytes: &[u8], at: u64) -> io::Result<usize>
        ensures bound { WritesAtMost result bytes.now };

    /// Gives the file this size.
    fn set_len(&mut self, size: u64) -> io::Result<()>;

    /// Waits until what was written is stored for good.
    fn sync(&mut self) -> io::Result<()>;
}
