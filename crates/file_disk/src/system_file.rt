//! A file of the system.
ghost use Rattle.std.specs.Prelude.{◌≡◌, IfOk};
ghost use Rattle.file_disk.specs.FileDisk.{system_path};

use crate::file::{Access, DiskFile};
use std::alloc::{AllocError, Global};
use std::fs::{File, OpenOptions};
use std::io;
use std::os::fd::{AsRawFd, RawFd};
use std::os::unix::fs::{FileExt, MetadataExt};
use std::path::Path;
use std::rt::Files;

/// The greatest number of a standard stream: input, output and error are the descriptors 0 to 2.
const LAST_STREAM: RawFd = 2;

/// The file of the system at a path. A call that a signal interrupts is made again, and a read that gets a part of the
/// bytes goes on.
///
/// A folder in place of the file is an error, and so is a file that the system opens as a standard stream, which was
/// closed: what is written to that stream would go there.
#[derive(Drop)]
pub struct SystemFile<R: Files<File = File> + Drop> {
    rt: R,
    path: String,
    opened: Option<Opened>,
}

/// An open file, and what tells it from every other one: its file system, and its number there.
#[derive(Drop)]
struct Opened {
    file: File,
    device: u64,
    inode: u64,
}

impl<R: Files<File = File> + Drop> SystemFile<R> {
    /// The file at a path. It isn't touched yet.
    pub fn at(alloc: Global, rt: R, path: &str) -> Result<SystemFile<R>, AllocError>
        ensures path { IfOk result (λ file. system_path file ≡ path.now) }
    {
        Ok(SystemFile {
            rt,
            path: String::from_str(alloc, path)?,
            opened: None,
        })
    }

    // The file, once it is open.
    fn file(&self) -> io::Result<&File> {
        match &self.opened {
            Some(opened) => Ok(&opened.file),
            None => Err(io::Error::from(io::ErrorKind::NotFound)),
        }
    }

    // An error where the folder of the file is missing.
    fn find_folder(&self) -> io::Result<()> {
        match Path::new(self.path.as_str()).parent() {
            Some(folder) if !folder.as_os_str().is_empty() => {
                std::fs::metadata(&self.rt, folder)?;
                Ok(())
            }
            _ => Ok(()),
        }
    }

    // Keeps the file open that was opened, with its lock.
    fn keep(&mut self, file: File, access: Access) -> io::Result<()> {
        if file.as_raw_fd() <= LAST_STREAM {
            return Err(io::Error::from(io::ErrorKind::Unsupported));
        }
        match access {
            Access::Read => file.try_lock_shared()?,
            Access::Write | Access::Make => file.try_lock()?,
        }
        let seen = file.metadata()?;
        self.opened = Some(Opened {
            file,
            device: seen.dev(),
            inode: seen.ino(),
        });
        Ok(())
    }
}

impl<R: Files<File = File> + Drop> DiskFile for SystemFile<R> {
    fn open(&mut self, access: Access) -> io::Result<bool> {
        if self.opened.is_some() {
            return Ok(true);
        }
        let mut options = OpenOptions::new();
        let opened = options
            .read(true)
            .write(access != Access::Read)
            .create(access == Access::Make)
            .open(&self.rt, self.path.as_str());
        match opened {
            Ok(file) => {
                self.keep(file, access)?;
                Ok(true)
            }
            Err(error) if error.kind() == io::ErrorKind::NotFound && access != Access::Make => {
                self.find_folder()?;
                Ok(false)
            }
            Err(error) => Err(error),
        }
    }

    fn look(&mut self) -> io::Result<u64> {
        let seen = std::fs::metadata(&self.rt, self.path.as_str())?;
        match &self.opened {
            Some(opened) if opened.device == seen.dev() && opened.inode == seen.ino() => {
                Ok(seen.len())
            }
            _ => Err(io::Error::from(io::ErrorKind::NotFound)),
        }
    }

    fn read_exact_at(&mut self, buf: &mut [u8], at: u64) -> io::Result<()> {
        self.file()?.read_exact_at(buf, at)
    }

    fn write_at(&mut self, bytes: &[u8], at: u64) -> io::Result<usize> {
        self.file()?.write_at(bytes, at)
    }

    fn set_len(&mut self, size: u64) -> io::Result<()> {
        self.file()?.set_len(size)
    }

    fn sync(&mut self) -> io::Result<()> {
        self.file()?.sync_data()
    }
}
