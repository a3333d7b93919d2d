//! A disk over a file: the trusted edge, which tells contracts nothing of its content.
ghost use Rattle.std.specs.Prelude.{◌≡◌, ◌≤◌, [], false, IfOk};
ghost use Rattle.common_types.specs.Counts.{Rose};
ghost use Rattle.farm_disk.specs.Answers.{OnFailed};
ghost use Rattle.file_disk.specs.FileDisk.{disk_file, file_faults, file_path};

use crate::extent::Extent;
use crate::file::{Access, DiskFile};
use crate::opening::Opening;
use crate::system_file::SystemFile;
use crate::unsynced::Unsynced;
use crate::written::{put_again, put_all, put_ends_again};
use common_types::{Passed, ToldList};
use farm_disk::{DatedDisk, Did, Disk, Memory, Size, Written};
use std::alloc::Global;
use std::fs::File;
use std::io;
use std::rt::Files;

/// A file as a disk. It is opened at its first use. A missing file reads as empty, and the first write makes it;
/// that its name in its folder outlasts a crash isn't claimed. Nobody else may write to it: from its first use on the
/// file's advisory lock is held, and where another program holds it each call is a fault that reads and writes nothing.
///
/// Each error is counted as a fault, and so is a call outside the size, a folder in place of the file, and a missing
/// folder. What is known of the size is kept between the calls: it is asked for by [`Disk::size`], by a write of more
/// than one byte, as that of a record is and that of a gate isn't, and where a call failed. Such a call is a fault while
/// the file doesn't stand at its path: it was removed or renamed, or another one was put in its place. Where the size
/// isn't what this disk made it, somebody else wrote to the file or cut it: each call is a fault from then on.
///
/// A system may drop what it could not store at a sync that failed, and take the next sync for done without it. So what
/// was written since the last sync that was done is kept in memory, and written again before the next one; at most
/// 2 MiB, beyond which, or where memory for it lacks, a write is a fault that writes nothing. As an earlier program may
/// have ended after such a sync, the header and the end of a journal that is opened to append to it are written again
/// as they read, before the first sync.
#[derive(Drop)]
pub struct FileDisk<F: DiskFile + Drop> {
    alloc: Global,
    file: F,
    opening: Opening,
    // What is known of the size of the open file.
    open: Option<Extent>,
    // The file was found to have another size than this disk made it.
    lost: bool,
    unsynced: Unsynced,
    // The last sync failed.
    again: bool,
    // The ends of the journal are still to be written again.
    ends_again: bool,
    faults: u64,
}

impl<R: Files<File = File> + Drop> FileDisk<SystemFile<R>> {
    /// The file of the system at a path, with no fault so far. It isn't touched yet.
    pub fn at(
        alloc: Global,
        rt: R,
        path: &str,
        opening: Opening,
    ) -> Result<FileDisk<SystemFile<R>>, Memory>
        ensures path { IfOk result (λ disk. file_path disk ≡ path.now) }
        ensures faults { IfOk result (λ disk. file_faults disk ≡ 0) }
    {
        let file = SystemFile::at(alloc, rt, path)?;
        Ok(FileDisk::over(alloc, file, opening))
    }
}

impl<F: DiskFile + Drop> FileDisk<F> {
    /// A file that a test stands in for, with no fault so far. It isn't opened yet.
    pub fn over(alloc: Global, file: F, opening: Opening) -> FileDisk<F>
        ensures file { disk_file result ≡ file }
        ensures faults { file_faults result ≡ 0 }
    {
        FileDisk {
            alloc,
            file,
            opening,
            open: None,
            lost: false,
            unsynced: Unsynced::new(alloc),
            again: false,
            ends_again: opening.is_append(),
            faults: 0,
        }
    }

    /// The file.
    pub fn into_file(self) -> F
        ensures { result ≡ disk_file self }
    {
        self.file
    }

    // Opens the file, where it isn't open yet. Answers what is known of its size; a missing one stays missing, unless it
    // is to be made.
    fn open(&mut self, makes: bool) -> io::Result<Option<Extent>>
        ensures { self.new.faults ≡ self.old.faults }
    {
        if self.lost {
            return Err(io::Error::from(io::ErrorKind::NotFound));
        }
        if self.open.is_some() {
            return Ok(self.open);
        }
        let access = match (self.opening.is_read(), makes) {
            (true, _) => Access::Read,
            (false, false) => Access::Write,
            (false, true) => Access::Make,
        };
        if self.file.open(access)? {
            let size = self.file.look()?;
            self.find_founding(size)?;
            self.open = Some(Extent::of(size));
        }
        Ok(self.open)
    }

    // An error where a journal is to be founded in the file, and its first byte is 0, but it is longer than what a crash
    // in a founding may leave.
    fn find_founding(&mut self, size: u64) -> io::Result<()>
        ensures { self.new.faults ≡ self.old.faults }
    {
        let Some(limit) = self.opening.founding_limit() else {
            return Ok(());
        };
        if size <= limit {
            return Ok(());
        }
        let mut birth = [0];
        self.file.read_exact_at(&mut birth, 0)?;
        if birth[0] == 0 {
            Err(io::Error::from(io::ErrorKind::AlreadyExists))
        } else {
            Ok(())
        }
    }

    // Looks at the open file. An error where it doesn't stand at its path, and from now on where it isn't as this disk
    // left it.
    fn look(&mut self, known: Extent) -> io::Result<u64>
        ensures { self.new.faults ≡ self.old.faults }
    {
        let size = self.file.look()?;
        if !known.allows(size) {
            self.lost = true;
            return Err(io::Error::from(io::ErrorKind::NotFound));
        }
        self.open = Some(Extent::of(size));
        Ok(size)
    }

    // Asks the system for the size.
    fn size_now(&mut self) -> io::Result<u64>
        ensures { self.new.faults ≡ self.old.faults }
    {
        match self.open(false)? {
            Some(known) => self.look(known),
            None => Ok(0),
        }
    }

    // The size that is known, or else what the system says.
    fn size_kept(&mut self) -> io::Result<u64>
        ensures { self.new.faults ≡ self.old.faults }
    {
        match self.open(false)? {
            Some(known) => match known.size() {
                Some(size) => Ok(size),
                None => self.look(known),
            },
            None => Ok(0),
        }
    }

    // From now on the open file is between these sizes.
    fn set_extent(&mut self, extent: Extent)
        ensures { self.new.faults ≡ self.old.faults }
    {
        if self.open.is_some() {
            self.open = Some(extent);
        }
    }

    fn read_now(&mut self, at: u64, buf: &mut [u8]) -> io::Result<()>
        ensures { self.new.faults ≡ self.old.faults }
    {
        let size = self.size_kept()?;
        within(at.saturating_add(buf.len() as u64), size)?;
        match self.open {
            Some(_) => self.file.read_exact_at(buf, at),
            None => Ok(()),
        }
    }

    // Makes the file that was missing. Where another program has made one meanwhile and written to it, that is an
    // error.
    fn make(&mut self) -> io::Result<()>
        ensures { self.new.faults ≡ self.old.faults }
    {
        match self.open(true)? {
            Some(known) if known.allows(0) => Ok(()),
            Some(_) => Err(io::Error::from(io::ErrorKind::AlreadyExists)),
            None => Err(io::Error::from(io::ErrorKind::NotFound)),
        }
    }

    fn write_now(&mut self, at: u64, bytes: &[u8]) -> io::Result<()>
        ensures { self.new.faults ≡ self.old.faults }
    {
        let size = if bytes.len() == 1 {
            self.size_kept()?
        } else {
            self.size_now()?
        };
        within(at, size)?;
        if self.open.is_none() {
            self.make()?;
        }
        self.unsynced.keep(self.alloc, at, bytes)?;
        let end = size.max(at.saturating_add(bytes.len() as u64));
        self.set_extent(Extent::between(size, end));
        let (put, outcome) = put_all(&mut self.file, at, bytes);
        match outcome {
            Ok(()) => self.set_extent(Extent::of(end)),
            Err(_) => self.unsynced.shorten_last(put),
        }
        outcome
    }

    fn cut_now(&mut self, size: u64) -> io::Result<()>
        ensures { self.new.faults ≡ self.old.faults }
    {
        let present = self.size_kept()?;
        within(size, present)?;
        if self.open.is_none() {
            return Ok(());
        }
        self.unsynced.cut(size);
        self.set_extent(Extent::between(size, present));
        self.file.set_len(size)?;
        self.set_extent(Extent::of(size));
        Ok(())
    }

    // Writes again what the system may have dropped at a sync that failed.
    fn write_again(&mut self) -> io::Result<()>
        ensures { self.new.faults ≡ self.old.faults }
    {
        if self.ends_again {
            let size = self.size_kept()?;
            put_ends_again(self.alloc, &mut self.file, size)?;
        }
        if self.again {
            self.size_now()?;
            put_again(&mut self.file, self.unsynced.writes())?;
        }
        Ok(())
    }

    fn sync_now(&mut self) -> io::Result<()>
        ensures { self.new.faults ≡ self.old.faults }
    {
        if self.open(false)?.is_none() {
            return Ok(());
        }
        self.write_again()?;
        if let Err(error) = self.file.sync() {
            self.again = true;
            return self.passed_over(error);
        }
        self.unsynced.clear();
        self.again = false;
        self.ends_again = false;
        Ok(())
    }

    // The error of a sync; but nothing was written to a file that is read alone, and a file system that nobody can write
    // to may have no sync.
    fn passed_over(&self, error: io::Error) -> io::Result<()> {
        let has_no_sync = matches!(
            error.kind(),
            io::ErrorKind::InvalidInput | io::ErrorKind::ReadOnlyFilesystem
        );
        if has_no_sync && self.opening.is_read() {
            Ok(())
        } else {
            Err(error)
        }
    }

    // Counts a fault where the call gave an error.
    fn answer(&mut self, outcome: io::Result<()>) -> Did
        ensures rises { OnFailed result (Rose self.old.faults self.new.faults) }
        ensures never_falls { self.old.faults ≤ self.new.faults }
    {
        match outcome {
            Ok(()) => Did::Did,
            Err(_) => {
                self.faults = self.faults.saturating_add(1);
                Did::Failed
            }
        }
    }
}

// An error where an offset is past the size.
fn within(at: u64, size: u64) -> io::Result<()> {
    if at <= size {
        Ok(())
    } else {
        Err(io::Error::from(io::ErrorKind::UnexpectedEof))
    }
}

impl<F: DiskFile + Drop> Disk for FileDisk<F> {
    ghost tells = { λ d. false };

    ghost told = { λ d. record { bytes = []; steps = [] } };

    ghost count = { file_faults };

    fn faults(&self) -> u64 {
        self.faults
    }

    fn size(&mut self) -> Size {
        match self.size_now() {
            Ok(size) => Size::Size(size),
            Err(_) => {
                self.faults = self.faults.saturating_add(1);
                Size::Failed
            }
        }
    }

    fn read(&mut self, at: u64, buf: &mut [u8]) -> Did {
        let outcome = self.read_now(at, buf);
        self.answer(outcome)
    }

    fn write_at(&mut self, at: u64, bytes: &[u8]) -> Written {
        let outcome = self.write_now(at, bytes);
        match self.answer(outcome) {
            Did::Did => Written::Did,
            Did::Failed => Written::Failed,
        }
    }

    fn cut(&mut self, size: u64) -> Did {
        let outcome = self.cut_now(size);
        self.answer(outcome)
    }

    fn sync(&mut self) -> Did {
        let outcome = self.sync_now();
        self.answer(outcome)
    }
}

impl<F: DiskFile + Drop> DatedDisk for FileDisk<F> {
    type Over = Passed;

    ghost dated = { λ d. 0 };

    fn passed(&self) -> Passed {
        Passed::of(&ToldList::new())
    }
}
