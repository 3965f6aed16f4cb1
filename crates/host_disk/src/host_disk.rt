//! A file below the current folder as a disk, which tells nothing of what it holds.
ghost use Rattle.std.specs.Prelude.{◌≡◌, ◌≤◌};
ghost use Rattle.outside.specs.Counts.{Rose};

use disk::Disk;
use outside::{Failed, StoreFault};
use std::alloc::Global;
use std::fs::{self, File, TryLockError};
use std::io::{Error, ErrorKind};
use std::os::unix::fs::{FileExt, MetadataExt};
use std::rt::Files;

const PATH: &str = "schemasql.journal";

// The file before it is whole.
const NEW: &str = ".schemasql.journal.new";

/// The file `schemasql.journal` as a disk. Its first call opens and locks it, and makes it of one byte 0 where it is
/// missing, whole or not at all; the file and its folder are then synced. A file that another program has locked, one that
/// nobody may write, what is no regular file, and a file that is shorter than a read asks for are failures. Where the file
/// system knows no locks, or syncs no folders, it does without.
///
/// A file that its name does not lead to, as one that was moved, removed or replaced meanwhile, is a failure too: when it is
/// opened, before each write, and after each sync.
#[derive(Drop)]
pub struct HostDisk<R: Files<File = File> + Drop> {
    rt: R,
    file: Option<File>,
    faults: u64,
}

impl<R: Files<File = File> + Drop> HostDisk<R> {
    /// The disk, on which no call has failed.
    pub fn of(rt: R) -> Self
        ensures { result.faults ≡ 0 }
    {
        HostDisk {
            rt,
            file: None,
            faults: 0,
        }
    }
}

impl<R: Files<File = File> + Drop> Disk for HostDisk<R> {
    ghost use Rattle.host_disk.specs.HostDisks.{untold, AnyLeft, not_told};

    ghost state = { λ s. untold s.faults };

    ghost left_since = { λ s t image. AnyLeft t image };

    ghost reads = { λ s held told. not_told held told };

    ghost counts_now = { λ s t image le h. tt };

    ghost only_now = { λ s image h. tt };

    fn size(&mut self) -> Result<u64, Failed> {
        match size_of(&self.rt, &mut self.file) {
            Ok(size) => Ok(size),
            Err(_) => Err(failed(&mut self.faults)),
        }
    }

    fn read_at(&mut self, at: u64, into: &mut [u8]) -> Result<(), Failed> {
        match read(&self.rt, &mut self.file, at, into) {
            Ok(()) => Ok(()),
            Err(_) => Err(failed(&mut self.faults)),
        }
    }

    fn write_at(&mut self, _alloc: Global, at: u64, bytes: &[u8]) -> Result<(), StoreFault> {
        match write(&self.rt, &mut self.file, at, bytes) {
            Ok(()) => Ok(()),
            Err(_) => {
                let _ = failed(&mut self.faults);
                Err(StoreFault::Failed)
            }
        }
    }

    fn sync(&mut self) -> Result<(), Failed> {
        match sync(&self.rt, &mut self.file) {
            Ok(()) => Ok(()),
            Err(_) => Err(failed(&mut self.faults)),
        }
    }
}

// What a call answers that failed. It counts as a fault.
fn failed(faults: &mut u64) -> Failed
    ensures rose { Rose faults.old faults.new }
    ensures steady { faults.old ≤ faults.new }
{
    *faults = faults.saturating_add(1);
    Failed
}

fn size_of<R: Files<File = File>>(rt: &R, file: &mut Option<File>) -> Result<u64, Error> {
    Ok(opened(rt, file)?.metadata()?.len())
}

fn read<R: Files<File = File>>(
    rt: &R,
    file: &mut Option<File>,
    at: u64,
    into: &mut [u8],
) -> Result<(), Error> {
    opened(rt, file)?.read_exact_at(into, at)
}

fn write<R: Files<File = File>>(
    rt: &R,
    file: &mut Option<File>,
    at: u64,
    bytes: &[u8],
) -> Result<(), Error> {
    let file = opened(rt, file)?;
    check_named(rt, file)?;
    file.write_all_at(bytes, at)
}

// What a read gives is on the disk, and how long the file is. The time of its last change need not be.
fn sync<R: Files<File = File>>(rt: &R, file: &mut Option<File>) -> Result<(), Error> {
    let file = opened(rt, file)?;
    file.sync_data()?;
    check_named(rt, file)
}

// The file, which is opened by the first call.
fn opened<'a, R: Files<File = File>>(
    rt: &R,
    file: &'a mut Option<File>,
) -> Result<&'a File, Error> {
    if file.is_none() {
        *file = Some(open(rt)?);
    }
    match file {
        Some(file) => Ok(file),
        None => Err(Error::from(ErrorKind::NotFound)),
    }
}

// The file, open and locked, which is made where it is missing.
fn open<R: Files<File = File>>(rt: &R) -> Result<File, Error> {
    match open_there(rt) {
        Err(error) if error.kind() == ErrorKind::NotFound => make(rt),
        opened => opened,
    }
}

// The file that is there, open and locked. What it holds is on the disk, also where a program was stopped before it had
// synced it.
fn open_there<R: Files<File = File>>(rt: &R) -> Result<File, Error> {
    let file = File::options().read(true).write(true).open(rt, PATH)?;
    check_writable(&file)?;
    lock(&file)?;
    check_named(rt, &file)?;
    file.sync_all()?;
    sync_folder(rt)?;
    Ok(file)
}

// Makes the file under another name, locked, and gives it its own when its byte is on the disk. Where something lies under
// its own by then, as a link that leads nowhere, that is a failure, and nothing is left beside it.
fn make<R: Files<File = File>>(rt: &R) -> Result<File, Error> {
    check_left_over(rt)?;
    let file = File::options()
        .read(true)
        .write(true)
        .create(true)
        .open(rt, NEW)?;
    check_writable(&file)?;
    lock(&file)?;
    if fs::symlink_metadata(rt, PATH).is_ok() {
        fs::remove_file(rt, NEW)?;
        return Err(Error::from(ErrorKind::AlreadyExists));
    }
    file.set_len(0)?;
    file.write_all_at(&[0], 0)?;
    file.sync_all()?;
    fs::rename(rt, NEW, PATH)?;
    check_named(rt, &file)?;
    sync_folder(rt)?;
    Ok(file)
}

// A file that a stopped program left beside is written over. What is no regular file there, as a link, is a failure.
fn check_left_over<R: Files>(rt: &R) -> Result<(), Error> {
    match fs::symlink_metadata(rt, NEW) {
        Ok(metadata) if !metadata.is_file() => Err(Error::from(ErrorKind::InvalidInput)),
        Err(error) if error.kind() != ErrorKind::NotFound => Err(error),
        _ => Ok(()),
    }
}

// What is no regular file, and a file whose mode lets nobody write, are failures.
fn check_writable(file: &File) -> Result<(), Error> {
    let metadata = file.metadata()?;
    if !metadata.is_file() {
        return Err(Error::from(ErrorKind::InvalidInput));
    }
    if metadata.permissions().readonly() {
        return Err(Error::from(ErrorKind::PermissionDenied));
    }
    Ok(())
}

// A file that its name does not lead to, as one that was moved, removed or replaced, is a failure.
fn check_named<R: Files>(rt: &R, file: &File) -> Result<(), Error> {
    let held = file.metadata()?;
    match fs::metadata(rt, PATH) {
        Ok(named) if named.dev() == held.dev() && named.ino() == held.ino() => Ok(()),
        _ => Err(Error::from(ErrorKind::ResourceBusy)),
    }
}

// Locks the file, where the file system knows locks. One that another program has locked is a failure.
fn lock(file: &File) -> Result<(), Error> {
    match file.try_lock() {
        Ok(()) => Ok(()),
        Err(TryLockError::WouldBlock) => Err(Error::from(ErrorKind::WouldBlock)),
        Err(TryLockError::Error(_)) => Ok(()),
    }
}

// What was made in the current folder is on the disk. A file system that syncs no folders does without.
fn sync_folder<R: Files<File = File>>(rt: &R) -> Result<(), Error> {
    match File::open(rt, ".")?.sync_all() {
        Ok(()) => Ok(()),
        Err(error) if error.kind() == ErrorKind::InvalidInput => Ok(()),
        Err(error) if error.kind() == ErrorKind::Unsupported => Ok(()),
        Err(error) => Err(error),
    }
}
