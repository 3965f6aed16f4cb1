//! Locks on files and folders, by which one program at a time writes.
use crate::paths::found;
use std::alloc::Global;
use std::fs::{self, File, TryLockError};
use std::io::{Error, ErrorKind};
use std::rt::Files;

/// The locks that a program holds until it ends: on the folder of the sources, and on the files of its views' definitions.
#[derive(Drop)]
pub(crate) struct Locks {
    sources: Option<File>,
    definitions: Vec<File>,
}

impl Locks {
    /// No lock.
    pub(crate) fn none(alloc: Global) -> Locks {
        Locks {
            sources: None,
            definitions: Vec::new(alloc),
        }
    }

    /// Takes the lock of the sources, and holds it. One that another program holds is a failure.
    pub(crate) fn hold_sources<R: Files<File = File>>(&mut self, rt: &R) -> Result<(), Error> {
        self.sources = lock_at(rt, "sources")?;
        Ok(())
    }

    /// Takes the lock of the file of a definition, and holds it. One that another program holds is a failure.
    pub(crate) fn hold_definition<R: Files<File = File>>(
        &mut self,
        rt: &R,
        path: &str,
    ) -> Result<(), Error> {
        if let Some(lock) = lock_at(rt, path)? {
            self.definitions.push(lock)?;
        }
        Ok(())
    }
}

/// The lock of the file or folder at a path. There is none where nothing lies there, and where the file system knows no
/// locks. One that another program holds is a failure.
pub(crate) fn lock_at<R: Files<File = File>>(rt: &R, path: &str) -> Result<Option<File>, Error> {
    let Some(metadata) = found(fs::metadata(rt, path))? else {
        return Ok(None);
    };
    if !metadata.is_file() && !metadata.is_dir() {
        return Ok(None);
    }
    let Ok(file) = File::open(rt, path) else {
        return Ok(None);
    };
    match file.try_lock() {
        Ok(()) => Ok(Some(file)),
        Err(TryLockError::WouldBlock) => Err(Error::from(ErrorKind::WouldBlock)),
        Err(TryLockError::Error(_)) => Ok(None),
    }
}
