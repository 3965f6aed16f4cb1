//! Which file was read, so that one that somebody else changed meanwhile is not written over.
use crate::paths::found;
use std::alloc::Global;
use std::collections::{BTreeMap, BTreeSet};
use std::fs::{self, Metadata};
use std::io::{Error, ErrorKind};
use std::os::unix::fs::MetadataExt;
use std::rt::Files;

/// What tells one state of a file from another: its device, inode, length and time.
#[derive(Clone, Copy, Debug, PartialEq, Eq)]
pub(crate) struct Stamp {
    device: u64,
    inode: u64,
    length: u64,
    seconds: i64,
    nanoseconds: i64,
}

impl Stamp {
    pub(crate) fn of(metadata: &Metadata) -> Stamp {
        Stamp {
            device: metadata.dev(),
            inode: metadata.ino(),
            length: metadata.len(),
            seconds: metadata.mtime(),
            nanoseconds: metadata.mtime_nsec(),
        }
    }

    /// Whether both are of one file, whatever it holds.
    pub(crate) fn is_same_file(&self, other: &Stamp) -> bool {
        self.device == other.device && self.inode == other.inode
    }
}

/// The stamp of what lies at a path, where links are followed, if something does.
pub(crate) fn stamp_at<R: Files>(rt: &R, path: &str) -> Result<Option<Stamp>, Error> {
    match found(fs::metadata(rt, path))? {
        Some(metadata) => Ok(Some(Stamp::of(&metadata))),
        None => Ok(None),
    }
}

/// The stamp of what lies at a path, where links are not followed, if something does.
pub(crate) fn link_stamp_at<R: Files>(rt: &R, path: &str) -> Result<Option<Stamp>, Error> {
    match found(fs::symlink_metadata(rt, path))? {
        Some(metadata) => Ok(Some(Stamp::of(&metadata))),
        None => Ok(None),
    }
}

/// The stamps of the files that were read or written, by their paths.
#[derive(Drop)]
pub(crate) struct Stamps {
    by_path: BTreeMap<String, Stamp>,
}

impl Stamps {
    pub(crate) fn none(alloc: Global) -> Stamps {
        Stamps {
            by_path: BTreeMap::new(alloc),
        }
    }

    /// Keeps the stamp of what was read at a path or was written there, or that nothing lies there.
    pub(crate) fn keep(&mut self, path: String, stamp: Option<Stamp>) -> Result<(), Error> {
        match stamp {
            Some(stamp) => {
                self.by_path.insert(path, stamp)?;
            }
            None => {
                self.by_path.remove(&path);
            }
        }
        Ok(())
    }

    /// The stamp of what lies at a path, if something does. That it is not what was read there, or nothing where nothing
    /// was, is a failure.
    pub(crate) fn as_read<R: Files>(&self, rt: &R, path: &String) -> Result<Option<Stamp>, Error> {
        let stamp = stamp_at(rt, path.as_str())?;
        if self.by_path.get(path).copied() == stamp {
            Ok(stamp)
        } else {
            Err(Error::from(ErrorKind::ResourceBusy))
        }
    }
}

/// Files, by their devices and inodes.
#[derive(Drop)]
pub(crate) struct DistinctFiles {
    files: BTreeSet<(u64, u64)>,
}

impl DistinctFiles {
    pub(crate) fn none(alloc: Global) -> DistinctFiles {
        DistinctFiles {
            files: BTreeSet::new(alloc),
        }
    }

    /// Adds a file. One that is there already, under whatever name, is a failure.
    pub(crate) fn add(&mut self, stamp: &Stamp) -> Result<(), Error> {
        if self.files.insert((stamp.device, stamp.inode))? {
            Ok(())
        } else {
            Err(Error::from(ErrorKind::ResourceBusy))
        }
    }
}

/// The paths of files that were written, by their devices and inodes.
#[derive(Drop)]
pub(crate) struct Written {
    by_file: BTreeMap<(u64, u64), String>,
}

impl Written {
    pub(crate) fn none(alloc: Global) -> Written {
        Written {
            by_file: BTreeMap::new(alloc),
        }
    }

    /// Keeps that the file at a path was written.
    pub(crate) fn keep<R: Files>(&mut self, rt: &R, path: String) -> Result<(), Error> {
        if let Some(stamp) = stamp_at(rt, path.as_str())? {
            self.by_file.insert((stamp.device, stamp.inode), path)?;
        }
        Ok(())
    }

    /// Whether the file at a path is one that was written under another path, and still lies there: then the file system
    /// takes both for one.
    pub(crate) fn has_another_name<R: Files>(&self, rt: &R, path: &str) -> Result<bool, Error> {
        let Some(stamp) = link_stamp_at(rt, path)? else {
            return Ok(false);
        };
        match self.by_file.get(&(stamp.device, stamp.inode)) {
            Some(written) if written.as_str() != path => match stamp_at(rt, written.as_str())? {
                Some(there) => Ok(there.is_same_file(&stamp)),
                None => Ok(false),
            },
            _ => Ok(false),
        }
    }
}
