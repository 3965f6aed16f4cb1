//! Files that are put beside their places until they are whole, and what is removed.
use crate::listing::{is_empty, own_files};
use crate::paths::{beside_in, folder_path, found, is_link, target_of};
use ss_text::Text;
use std::fs::{self, File, OpenFile, Permissions};
use std::io::{Error, ErrorKind, Write};
use std::os::unix::fs::OpenOptionsExt;
use std::rt::Files;

// So many names beside a place may be taken by other programs.
const MOST_TAKEN: u32 = 1000;

// What is put beside a place may be read and written by its owner alone, until it gets the permissions of the place.
const OWNER_ALONE: u32 = 0o600;

/// What is known of a place before a file is written there.
#[derive(Drop)]
pub(crate) struct Place {
    /// The path to which the links there lead.
    pub(crate) target: String,
    /// Who may read and write the file there, if one is there.
    pub(crate) permissions: Option<Permissions>,
}

impl Place {
    /// Changes nothing. What is no regular file is a failure, and so is a file that is read-only. Below `views` a link is
    /// no file, and a folder that is a link is a failure.
    pub(crate) fn of<R: Files + AllocGlobal>(
        rt: &R,
        folder: &Text,
        file: &Text,
    ) -> Result<Place, Error> {
        let target = target_of(rt, folder, file)?;
        let permissions = permissions_at(rt, target.as_str())?;
        Ok(Place {
            target,
            permissions,
        })
    }

    /// Puts these bytes into a new file in a folder, and answers its path. The names in the folder are numbered from here
    /// on. Where it fails, none is left.
    pub(crate) fn put_beside<R: Files + AllocGlobal>(
        &self,
        rt: &R,
        folder: &str,
        next: &mut u64,
        bytes: &[u8],
        synced: bool,
    ) -> Result<String, Error> {
        let (mut file, path) = new_file(rt, folder, next, self.permissions.is_some())?;
        match self.fill(&mut file, bytes, synced) {
            Ok(()) => Ok(path),
            Err(error) => {
                let _ = fs::remove_file(rt, path.as_str());
                Err(error)
            }
        }
    }

    fn fill<F: OpenFile + Write>(
        &self,
        file: &mut F,
        bytes: &[u8],
        synced: bool,
    ) -> Result<(), Error> {
        if let Some(permissions) = &self.permissions {
            file.set_permissions(permissions.clone()?)?;
        }
        file.write_all(bytes)?;
        file.flush()?;
        if synced {
            file.sync_all()?;
        }
        Ok(())
    }
}

// A new file in a folder, and its path.
fn new_file<R: Files + AllocGlobal>(
    rt: &R,
    folder: &str,
    next: &mut u64,
    is_hidden: bool,
) -> Result<(R::File, String), Error> {
    let mut options = File::options();
    options.write(true).create_new(true);
    if is_hidden {
        options.mode(OWNER_ALONE);
    }
    for _ in 0..MOST_TAKEN {
        let path = beside_in(rt.alloc(), folder, *next)?;
        *next = next.wrapping_add(1);
        match options.open(rt, path.as_str()) {
            Ok(file) => return Ok((file, path)),
            Err(error) if error.kind() == ErrorKind::AlreadyExists => {}
            Err(error) => return Err(error),
        }
    }
    Err(Error::from(ErrorKind::AlreadyExists))
}

// Who may read and write the file at a path, where one is there. A link is none, for where links are followed there is
// none at this path.
fn permissions_at<R: Files>(rt: &R, path: &str) -> Result<Option<Permissions>, Error> {
    let Some(metadata) = found(fs::symlink_metadata(rt, path))? else {
        return Ok(None);
    };
    if metadata.is_symlink() {
        return Ok(None);
    }
    if !metadata.is_file() {
        return Err(Error::from(ErrorKind::InvalidInput));
    }
    let permissions = metadata.permissions();
    if permissions.readonly() {
        return Err(Error::from(ErrorKind::PermissionDenied));
    }
    Ok(Some(permissions))
}

/// A write that is to be done: the bytes go to a file beside the target, which then takes the target's name.
#[derive(Drop)]
pub(crate) struct Writing {
    folder: String,
    place: Place,
}

impl Writing {
    /// What is to be known before a file is written. Changes nothing.
    pub(crate) fn of<R: Files + AllocGlobal>(
        rt: &R,
        folder: &Text,
        file: &Text,
    ) -> Result<Writing, Error> {
        Ok(Writing {
            place: Place::of(rt, folder, file)?,
            folder: String::from_str(rt.alloc(), folder_path(folder)?)?,
        })
    }

    /// Gives the file these bytes, and makes the folders that it lies in. Where it is synced, the bytes are on the disk
    /// before the file takes its place, and the place when this ends. Where it fails, the file is as it was or has these
    /// bytes, and none is left beside it.
    pub(crate) fn run<R: Files + AllocGlobal>(
        &self,
        rt: &R,
        next: &mut u64,
        bytes: &[u8],
        synced: bool,
    ) -> Result<(), Error> {
        let folder = self.folder.as_str();
        fs::create_dir_all(rt, folder)?;
        let beside = self.place.put_beside(rt, folder, next, bytes, synced)?;
        if let Err(error) = fs::rename(rt, beside.as_str(), self.place.target.as_str()) {
            let _ = fs::remove_file(rt, beside.as_str());
            return Err(error);
        }
        if synced {
            sync_folder(rt, folder)?;
        }
        Ok(())
    }

    /// The path of the file.
    pub(crate) fn target(&self) -> &str {
        self.place.target.as_str()
    }
}

/// What was done in a folder is on the disk. A folder that is gone has nothing to be synced, and a file system that syncs
/// no folders does without.
pub(crate) fn sync_folder<R: Files>(rt: &R, folder: &str) -> Result<(), Error> {
    let Some(file) = found(File::open(rt, folder))? else {
        return Ok(());
    };
    match file.sync_all() {
        Ok(()) => Ok(()),
        Err(error) if error.kind() == ErrorKind::InvalidInput => Ok(()),
        Err(error) if error.kind() == ErrorKind::Unsupported => Ok(()),
        Err(error) => Err(error),
    }
}

/// Removes the file at a path, and answers whether it was there.
pub(crate) fn remove_where_there<R: Files>(rt: &R, path: &str) -> Result<bool, Error> {
    Ok(found(fs::remove_file(rt, path))?.is_some())
}

/// Takes away what lies in a folder under names of the program's own. What cannot be taken away stays.
pub(crate) fn remove_what_is_left<R: Files + AllocGlobal + Clone + Drop>(
    rt: &R,
    folder: &str,
) -> Result<(), Error> {
    for path in own_files(rt, folder)? {
        let _ = fs::remove_file(rt, path.as_str());
    }
    Ok(())
}

/// Tries whether files can be made and removed in a folder. One that is missing is passed over.
pub(crate) fn try_writing_in<R: Files + AllocGlobal>(
    rt: &R,
    folder: &str,
    next: &mut u64,
) -> Result<(), Error> {
    if !fs::exists(rt, folder)? {
        return Ok(());
    }
    let (_, path) = new_file(rt, folder, next, true)?;
    fs::remove_file(rt, path.as_str())
}

/// Whether a folder is to be made at a path, where none is there. A path at which something lies that is no folder, as a
/// link that leads nowhere, is a failure.
pub(crate) fn check_makes<R: Files>(rt: &R, path: &str) -> Result<bool, Error> {
    match found(fs::metadata(rt, path))? {
        Some(metadata) if metadata.is_dir() => Ok(false),
        Some(_) => Err(Error::from(ErrorKind::NotADirectory)),
        None if is_link(rt, path)? => Err(Error::from(ErrorKind::NotFound)),
        None => Ok(true),
    }
}

/// Makes a folder and those above it, where it is missing, and answers whether it was.
pub(crate) fn make_folder_at<R: Files>(rt: &R, path: &str) -> Result<bool, Error> {
    match found(fs::metadata(rt, path))? {
        Some(metadata) if metadata.is_dir() => Ok(false),
        Some(_) => Err(Error::from(ErrorKind::NotADirectory)),
        None => {
            fs::create_dir_all(rt, path)?;
            Ok(true)
        }
    }
}

/// Removes a folder in which nothing lies but what the program itself left there, and answers whether it was so. Of a
/// link to such a folder the link is removed.
pub(crate) fn remove_folder_at<R: Files + AllocGlobal + Clone + Drop>(
    rt: &R,
    path: &str,
) -> Result<bool, Error> {
    remove_what_is_left(rt, path)?;
    if is_link(rt, path)? {
        return Ok(is_empty(rt, path)? && remove_where_there(rt, path)?);
    }
    match fs::remove_dir(rt, path) {
        Err(error) if error.kind() == ErrorKind::DirectoryNotEmpty => Ok(false),
        removed => Ok(found(removed)?.is_some()),
    }
}
