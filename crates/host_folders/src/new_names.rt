//! Whether what is to be made in one sync gets a name of its own each.
//!
//! Of two new names that are one to the file system, as by links or where it ignores case, both would be written, and the
//! rows of the first one would be lost. Only the file system can tell, so it is asked, by empty files of the program's own.
use crate::paths::{file_path, folder_path, leads_nowhere, parent_of, target_of, tried_in};
use outside::Edit;
use std::collections::BTreeMap;
use std::fs::{self, File};
use std::io::{Error, ErrorKind};
use std::rt::Files;

/// Two of these edits that make the same file or folder are a failure. In what they make nothing lies yet. Each file that
/// is made to try is gone behind it.
pub(crate) fn check_new<R: Files + AllocGlobal>(rt: &R, new: &[&Edit]) -> Result<(), Error> {
    if new.len() < 2 {
        return Ok(());
    }
    let names = tried_names(rt, new)?;
    let tried = try_names(rt, &names);
    for name in &names {
        let _ = fs::remove_file(rt, name.as_str());
    }
    tried
}

// A path for each edit, by which it is tried. Two are one file just where the edits make the same.
fn tried_names<R: Files + AllocGlobal>(rt: &R, new: &[&Edit]) -> Result<Vec<String>, Error> {
    let mut missing = BTreeMap::new(rt.alloc());
    let mut names = Vec::new(rt.alloc());
    for edit in new {
        let path = match edit {
            Edit::Write { folder, file, .. } => target_of(rt, folder, file)?,
            Edit::Remove { folder, file } => file_path(rt.alloc(), folder, file)?,
            Edit::MakeFolder { folder } | Edit::RemoveFolder { folder } => {
                String::from_str(rt.alloc(), folder_path(folder)?)?
            }
        };
        names.push(tried_name(rt, path.as_str(), &mut missing)?)?;
    }
    Ok(names)
}

// The name is tried in its own folder. One whose folder is missing too is tried in that of the sources, with a number for
// the folder.
fn tried_name<R: Files + AllocGlobal>(
    rt: &R,
    path: &str,
    missing: &mut BTreeMap<String, u64>,
) -> Result<String, Error> {
    let parent = parent_of(rt.alloc(), path)?;
    let name = path.rsplit('/').next().unwrap_or(path);
    if fs::exists(rt, parent.as_str())? {
        return tried_in(rt.alloc(), parent.as_str(), None, name);
    }
    let next = missing.len() as u64;
    let number = *missing.entry(parent)?.or_insert(next);
    tried_in(rt.alloc(), "sources", Some(number), name)
}

// A name that is too long to be tried is passed over.
fn try_names<R: Files>(rt: &R, names: &[String]) -> Result<(), Error> {
    for name in names {
        match fs::remove_file(rt, name.as_str()) {
            Ok(()) => {}
            Err(error) if leads_nowhere(&error) => {}
            Err(error) => return Err(error),
        }
    }
    for name in names {
        match File::create_new(rt, name.as_str()) {
            Ok(_) => {}
            Err(error) if error.kind() == ErrorKind::InvalidFilename => {}
            Err(error) => return Err(error),
        }
    }
    Ok(())
}
