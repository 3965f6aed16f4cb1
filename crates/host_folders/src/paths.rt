//! The paths of folders and files.
use outside::Edit;
use ss_text::{NoMemory, Text};
use std::alloc::Global;
use std::fs;
use std::io::{Error, ErrorKind};
use std::path::PathBuf;
use std::rt::Files;

// What is not a file of anybody's own lies under names that begin so. None is a label, or ends in `.csv`.
const OWN: &str = ".schemasql.";

// The list by which edits are made whole or not at all.
const LIST: &str = ".schemasql.list";

// The list before it is whole.
const NEW_LIST: &str = ".schemasql.list.new";

// A path that leads on by more links than these is a failure.
const MOST_LINKS: u32 = 40;

/// A folder of which the files are changed whole or not at all: that of the sources, or of a view, by its path.
#[derive(Debug, Drop, PartialEq, Eq)]
pub(crate) enum Root {
    Sources,
    View(String),
}

impl Root {
    /// The root in which a folder lies, if it lies in one.
    pub(crate) fn of(alloc: Global, folder: &Text) -> Result<Option<Root>, Error> {
        let path = folder_path(folder)?;
        let mut parts = path.split('/');
        match (parts.next(), parts.next(), parts.next()) {
            (Some("sources"), _, None) => Ok(Some(Root::Sources)),
            (Some("views"), Some(_), None) => Ok(Some(Root::View(String::from_str(alloc, path)?))),
            _ => Ok(None),
        }
    }

    /// The root in which all these edits lie, if there is one.
    pub(crate) fn of_edits(alloc: Global, edits: &[Edit]) -> Result<Option<Root>, Error> {
        let mut root = None;
        for edit in edits {
            let here = Root::of(alloc, folder_of(edit))?;
            if here.is_none() || (root.is_some() && root != here) {
                return Err(Error::from(ErrorKind::InvalidInput));
            }
            root = here;
        }
        Ok(root)
    }

    pub(crate) fn copy(&self, alloc: Global) -> Result<Root, Error> {
        match self {
            Root::Sources => Ok(Root::Sources),
            Root::View(path) => Ok(Root::View(String::from_str(alloc, path.as_str())?)),
        }
    }

    pub(crate) fn path(&self) -> &str {
        match self {
            Root::Sources => "sources",
            Root::View(path) => path.as_str(),
        }
    }

    /// Whether it is a folder below `views`.
    pub(crate) fn is_view(&self) -> bool {
        matches!(self, Root::View(_))
    }
}

fn folder_of(edit: &Edit) -> &Text {
    match edit {
        Edit::MakeFolder { folder }
        | Edit::Write { folder, .. }
        | Edit::Remove { folder, .. }
        | Edit::RemoveFolder { folder } => folder,
    }
}

/// The name of a folder as a path. One that is not UTF-8 names nothing here.
pub(crate) fn folder_path(folder: &Text) -> Result<&str, Error> {
    match str::from_utf8(folder.as_slice()) {
        Ok(path) => Ok(path),
        Err(_) => Err(Error::from(ErrorKind::InvalidFilename)),
    }
}

/// The path of a file.
pub(crate) fn file_path(alloc: Global, folder: &Text, file: &Text) -> Result<String, Error> {
    let folder = folder_path(folder)?;
    let file = folder_path(file)?;
    Ok(format!(in alloc; "{folder}/{file}")?)
}

// Whether an error says that a folder or a file is not there.
fn is_missing(error: &Error) -> bool {
    matches!(error.kind(), ErrorKind::NotFound | ErrorKind::NotADirectory)
}

/// What was found, or nothing where an error says that nothing is there.
pub(crate) fn found<T>(answer: Result<T, Error>) -> Result<Option<T>, Error> {
    match answer {
        Ok(value) => Ok(Some(value)),
        Err(error) if is_missing(&error) => Ok(None),
        Err(error) => Err(error),
    }
}

/// Whether an error says that a link leads nowhere, also in a circle or by a text that is too long.
pub(crate) fn leads_nowhere(error: &Error) -> bool {
    is_missing(error)
        || matches!(
            error.kind(),
            ErrorKind::FilesystemLoop | ErrorKind::InvalidFilename
        )
}

/// Whether a symbolic link stands at a path.
pub(crate) fn is_link<R: Files>(rt: &R, path: &str) -> Result<bool, Error> {
    match found(fs::symlink_metadata(rt, path))? {
        Some(metadata) => Ok(metadata.is_symlink()),
        None => Ok(false),
    }
}

/// A view's folder that is a link, or lies in one, is a failure: what is written below `views` stays there.
pub(crate) fn no_link_of_views<R: Files>(rt: &R, folder: &str) -> Result<(), Error> {
    let below = folder == "views" || folder.starts_with("views/");
    if below && (is_link(rt, "views")? || is_link(rt, folder)?) {
        return Err(Error::from(ErrorKind::PermissionDenied));
    }
    Ok(())
}

/// The path to which a file is written: that to which the symbolic links there lead, whether something stands there or
/// not. Below `views` links are not followed.
pub(crate) fn target_of<R: Files + AllocGlobal>(
    rt: &R,
    folder: &Text,
    file: &Text,
) -> Result<String, Error> {
    let path = file_path(rt.alloc(), folder, file)?;
    let folder = folder_path(folder)?;
    if folder.starts_with("views/") {
        no_link_of_views(rt, folder)?;
        return Ok(path);
    }
    followed(rt, path)
}

fn followed<R: Files + AllocGlobal>(rt: &R, path: String) -> Result<String, Error> {
    let mut path = path;
    for _ in 0..MOST_LINKS {
        if !is_link(rt, path.as_str())? {
            return Ok(path);
        }
        path = led_on(rt, path)?;
    }
    Err(Error::from(ErrorKind::FilesystemLoop))
}

// Where the link at a path leads: one that is not absolute leads on from its own folder.
fn led_on<R: Files + AllocGlobal>(rt: &R, path: String) -> Result<String, Error> {
    let to = fs::read_link(rt, path.as_str())?;
    let mut led = PathBuf::from(path);
    led.pop();
    led.push(to)?;
    Ok(led.into_string())
}

/// The folder in which a path lies.
pub(crate) fn parent_of(alloc: Global, path: &str) -> Result<String, Error> {
    let mut parent = PathBuf::from_str(alloc, path)?;
    parent.pop();
    Ok(parent.into_string())
}

/// A path in a folder under which a file is put until it is whole, one for each number.
pub(crate) fn beside_in(alloc: Global, folder: &str, number: u64) -> Result<String, Error> {
    Ok(format!(in alloc; "{folder}/{OWN}{number}")?)
}

/// A path in a folder by which a new name is tried. None is that of a list, or of a file that is put beside a place.
pub(crate) fn tried_in(
    alloc: Global,
    folder: &str,
    number: Option<u64>,
    name: &str,
) -> Result<String, Error> {
    match number {
        Some(number) => Ok(format!(in alloc; "{folder}/{OWN}new{number}.{name}")?),
        None => Ok(format!(in alloc; "{folder}/{OWN}new.{name}")?),
    }
}

/// The path of the list in a root, and of one that is not yet whole.
pub(crate) fn list_in(alloc: Global, root: &str) -> Result<String, Error> {
    Ok(format!(in alloc; "{root}/{LIST}")?)
}

pub(crate) fn new_list_in(alloc: Global, root: &str) -> Result<String, Error> {
    Ok(format!(in alloc; "{root}/{NEW_LIST}")?)
}

/// Whether a name is one under which files are put until they are whole, or the list is.
pub(crate) fn is_own(name: &str) -> bool {
    name.starts_with(OWN)
}

/// These bytes as a text.
pub(crate) fn text_of(alloc: Global, bytes: &[u8]) -> Result<Text, Error> {
    match Text::of(alloc, bytes) {
        Ok(text) => Ok(text),
        Err(NoMemory) => Err(Error::from(ErrorKind::OutOfMemory)),
    }
}

/// Whether a path is one of a file that was put beside a place.
pub(crate) fn is_beside(path: &str) -> bool {
    match path.rsplit('/').next() {
        Some(name) => is_own(name),
        None => false,
    }
}

/// Whether a name is a part of a path that stays in the folder that it is in.
pub(crate) fn is_part(name: &str) -> bool {
    !name.is_empty() && name != "." && name != ".." && !name.contains('/')
}
