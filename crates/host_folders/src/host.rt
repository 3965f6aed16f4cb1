//! What a program does with real folders before it reads and writes there.
use crate::disk::HostDisk;
use crate::locks::{Locks, lock_at};
use crate::new_names::check_new;
use crate::paths::{Root, file_path, folder_path, is_link, no_link_of_views};
use crate::reading::read_at;
use crate::stamps::{DistinctFiles, Stamp, Stamps, Written, stamp_at};
use crate::writing::{Writing, check_makes, remove_where_there, try_writing_in};
use outside::{Edit, StoreFault};
use ss_text::Text;
use std::alloc::Global;
use std::fs::{self, File};
use std::io::{Error, ErrorKind};
use std::rt::Files;

/// What a program may change.
#[derive(Clone, Copy, Debug, PartialEq, Eq)]
pub enum Writes {
    Nothing,
    /// The folder of one view, which is made anew from the sources.
    View,
    /// The folder of one view, which is the only copy.
    OnlyView,
    /// The folders of views, and the sources.
    ViewsAndSources,
}

/// The folders below the current one, the locks that are held, and what is known of the files that were read and written.
#[derive(Drop)]
pub(crate) struct Host<R: Files<File = File> + AllocGlobal + Clone + Drop> {
    pub(crate) rt: R,
    may: Writes,
    locks: Locks,
    /// The files of the definitions that were read, by their paths.
    definitions: Vec<String>,
    has_begun: bool,
    /// The roots in which nothing is left to be done.
    ready: Vec<Root>,
    /// The files of the sources that were read or written, by their paths.
    sources: Stamps,
    /// The files of views that were written.
    views: Written,
    next: u64,
}

impl<R: Files<File = File> + AllocGlobal + Clone + Drop> Host<R> {
    /// Nothing is known and no lock is held.
    pub(crate) fn of(rt: R, may: Writes) -> Self {
        let alloc = rt.alloc();
        Host {
            rt,
            may,
            locks: Locks::none(alloc),
            definitions: Vec::new(alloc),
            has_begun: false,
            ready: Vec::new(alloc),
            sources: Stamps::none(alloc),
            views: Written::none(alloc),
            next: 0,
        }
    }

    // Before a folder or a file in it is read: takes the locks, and does what is left to be done there.
    pub(crate) fn begin(&mut self, folder: &Text, file: Option<&Text>) -> Result<(), Error> {
        if !self.has_begun {
            if self.may == Writes::ViewsAndSources {
                self.locks.hold_sources(&self.rt)?;
            }
            self.has_begun = true;
        }
        if is_definition(folder, file) {
            return self.hold_definition(folder, file);
        }
        match Root::of(self.rt.alloc(), folder)? {
            Some(root) => self.make_ready(root),
            None => Ok(()),
        }
    }

    fn hold_definition(&mut self, folder: &Text, file: Option<&Text>) -> Result<(), Error> {
        let Some(file) = file else {
            return Ok(());
        };
        let path = file_path(self.rt.alloc(), folder, file)?;
        if self.definitions.contains(&path) {
            return Ok(());
        }
        if self.may != Writes::Nothing {
            self.locks.hold_definition(&self.rt, path.as_str())?;
        }
        self.definitions.push(path)?;
        Ok(())
    }

    fn make_ready(&mut self, root: Root) -> Result<(), Error> {
        if self.ready.contains(&root) {
            return Ok(());
        }
        if !self.is_foreign(&root)? {
            self.do_what_is_left(&root)?;
        }
        self.ready.push(root)?;
        Ok(())
    }

    // The folder of a view that is a link is read, but nothing is done in it.
    fn is_foreign(&self, root: &Root) -> Result<bool, Error> {
        Ok(root.is_view() && (is_link(&self.rt, "views")? || is_link(&self.rt, root.path())?))
    }

    // With the lock, which is taken for that alone where it is not held to the end. Where another program holds it, there
    // is nothing to be done, unless that program is in the middle of a sync.
    fn do_what_is_left(&mut self, root: &Root) -> Result<(), Error> {
        let mut disk = HostDisk::of(self.rt.clone()?, root.copy(self.rt.alloc())?);
        if self.is_held(root) {
            return recover(self.rt.alloc(), &mut disk);
        }
        let has_list = disk.has_list()?;
        if self.may == Writes::Nothing && !has_list {
            return Ok(());
        }
        match self.lock_of(root) {
            Ok(_lock) => recover(self.rt.alloc(), &mut disk),
            Err(error) if error.kind() == ErrorKind::WouldBlock && !has_list => Ok(()),
            Err(error) => Err(error),
        }
    }

    // The lock of a root, for a while. What changes nothing reads one definition.
    fn lock_of(&self, root: &Root) -> Result<Option<File>, Error> {
        match root {
            Root::Sources => lock_at(&self.rt, "sources"),
            Root::View(_) => match self.definitions.first() {
                Some(path) => lock_at(&self.rt, path.as_str()),
                None => Ok(None),
            },
        }
    }

    // Whether the lock of a root is held to the end.
    fn is_held(&self, root: &Root) -> bool {
        match root {
            Root::Sources => self.may == Writes::ViewsAndSources,
            Root::View(_) => self.may != Writes::Nothing,
        }
    }

    // Keeps which file of the sources was read.
    fn keep_read(&mut self, folder: &Text, file: &Text, stamp: Stamp) -> Result<(), Error> {
        if self.may == Writes::ViewsAndSources && is_source(folder) {
            let path = file_path(self.rt.alloc(), folder, file)?;
            self.sources.keep(path, Some(stamp))?;
        }
        Ok(())
    }

    // Before a part of a file is read: what is kept is which file lay there until then, so that one that somebody else
    // changes while it is read counts as changed.
    pub(crate) fn begin_part(&mut self, folder: &Text, file: &Text) -> Result<(), Error> {
        self.begin(folder, Some(file))?;
        if self.may != Writes::ViewsAndSources || !is_source(folder) {
            return Ok(());
        }
        let path = file_path(self.rt.alloc(), folder, file)?;
        let stamp = stamp_at(&self.rt, path.as_str())?;
        self.sources.keep(path, stamp)
    }

    pub(crate) fn read_kept(&mut self, folder: &Text, file: &Text) -> Result<Option<Text>, Error> {
        self.begin(folder, Some(file))?;
        match read_at(&self.rt, folder, file)? {
            Some((bytes, stamp)) => {
                self.keep_read(folder, file, stamp)?;
                Ok(Some(bytes))
            }
            None => Ok(None),
        }
    }

    // The files of the root of these edits, if there are any. That another program may write there, that somebody else
    // has changed a file since it was read, and that a view's folder is a link, are failures, of which nothing is changed.
    pub(crate) fn disk_of(&mut self, edits: &[Edit]) -> Result<Option<HostDisk<R>>, Error> {
        let Some(root) = Root::of_edits(self.rt.alloc(), edits)? else {
            return Ok(None);
        };
        match root {
            Root::Sources => {
                self.hold_new_sources()?;
                self.check_before(edits)?;
            }
            Root::View(_) => no_link_of_views(&self.rt, root.path())?,
        }
        Ok(Some(HostDisk::of(self.rt.clone()?, root)))
    }

    // A folder of the sources that was not there at the first call is made, to be held.
    fn hold_new_sources(&mut self) -> Result<(), Error> {
        if fs::exists(&self.rt, "sources")? {
            return Ok(());
        }
        fs::create_dir_all(&self.rt, "sources")?;
        self.locks.hold_sources(&self.rt)
    }

    // What can be known before anything is changed: that a folder can be made, that a file is the one that was read, that
    // one can be removed, and that no two edits lead to one file.
    fn check_before(&mut self, edits: &[Edit]) -> Result<(), Error> {
        let mut files = DistinctFiles::none(self.rt.alloc());
        let mut new = Vec::new(self.rt.alloc());
        for edit in edits {
            match edit {
                Edit::MakeFolder { folder } => {
                    if check_makes(&self.rt, folder_path(folder)?)? {
                        new.push(edit)?;
                    }
                }
                Edit::Write { folder, file, .. } => match self.as_read(folder, file)? {
                    Some(stamp) => files.add(&stamp)?,
                    None => new.push(edit)?,
                },
                Edit::Remove { folder, file } => {
                    if let Some(stamp) = self.as_read(folder, file)? {
                        files.add(&stamp)?;
                    }
                    try_writing_in(&self.rt, folder_path(folder)?, &mut self.next)?;
                }
                Edit::RemoveFolder { .. } => {}
            }
        }
        check_new(&self.rt, &new)
    }

    fn as_read(&self, folder: &Text, file: &Text) -> Result<Option<Stamp>, Error> {
        let path = file_path(self.rt.alloc(), folder, file)?;
        self.sources.as_read(&self.rt, &path)
    }

    // Keeps which files of the sources are there now.
    pub(crate) fn keep_written(&mut self, edits: &[Edit]) -> Result<(), Error> {
        if self.may != Writes::ViewsAndSources {
            return Ok(());
        }
        for edit in edits {
            if let Edit::Write { folder, file, .. } | Edit::Remove { folder, file } = edit {
                let path = file_path(self.rt.alloc(), folder, file)?;
                let stamp = stamp_at(&self.rt, path.as_str())?;
                self.sources.keep(path, stamp)?;
            }
        }
        Ok(())
    }

    /// Writes a file, on the disk where nothing else has its bytes, and keeps which file of a view it is.
    pub(crate) fn write(
        &mut self,
        writing: &Writing,
        folder: &Text,
        bytes: &[u8],
    ) -> Result<(), Error> {
        let synced = self.may == Writes::OnlyView || is_source(folder);
        writing.run(&self.rt, &mut self.next, bytes, synced)?;
        self.keep_view(writing.target())
    }

    // Keeps which file of a view is at a path now.
    fn keep_view(&mut self, path: &str) -> Result<(), Error> {
        let path = String::from_str(self.rt.alloc(), path)?;
        self.views.keep(&self.rt, path)
    }

    // Removes a file, and answers whether it was there. One that was just written under a name that the file system takes
    // for this one is not removed.
    pub(crate) fn remove_at(&mut self, folder: &Text, path: &str) -> Result<bool, Error> {
        no_link_of_views(&self.rt, folder_path(folder)?)?;
        if self.views.has_another_name(&self.rt, path)? {
            return Ok(false);
        }
        remove_where_there(&self.rt, path)
    }
}

// Whether a folder is that of a database.
fn is_source(folder: &Text) -> bool {
    folder.as_slice().starts_with(b"sources/")
}

// Whether a file is that of a definition.
fn is_definition(folder: &Text, file: Option<&Text>) -> bool {
    file.is_some() && folder.as_slice() == b"defs".as_slice()
}

// Does what is left to be done, and takes away what lies beside places.
fn recover<R: Files + AllocGlobal + Clone + Drop>(
    alloc: Global,
    disk: &mut HostDisk<R>,
) -> Result<(), Error> {
    match whole_sync::recover(alloc, disk) {
        Ok(()) => Ok(()),
        Err(StoreFault::NoMemory) => Err(Error::from(ErrorKind::OutOfMemory)),
        Err(StoreFault::Failed) => Err(Error::from(ErrorKind::Other)),
    }
}
