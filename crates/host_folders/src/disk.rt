//! The calls on real files by which the edits of a root are made whole or not at all.
ghost use Rattle.std.specs.Prelude.{◌≡◌, ◌≤◌, IfOk, OnErr};
ghost use Rattle.outside.specs.Counts.{Rose};
ghost use Rattle.whole_sync.specs.Lists.{IsWord};

use crate::listing::{Wanted, list_at};
use crate::paths::{
    Root, file_path, folder_path, is_beside, is_part, list_in, new_list_in, parent_of, target_of,
    text_of,
};
use crate::stamps::{Stamp, link_stamp_at, stamp_at};
use crate::writing::{
    Place, make_folder_at, remove_folder_at, remove_what_is_left, remove_where_there, sync_folder,
};
use outside::StoreFault;
use ss_text::Text;
use std::alloc::Global;
use std::collections::BTreeSet;
use std::fs::{self, File, OpenFile};
use std::io::{Error, ErrorKind, Read, Write};
use std::rt::Files;
use whole_sync::FileCalls;

/// The files of a root, and how many calls on them failed.
#[derive(Drop)]
pub(crate) struct HostDisk<R: Files + AllocGlobal + Clone + Drop> {
    files: RootFiles<R>,
    faults: u64,
}

impl<R: Files + AllocGlobal + Clone + Drop> HostDisk<R> {
    /// The files of a root, of which nothing was changed yet, and no call has failed.
    pub(crate) fn of(rt: R, root: Root) -> Self
        ensures { result.faults ≡ 0 }
    {
        HostDisk {
            files: RootFiles::of(rt, root),
            faults: 0,
        }
    }

    /// Whether a list lies there.
    pub(crate) fn has_list(&self) -> Result<bool, Error> {
        self.files.has_list()
    }
}

// The files of a root.
#[derive(Drop)]
struct RootFiles<R: Files + AllocGlobal + Clone + Drop> {
    rt: R,
    root: Root,
    next: u64,
    // The folders in which something was done that may not be on the disk yet.
    changed: BTreeSet<String>,
    // The files that took their places.
    placed: Vec<Stamp>,
}

impl<R: Files + AllocGlobal + Clone + Drop> RootFiles<R> {
    fn of(rt: R, root: Root) -> Self {
        let alloc = rt.alloc();
        RootFiles {
            rt,
            root,
            next: 0,
            changed: BTreeSet::new(alloc),
            placed: Vec::new(alloc),
        }
    }

    fn has_list(&self) -> Result<bool, Error> {
        let path = list_in(self.rt.alloc(), self.root.path())?;
        Ok(link_stamp_at(&self.rt, path.as_str())?.is_some())
    }

    // The bytes of the list. What is no regular file is a failure.
    fn read_list(&self) -> Result<Option<Text>, Error> {
        if !self.has_list()? {
            return Ok(None);
        }
        let path = list_in(self.rt.alloc(), self.root.path())?;
        if !fs::symlink_metadata(&self.rt, path.as_str())?.is_file() {
            return Err(Error::from(ErrorKind::InvalidData));
        }
        let mut bytes = Vec::new(self.rt.alloc());
        File::open(&self.rt, path.as_str())?.read_to_end(&mut bytes)?;
        match Text::of_vec(bytes) {
            Ok(text) => Ok(Some(text)),
            Err(_) => Err(Error::from(ErrorKind::OutOfMemory)),
        }
    }

    // A file is put beside its place where the folder is there, and in the root where it is to be made. A link that leads
    // into a folder which is missing is a failure.
    fn put(&mut self, folder: &Text, file: &Text, bytes: &[u8]) -> Result<Text, Error>
        ensures { IfOk result (λ name. IsWord name) }
    {
        self.check_place(folder, Some(file))?;
        let place = Place::of(&self.rt, folder, file)?;
        let mut beside_in = parent_of(self.rt.alloc(), place.target.as_str())?;
        if !fs::exists(&self.rt, beside_in.as_str())? {
            if place.target != file_path(self.rt.alloc(), folder, file)? {
                return Err(Error::from(ErrorKind::NotFound));
            }
            beside_in = String::from_str(self.rt.alloc(), self.root.path())?;
            fs::create_dir_all(&self.rt, beside_in.as_str())?;
        }
        let path = place.put_beside(&self.rt, beside_in.as_str(), &mut self.next, bytes, true)?;
        self.changed.insert(beside_in)?;
        word_of(self.rt.alloc(), path.as_str())
    }

    fn remove_beside(&self, beside: &Text) -> Result<(), Error> {
        let path = folder_path(beside)?;
        fs::remove_file(&self.rt, path)
    }

    // The list is written under another name first, and synced before it gets its own.
    fn put_whole_list(&mut self, list: &[u8]) -> Result<(), Error> {
        let root = self.root.path();
        fs::create_dir_all(&self.rt, root)?;
        let new = new_list_in(self.rt.alloc(), root)?;
        let path = list_in(self.rt.alloc(), root)?;
        remove_where_there(&self.rt, new.as_str())?;
        self.sync_changed()?;
        let mut file = File::create_new(&self.rt, new.as_str())?;
        file.write_all(list)?;
        file.flush()?;
        file.sync_all()?;
        fs::rename(&self.rt, new.as_str(), path.as_str())?;
        sync_folder(&self.rt, self.root.path())
    }

    fn remove_list(&mut self) -> Result<(), Error> {
        let path = list_in(self.rt.alloc(), self.root.path())?;
        let new = new_list_in(self.rt.alloc(), self.root.path())?;
        remove_where_there(&self.rt, new.as_str())?;
        if remove_where_there(&self.rt, path.as_str())? {
            sync_folder(&self.rt, self.root.path())?;
        }
        Ok(())
    }

    // What no longer lies beside its place is there already.
    fn place(&mut self, beside: &Text, folder: &Text, file: &Text) -> Result<(), Error> {
        self.check_place(folder, Some(file))?;
        let beside = folder_path(beside)?;
        if !is_beside(beside) {
            return Err(Error::from(ErrorKind::InvalidData));
        }
        make_folder_at(&self.rt, folder_path(folder)?)?;
        let target = target_of(&self.rt, folder, file)?;
        if link_stamp_at(&self.rt, beside)?.is_some() {
            fs::rename(&self.rt, beside, target.as_str())?;
            self.note(beside)?;
            self.note(target.as_str())?;
        }
        if let Some(stamp) = stamp_at(&self.rt, target.as_str())? {
            self.placed.push(stamp)?;
        }
        Ok(())
    }

    // A file that has just taken its place is not removed, which is so where names differ in case alone and the file
    // system takes them for one.
    fn remove_file(&mut self, folder: &Text, file: &Text) -> Result<(), Error> {
        self.check_place(folder, Some(file))?;
        let path = file_path(self.rt.alloc(), folder, file)?;
        let Some(stamp) = link_stamp_at(&self.rt, path.as_str())? else {
            return Ok(());
        };
        if !self.placed.iter().any(|placed| placed.is_same_file(&stamp)) {
            remove_where_there(&self.rt, path.as_str())?;
            self.note(path.as_str())?;
        }
        Ok(())
    }

    fn make(&mut self, folder: &Text) -> Result<(), Error> {
        self.check_place(folder, None)?;
        let path = folder_path(folder)?;
        make_folder_at(&self.rt, path)?;
        self.note(path)
    }

    fn remove_dir(&mut self, folder: &Text) -> Result<(), Error> {
        self.check_place(folder, None)?;
        let path = folder_path(folder)?;
        remove_folder_at(&self.rt, path)?;
        self.note(path)
    }

    // That something was done in the folder of a path.
    fn note(&mut self, path: &str) -> Result<(), Error> {
        let parent = parent_of(self.rt.alloc(), path)?;
        self.changed.insert(parent)?;
        Ok(())
    }

    fn sync_changed(&mut self) -> Result<(), Error> {
        for folder in self.changed.iter() {
            sync_folder(&self.rt, folder.as_str())?;
        }
        self.changed = BTreeSet::new(self.rt.alloc());
        Ok(())
    }

    // What a list names lies in the root, or right in a folder of it.
    fn check_place(&self, folder: &Text, file: Option<&Text>) -> Result<(), Error> {
        let folder = folder_path(folder)?;
        let root = self.root.path();
        let is_inside = match folder.strip_prefix(root) {
            Some("") => true,
            Some(rest) => match rest.strip_prefix("/") {
                Some(part) => is_part(part),
                None => false,
            },
            None => false,
        };
        let is_named = match file {
            Some(file) => is_part(folder_path(file)?),
            None => true,
        };
        if is_inside && is_named {
            Ok(())
        } else {
            Err(Error::from(ErrorKind::InvalidData))
        }
    }

    // What lies beside places in the root and in the folders of it. What cannot be taken away stays.
    fn remove_all_left(&self) -> Result<(), Error> {
        let root = self.root.path();
        remove_what_is_left(&self.rt, root)?;
        if self.root.is_view() {
            return Ok(());
        }
        let name = text_of(self.rt.alloc(), root.as_bytes())?;
        for folder in list_at(&self.rt, &name, Wanted::Folders)? {
            let folder = folder_path(&folder)?;
            let path = format!(in self.rt.alloc(); "{root}/{folder}")?;
            remove_what_is_left(&self.rt, path.as_str())?;
        }
        Ok(())
    }
}

// A path as a name on a list. One with a 0 byte is a failure.
fn word_of(alloc: Global, path: &str) -> Result<Text, Error>
    ensures { IfOk result (λ name. IsWord name) }
{
    let name = text_of(alloc, path.as_bytes())?;
    if name.as_slice().contains(&0) {
        return Err(Error::from(ErrorKind::InvalidData));
    }
    Ok(name)
}

// What a call answers. One that failed counts as a fault, for want of memory too.
fn answer<T>(done: Result<T, Error>, faults: &mut u64) -> Result<T, StoreFault>
    ensures ok { IfOk result (λ value. done ≡ Ok value) }
    ensures failed { OnErr result (Rose faults.old faults.new) }
    ensures steady { faults.old ≤ faults.new }
{
    match done {
        Ok(value) => Ok(value),
        Err(error) => Err(failed(&error, faults)),
    }
}

fn failed(error: &Error, faults: &mut u64) -> StoreFault
    ensures rose { Rose faults.old faults.new }
    ensures steady { faults.old ≤ faults.new }
{
    *faults = faults.saturating_add(1);
    match error.kind() {
        ErrorKind::OutOfMemory => StoreFault::NoMemory,
        _ => StoreFault::Failed,
    }
}

// The files of this machine tell nothing.
impl<R: Files + AllocGlobal + Clone + Drop> FileCalls for HostDisk<R> {
    ghost use Rattle.std.specs.Prelude.{None};

    ghost known = { λ _. None };

    ghost faults = { λ s. s.faults };

    fn list(&mut self, _alloc: Global) -> Result<Option<Text>, StoreFault> {
        answer(self.files.read_list(), &mut self.faults)
    }

    fn put_beside(
        &mut self,
        _alloc: Global,
        folder: &Text,
        file: &Text,
        bytes: &[u8],
    ) -> Result<Text, StoreFault> {
        answer(self.files.put(folder, file, bytes), &mut self.faults)
    }

    fn drop_beside(&mut self, _alloc: Global, beside: &Text) -> Result<(), StoreFault> {
        answer(self.files.remove_beside(beside), &mut self.faults)
    }

    fn put_list(&mut self, _alloc: Global, list: &[u8]) -> Result<(), StoreFault> {
        answer(self.files.put_whole_list(list), &mut self.faults)
    }

    fn drop_list(&mut self, _alloc: Global) -> Result<(), StoreFault> {
        answer(self.files.remove_list(), &mut self.faults)
    }

    fn make_folder(&mut self, _alloc: Global, folder: &Text) -> Result<(), StoreFault> {
        answer(self.files.make(folder), &mut self.faults)
    }

    fn take_place(
        &mut self,
        _alloc: Global,
        beside: &Text,
        folder: &Text,
        file: &Text,
    ) -> Result<(), StoreFault> {
        answer(self.files.place(beside, folder, file), &mut self.faults)
    }

    fn remove(&mut self, _alloc: Global, folder: &Text, file: &Text) -> Result<(), StoreFault> {
        answer(self.files.remove_file(folder, file), &mut self.faults)
    }

    fn remove_folder(&mut self, _alloc: Global, folder: &Text) -> Result<(), StoreFault> {
        answer(self.files.remove_dir(folder), &mut self.faults)
    }

    fn sync(&mut self, _alloc: Global) -> Result<(), StoreFault> {
        answer(self.files.sync_changed(), &mut self.faults)
    }

    fn clean(&mut self, _alloc: Global) -> Result<(), StoreFault> {
        let _ = self.files.remove_all_left();
        Ok(())
    }
}
