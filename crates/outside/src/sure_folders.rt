//! Folders in memory that never fail.
ghost use Rattle.std.specs.Prelude.{◌≡◌, Some, IfOk, OnOk, OnErr, not, is_some, if◌then◌else◌};
ghost use Rattle.outside.specs.Counts.{risen};
ghost use Rattle.std.specs.FinMap as map;
ghost use Rattle.outside.specs.Tree.{with_file, file_at, has_folder, has_empty_folder};
ghost use Rattle.outside.specs.Stored.{removing, making_folder, removing_folder};
ghost use Rattle.outside.specs.Edits.{edited, all_edited};
ghost use Rattle.outside.specs.Whole.{told};

use crate::places::Files;
use crate::{Edit, Folders, StoreFault, paths, places};
use ss_text::{NoMemory, Seed, Text};
use std::alloc::Global;
use std::collections::{BTreeMap, BTreeSet};
use std::marker::Model;

/// Folders in memory.
#[derive(Drop)]
pub struct SureFolders {
    folders: BTreeSet<Text>,
    files: Files,
    writes: u64,
}

impl Model for SureFolders {
    ghost use Rattle.std.specs.FinMap as map;
    ghost use Rattle.outside.specs.Tree.{tree_of};
    ghost use Rattle.outside.specs.Whole.{IsWhole};
    ghost use Rattle.outside.specs.MemTree.{coded_stored};
    ghost use Rattle.outside.specs.Stored.{Stored};

    ghost Value = { Stored };

    ghost coded = { coded_stored };

    ghost view = { λ s. record {
      tree = tree_of s.folders.keys s.files.entries;
      writes = s.writes;
    } };

    // No file lies outside a folder.
    ghost invariant = { λ s. IsWhole (tree_of s.folders.keys s.files.entries) };
}

impl SureFolders {
    /// No folders.
    pub fn of(alloc: Global) -> SureFolders
        ensures { result ≡ record { tree = record { folders = map.empty; files = map.empty }; writes = 0 } }
    {
        SureFolders {
            folders: BTreeSet::new(alloc),
            files: BTreeMap::new(alloc),
            writes: 0,
        }
    }

    /// Gives a file these bytes, and makes its folder and those above it. It is no call of a run.
    pub fn put(
        &mut self,
        alloc: Global,
        folder: &Text,
        file: &Text,
        bytes: &[u8],
    ) -> Result<(), NoMemory>
        ensures ok { OnOk result (self.new ≡ record self.old { tree = with_file folder.now file.now bytes.now self.old.tree }) }
        ensures err { OnErr result (self.new ≡ self.old) }
        ensures tells { told self.new.tree ≡ Some self.new.tree }
        ensures told_before { told self.old.tree ≡ Some self.old.tree }
    {
        let folders = paths::with_path(alloc, &self.folders, folder)?;
        places::put(alloc, &mut self.files, folder, file, bytes)?;
        self.folders = folders;
        Ok(())
    }

    // Takes a file away, and answers whether it was there.
    fn take(&mut self, alloc: Global, folder: &Text, file: &Text) -> Result<bool, NoMemory>
        ensures was { IfOk result (λ was. was ≡ is_some (file_at self.old.tree folder.now file.now)) }
        ensures ok { OnOk result (self.new ≡ removing folder.now file.now self.old) }
        ensures err { OnErr result (self.new ≡ self.old) }
        ensures tells { told self.new.tree ≡ Some self.new.tree }
        ensures told_before { told self.old.tree ≡ Some self.old.tree }
    {
        let was = places::take(alloc, &mut self.files, folder, file)?;
        self.writes = counted(self.writes, was);
        Ok(was)
    }

    // Makes a folder and those above it, where it is missing, and answers whether it was.
    fn make(&mut self, alloc: Global, folder: &Text) -> Result<bool, NoMemory>
        ensures made { IfOk result (λ made. made ≡ not (has_folder self.old.tree folder.now)) }
        ensures ok { OnOk result (self.new ≡ making_folder folder.now self.old) }
        ensures err { OnErr result (self.new ≡ self.old) }
        ensures tells { told self.new.tree ≡ Some self.new.tree }
        ensures told_before { told self.old.tree ≡ Some self.old.tree }
    {
        let made = paths::make(alloc, &mut self.folders, folder)?;
        self.writes = counted(self.writes, made);
        Ok(made)
    }

    // Takes a folder away that is there without files and subfolders, and answers whether it was so.
    fn take_folder(&mut self, alloc: Global, folder: &Text) -> Result<bool, NoMemory>
        ensures was { IfOk result (λ was. was ≡ has_empty_folder self.old.tree folder.now) }
        ensures ok { OnOk result (self.new ≡ removing_folder folder.now self.old) }
        ensures err { OnErr result (self.new ≡ self.old) }
        ensures tells { told self.new.tree ≡ Some self.new.tree }
        ensures told_before { told self.old.tree ≡ Some self.old.tree }
    {
        let was = paths::take_empty(alloc, &mut self.folders, &self.files, folder)?;
        self.writes = counted(self.writes, was);
        Ok(was)
    }

    fn copy(&self) -> Result<SureFolders, NoMemory>
        ensures { IfOk result (λ copy. copy ≡ self.now) }
    {
        let folders = paths::copy_of(&self.folders)?;
        let files = places::copy_all(&self.files)?;
        Ok(SureFolders {
            folders,
            files,
            writes: self.writes,
        })
    }

    // Makes one edit.
    fn edit(&mut self, alloc: Global, edit: &Edit) -> Result<(), NoMemory>
        ensures { OnOk result (self.new ≡ edited edit.now self.old) }
    {
        match edit {
            Edit::MakeFolder { folder } => {
                self.make(alloc, folder)?;
            }
            Edit::Write {
                folder,
                file,
                bytes,
            } => {
                self.put(alloc, folder, file, bytes.as_slice())?;
                self.writes = counted(self.writes, true);
            }
            Edit::Remove { folder, file } => {
                self.take(alloc, folder, file)?;
            }
            Edit::RemoveFolder { folder } => {
                self.take_folder(alloc, folder)?;
            }
        }
        Ok(())
    }

    // No file lies outside a folder, so the tree is told. It does nothing.
    fn tells(&self)
        ensures { told self.now.tree ≡ Some self.now.tree }
    {
        let _ = &self.folders;
    }

    // The folders after all of these edits.
    fn edited(&self, alloc: Global, edits: &[Edit]) -> Result<SureFolders, NoMemory>
        ensures { IfOk result (λ next. next ≡ all_edited edits.now self.now) }
    {
        let mut next = self.copy()?;
        for edit in edits {
            next.edit(alloc, edit)?;
        }
        Ok(next)
    }

    // Makes all of these edits, or none.
    fn replace_all(&mut self, alloc: Global, edits: &[Edit]) -> Result<(), NoMemory>
        ensures ok { OnOk result (self.new ≡ all_edited edits.now self.old) }
        ensures err { OnErr result (self.new ≡ self.old) }
        ensures tells { told self.new.tree ≡ Some self.new.tree }
        ensures told_before { told self.old.tree ≡ Some self.old.tree }
    {
        self.tells();
        let next = self.edited(alloc, edits)?;
        next.tells();
        *self = next;
        Ok(())
    }
}

// Its contract in these terms says all: what it tells is its value, and a count of faults that
// stays 0 leaves no answer but memory's.
impl Folders for SureFolders {
    ghost use Rattle.outside.specs.WholeLaw.{told_is_whole};

    ghost whole = { λ s t h. told_is_whole s.tree t h };

    ghost state = { λ s. record { tree = told s.tree; writes = s.writes; read_faults = 0; write_faults = 0 } };

    fn seed(&self) -> Seed {
        Seed::fixed()
    }

    fn subfolders(&mut self, alloc: Global, folder: &Text) -> Result<Vec<Text>, StoreFault> {
        Ok(paths::children(alloc, &self.folders, folder)?)
    }

    fn files(&mut self, alloc: Global, folder: &Text) -> Result<Vec<Text>, StoreFault> {
        Ok(places::names(alloc, &self.files, folder)?)
    }

    fn read(
        &mut self,
        alloc: Global,
        folder: &Text,
        file: &Text,
    ) -> Result<Option<Text>, StoreFault> {
        Ok(places::find(alloc, &self.files, folder, file)?)
    }

    fn front(
        &mut self,
        alloc: Global,
        folder: &Text,
        file: &Text,
        most: usize,
    ) -> Result<Option<Text>, StoreFault> {
        Ok(places::front(alloc, &self.files, folder, file, most)?)
    }

    fn write(
        &mut self,
        alloc: Global,
        folder: &Text,
        file: &Text,
        bytes: &[u8],
    ) -> Result<(), StoreFault> {
        self.put(alloc, folder, file, bytes)?;
        self.writes = self.writes.saturating_add(1);
        Ok(())
    }

    fn remove(&mut self, alloc: Global, folder: &Text, file: &Text) -> Result<bool, StoreFault> {
        Ok(self.take(alloc, folder, file)?)
    }

    fn make_folder(&mut self, alloc: Global, folder: &Text) -> Result<bool, StoreFault> {
        Ok(self.make(alloc, folder)?)
    }

    fn remove_folder(&mut self, alloc: Global, folder: &Text) -> Result<bool, StoreFault> {
        Ok(self.take_folder(alloc, folder)?)
    }

    fn replace(&mut self, alloc: Global, edits: &[Edit]) -> Result<(), StoreFault> {
        Ok(self.replace_all(alloc, edits)?)
    }
}

// The count after a call that did something or nothing.
fn counted(writes: u64, did: bool) -> u64
    ensures { result ≡ (if did then risen writes 1 else writes) }
{
    if did {
        writes.saturating_add(1)
    } else {
        writes
    }
}
