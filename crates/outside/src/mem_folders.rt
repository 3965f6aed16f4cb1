//! Folders in memory.
ghost use Rattle.std.specs.Prelude.{◌≡◌, ◌/◌, ◌<◌, ◌≤◌, [], All, Some, true, false, length, take, ◌↔◌, IfOk, IfSome, OnOk, OnErr, IsErrOf, option_map, is_some, not, if◌then◌else◌};
ghost use Rattle.std.specs.FinMap as map;
ghost use Rattle.std.specs.List.Sorted.{IsStrictlySortedBy};
ghost use Rattle.ss_text.specs.Texts.{text_cmp};
ghost use Rattle.outside.specs.Counts.{risen};
ghost use Rattle.outside.specs.Calls.{faults_of, next_fails};
ghost use Rattle.outside.specs.MemCalls.{NumberedRead, NumberedChange};
ghost use Rattle.outside.specs.Tree.{Tree, file_at, files_of, subfolders_of, folder_path, with_file, without_file, has_folder, has_empty_folder, with_folder, without_folder, MayBreakOff, FolderMayBreakOff};
ghost use Rattle.outside.specs.Whole.{told};
ghost use Rattle.outside.specs.Edits.{AllMade, NoneOrAllMade};
ghost use Rattle.outside.specs.MemCalls.{store_state};

use crate::numbering::Numbering;
use crate::{Edit, Folders, StoreFault, SureFolders};
use ss_text::{NoMemory, Seed, Text};
use std::alloc::Global;
use std::marker::Model;

/// Folders in memory, of which the calls with these numbers fail, counted from 1: those that read
/// in one numbering, those that write or remove in another.
#[derive(Drop)]
pub struct MemFolders {
    store: SureFolders,
    reads: Numbering,
    changes: Numbering,
}

impl Model for MemFolders {
    ghost use Rattle.outside.specs.MemTree.{MemFoldersState, coded_state};

    ghost Value = { MemFoldersState };

    ghost coded = { coded_state };

    ghost view = { λ s. record { tree = s.store.tree; writes = s.store.writes; reads = s.reads; changes = s.changes } };
}

impl MemFolders {
    /// No folders.
    pub fn of(alloc: Global, read_fails: Vec<u64>, write_fails: Vec<u64>) -> MemFolders
        requires reads { All (λ k. k < 18446744073709551615) read_fails.items }
        requires writes { All (λ k. k < 18446744073709551615) write_fails.items }
        ensures { result ≡ record {
          tree = record { folders = map.empty; files = map.empty };
          writes = 0;
          reads = record { fails = read_fails.items; calls = 0 };
          changes = record { fails = write_fails.items; calls = 0 };
        } }
    {
        MemFolders {
            store: SureFolders::of(alloc),
            reads: Numbering::of(read_fails),
            changes: Numbering::of(write_fails),
        }
    }

    /// Gives a file these bytes, and makes its folder and those above it. It is no call of a run.
    pub fn put(
        &mut self,
        alloc: Global,
        folder: &Text,
        file: &Text,
        bytes: &[u8],
    ) -> Result<(), NoMemory>
        ensures ok { OnOk result (self.new ≡ record self.old { tree = with_file folder.now file.now bytes.now self.old.tree }) }
        ensures err { OnErr result (self.new ≡ self.old) }
        ensures told { (told self.old.tree ≡ Some self.old.tree) × (told self.new.tree ≡ Some self.new.tree) }
    {
        self.store.put(alloc, folder, file, bytes)
    }
}

impl Folders for MemFolders {
    ghost use Rattle.outside.specs.WholeLaw.{told_is_whole};

    ghost whole = { λ s t h. told_is_whole s.tree t h };

    ghost state = { store_state };

    fn seed(&self) -> Seed {
        Seed::fixed()
    }

    fn subfolders(&mut self, alloc: Global, folder: &Text) -> Result<Vec<Text>, StoreFault>
        ensures told { IfOk result (λ names. (t : Tree) → told self.old.tree ≡ Some t → names.items ≡ subfolders_of t folder.now) }
        ensures ascending { IfOk result (λ names. IsStrictlySortedBy text_cmp names.items) }
        ensures does { NumberedRead result self.old self.new }
    {
        if self.reads.next_fails() {
            self.reads.count();
            return Err(StoreFault::Failed);
        }
        let names = self.store.subfolders(alloc, folder)?;
        self.reads.count();
        Ok(names)
    }

    fn files(&mut self, alloc: Global, folder: &Text) -> Result<Vec<Text>, StoreFault>
        ensures told { IfOk result (λ names. (t : Tree) → told self.old.tree ≡ Some t → names.items ≡ files_of t folder.now) }
        ensures ascending { IfOk result (λ names. IsStrictlySortedBy text_cmp names.items) }
        ensures does { NumberedRead result self.old self.new }
    {
        if self.reads.next_fails() {
            self.reads.count();
            return Err(StoreFault::Failed);
        }
        let names = self.store.files(alloc, folder)?;
        self.reads.count();
        Ok(names)
    }

    fn read(
        &mut self,
        alloc: Global,
        folder: &Text,
        file: &Text,
    ) -> Result<Option<Text>, StoreFault>
        ensures told { IfOk result (λ bytes. (t : Tree) → told self.old.tree ≡ Some t → bytes ≡ file_at t folder.now file.now) }
        ensures does { NumberedRead result self.old self.new }
    {
        if self.reads.next_fails() {
            self.reads.count();
            return Err(StoreFault::Failed);
        }
        let bytes = self.store.read(alloc, folder, file)?;
        self.reads.count();
        Ok(bytes)
    }

    fn front(
        &mut self,
        alloc: Global,
        folder: &Text,
        file: &Text,
        most: usize,
    ) -> Result<Option<Text>, StoreFault>
        ensures told { IfOk result (λ bytes. (t : Tree) → told self.old.tree ≡ Some t → bytes ≡ option_map (take most) (file_at t folder.now file.now)) }
        ensures most { IfOk result (λ bytes. IfSome bytes (λ b. length b ≤ most)) }
        ensures does { NumberedRead result self.old self.new }
    {
        if self.reads.next_fails() {
            self.reads.count();
            return Err(StoreFault::Failed);
        }
        let bytes = self.store.front(alloc, folder, file, most)?;
        self.reads.count();
        Ok(bytes)
    }

    #[tactic(auto, using(crate::proofs::TreeLemmas::told_broke_off, crate::proofs::TreeLemmas::write_broke_off))]
    fn write(
        &mut self,
        alloc: Global,
        folder: &Text,
        file: &Text,
        bytes: &[u8],
    ) -> Result<(), StoreFault>
        ensures ok { OnOk result (told self.new.tree ≡ option_map (with_file folder.now file.now bytes.now) (told self.old.tree)) }
        ensures counted { OnOk result (self.new.writes ≡ risen self.old.writes 1) }
        ensures broke_off { IsErrOf result StoreFault.Failed → MayBreakOff (folder_path folder.now) folder.now file.now (told self.old.tree) (told self.new.tree) }
        ensures does { NumberedChange result self.old self.new }

        // What is particular to it: a call that fails leaves the first half of the bytes.
        ensures done { OnOk result (next_fails self.old.changes ≡ false) }
        ensures half { IsErrOf result StoreFault.Failed → self.new.tree ≡ with_file folder.now file.now (take (length bytes.now / 2) bytes.now) self.old.tree }
    {
        if self.changes.next_fails() {
            self.put(alloc, folder, file, &bytes[..bytes.len() / 2])?;
            self.changes.count();
            return Err(StoreFault::Failed);
        }
        self.store.write(alloc, folder, file, bytes)?;
        self.changes.count();
        Ok(())
    }

    #[tactic(auto, using(crate::proofs::TreeLemmas::same_broke_off))]
    fn remove(&mut self, alloc: Global, folder: &Text, file: &Text) -> Result<bool, StoreFault>
        ensures was { IfOk result (λ was. (t : Tree) → told self.old.tree ≡ Some t → was ≡ is_some (file_at t folder.now file.now)) }
        ensures ok { OnOk result (told self.new.tree ≡ option_map (without_file folder.now file.now) (told self.old.tree)) }
        ensures counted { IfOk result (λ was. self.new.writes ≡ (if was then risen self.old.writes 1 else self.old.writes)) }
        ensures broke_off { IsErrOf result StoreFault.Failed → MayBreakOff [] folder.now file.now (told self.old.tree) (told self.new.tree) }
        ensures does { NumberedChange result self.old self.new }

        // What is particular to it: a call that fails leaves the file.
        ensures fails { IsErrOf result StoreFault.Failed ↔ (next_fails self.old.changes ≡ true) }
        ensures stays { OnErr result (told self.new.tree ≡ told self.old.tree) }
    {
        if self.changes.next_fails() {
            self.changes.count();
            return Err(StoreFault::Failed);
        }
        let was = self.store.remove(alloc, folder, file)?;
        self.changes.count();
        Ok(was)
    }

    #[tactic(auto, using(crate::proofs::WholeLemmas::same_folder_off))]
    fn make_folder(&mut self, alloc: Global, folder: &Text) -> Result<bool, StoreFault>
        ensures made { IfOk result (λ made. (t : Tree) → told self.old.tree ≡ Some t → made ≡ not (has_folder t folder.now)) }
        ensures ok { OnOk result (told self.new.tree ≡ option_map (with_folder folder.now) (told self.old.tree)) }
        ensures counted { IfOk result (λ made. self.new.writes ≡ (if made then risen self.old.writes 1 else self.old.writes)) }
        ensures broke_off { IsErrOf result StoreFault.Failed → FolderMayBreakOff (folder_path folder.now) folder.now (told self.old.tree) (told self.new.tree) }
        ensures does { NumberedChange result self.old self.new }

        // What is particular to it: a call that fails makes no folder.
        ensures fails { IsErrOf result StoreFault.Failed ↔ (next_fails self.old.changes ≡ true) }
        ensures stays { OnErr result (told self.new.tree ≡ told self.old.tree) }
    {
        if self.changes.next_fails() {
            self.changes.count();
            return Err(StoreFault::Failed);
        }
        let made = self.store.make_folder(alloc, folder)?;
        self.changes.count();
        Ok(made)
    }

    #[tactic(auto, using(crate::proofs::WholeLemmas::same_folder_off))]
    fn remove_folder(&mut self, alloc: Global, folder: &Text) -> Result<bool, StoreFault>
        ensures was { IfOk result (λ was. (t : Tree) → told self.old.tree ≡ Some t → was ≡ has_empty_folder t folder.now) }
        ensures ok { OnOk result (told self.new.tree ≡ option_map (without_folder folder.now) (told self.old.tree)) }
        ensures counted { IfOk result (λ was. self.new.writes ≡ (if was then risen self.old.writes 1 else self.old.writes)) }
        ensures broke_off { IsErrOf result StoreFault.Failed → FolderMayBreakOff [] folder.now (told self.old.tree) (told self.new.tree) }
        ensures does { NumberedChange result self.old self.new }

        // What is particular to it: a call that fails leaves the folder.
        ensures fails { IsErrOf result StoreFault.Failed ↔ (next_fails self.old.changes ≡ true) }
        ensures stays { OnErr result (told self.new.tree ≡ told self.old.tree) }
    {
        if self.changes.next_fails() {
            self.changes.count();
            return Err(StoreFault::Failed);
        }
        let was = self.store.remove_folder(alloc, folder)?;
        self.changes.count();
        Ok(was)
    }

    fn replace(&mut self, alloc: Global, edits: &[Edit]) -> Result<(), StoreFault>
        ensures ok { OnOk result (AllMade edits.now (store_state self.old) (store_state self.new)) }
        ensures whole { IsErrOf result StoreFault.Failed → NoneOrAllMade edits.now (store_state self.old) (store_state self.new) }
        ensures does { NumberedChange result self.old self.new }

        // What is particular to it: it is one call, and one that fails makes no edit.
        ensures fails { IsErrOf result StoreFault.Failed ↔ (next_fails self.old.changes ≡ true) }
        ensures stays { OnErr result (told self.new.tree ≡ told self.old.tree) }
    {
        if self.changes.next_fails() {
            self.changes.count();
            return Err(StoreFault::Failed);
        }
        self.store.replace(alloc, edits)?;
        self.changes.count();
        Ok(())
    }
}
