//! Folders of files.
ghost use Rattle.std.specs.Prelude.{◌≡◌, [], ℕ, ◌≤◌, List, Option, Some, IfOk, IfSome, OnOk, OnErr, IsErrOf, option_map, is_some, length, take, not, if◌then◌else◌};
ghost use Rattle.std.specs.List.Sorted.{IsStrictlySortedBy};
ghost use Rattle.outside.specs.Counts.{Rose, risen};
ghost use Rattle.outside.specs.States.{StoreState};
ghost use Rattle.ss_text.specs.Texts.{text_cmp};
ghost use Rattle.outside.specs.Tree.{Tree, file_at, files_of, subfolders_of, folder_path, with_file, without_file, has_folder, has_empty_folder, with_folder, without_folder, MayBreakOff, FolderMayBreakOff};
ghost use Rattle.outside.specs.Whole.{IsWhole};
ghost use Rattle.outside.specs.Edits.{AllMade, NoneOrAllMade};

use crate::{Edit, StoreFault};
use ss_text::{Seed, Text};
use std::alloc::Global;

/// Folders of files. A folder's name is its parts joined by `/`.
pub trait Folders {
    /// What is known of it.
    ghost state: { Self → StoreState };

    /// A seed for the hashes of what it holds. Nothing is promised of it, and no answer depends on it.
    fn seed(&self) -> Seed;

    /// The names of the folders right in a folder, ascending. A missing folder has none.
    fn subfolders(&mut self, alloc: Global, folder: &Text) -> Result<Vec<Text>, StoreFault>
        ensures told { IfOk result (λ names. (t : Tree) → (state self.old).tree ≡ Some t → names.items ≡ subfolders_of t folder.now) }
        ensures ascending { IfOk result (λ names. IsStrictlySortedBy text_cmp names.items) }
        ensures failed { IsErrOf result StoreFault.Failed → Rose ((state self.old).read_faults) ((state self.new).read_faults) }
        ensures steady { (state self.old).read_faults ≤ (state self.new).read_faults }
        ensures tree { (state self.new).tree ≡ (state self.old).tree }
        ensures writes { (state self.new).writes ≡ (state self.old).writes }
        ensures write_faults { (state self.new).write_faults ≡ (state self.old).write_faults };

    /// The names of the files in a folder, ascending. A missing folder has none.
    fn files(&mut self, alloc: Global, folder: &Text) -> Result<Vec<Text>, StoreFault>
        ensures told { IfOk result (λ names. (t : Tree) → (state self.old).tree ≡ Some t → names.items ≡ files_of t folder.now) }
        ensures ascending { IfOk result (λ names. IsStrictlySortedBy text_cmp names.items) }
        ensures failed { IsErrOf result StoreFault.Failed → Rose ((state self.old).read_faults) ((state self.new).read_faults) }
        ensures steady { (state self.old).read_faults ≤ (state self.new).read_faults }
        ensures tree { (state self.new).tree ≡ (state self.old).tree }
        ensures writes { (state self.new).writes ≡ (state self.old).writes }
        ensures write_faults { (state self.new).write_faults ≡ (state self.old).write_faults };

    /// What a file holds, or nothing where it is missing.
    fn read(
        &mut self,
        alloc: Global,
        folder: &Text,
        file: &Text,
    ) -> Result<Option<Text>, StoreFault>
        ensures told { IfOk result (λ bytes. (t : Tree) → (state self.old).tree ≡ Some t → bytes ≡ file_at t folder.now file.now) }
        ensures failed { IsErrOf result StoreFault.Failed → Rose ((state self.old).read_faults) ((state self.new).read_faults) }
        ensures steady { (state self.old).read_faults ≤ (state self.new).read_faults }
        ensures tree { (state self.new).tree ≡ (state self.old).tree }
        ensures writes { (state self.new).writes ≡ (state self.old).writes }
        ensures write_faults { (state self.new).write_faults ≡ (state self.old).write_faults };

    /// The first bytes of a file, at most so many, or nothing where it is missing.
    fn front(
        &mut self,
        alloc: Global,
        folder: &Text,
        file: &Text,
        most: usize,
    ) -> Result<Option<Text>, StoreFault>
        ensures told { IfOk result (λ bytes. (t : Tree) → (state self.old).tree ≡ Some t → bytes ≡ option_map (take most) (file_at t folder.now file.now)) }
        ensures most { IfOk result (λ bytes. IfSome bytes (λ b. length b ≤ most)) }
        ensures failed { IsErrOf result StoreFault.Failed → Rose ((state self.old).read_faults) ((state self.new).read_faults) }
        ensures steady { (state self.old).read_faults ≤ (state self.new).read_faults }
        ensures tree { (state self.new).tree ≡ (state self.old).tree }
        ensures writes { (state self.new).writes ≡ (state self.old).writes }
        ensures write_faults { (state self.new).write_faults ≡ (state self.old).write_faults };

    /// Gives a file these bytes, and makes its folder and those above it where they are missing.
    fn write(
        &mut self,
        alloc: Global,
        folder: &Text,
        file: &Text,
        bytes: &[u8],
    ) -> Result<(), StoreFault>
        ensures ok { OnOk result ((state self.new).tree ≡ option_map (with_file folder.now file.now bytes.now) ((state self.old).tree)) }
        ensures counted { OnOk result ((state self.new).writes ≡ risen ((state self.old).writes) 1) }
        ensures broke_off { IsErrOf result StoreFault.Failed → MayBreakOff (folder_path folder.now) folder.now file.now ((state self.old).tree) ((state self.new).tree) }
        ensures failed { IsErrOf result StoreFault.Failed → Rose ((state self.old).write_faults) ((state self.new).write_faults) }
        ensures steady { (state self.old).write_faults ≤ (state self.new).write_faults }
        ensures uncounted { OnErr result ((state self.new).writes ≡ (state self.old).writes) }
        ensures no_memory { IsErrOf result StoreFault.NoMemory → (state self.new).tree ≡ (state self.old).tree }
        ensures no_fault { IsErrOf result StoreFault.NoMemory → (state self.new).write_faults ≡ (state self.old).write_faults }
        ensures read_faults { (state self.new).read_faults ≡ (state self.old).read_faults };

    /// Removes a file, and answers whether it was there.
    fn remove(&mut self, alloc: Global, folder: &Text, file: &Text) -> Result<bool, StoreFault>
        ensures was { IfOk result (λ was. (t : Tree) → (state self.old).tree ≡ Some t → was ≡ is_some (file_at t folder.now file.now)) }
        ensures ok { OnOk result ((state self.new).tree ≡ option_map (without_file folder.now file.now) ((state self.old).tree)) }
        ensures counted { IfOk result (λ was. (state self.new).writes ≡ (if was then risen ((state self.old).writes) 1 else (state self.old).writes)) }
        ensures broke_off { IsErrOf result StoreFault.Failed → MayBreakOff [] folder.now file.now ((state self.old).tree) ((state self.new).tree) }
        ensures failed { IsErrOf result StoreFault.Failed → Rose ((state self.old).write_faults) ((state self.new).write_faults) }
        ensures steady { (state self.old).write_faults ≤ (state self.new).write_faults }
        ensures uncounted { OnErr result ((state self.new).writes ≡ (state self.old).writes) }
        ensures no_memory { IsErrOf result StoreFault.NoMemory → (state self.new).tree ≡ (state self.old).tree }
        ensures no_fault { IsErrOf result StoreFault.NoMemory → (state self.new).write_faults ≡ (state self.old).write_faults }
        ensures read_faults { (state self.new).read_faults ≡ (state self.old).read_faults };

    /// Makes a folder and those above it, where it is missing, and answers whether it was.
    fn make_folder(&mut self, alloc: Global, folder: &Text) -> Result<bool, StoreFault>
        ensures made { IfOk result (λ made. (t : Tree) → (state self.old).tree ≡ Some t → made ≡ not (has_folder t folder.now)) }
        ensures ok { OnOk result ((state self.new).tree ≡ option_map (with_folder folder.now) ((state self.old).tree)) }
        ensures counted { IfOk result (λ made. (state self.new).writes ≡ (if made then risen ((state self.old).writes) 1 else (state self.old).writes)) }
        ensures broke_off { IsErrOf result StoreFault.Failed → FolderMayBreakOff (folder_path folder.now) folder.now ((state self.old).tree) ((state self.new).tree) }
        ensures failed { IsErrOf result StoreFault.Failed → Rose ((state self.old).write_faults) ((state self.new).write_faults) }
        ensures steady { (state self.old).write_faults ≤ (state self.new).write_faults }
        ensures uncounted { OnErr result ((state self.new).writes ≡ (state self.old).writes) }
        ensures no_memory { IsErrOf result StoreFault.NoMemory → (state self.new).tree ≡ (state self.old).tree }
        ensures no_fault { IsErrOf result StoreFault.NoMemory → (state self.new).write_faults ≡ (state self.old).write_faults }
        ensures read_faults { (state self.new).read_faults ≡ (state self.old).read_faults };

    /// Removes a folder that is there without files and subfolders, and answers whether it was so.
    fn remove_folder(&mut self, alloc: Global, folder: &Text) -> Result<bool, StoreFault>
        ensures was { IfOk result (λ was. (t : Tree) → (state self.old).tree ≡ Some t → was ≡ has_empty_folder t folder.now) }
        ensures ok { OnOk result ((state self.new).tree ≡ option_map (without_folder folder.now) ((state self.old).tree)) }
        ensures counted { IfOk result (λ was. (state self.new).writes ≡ (if was then risen ((state self.old).writes) 1 else (state self.old).writes)) }
        ensures broke_off { IsErrOf result StoreFault.Failed → FolderMayBreakOff [] folder.now ((state self.old).tree) ((state self.new).tree) }
        ensures failed { IsErrOf result StoreFault.Failed → Rose ((state self.old).write_faults) ((state self.new).write_faults) }
        ensures steady { (state self.old).write_faults ≤ (state self.new).write_faults }
        ensures uncounted { OnErr result ((state self.new).writes ≡ (state self.old).writes) }
        ensures no_memory { IsErrOf result StoreFault.NoMemory → (state self.new).tree ≡ (state self.old).tree }
        ensures no_fault { IsErrOf result StoreFault.NoMemory → (state self.new).write_faults ≡ (state self.old).write_faults }
        ensures read_faults { (state self.new).read_faults ≡ (state self.old).read_faults };

    /// Makes all of these edits, in order, or none of them. Where it fails, it may still have made all.
    fn replace(&mut self, alloc: Global, edits: &[Edit]) -> Result<(), StoreFault>
        ensures ok { OnOk result (AllMade edits.now (state self.old) (state self.new)) }
        ensures whole { IsErrOf result StoreFault.Failed → NoneOrAllMade edits.now (state self.old) (state self.new) }
        ensures failed { IsErrOf result StoreFault.Failed → Rose ((state self.old).write_faults) ((state self.new).write_faults) }
        ensures steady { (state self.old).write_faults ≤ (state self.new).write_faults }
        ensures uncounted { IsErrOf result StoreFault.NoMemory → (state self.new).writes ≡ (state self.old).writes }
        ensures no_memory { IsErrOf result StoreFault.NoMemory → (state self.new).tree ≡ (state self.old).tree }
        ensures no_fault { IsErrOf result StoreFault.NoMemory → (state self.new).write_faults ≡ (state self.old).write_faults }
        ensures read_faults { (state self.new).read_faults ≡ (state self.old).read_faults };

    /// The folder of each file that it tells is there.
    ghost whole: { (s : Self) (t : Tree) → (state s).tree ≡ Some t → IsWhole t };
}
