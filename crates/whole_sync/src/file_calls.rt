//! The calls on files by which edits are made.
ghost use Rattle.std.specs.Prelude.{◌≡◌, ℕ, ◌≤◌, Option, Some, None, IfOk, OnOk, OnErr, option_map};
ghost use Rattle.outside.specs.Counts.{Rose};
ghost use Rattle.whole_sync.specs.Disks.{Known, PutBeside, DropBeside, PutList, DropList, Do, Sync, Clean, with_done, Off, PutOff};
ghost use Rattle.whole_sync.specs.Lists.{IsWord};
ghost use Rattle.whole_sync.specs.declared.moves.Move.TheVariants.{MakeFolder, TakePlace, Remove, RemoveFolder};

use outside::StoreFault;
use ss_text::Text;
use std::alloc::Global;

/// The calls on files by which edits are made whole or not at all. Each of them may fail, having done what it says or not.
/// One that fails is counted.
pub trait FileCalls {
    /// What is known of it, where it tells something.
    ghost known: { Self → Option Known };

    /// How many of its calls failed, for want of memory too.
    ghost faults: { Self → ℕ };

    /// The list that is there, if one is.
    fn list(&mut self, alloc: Global) -> Result<Option<Text>, StoreFault>
        ensures told { IfOk result (λ list. (k : Known) → known self.old ≡ Some k → list ≡ k.held.list) }
        ensures same { known self.new ≡ known self.old }
        ensures failed { OnErr result (Rose (faults self.old) (faults self.new)) }
        ensures steady { faults self.old ≤ faults self.new };

    /// Puts these bytes on the disk beside the place of a file, and answers under which name, under which nothing lay. The
    /// name has no byte 0. The place stays as it is.
    fn put_beside(
        &mut self,
        alloc: Global,
        folder: &Text,
        file: &Text,
        bytes: &[u8],
    ) -> Result<Text, StoreFault>
        ensures ok { IfOk result (λ name. known self.new ≡ option_map (with_done (PutBeside name folder.now file.now bytes.now)) (known self.old)) }
        ensures word { IfOk result (λ name. IsWord name) }
        ensures fresh { IfOk result (λ name. (k : Known) → known self.old ≡ Some k → k.held.beside name ≡ None) }
        ensures err { OnErr result (PutOff folder.now file.now (known self.old) (known self.new)) }
        ensures failed { OnErr result (Rose (faults self.old) (faults self.new)) }
        ensures steady { faults self.old ≤ faults self.new };

    /// Takes away what was put beside a place.
    fn drop_beside(&mut self, alloc: Global, beside: &Text) -> Result<(), StoreFault>
        ensures ok { OnOk result (known self.new ≡ option_map (with_done (DropBeside beside.now)) (known self.old)) }
        ensures err { OnErr result (Off (DropBeside beside.now) (known self.old) (known self.new)) }
        ensures failed { OnErr result (Rose (faults self.old) (faults self.new)) }
        ensures steady { faults self.old ≤ faults self.new };

    /// Puts a list on the disk, behind all that was put beside places. The list is there whole, or it is not there.
    fn put_list(&mut self, alloc: Global, list: &[u8]) -> Result<(), StoreFault>
        ensures ok { OnOk result (known self.new ≡ option_map (with_done (PutList list.now)) (known self.old)) }
        ensures err { OnErr result (Off (PutList list.now) (known self.old) (known self.new)) }
        ensures failed { OnErr result (Rose (faults self.old) (faults self.new)) }
        ensures steady { faults self.old ≤ faults self.new };

    /// Takes the list away, behind all that was done before.
    fn drop_list(&mut self, alloc: Global) -> Result<(), StoreFault>
        ensures ok { OnOk result (known self.new ≡ option_map (with_done DropList) (known self.old)) }
        ensures err { OnErr result (Off DropList (known self.old) (known self.new)) }
        ensures failed { OnErr result (Rose (faults self.old) (faults self.new)) }
        ensures steady { faults self.old ≤ faults self.new };

    /// Makes a folder and those above it, where it is missing.
    fn make_folder(&mut self, alloc: Global, folder: &Text) -> Result<(), StoreFault>
        ensures ok { OnOk result (known self.new ≡ option_map (with_done (Do (MakeFolder folder.now))) (known self.old)) }
        ensures err { OnErr result (Off (Do (MakeFolder folder.now)) (known self.old) (known self.new)) }
        ensures failed { OnErr result (Rose (faults self.old) (faults self.new)) }
        ensures steady { faults self.old ≤ faults self.new };

    /// Moves what was put beside a place there, where it still lies beside it.
    fn take_place(
        &mut self,
        alloc: Global,
        beside: &Text,
        folder: &Text,
        file: &Text,
    ) -> Result<(), StoreFault>
        ensures ok { OnOk result (known self.new ≡ option_map (with_done (Do (TakePlace beside.now folder.now file.now))) (known self.old)) }
        ensures err { OnErr result (Off (Do (TakePlace beside.now folder.now file.now)) (known self.old) (known self.new)) }
        ensures failed { OnErr result (Rose (faults self.old) (faults self.new)) }
        ensures steady { faults self.old ≤ faults self.new };

    /// Removes a file, where it is there.
    fn remove(&mut self, alloc: Global, folder: &Text, file: &Text) -> Result<(), StoreFault>
        ensures ok { OnOk result (known self.new ≡ option_map (with_done (Do (Remove folder.now file.now))) (known self.old)) }
        ensures err { OnErr result (Off (Do (Remove folder.now file.now)) (known self.old) (known self.new)) }
        ensures failed { OnErr result (Rose (faults self.old) (faults self.new)) }
        ensures steady { faults self.old ≤ faults self.new };

    /// Removes a folder, where it is there and nothing is left in it.
    fn remove_folder(&mut self, alloc: Global, folder: &Text) -> Result<(), StoreFault>
        ensures ok { OnOk result (known self.new ≡ option_map (with_done (Do (RemoveFolder folder.now))) (known self.old)) }
        ensures err { OnErr result (Off (Do (RemoveFolder folder.now)) (known self.old) (known self.new)) }
        ensures failed { OnErr result (Rose (faults self.old) (faults self.new)) }
        ensures steady { faults self.old ≤ faults self.new };

    /// What was done in folders is on the disk before anything that follows.
    fn sync(&mut self, alloc: Global) -> Result<(), StoreFault>
        ensures ok { OnOk result (known self.new ≡ option_map (with_done Sync) (known self.old)) }
        ensures err { OnErr result (Off Sync (known self.old) (known self.new)) }
        ensures failed { OnErr result (Rose (faults self.old) (faults self.new)) }
        ensures steady { faults self.old ≤ faults self.new };

    /// Takes away all that lies beside places.
    fn clean(&mut self, alloc: Global) -> Result<(), StoreFault>
        ensures ok { OnOk result (known self.new ≡ option_map (with_done Clean) (known self.old)) }
        ensures err { OnErr result (Off Clean (known self.old) (known self.new)) }
        ensures failed { OnErr result (Rose (faults self.old) (faults self.new)) }
        ensures steady { faults self.old ≤ faults self.new };
}
