//! The calls on the outside that a run makes.
ghost use Rattle.std.specs.Prelude.{◌≡◌, [], ◌∷◌, Some, IfOk, is_some, if◌then◌else◌};
ghost use Rattle.outside.specs.Counts.{risen};
ghost use Rattle.outside.specs.Reading.{OnlyRead};
ghost use Rattle.outside.specs.Tree.{Tree, file_at, files_of};
ghost use Rattle.outside.specs.Effects.{Write, Remove, Replace, Print, Does, world_of};
ghost use Rattle.outside.specs.Blame.{StoreBlames, SinkBlames};
ghost use Rattle.outside.specs.Performing.{Performs};

use crate::{Edit, Folders, Sink, Stop, StoreFault};
use ss_text::Text;
use std::alloc::Global;

/// What a file holds, or nothing where it is missing.
#[tactic(auto, using(crate::proofs::EffectLemmas::unmoved), unfolding(crate::specs::Effects::contents))]
pub fn read_file<F: Folders>(
    alloc: Global,
    store: &mut F,
    folder: &Text,
    file: &Text,
) -> Result<Option<Text>, Stop>
    ensures told { IfOk result (λ bytes. (t : Tree) → (F.state store.old).tree ≡ Some t → bytes ≡ file_at t folder.now file.now) }
    ensures does { (o : _) → Does [] (world_of (F.state store.old) o) (world_of (F.state store.new) o) result }
    ensures tree { (F.state store.new).tree ≡ (F.state store.old).tree }
    ensures only_read { OnlyRead (F.state store.old) (F.state store.new) }
    ensures blames { StoreBlames (F.state store.old) (F.state store.new) result }
{
    match store.read(alloc, folder, file) {
        Ok(bytes) => Ok(bytes),
        Err(StoreFault::Failed) => Err(Stop::ReadFault),
        Err(StoreFault::NoMemory) => Err(Stop::NoMemory),
    }
}

/// Gives a file these bytes.
#[tactic(auto, using(crate::proofs::EffectLemmas::unmoved, crate::proofs::EffectLemmas::torn_write), unfolding(crate::specs::Effects::contents))]
pub fn write_file<F: Folders>(
    alloc: Global,
    store: &mut F,
    folder: &Text,
    file: &Text,
    bytes: &[u8],
) -> Result<(), Stop>
    ensures performs { Performs (Write folder.now file.now bytes.now ∷ []) (F.state store.old) (F.state store.new) result }
    ensures counted { IfOk result (λ _. (F.state store.new).writes ≡ risen ((F.state store.old).writes) 1) }
{
    match store.write(alloc, folder, file, bytes) {
        Ok(()) => Ok(()),
        Err(StoreFault::Failed) => Err(Stop::WriteFault),
        Err(StoreFault::NoMemory) => Err(Stop::NoMemory),
    }
}

/// Removes a file, and answers whether it was there.
#[tactic(auto, using(crate::proofs::EffectLemmas::unmoved, crate::proofs::EffectLemmas::torn_remove), unfolding(crate::specs::Effects::contents))]
pub fn remove_file<F: Folders>(
    alloc: Global,
    store: &mut F,
    folder: &Text,
    file: &Text,
) -> Result<bool, Stop>
    ensures was { IfOk result (λ was. (t : Tree) → (F.state store.old).tree ≡ Some t → was ≡ is_some (file_at t folder.now file.now)) }
    ensures performs { Performs (Remove folder.now file.now ∷ []) (F.state store.old) (F.state store.new) result }
    ensures counted { IfOk result (λ was. (F.state store.new).writes ≡ (if was then risen ((F.state store.old).writes) 1 else (F.state store.old).writes)) }
{
    match store.remove(alloc, folder, file) {
        Ok(was) => Ok(was),
        Err(StoreFault::Failed) => Err(Stop::WriteFault),
        Err(StoreFault::NoMemory) => Err(Stop::NoMemory),
    }
}

/// Makes all of these edits, in order, or none of them. Where a write failed, all may be made.
#[tactic(auto, using(crate::proofs::EditLemmas::all_made, crate::proofs::EditLemmas::none_made, crate::proofs::EditLemmas::some_made))]
pub fn replace<F: Folders>(alloc: Global, store: &mut F, edits: &[Edit]) -> Result<(), Stop>
    ensures { Performs (Replace edits.now ∷ []) (F.state store.old) (F.state store.new) result }
{
    match store.replace(alloc, edits) {
        Ok(()) => Ok(()),
        Err(StoreFault::Failed) => Err(Stop::WriteFault),
        Err(StoreFault::NoMemory) => Err(Stop::NoMemory),
    }
}

/// Prints bytes.
#[tactic(auto, using(crate::proofs::EffectLemmas::piece_written, crate::proofs::EffectLemmas::torn_print), unfolding(crate::specs::Effects::contents))]
pub fn print<K: Sink>(alloc: Global, output: &mut K, bytes: &[u8]) -> Result<(), Stop>
    ensures does { (s : _) → Does (Print bytes.now ∷ []) (world_of s (K.state output.old)) (world_of s (K.state output.new)) result }
    ensures blames { SinkBlames (K.state output.old) (K.state output.new) result }
{
    let mut at = 0;
    while at < bytes.len() {
        match output.write(alloc, &bytes[at..]) {
            Ok(n) => at += n,
            Err(StoreFault::Failed) => return Err(Stop::WriteFault),
            Err(StoreFault::NoMemory) => return Err(Stop::NoMemory),
        }
    }
    Ok(())
}

/// The names of the files in a folder.
#[tactic(auto, using(crate::proofs::EffectLemmas::unmoved), unfolding(crate::specs::Effects::contents))]
pub fn list_files<F: Folders>(
    alloc: Global,
    store: &mut F,
    folder: &Text,
) -> Result<Vec<Text>, Stop>
    ensures told { IfOk result (λ names. (t : Tree) → (F.state store.old).tree ≡ Some t → names.items ≡ files_of t folder.now) }
    ensures does { (o : _) → Does [] (world_of (F.state store.old) o) (world_of (F.state store.new) o) result }
    ensures tree { (F.state store.new).tree ≡ (F.state store.old).tree }
    ensures only_read { OnlyRead (F.state store.old) (F.state store.new) }
    ensures blames { StoreBlames (F.state store.old) (F.state store.new) result }
{
    match store.files(alloc, folder) {
        Ok(names) => Ok(names),
        Err(StoreFault::Failed) => Err(Stop::ReadFault),
        Err(StoreFault::NoMemory) => Err(Stop::NoMemory),
    }
}
