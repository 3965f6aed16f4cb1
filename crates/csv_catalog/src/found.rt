//! The bytes of a file, or what its first ones show.
ghost use Rattle.std.specs.Prelude.{◌≡◌, ◌≤◌, ℕ, List, Option, Some, false, option_map, take, IfOk, IfErr, IfSome, IsErrOf};
ghost use Rattle.outside.specs.Counts.{Rose};
ghost use Rattle.outside.specs.Reading.{OnlyRead};
ghost use Rattle.outside.specs.Tree.{file_at};
ghost use Rattle.csv_catalog.specs.Found.{IsFound};
ghost use Rattle.csv_catalog.specs.Loaded.{is_refusal};
ghost use Rattle.csv_catalog.specs.Reading.{WhereTold};
ghost use Rattle.schema_model.specs.Limits.{most_rows};

use crate::LoadFault;
use crate::front::front_fault;
use crate::judge::FileFault;
use outside::{Folders, StoreFault};
use ss_text::{NoMemory, Seed, Text};
use std::alloc::Global;

// A file of fewer bytes is read once. One of as many or more is judged by its first ones before the others are read.
const FRONT: usize = 67_108_864;

/// What was found of a file: that it is missing, all its bytes, or its first fault.
#[derive(Debug, Drop)]
pub(crate) enum Found {
    Missing,
    Whole { bytes: Text },
    Refused { fault: FileFault },
}

// Finds a file, where so many rows were counted before. Where its first bytes show its first fault, no more of it is read.
#[tactic(auto, using(crate::proofs::FoundLemmas::rose_later, outside::proofs::ReadingLemmas::only_read_then))]
pub(crate) fn found_file<F: Folders>(
    alloc: Global,
    store: &mut F,
    folder: &Text,
    file: &Text,
    count: usize,
) -> Result<Found, LoadFault>
    requires few { count ≤ most_rows }
    ensures found { IfOk result (λ found. WhereTold (F.state store.old) (λ t. IsFound count (file_at t folder.now file.now) found)) }
    ensures no_refusal { IfErr result (λ e. is_refusal e ≡ false) }
    ensures read_fault { IsErrOf result LoadFault.ReadFault → Rose ((F.state store.old).read_faults) ((F.state store.new).read_faults) }
    ensures store { OnlyRead (F.state store.old) (F.state store.new) }
{
    let front = match store.front(alloc, folder, file, FRONT) {
        Ok(Some(front)) => front,
        Ok(None) => return Ok(Found::Missing),
        Err(StoreFault::Failed) => return Err(LoadFault::ReadFault),
        Err(StoreFault::NoMemory) => return Err(LoadFault::NoMemory),
    };
    if let Some(found) = shown(alloc, store.seed(), front, count)? {
        return Ok(found);
    }
    whole_file(alloc, store, folder, file)
}

// What the first bytes of a file show: all of it where they are too few, or its first fault.
fn shown(alloc: Global, seed: Seed, front: Text, count: usize) -> Result<Option<Found>, NoMemory>
    requires few { count ≤ most_rows }
    ensures { IfOk result (λ found. IfSome found (λ found. (held : Option (List ℕ)) → Some front ≡ option_map (take 67108864) held → IsFound count held found)) }
{
    if front.as_slice().len() < FRONT {
        return Ok(Some(Found::Whole { bytes: front }));
    }
    match front_fault(alloc, seed, front, count)? {
        Some(fault) => Ok(Some(Found::Refused { fault })),
        None => Ok(None),
    }
}

// Reads all of a file.
fn whole_file<F: Folders>(
    alloc: Global,
    store: &mut F,
    folder: &Text,
    file: &Text,
) -> Result<Found, LoadFault>
    ensures found { IfOk result (λ found. (count : ℕ) → WhereTold (F.state store.old) (λ t. IsFound count (file_at t folder.now file.now) found)) }
    ensures no_refusal { IfErr result (λ e. is_refusal e ≡ false) }
    ensures read_fault { IsErrOf result LoadFault.ReadFault → Rose ((F.state store.old).read_faults) ((F.state store.new).read_faults) }
    ensures store { OnlyRead (F.state store.old) (F.state store.new) }
{
    match store.read(alloc, folder, file) {
        Ok(Some(bytes)) => Ok(Found::Whole { bytes }),
        Ok(None) => Ok(Found::Missing),
        Err(StoreFault::Failed) => Err(LoadFault::ReadFault),
        Err(StoreFault::NoMemory) => Err(LoadFault::NoMemory),
    }
}
