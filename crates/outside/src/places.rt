//! The files of a store in memory, by folder and name.
ghost use Rattle.std.specs.Prelude.{◌≡◌, ◌≤◌, IfOk, IfSome, OnOk, OnErr, is_some, length, take, option_copied, option_map};
ghost use Rattle.std.specs.FinMap as map;
ghost use Rattle.std.specs.BTreeMap.{keys, IsOrdered};
ghost use Rattle.std.specs.List.Sorted.{IsStrictlySortedBy};
ghost use Rattle.ss_text.specs.Texts.{text_cmp};
ghost use Rattle.outside.specs.Tree.{place_cmp, names_in, files_map};

use ss_text::{NoMemory, Text};
use std::alloc::Global;
use std::collections::BTreeMap;

pub type Files = BTreeMap<(Text, Text), Text>;

/// What a file holds.
#[tactic(auto, using(crate::proofs::PlaceLemmas::get_place))]
pub fn find(
    alloc: Global,
    files: &Files,
    folder: &Text,
    file: &Text,
) -> Result<Option<Text>, NoMemory>
    ensures { IfOk result (λ bytes. bytes ≡ map.get (files_map files.now.entries) (folder.now, file.now)) }
{
    let place = (folder.copy()?, file.copy()?);
    let bytes = copy_of(alloc, files.get(&place))?;
    Ok(bytes)
}

// A copy of a text that may be there.
fn copy_of(alloc: Global, text: Option<&Text>) -> Result<Option<Text>, NoMemory>
    ensures { IfOk result (λ copy. copy ≡ option_copied text.entry) }
{
    match text {
        Some(text) => Ok(Some(text.copy()?)),
        None => Ok(None),
    }
}

/// The first bytes that a file holds, at most so many.
#[tactic(auto, using(crate::proofs::PlaceLemmas::get_place))]
pub fn front(
    alloc: Global,
    files: &Files,
    folder: &Text,
    file: &Text,
    most: usize,
) -> Result<Option<Text>, NoMemory>
    ensures front { IfOk result (λ bytes. bytes ≡ option_map (take most) (map.get (files_map files.now.entries) (folder.now, file.now))) }
    ensures most { IfOk result (λ bytes. IfSome bytes (λ b. length b ≤ most)) }
{
    let place = (folder.copy()?, file.copy()?);
    let bytes = front_of(alloc, files.get(&place), most)?;
    Ok(bytes)
}

// The first bytes of a text that may be there.
fn front_of(alloc: Global, text: Option<&Text>, most: usize) -> Result<Option<Text>, NoMemory>
    ensures front { IfOk result (λ front. front ≡ option_map (take most) (option_copied text.entry)) }
    ensures most { IfOk result (λ front. IfSome front (λ b. length b ≤ most)) }
{
    let Some(text) = text else {
        return Ok(None);
    };
    let bytes = text.as_slice();
    Ok(Some(Text::of(alloc, &bytes[..bytes.len().min(most)])?))
}

/// A copy of these files.
pub fn copy_all(files: &Files) -> Result<Files, NoMemory>
    ensures { IfOk result (λ copy. copy.entries ≡ files.now.entries) }
{
    let copy = files.clone()?;
    Ok(copy)
}

/// Gives a file these bytes.
#[tactic(auto, using(crate::proofs::PlaceLemmas::put_place))]
pub fn put(
    alloc: Global,
    files: &mut Files,
    folder: &Text,
    file: &Text,
    bytes: &[u8],
) -> Result<(), NoMemory>
    ensures ok { OnOk result (files_map files.new.entries ≡ map.insert (files_map files.old.entries) (folder.now, file.now) bytes.now) }
    ensures err { OnErr result (files.new.entries ≡ files.old.entries) }
{
    let place = (folder.copy()?, file.copy()?);
    files.insert(place, Text::of(alloc, bytes)?)?;
    Ok(())
}

/// Takes a file away, and answers whether it was there.
#[tactic(auto, using(crate::proofs::PlaceLemmas::get_place, crate::proofs::PlaceLemmas::take_place))]
pub fn take(alloc: Global, files: &mut Files, folder: &Text, file: &Text) -> Result<bool, NoMemory>
    ensures was { IfOk result (λ was. was ≡ is_some (map.get (files_map files.old.entries) (folder.now, file.now))) }
    ensures ok { OnOk result (files_map files.new.entries ≡ map.remove (files_map files.old.entries) (folder.now, file.now)) }
    ensures err { OnErr result (files.new.entries ≡ files.old.entries) }
{
    let place = (folder.copy()?, file.copy()?);
    Ok(files.remove(&place).is_some())
}

/// The names of the files in a folder, ascending.
#[tactic(auto, using(crate::proofs::PlaceLemmas::entries_ordered, crate::proofs::PlaceLemmas::names_ascend))]
pub fn names(alloc: Global, files: &Files, folder: &Text) -> Result<Vec<Text>, NoMemory>
    ensures names { IfOk result (λ names. names.items ≡ names_in folder.now (map.keys (files_map files.now.entries))) }
    ensures ascending { IfOk result (λ names. IsStrictlySortedBy text_cmp names.items) }
{
    let names = listed(alloc, files, folder)?;
    Ok(names)
}

fn listed(alloc: Global, files: &Files, folder: &Text) -> Result<Vec<Text>, NoMemory>
    ensures names { IfOk result (λ names. names.items ≡ names_in folder.now (keys files.now)) }
    ensures ordered { IsOrdered place_cmp files.now }
{
    let mut names = Vec::new(alloc);
    for place in files.keys() {
        if place.0 == *folder {
            names.push(place.1.copy()?)?;
        }
    }
    Ok(names)
}
