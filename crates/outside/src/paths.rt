//! The folders of a store in memory, by their full names.
ghost use Rattle.std.specs.Prelude.{◌≡◌, IfOk, OnOk, OnErr, not, option_copied, if◌then◌else◌};
ghost use Rattle.std.specs.FinMap as map;
ghost use Rattle.std.specs.BTreeSet.{IsOrdered};
ghost use Rattle.std.specs.List.Sorted.{IsStrictlySortedBy};
ghost use Rattle.ss_text.specs.Texts.{text_cmp};
ghost use Rattle.outside.specs.Tree.{folder_path, with_folders, with_missing, folder_set, tree_of, has_empty_folder, without_folder, children_in, child_name, part_after, is_part, after_front};

use crate::places;
use crate::places::Files;
use ss_text::{NoMemory, Text};
use std::alloc::Global;
use std::collections::BTreeSet;

/// These folders, and a folder with those above it.
#[tactic(auto, using(crate::proofs::TreeLemmas::insert_folder))]
pub fn with_path(
    alloc: Global,
    folders: &BTreeSet<Text>,
    folder: &Text,
) -> Result<BTreeSet<Text>, NoMemory>
    ensures { IfOk result (λ new. folder_set new.keys ≡ with_folders (folder_path folder.now) (folder_set folders.now.keys)) }
{
    let mut new = copy_of(folders)?;
    for part in folder_path(alloc, folder)? {
        new.insert(part)?;
    }
    Ok(new)
}

// Whether a folder is there.
#[tactic(auto, using(crate::proofs::TreeLemmas::has_named))]
fn is_there(folders: &BTreeSet<Text>, folder: &Text) -> bool
    ensures { result ≡ map.contains_key (folder_set folders.now.keys) folder.now }
{
    folders.contains(folder)
}

/// Makes a folder and those above it, where it is missing, and answers whether it was.
pub fn make(alloc: Global, folders: &mut BTreeSet<Text>, folder: &Text) -> Result<bool, NoMemory>
    ensures made { IfOk result (λ made. made ≡ not (map.contains_key (folder_set folders.old.keys) folder.now)) }
    ensures ok { OnOk result (folder_set folders.new.keys ≡ with_missing folder.now (folder_set folders.old.keys)) }
    ensures err { OnErr result (folders.new.keys ≡ folders.old.keys) }
{
    if is_there(folders, folder) {
        return Ok(false);
    }
    *folders = with_path(alloc, folders, folder)?;
    Ok(true)
}

/// Takes a folder away where it is there without files and subfolders, and answers whether it was so.
pub fn take_empty(
    alloc: Global,
    folders: &mut BTreeSet<Text>,
    files: &Files,
    folder: &Text,
) -> Result<bool, NoMemory>
    ensures was { IfOk result (λ was. was ≡ has_empty_folder (tree_of folders.old.keys files.now.entries) folder.now) }
    ensures ok { OnOk result (folder_set folders.new.keys ≡ (without_folder folder.now (tree_of folders.old.keys files.now.entries)).folders) }
    ensures err { OnErr result (folders.new.keys ≡ folders.old.keys) }
{
    let empty = is_empty(alloc, folders, files, folder)?;
    if empty {
        take(folders, folder);
    }
    Ok(empty)
}

// Whether a folder is there without files and subfolders.
fn is_empty(
    alloc: Global,
    folders: &BTreeSet<Text>,
    files: &Files,
    folder: &Text,
) -> Result<bool, NoMemory>
    ensures { IfOk result (λ empty. empty ≡ has_empty_folder (tree_of folders.now.keys files.now.entries) folder.now) }
{
    let files = places::names(alloc, files, folder)?;
    let subfolders = children(alloc, folders, folder)?;
    Ok(is_there(folders, folder) && files.is_empty() && subfolders.is_empty())
}

// Takes a folder away.
#[tactic(auto, using(crate::proofs::TreeLemmas::remove_folder))]
fn take(folders: &mut BTreeSet<Text>, folder: &Text)
    ensures { folder_set folders.new.keys ≡ map.remove (folder_set folders.old.keys) folder.now }
{
    folders.remove(folder);
}

/// A copy of these folders.
pub fn copy_of(folders: &BTreeSet<Text>) -> Result<BTreeSet<Text>, NoMemory>
    ensures { IfOk result (λ copy. copy.keys ≡ folders.now.keys) }
{
    let copy = folders.clone()?;
    Ok(copy)
}

// The folders above a folder, and itself.
fn folder_path(alloc: Global, folder: &Text) -> Result<Vec<Text>, NoMemory>
    ensures { IfOk result (λ path. path.items ≡ folder_path folder.now) }
{
    let bytes = folder.as_slice();
    let mut path = Vec::new(alloc);
    for i in 0..bytes.len() {
        if bytes[i] == b'/' {
            path.push(Text::of(alloc, &bytes[..i])?)?;
        }
    }
    path.push(folder.copy()?)?;
    Ok(path)
}

/// The names of the folders right in a folder, ascending.
#[tactic(auto, using(crate::proofs::TreeLemmas::items_ordered, crate::proofs::TreeLemmas::children_ascend))]
pub fn children(
    alloc: Global,
    folders: &BTreeSet<Text>,
    folder: &Text,
) -> Result<Vec<Text>, NoMemory>
    ensures names { IfOk result (λ names. names.items ≡ children_in folder.now (map.keys (folder_set folders.now.keys))) }
    ensures ascending { IfOk result (λ names. IsStrictlySortedBy text_cmp names.items) }
{
    let names = listed(alloc, folders, folder)?;
    Ok(names)
}

fn listed(alloc: Global, folders: &BTreeSet<Text>, folder: &Text) -> Result<Vec<Text>, NoMemory>
    ensures names { IfOk result (λ names. names.items ≡ children_in folder.now folders.now.keys) }
    ensures ordered { IsOrdered text_cmp folders.now }
{
    let mut names = Vec::new(alloc);
    for full in folders.iter() {
        if let Some(name) = child(folder.as_slice(), full.as_slice()) {
            names.push(Text::of(alloc, name)?)?;
        }
    }
    Ok(names)
}

// The name in a folder of a folder that lies right in it.
fn child<'a>(folder: &[u8], full: &'a [u8]) -> Option<&'a [u8]>
    ensures { option_copied result ≡ child_name folder.now full.now }
{
    match after_front(folder, full) {
        Some(rest) => part_after(rest),
        None => None,
    }
}

// The one part after a `/`.
fn part_after(rest: &[u8]) -> Option<&[u8]>
    ensures { option_copied result ≡ part_after rest.now }
{
    match rest {
        [b'/', name @ ..] if is_part(name) => Some(name),
        _ => None,
    }
}

// A name of one part.
fn is_part(name: &[u8]) -> bool
    ensures { result ≡ is_part name.now }
{
    !name.is_empty() && !name.contains(&b'/')
}

// What follows a front.
fn after_front<'a>(front: &[u8], all: &'a [u8]) -> Option<&'a [u8]>
    ensures { option_copied result ≡ after_front front.now all.now }
{
    let mut front = front;
    let mut all = all;
    while let [x, xs @ ..] = front {
        match all {
            [y, ys @ ..] if x == y => {
                front = xs;
                all = ys;
            }
            _ => return None,
        }
    }
    Some(all)
}
