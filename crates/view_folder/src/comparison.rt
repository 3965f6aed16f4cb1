//! The comparison of a folder with the files that are meant.
ghost use Rattle.std.specs.Prelude.{◌≡◌, ℕ, List, [], ◌∷◌, ◌++◌, OnOk, Some, IfOk, map, filter};
ghost use Rattle.std.specs.Option.{option_copied, option_eq, option_or};
ghost use Rattle.std.specs.BTreeMap.{get};
ghost use Rattle.ss_text.specs.Texts.{text_eq, text_cmp};
ghost use Rattle.outside.specs.Tree.{Tree, file_at};
ghost use Rattle.outside.specs.Reading.{OnlyRead};
ghost use Rattle.outside.specs.Effects.{Does, world_of};
ghost use Rattle.outside.specs.Blame.{StoreBlames};
ghost use Rattle.view_folder.specs.Files.{bytes_in, is_csv_name};
ghost use Rattle.view_folder.specs.Comparison.{compared_names, difference, compared, comparison};

use crate::File;
use crate::file::is_csv_name;
use outside::{Folders, Stop, list_files, read_file};
use ss_text::{NoMemory, Text, make_ascending};
use std::alloc::Global;
use std::collections::BTreeMap;

/// How a folder compares with the files that are meant: the same, with how many, or the least name at which it
/// differs, with the two lengths in bytes, none for a missing file.
#[derive(Debug, Drop)]
pub enum Comparison {
    Same {
        count: usize,
    },
    Differs {
        file: Text,
        held: Option<usize>,
        meant: Option<usize>,
    },
}

/// Compares what the folder holds under the names of these files, and under every other name that ends in
/// `.csv`, with these files. A file that is gone when it is read counts as missing.
#[tactic(auto, using(outside::proofs::EffectLemmas::only_read_does, outside::proofs::ReadingLemmas::only_read_then))]
pub fn compare<F: Folders>(
    alloc: Global,
    store: &mut F,
    folder: &Text,
    files: &[File],
) -> Result<Comparison, Stop>
    ensures told { IfOk result (λ c. (t : Tree) → (F.state store.old).tree ≡ Some t → c ≡ comparison folder.now files.now t) }
    ensures does { (o : _) → Does [] (world_of (F.state store.old) o) (world_of (F.state store.new) o) result }
    ensures only_read { OnlyRead (F.state store.old) (F.state store.new) }
    ensures blames { StoreBlames (F.state store.old) (F.state store.new) result }
{
    let names = list_files(alloc, store, folder)?;
    let names = compared_names(files, names)?;
    let meant = meant_bytes(alloc, files)?;
    first_difference(alloc, store, folder, files, &meant, names)
}

// The names that are compared, where these are the folder's.
fn compared_names(files: &[File], names: Vec<Text>) -> Result<Vec<Text>, NoMemory>
    ensures { IfOk result (λ all. all.items ≡ compared_names files.now names.items) }
{
    let mut names = with_names(csv_names(names), files)?;
    make_ascending(&mut names)?;
    Ok(names)
}

// Those of these names that end in `.csv`.
fn csv_names(mut names: Vec<Text>) -> Vec<Text>
    ensures { result.items ≡ filter is_csv_name names.items }
{
    names.retain(|name| is_csv_name(name));
    names
}

// These names, and behind them those of the files.
fn with_names(mut names: Vec<Text>, files: &[File]) -> Result<Vec<Text>, NoMemory>
    ensures { IfOk result (λ all. all.items ≡ names.items ++ map (λ f. f.name) files.now) }
{
    for file in files {
        names.push(file.name.copy()?)?;
    }
    Ok(names)
}

// The comparison under these names, in order, where this is what the files are to hold.
#[tactic(auto, using(outside::proofs::ReadingLemmas::only_read_then))]
fn first_difference<F: Folders>(
    alloc: Global,
    store: &mut F,
    folder: &Text,
    files: &[File],
    meant: &BTreeMap<Text, &Text>,
    names: Vec<Text>,
) -> Result<Comparison, Stop>
    requires { (name : List ℕ) → option_copied (get text_cmp meant.now name) ≡ bytes_in files.now name }
    ensures told { IfOk result (λ c. (t : Tree) → (F.state store.old).tree ≡ Some t → c ≡ compared folder.now files.now t names.items) }
    ensures only_read { OnlyRead (F.state store.old) (F.state store.new) }
    ensures blames { StoreBlames (F.state store.old) (F.state store.new) result }
{
    for name in names {
        let bytes = bytes_of(meant, &name);
        match compare_file(alloc, store, folder, name, bytes) {
            Ok(None) => (),
            Ok(Some(difference)) => return Ok(difference),
            Err(stop) => return Err(stop),
        }
    }
    Ok(Comparison::Same { count: files.len() })
}

// The difference under a name that is to hold these bytes, where there is one.
fn compare_file<F: Folders>(
    alloc: Global,
    store: &mut F,
    folder: &Text,
    name: Text,
    meant: Option<&Text>,
) -> Result<Option<Comparison>, Stop>
    ensures told { IfOk result (λ d. (t : Tree) → (F.state store.old).tree ≡ Some t → d ≡ difference name (file_at t folder.now name) (option_copied meant.entry)) }
    ensures only_read { OnlyRead (F.state store.old) (F.state store.new) }
    ensures blames { StoreBlames (F.state store.old) (F.state store.new) result }
{
    let held = read_file(alloc, store, folder, &name)?;
    Ok(difference(name, held, meant))
}

// The difference between what is held and what is meant under a name, where there is one.
fn difference(name: Text, held: Option<Text>, meant: Option<&Text>) -> Option<Comparison>
    ensures { result ≡ difference name held (option_copied meant.entry) }
{
    if is_same(&held, meant) {
        return None;
    }
    Some(Comparison::Differs {
        file: name,
        held: held.map(|text| text.as_slice().len()),
        meant: meant.map(|text| text.as_slice().len()),
    })
}

fn is_same(held: &Option<Text>, meant: Option<&Text>) -> bool
    ensures { result ≡ option_eq text_eq held.now (option_copied meant.entry) }
{
    match (held, meant) {
        (Some(held), Some(meant)) => held == meant,
        (None, None) => true,
        _ => false,
    }
}

// What a file of this name is to hold, if there is one.
fn bytes_of<'a>(meant: &BTreeMap<Text, &'a Text>, name: &Text) -> Option<&'a Text>
    ensures { option_copied result ≡ option_copied (get text_cmp meant.now name.now) }
{
    meant.get(name).copied()
}

// What a file of each name is to hold.
fn meant_bytes<'a>(alloc: Global, files: &'a [File]) -> Result<BTreeMap<Text, &'a Text>, NoMemory>
    ensures { IfOk result (λ meant. (name : List ℕ) → option_copied (get text_cmp meant name) ≡ bytes_in files.now name) }
{
    let mut meant = BTreeMap::new(alloc);
    for file in files {
        add_first(&mut meant, file)?;
    }
    Ok(meant)
}

// Adds what a file is to hold, unless one of its name is there.
#[tactic(auto, using(crate::proofs::ComparisonLemmas::later_unmeant))]
fn add_first<'a>(meant: &mut BTreeMap<Text, &'a Text>, file: &'a File) -> Result<(), NoMemory>
    ensures { OnOk result ((name : List ℕ) → option_copied (get text_cmp meant.new name) ≡ option_or (option_copied (get text_cmp meant.old name)) (bytes_in (file.now ∷ []) name)) }
{
    if meant.contains_key(&file.name) {
        return Ok(());
    }
    meant.insert(file.name.copy()?, &file.bytes)?;
    Ok(())
}
