//! The opening sync.
ghost use Rattle.std.specs.Prelude.{◌≡◌, List, ℕ, ◌≤◌, ◌&&◌, not, length, Some, IfOk, IsErrOf, filter, [], ◌∷◌, ◌++◌, OnOk, if◌then◌else◌};
ghost use Rattle.outside.specs.Counts.{risen};
ghost use Rattle.outside.specs.Reading.{OnlyRead};
ghost use Rattle.outside.specs.Tree.{Tree, files_of};
ghost use Rattle.outside.specs.Effects.{Does, world_of};
ghost use Rattle.outside.specs.Blame.{StoreBlames};
ghost use Rattle.outside.specs.Performing.{Performs};
ghost use Rattle.view_folder.specs.Files.{is_named, has_name, is_csv_name, other_names, view_folder, AreViewFiles, Apart, AreThere};
ghost use Rattle.view_folder.specs.TableFiles.{FitShape, table_files};
ghost use Rattle.view_folder.specs.Sync.{written, removed, opening_sync, opening_count, HoldsExactly};

use crate::TableTexts;
use crate::file::{File, folder_of_view, is_csv_name};
use flow_law::Shape;
use outside::{Folders, Stop, list_files, remove_file, write_file};
use ss_text::{NoMemory, Seed, Text};
use std::alloc::Global;
use std::collections::HashSet;

/// Brings the folder of a view's database to exactly these tables: the file of each is written, in the order of their
/// labels, and then every other file of the folder whose name ends in `.csv` is removed, ascending. Answers how
/// many files were written, or were there and removed. It reads before it writes.
#[tactic(auto, using(outside::proofs::EffectLemmas::nothing_yet))]
pub fn sync_all<F: Folders, T: TableTexts>(
    alloc: Global,
    store: &mut F,
    view_db: &Text,
    shape: &Shape,
    tables: &T,
) -> Result<usize, Stop>
    requires { FitShape shape.now (T.tables tables.now) }
    ensures does { (o : _) (t : Tree) → (F.state store.old).tree ≡ Some t
        → Does (opening_sync (view_folder view_db.now) (table_files shape.now (T.tables tables.now)) (files_of t (view_folder view_db.now))) (world_of (F.state store.old) o)
        (world_of (F.state store.new) o) result }
    ensures holds { IfOk result (λ _. (t u : Tree) → (F.state store.old).tree ≡ Some t → (F.state store.new).tree ≡ Some u
        → HoldsExactly (view_folder view_db.now) (table_files shape.now (T.tables tables.now)) t u) }
    ensures count { IfOk result (λ n. (t : Tree) → (F.state store.old).tree ≡ Some t → n ≡ opening_count (table_files shape.now (T.tables tables.now)) (files_of t (view_folder view_db.now))) }
    ensures writes { IfOk result (λ n. (F.state store.new).writes ≡ risen ((F.state store.old).writes) n) }
    ensures read_first { IsErrOf result Stop.ReadFault → OnlyRead (F.state store.old) (F.state store.new) }
    ensures blames { StoreBlames (F.state store.old) (F.state store.new) result }
{
    let folder = folder_of_view(alloc, view_db)?;
    let files = tables.files(alloc, shape)?;
    sync_files(alloc, store, &folder, &files)
}

/// Brings a folder to exactly these files: each is written, in order, and then every other file of the folder whose
/// name ends in `.csv` is removed, ascending. Answers how many files were written, or were there and removed. It reads
/// before it writes.
#[tactic(auto, using(outside::proofs::EffectLemmas::partly_more, outside::proofs::EffectLemmas::partly_later, outside::proofs::EffectLemmas::performed_append, outside::proofs::EffectLemmas::none_off, outside::proofs::EffectLemmas::nothing_yet))]
pub fn sync_files<F: Folders>(
    alloc: Global,
    store: &mut F,
    folder: &Text,
    files: &[File],
) -> Result<usize, Stop>
    requires { AreViewFiles files.now }
    ensures does { (o : _) (t : Tree) → (F.state store.old).tree ≡ Some t
        → Does (opening_sync folder.now files.now (files_of t folder.now)) (world_of (F.state store.old) o) (world_of (F.state store.new) o) result }
    ensures holds { IfOk result (λ _. (t u : Tree) → (F.state store.old).tree ≡ Some t → (F.state store.new).tree ≡ Some u → HoldsExactly folder.now files.now t u) }
    ensures count { IfOk result (λ n. (t : Tree) → (F.state store.old).tree ≡ Some t → n ≡ opening_count files.now (files_of t folder.now)) }
    ensures writes { IfOk result (λ n. (F.state store.new).writes ≡ risen ((F.state store.old).writes) n) }
    ensures read_first { IsErrOf result Stop.ReadFault → OnlyRead (F.state store.old) (F.state store.new) }
    ensures blames { StoreBlames (F.state store.old) (F.state store.new) result }
{
    let names = list_files(alloc, store, folder)?;
    let others = others_among(alloc, store.seed(), files, names)?;
    write_files(alloc, store, folder, files)?;
    let removed = remove_files(alloc, store, folder, &others)?;
    Ok(files.len() + removed)
}

// Of these names, those that end in `.csv` and are no file's.
fn others_among(
    alloc: Global,
    seed: Seed,
    files: &[File],
    names: Vec<Text>,
) -> Result<Vec<Text>, NoMemory>
    ensures { IfOk result (λ others. others.items ≡ other_names files.now names.items) }
{
    let taken = names_of(alloc, seed, files)?;
    let mut others = Vec::new(alloc);
    for name in names {
        push_other(&mut others, &taken, name)?;
    }
    Ok(others)
}

// The names of the files.
fn names_of(alloc: Global, seed: Seed, files: &[File]) -> Result<HashSet<&Text, Seed>, NoMemory>
    ensures { IfOk result (λ names. (name : List ℕ) → has_name names.keys name ≡ is_named files.now name) }
{
    let mut names = HashSet::with_hasher(alloc, seed);
    for file in files {
        names.insert(&file.name)?;
    }
    Ok(names)
}

// Puts a name last that ends in `.csv` and is not taken.
fn push_other(
    others: &mut Vec<Text>,
    taken: &HashSet<&Text, Seed>,
    name: Text,
) -> Result<(), NoMemory>
    ensures { OnOk result (others.new.items ≡ (if is_csv_name name && not (has_name taken.now.keys name) then others.old.items ++ name ∷ [] else others.old.items)) }
{
    if is_other(taken, &name) {
        others.push(name)?;
    }
    Ok(())
}

fn is_other(taken: &HashSet<&Text, Seed>, name: &Text) -> bool
    ensures { result ≡ (is_csv_name name.now && not (has_name taken.now.keys name.now)) }
{
    is_csv_name(name) && !taken.contains(&name)
}

// Writes these files, in order.
#[tactic(auto, using(outside::proofs::EffectLemmas::each_stops, outside::proofs::EffectLemmas::each_ends, outside::proofs::EffectLemmas::doing_all))]
fn write_files<F: Folders>(
    alloc: Global,
    store: &mut F,
    folder: &Text,
    files: &[File],
) -> Result<(), Stop>
    ensures performs { Performs (written folder.now files.now) (F.state store.old) (F.state store.new) result }
    ensures writes { IfOk result (λ _. (F.state store.new).writes ≡ risen ((F.state store.old).writes) (length files.now)) }
{
    for file in files {
        write_file(alloc, store, folder, &file.name, file.bytes.as_slice())?;
    }
    Ok(())
}

// Removes these files, in order, and answers how many were there.
#[tactic(auto, using(outside::proofs::EffectLemmas::each_stops, outside::proofs::EffectLemmas::each_ends, outside::proofs::EffectLemmas::doing_all))]
fn remove_files<F: Folders>(
    alloc: Global,
    store: &mut F,
    folder: &Text,
    names: &[Text],
) -> Result<usize, Stop>
    ensures performs { Performs (removed folder.now names.now) (F.state store.old) (F.state store.new) result }
    ensures each { IfOk result (λ n. (t : Tree) → (F.state store.old).tree ≡ Some t → Apart names.now → AreThere folder.now names.now t → n ≡ length names.now) }
    ensures few { IfOk result (λ n. n ≤ length names.now) }
    ensures writes { IfOk result (λ n. (F.state store.new).writes ≡ risen ((F.state store.old).writes) n) }
{
    let mut count = 0;
    for name in names {
        count += usize::from(remove_file(alloc, store, folder, name)?);
    }
    Ok(count)
}
