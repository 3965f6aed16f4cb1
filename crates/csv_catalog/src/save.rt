//! The saving of what has changed.
ghost use Rattle.std.specs.Prelude.{◌≡◌, [], ◌∷◌, Some, true, ◌++◌, IfOk, option_map};
ghost use Rattle.std.specs.Option.{option_copied};
ghost use Rattle.outside.specs.Effects.{Replace};
ghost use Rattle.outside.specs.Performing.{Performs};
ghost use Rattle.schema_model.specs.Catalogue.{relation_of};
ghost use Rattle.schema_model.specs.States.{plain_relation};
ghost use Rattle.std.specs.List.{list_all};
ghost use Rattle.ss_text.specs.Label.{is_table_label};
ghost use Rattle.outside.specs.Tree.{Tree};
ghost use Rattle.csv_catalog.specs.SavedTree.{HoldsSaved};
ghost use Rattle.csv_catalog.specs.Saved.{relation_file, is_there, those_there, those_gone, folders_made, folders_removed, pair_saved, pairs_saved, saved};

use crate::database::database_folder;
use crate::write::relation_text;
use outside::{Edit, Folders, Stop, replace};
use schema_model::{Catalogue, Pair, Relation};
use ss_text::{NoMemory, Text};
use std::alloc::Global;

/// Saves in the folder `sources` what a catalogue has of these databases and relations, in the order in which they are
/// named. The folder of each of these databases that the catalogue has is made where it is missing. Then for each of
/// these relations its file is written, or removed where the catalogue has no such relation. Then the folder of each of
/// these databases that the catalogue has not is removed, where no file and no folder is left in it. It is one call of
/// the store: where it stops, nothing was done; where a write failed, all may be done.
pub fn save_changed<F: Folders>(
    alloc: Global,
    store: &mut F,
    catalogue: &Catalogue,
    databases: &[Text],
    pairs: &[Pair],
) -> Result<(), Stop>
    ensures performs { Performs (Replace (saved catalogue.now.databases databases.now pairs.now) ∷ []) (F.state store.old) (F.state store.new) result }
    ensures holds { IfOk result (λ _. (t u : Tree) → (F.state store.old).tree ≡ Some t → (F.state store.new).tree ≡ Some u → list_all is_table_label databases.now ≡ true
        → HoldsSaved catalogue.now.databases databases.now pairs.now t u) }
{
    save_at_once(alloc, store, catalogue, databases, pairs)?;
    Ok(())
}

// All that is to be done, or nothing.
#[tactic(auto, using(outside::proofs::EffectLemmas::nothing_yet))]
fn save_at_once<F: Folders>(
    alloc: Global,
    store: &mut F,
    catalogue: &Catalogue,
    databases: &[Text],
    pairs: &[Pair],
) -> Result<(), Stop>
    ensures { Performs (Replace (saved catalogue.now.databases databases.now pairs.now) ∷ []) (F.state store.old) (F.state store.new) result }
{
    let edits = edits_of(alloc, catalogue, databases, pairs)?;
    replace(alloc, store, &edits)
}

// What is to be done, in order.
fn edits_of(
    alloc: Global,
    catalogue: &Catalogue,
    databases: &[Text],
    pairs: &[Pair],
) -> Result<Vec<Edit>, NoMemory>
    ensures { IfOk result (λ edits. edits.items ≡ saved catalogue.now.databases databases.now pairs.now) }
{
    let there = those_there(alloc, catalogue, databases)?;
    let gone = those_gone(alloc, catalogue, databases)?;
    let mut edits = folders_made(alloc, &there)?;
    let mut saved = pairs_saved(alloc, catalogue, pairs)?;
    let mut removed = folders_removed(alloc, &gone)?;
    edits.append(&mut saved)?;
    edits.append(&mut removed)?;
    Ok(edits)
}

// Of these databases those that the catalogue has.
fn those_there(
    alloc: Global,
    catalogue: &Catalogue,
    databases: &[Text],
) -> Result<Vec<Text>, NoMemory>
    ensures { IfOk result (λ there. there.items ≡ those_there catalogue.now.databases databases.now) }
{
    let mut there = Vec::new(alloc);
    for db in databases {
        if is_there(catalogue, db) {
            there.push(db.copy()?)?;
        }
    }
    Ok(there)
}

// Of these databases those that the catalogue has not.
fn those_gone(
    alloc: Global,
    catalogue: &Catalogue,
    databases: &[Text],
) -> Result<Vec<Text>, NoMemory>
    ensures { IfOk result (λ gone. gone.items ≡ those_gone catalogue.now.databases databases.now) }
{
    let mut gone = Vec::new(alloc);
    for db in databases {
        if !is_there(catalogue, db) {
            gone.push(db.copy()?)?;
        }
    }
    Ok(gone)
}

fn is_there(catalogue: &Catalogue, db: &Text) -> bool
    ensures { result ≡ is_there catalogue.now.databases db.now }
{
    catalogue.database(db).is_some()
}

// The folders of these databases are made, in order, where they are missing.
fn folders_made(alloc: Global, databases: &[Text]) -> Result<Vec<Edit>, NoMemory>
    ensures { IfOk result (λ edits. edits.items ≡ folders_made databases.now) }
{
    let mut edits = Vec::new(alloc);
    for db in databases {
        let folder = database_folder(alloc, db)?;
        edits.push(Edit::MakeFolder { folder })?;
    }
    Ok(edits)
}

// The folders of these databases are removed, in order, where nothing is left in them.
fn folders_removed(alloc: Global, databases: &[Text]) -> Result<Vec<Edit>, NoMemory>
    ensures { IfOk result (λ edits. edits.items ≡ folders_removed databases.now) }
{
    let mut edits = Vec::new(alloc);
    for db in databases {
        let folder = database_folder(alloc, db)?;
        edits.push(Edit::RemoveFolder { folder })?;
    }
    Ok(edits)
}

// These relations are saved, in order.
fn pairs_saved(alloc: Global, catalogue: &Catalogue, pairs: &[Pair]) -> Result<Vec<Edit>, NoMemory>
    ensures { IfOk result (λ edits. edits.items ≡ pairs_saved catalogue.now.databases pairs.now) }
{
    let mut edits = Vec::new(alloc);
    for pair in pairs {
        let edit = pair_saved(alloc, catalogue, pair)?;
        edits.push(edit)?;
    }
    Ok(edits)
}

// The file of a relation is written, or removed where there is no such relation.
fn pair_saved(alloc: Global, catalogue: &Catalogue, pair: &Pair) -> Result<Edit, NoMemory>
    ensures { IfOk result (λ edit. edit ≡ pair_saved catalogue.now.databases pair.now) }
{
    let folder = database_folder(alloc, &pair.db)?;
    let file = relation_file(alloc, &pair.rel)?;
    let Some(relation) = relation_named(catalogue, pair) else {
        return Ok(Edit::Remove { folder, file });
    };
    let bytes = relation_text(alloc, relation)?;
    Ok(Edit::Write {
        folder,
        file,
        bytes,
    })
}

// The relation of a pair, if the catalogue has it.
fn relation_named<'a>(catalogue: &'a Catalogue, pair: &Pair) -> Option<&'a Relation>
    ensures { option_map plain_relation (option_copied result) ≡ relation_of catalogue.now.databases pair.now.db pair.now.rel }
{
    match catalogue.database(&pair.db) {
        Some(database) => database.relation(&pair.rel),
        None => None,
    }
}

// The name of a relation's file.
fn relation_file(alloc: Global, rel: &Text) -> Result<Text, NoMemory>
    ensures { IfOk result (λ file. file ≡ relation_file rel.now) }
{
    let mut name = Vec::from_slice(alloc, rel.as_slice())?;
    name.extend_from_slice(b".csv")?;
    Text::of_vec(name)
}
