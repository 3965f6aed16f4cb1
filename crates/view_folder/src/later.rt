//! The later sync.
ghost use Rattle.std.specs.Prelude.{◌≡◌, [], ◌∷◌, ◌++◌, not, map, filter, Some, IfOk, if◌then◌else◌};
ghost use Rattle.std.specs.List.Sorted.{IsStrictlySortedBy};
ghost use Rattle.ss_text.specs.Texts.{text_cmp};
ghost use Rattle.outside.specs.Counts.{risen};
ghost use Rattle.outside.specs.Tree.{Tree};
ghost use Rattle.outside.specs.Effects.{Replace};
ghost use Rattle.outside.specs.Performing.{Performs};
ghost use Rattle.view_folder.specs.Files.{view_folder, Apart};
ghost use Rattle.view_folder.specs.TableFiles.{FitShape};
ghost use Rattle.view_folder.specs.Sync.{has_table, tables_first, label_synced, later_sync, label_edit, later_edits, is_counted, later_count, HoldsNamed};

use crate::TableTexts;
use crate::file::{file_name, folder_of_view};
use flow_law::Shape;
use outside::{Edit, Folders, Stop, remove_file, replace, write_file};
use ss_text::{NoMemory, Text};
use std::alloc::Global;

/// Syncs the files of these labels in the folder of a view's database: a label's file gets the text of its table, or is
/// removed where the label has no table. All that is written comes before all that is removed. Answers how many files
/// were written, or were there and removed.
#[tactic(auto, using(outside::proofs::EffectLemmas::nothing_yet))]
pub fn sync<F: Folders, T: TableTexts>(
    alloc: Global,
    store: &mut F,
    view_db: &Text,
    shape: &Shape,
    tables: &T,
    labels: &[Text],
) -> Result<usize, Stop>
    requires { FitShape shape.now (T.tables tables.now) }
    ensures performs { Performs (later_sync (view_folder view_db.now) shape.now (T.tables tables.now) labels.now) (F.state store.old) (F.state store.new) result }
    ensures holds { IfOk result (λ _. (t u : Tree) → (F.state store.old).tree ≡ Some t → (F.state store.new).tree ≡ Some u
        → HoldsNamed (view_folder view_db.now) shape.now (T.tables tables.now) labels.now t u) }
    ensures writes { IfOk result (λ n. (F.state store.new).writes ≡ risen ((F.state store.old).writes) n) }
    ensures count { IfOk result (λ n. (t : Tree) → (F.state store.old).tree ≡ Some t → IsStrictlySortedBy text_cmp labels.now
        → n ≡ later_count (view_folder view_db.now) (T.tables tables.now) labels.now t) }
{
    let folder = folder_of_view(alloc, view_db)?;
    let ordered = tables_first(alloc, tables, labels)?;
    sync_labels(alloc, store, &folder, shape, tables, &ordered)
}

/// Syncs the files of these labels as `sync` does, but all at once: where it stops, nothing was done; where a write
/// failed, all may be done.
#[tactic(auto, using(outside::proofs::EffectLemmas::nothing_yet))]
pub fn sync_at_once<F: Folders, T: TableTexts>(
    alloc: Global,
    store: &mut F,
    view_db: &Text,
    shape: &Shape,
    tables: &T,
    labels: &[Text],
) -> Result<(), Stop>
    requires { FitShape shape.now (T.tables tables.now) }
    ensures { Performs (Replace (later_edits (view_folder view_db.now) shape.now (T.tables tables.now) labels.now) ∷ []) (F.state store.old) (F.state store.new) result }
{
    let edits = edits_of(alloc, view_db, shape, tables, labels)?;
    replace(alloc, store, &edits)
}

// What is to be done for these labels.
fn edits_of<T: TableTexts>(
    alloc: Global,
    view_db: &Text,
    shape: &Shape,
    tables: &T,
    labels: &[Text],
) -> Result<Vec<Edit>, NoMemory>
    requires { FitShape shape.now (T.tables tables.now) }
    ensures { IfOk result (λ edits. edits.items ≡ later_edits (view_folder view_db.now) shape.now (T.tables tables.now) labels.now) }
{
    let folder = folder_of_view(alloc, view_db)?;
    let ordered = tables_first(alloc, tables, labels)?;
    label_edits(alloc, &folder, shape, tables, &ordered)
}

// What is to be done for these labels in a folder, in order.
fn label_edits<T: TableTexts>(
    alloc: Global,
    folder: &Text,
    shape: &Shape,
    tables: &T,
    labels: &[Text],
) -> Result<Vec<Edit>, NoMemory>
    requires { FitShape shape.now (T.tables tables.now) }
    ensures { IfOk result (λ edits. edits.items ≡ map (label_edit folder.now shape.now (T.tables tables.now)) labels.now) }
{
    let mut edits = Vec::new(alloc);
    for label in labels {
        let edit = label_edit(alloc, folder, shape, tables, label)?;
        edits.push(edit)?;
    }
    Ok(edits)
}

// A label's file gets the text of its table, or is removed where the label has no table.
#[tactic(auto, using(crate::proofs::LaterLemmas::edited_write, crate::proofs::LaterLemmas::edited_remove))]
fn label_edit<T: TableTexts>(
    alloc: Global,
    folder: &Text,
    shape: &Shape,
    tables: &T,
    label: &Text,
) -> Result<Edit, NoMemory>
    requires { FitShape shape.now (T.tables tables.now) }
    ensures { IfOk result (λ edit. edit ≡ label_edit folder.now shape.now (T.tables tables.now) label.now) }
{
    let folder = folder.copy()?;
    let file = file_name(alloc, label)?;
    match tables.text_of(alloc, shape, label)? {
        Some(bytes) => Ok(Edit::Write {
            folder,
            file,
            bytes,
        }),
        None => Ok(Edit::Remove { folder, file }),
    }
}

// Of these labels first those that have a table, and then those that have none.
fn tables_first<T: TableTexts>(
    alloc: Global,
    tables: &T,
    labels: &[Text],
) -> Result<Vec<Text>, NoMemory>
    ensures { IfOk result (λ ordered. ordered.items ≡ tables_first (T.tables tables.now) labels.now) }
{
    let mut ordered = those_there(alloc, tables, labels)?;
    let mut gone = those_gone(alloc, tables, labels)?;
    ordered.append(&mut gone)?;
    Ok(ordered)
}

// Of these labels those that have a table.
fn those_there<T: TableTexts>(
    alloc: Global,
    tables: &T,
    labels: &[Text],
) -> Result<Vec<Text>, NoMemory>
    ensures { IfOk result (λ there. there.items ≡ filter (has_table (T.tables tables.now)) labels.now) }
{
    let mut there = Vec::new(alloc);
    for label in labels {
        if tables.has_table(alloc, label)? {
            there.push(label.copy()?)?;
        }
    }
    Ok(there)
}

// Of these labels those that have no table.
fn those_gone<T: TableTexts>(
    alloc: Global,
    tables: &T,
    labels: &[Text],
) -> Result<Vec<Text>, NoMemory>
    ensures { IfOk result (λ gone. gone.items ≡ filter (λ label. not (has_table (T.tables tables.now) label)) labels.now) }
{
    let mut gone = Vec::new(alloc);
    for label in labels {
        if !tables.has_table(alloc, label)? {
            gone.push(label.copy()?)?;
        }
    }
    Ok(gone)
}

// Syncs the files of these labels in a folder, in order.
#[tactic(auto, using(outside::proofs::EffectLemmas::each_stops, outside::proofs::EffectLemmas::each_ends, outside::proofs::EffectLemmas::doing_all))]
fn sync_labels<F: Folders, T: TableTexts>(
    alloc: Global,
    store: &mut F,
    folder: &Text,
    shape: &Shape,
    tables: &T,
    labels: &[Text],
) -> Result<usize, Stop>
    requires { FitShape shape.now (T.tables tables.now) }
    ensures performs { Performs (map (label_synced folder.now shape.now (T.tables tables.now)) labels.now) (F.state store.old) (F.state store.new) result }
    ensures writes { IfOk result (λ n. (F.state store.new).writes ≡ risen ((F.state store.old).writes) n) }
    ensures count { IfOk result (λ n. (t : Tree) → (F.state store.old).tree ≡ Some t → Apart labels.now → n ≡ later_count folder.now (T.tables tables.now) labels.now t) }
{
    let mut count = 0;
    for label in labels {
        count += usize::from(sync_label(alloc, store, folder, shape, tables, label)?);
    }
    Ok(count)
}

// Syncs the file of a label, and answers whether it was written, or was there and removed.
#[tactic(auto, using(outside::proofs::EffectLemmas::none_off, outside::proofs::EffectLemmas::nothing_yet, crate::proofs::LaterLemmas::synced_write, crate::proofs::LaterLemmas::synced_remove))]
fn sync_label<F: Folders, T: TableTexts>(
    alloc: Global,
    store: &mut F,
    folder: &Text,
    shape: &Shape,
    tables: &T,
    label: &Text,
) -> Result<bool, Stop>
    requires { FitShape shape.now (T.tables tables.now) }
    ensures performs { Performs (label_synced folder.now shape.now (T.tables tables.now) label.now ∷ []) (F.state store.old) (F.state store.new) result }
    ensures was { IfOk result (λ was. (t : Tree) → (F.state store.old).tree ≡ Some t → was ≡ is_counted folder.now (T.tables tables.now) t label.now) }
    ensures counted { IfOk result (λ was. (F.state store.new).writes ≡ (if was then risen ((F.state store.old).writes) 1 else (F.state store.old).writes)) }
{
    let file = file_name(alloc, label)?;
    let Some(text) = tables.text_of(alloc, shape, label)? else {
        return remove_file(alloc, store, folder, &file);
    };
    write_file(alloc, store, folder, &file, text.as_slice())?;
    Ok(true)
}
