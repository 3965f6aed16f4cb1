//! The folders of levels.
ghost use Rattle.std.specs.Prelude.{◌≡◌, ◌++◌, ◌∷◌, [], map, length, Some, None, IfOk, OnOk, if◌then◌else◌};
ghost use Rattle.outside.specs.Reading.{OnlyRead};
ghost use Rattle.outside.specs.Tree.{Tree};
ghost use Rattle.outside.specs.Effects.{Does, world_of};
ghost use Rattle.outside.specs.Blame.{StoreBlames};
ghost use Rattle.outside.specs.Performing.{Performs};
ghost use Rattle.view_folder.specs.Files.{is_csv_name};
ghost use Rattle.view_folder.specs.Sync.{has_table};
ghost use Rattle.stack_levels.specs.States.{level_value, level_tables};
ghost use Rattle.stack_answers.specs.Answers.{folder_effects, sync_count};
ghost use Rattle.stack_answers.specs.Folders.{label_in, is_other, opening_labels, labels_at, planned_in, ArePlanned, folder_synced, folders_synced, label_count};

use kept_tables::KeptTables;
use outside::{Folders, Stop, list_files};
use ss_text::{NoMemory, Text};
use stack_levels::Level;
use std::alloc::Global;
use view_folder::{folder_of_view, sync};

/// What the opening of a level does in its folder: the labels whose files it writes or removes.
#[derive(Drop)]
pub(crate) struct Plan {
    labels: Vec<Text>,
}

/// What the opening of each of these levels does in its folder. The folders are only read.
#[tactic(auto, using(outside::proofs::Following::following))]
pub(crate) fn plan_folders<F: Folders>(
    alloc: Global,
    store: &mut F,
    levels: &[Level],
) -> Result<Vec<Plan>, Stop>
    ensures planned { IfOk result (λ plans. ArePlanned (F.state store.old).tree levels.now [] plans.items) }
    ensures does { (o : _) → Does [] (world_of (F.state store.old) o) (world_of (F.state store.new) o) result }
    ensures only_read { OnlyRead (F.state store.old) (F.state store.new) }
    ensures blames { StoreBlames (F.state store.old) (F.state store.new) result }
{
    let mut plans = Vec::new(alloc);
    match plan_each(alloc, store, levels, &mut plans) {
        Ok(()) => Ok(plans),
        Err(stop) => {
            drop(plans);
            Err(stop)
        }
    }
}

// Puts a plan for each of these levels last.
#[tactic(auto, using(outside::proofs::Following::following))]
fn plan_each<F: Folders>(
    alloc: Global,
    store: &mut F,
    levels: &[Level],
    plans: &mut Vec<Plan>,
) -> Result<(), Stop>
    ensures planned { OnOk result (ArePlanned (F.state store.old).tree levels.now plans.old.items plans.new.items) }
    ensures does { (o : _) → Does [] (world_of (F.state store.old) o) (world_of (F.state store.new) o) result }
    ensures only_read { OnlyRead (F.state store.old) (F.state store.new) }
    ensures blames { StoreBlames (F.state store.old) (F.state store.new) result }
{
    let Some((level, above)) = levels.split_first() else {
        return Ok(());
    };
    let plan = plan_folder(alloc, store, level)?;
    plans.push(plan)?;
    plan_each(alloc, store, above, plans)?;
    Ok(())
}

// What the opening of a level does in its folder.
#[tactic(auto, using(outside::proofs::Following::following))]
fn plan_folder<F: Folders>(alloc: Global, store: &mut F, level: &Level) -> Result<Plan, Stop>
    ensures told { IfOk result (λ plan. (t : Tree) → (F.state store.old).tree ≡ Some t → plan.labels.items ≡ labels_at t level.now) }
    ensures does { (o : _) → Does [] (world_of (F.state store.old) o) (world_of (F.state store.new) o) result }
    ensures only_read { OnlyRead (F.state store.old) (F.state store.new) }
    ensures blames { StoreBlames (F.state store.old) (F.state store.new) result }
{
    let folder = folder_of_view(alloc, level.view_db())?;
    let names = list_files(alloc, store, &folder)?;
    let labels = opening_labels(alloc, level.session().tables(), &names)?;
    Ok(Plan { labels })
}

// The labels of tables, and then those of the other names that end in `.csv`.
#[tactic(auto, using(crate::proofs::FolderLemmas::other_more))]
fn opening_labels(alloc: Global, tables: &KeptTables, names: &[Text]) -> Result<Vec<Text>, NoMemory>
    ensures { IfOk result (λ labels. labels.items ≡ opening_labels tables.now.tables names.now) }
{
    let mut labels = tables.labels(alloc)?;
    for name in names {
        push_other(alloc, tables, &mut labels, name)?;
    }
    Ok(labels)
}

// Puts the label of a name last that ends in `.csv` and is no table's file.
fn push_other(
    alloc: Global,
    tables: &KeptTables,
    labels: &mut Vec<Text>,
    name: &Text,
) -> Result<(), NoMemory>
    ensures { OnOk result (labels.new.items ≡ labels.old.items ++ (if is_other tables.now.tables name.now then label_in name.now ∷ [] else [])) }
{
    let Some(label) = label_in(alloc, name)? else {
        return Ok(());
    };
    if !has_table(tables, &label) {
        labels.push(label)?;
    }
    Ok(())
}

// Whether a label has a table.
#[tactic(auto, using(view_folder::proofs::LaterLemmas::mapped_there))]
fn has_table(tables: &KeptTables, label: &Text) -> bool
    ensures { result ≡ has_table tables.now.tables label.now }
{
    tables.table_of(label).is_some()
}

// The label whose file has this name, if it ends in `.csv`.
fn label_in(alloc: Global, name: &Text) -> Result<Option<Text>, NoMemory>
    ensures { IfOk result (λ label. label ≡ (if is_csv_name name.now then Some (label_in name.now) else None)) }
{
    match name.as_slice().strip_suffix(b".csv".as_slice()) {
        Some(label) => {
            let label = Text::of(alloc, label)?;
            Ok(Some(label))
        }
        None => Ok(None),
    }
}

/// Syncs the files that were planned for each level in its folder, one level behind the other, and answers how many they
/// are.
pub(crate) fn write_tables<F: Folders>(
    alloc: Global,
    store: &mut F,
    levels: &[Level],
    plans: &[Plan],
) -> Result<usize, Stop>
    requires { length plans.now ≡ length levels.now }
    ensures performs { Performs (folders_synced levels.now (planned_in plans.now)) (F.state store.old) (F.state store.new) result }
    ensures count { IfOk result (λ count. count ≡ label_count (planned_in plans.now)) }
{
    let Some((level, above)) = levels.split_first() else {
        return Ok(0);
    };
    let Some((plan, plans_above)) = plans.split_first() else {
        return Ok(0);
    };
    sync_folder(alloc, store, level, &plan.labels)?;
    let count = write_tables(alloc, store, above, plans_above)?;
    // More files than can be counted are no memory.
    match count.checked_add(plan.labels.len()) {
        Some(count) => Ok(count),
        None => Err(Stop::NoMemory),
    }
}

// Syncs the files of these labels in the folder of a level.
#[tactic(auto, using(crate::proofs::PerformingLemmas::performs_done, crate::proofs::PerformingLemmas::performs_stopped, view_stages::proofs::StageLemmas::meaning_fits))]
fn sync_folder<F: Folders>(
    alloc: Global,
    store: &mut F,
    level: &Level,
    labels: &[Text],
) -> Result<(), Stop>
    ensures { Performs (folder_synced level.now labels.now) (F.state store.old) (F.state store.new) result }
{
    let session = level.session();
    match sync(
        alloc,
        store,
        level.view_db(),
        session.shape(),
        session.tables(),
        labels,
    ) {
        Ok(_count) => Ok(()),
        Err(stop) => Err(stop),
    }
}

/// Syncs the files of the labels that were named in the folder of each level, one level behind the other.
pub(crate) fn sync_folders<F: Folders>(
    alloc: Global,
    store: &mut F,
    levels: &[Level],
) -> Result<(), Stop>
    ensures { Performs (folder_effects (map level_value levels.now) (map level_tables levels.now)) (F.state store.old) (F.state store.new) result }
{
    let Some((level, above)) = levels.split_first() else {
        return Ok(());
    };
    sync_changed(alloc, store, level)?;
    sync_folders(alloc, store, above)
}

// Syncs the files of the labels that were named in the folder of a level.
fn sync_changed<F: Folders>(alloc: Global, store: &mut F, level: &Level) -> Result<(), Stop>
    ensures { Performs (folder_synced level.now level.now.session.changed.labels) (F.state store.old) (F.state store.new) result }
{
    sync_folder(alloc, store, level, level.session().changed_labels())
}

/// How many files a sync of these levels writes or removes.
pub(crate) fn file_count(levels: &[Level]) -> Result<usize, NoMemory>
    ensures { IfOk result (λ count. count ≡ sync_count (map level_value levels.now) (map level_tables levels.now)) }
{
    let Some((level, above)) = levels.split_first() else {
        return Ok(0);
    };
    // More files than can be counted are no memory.
    match file_count(above)?.checked_add(level.file_count()) {
        Some(count) => Ok(count),
        None => Err(NoMemory),
    }
}
