//! The tables that a view folder holds.
ghost use Rattle.std.specs.Prelude.{◌≡◌, ◌≢◌, ◌∷◌, [], Ok, Err, None, Some, true, false, fold, IfOk, IfErr, IfSome, IfNone, OnOk, IsErrOf};
ghost use Rattle.outside.specs.Counts.{Rose};
ghost use Rattle.outside.specs.Reading.{OnlyRead};
ghost use Rattle.csv_catalog.specs.Loaded.{is_relation_file, label_of};
ghost use Rattle.csv_catalog.specs.Reading.{WhereTold};
ghost use Rattle.csv_catalog.specs.Records.{records_of};
ghost use Rattle.view_folder.specs.Files.{view_folder};
ghost use Rattle.view_folder.specs.Records.{table_in, records_fault};
ghost use Rattle.view_folder.specs.Held.{KeysFit, AllKeysFit, files_fault, files_held, held, is_refusal, with_file};

use crate::file::folder_of_view;
use crate::records::table_of;
use csv_catalog::records;
use flow_law::{Shape, Table, Tables};
use outside::{Folders, StoreFault};
use ss_text::{NoMemory, Seed, Text, table_label_legal};
use std::alloc::{AllocFailed, Global};
use std::collections::BTreeMap;

/// Why the files of a folder are not those of a view's tables.
#[derive(Debug, Drop)]
pub enum TablesFault {
    /// A file has no record.
    NoHeader {
        file: Text,
    },
    /// A header gives a name twice. It is that of the first place whose name stands earlier too.
    NameTwice {
        file: Text,
        name: Text,
    },
    /// A record has `got` fields where the header has `want`. Records are counted from 1, the header being 1.
    Ragged {
        file: Text,
        nth: u64,
        want: usize,
        got: usize,
    },
    /// The header is not the constant columns with ascending legal columns at the place of the variable column, or
    /// the keys do not ascend.
    NotThisView {
        file: Text,
    },
    /// A call on the store failed.
    ReadFault,
    NoMemory,
}

impl From<NoMemory> for TablesFault {
    ghost use Rattle.std.specs.Prelude.{◌≡◌};
    ghost use Rattle.view_folder.specs.declared.held.TablesFault.{TablesFault};

    ghost from_gives = { λ _ fault. fault ≡ TablesFault.NoMemory };

    fn from(_: NoMemory) -> Self {
        TablesFault::NoMemory
    }
}

impl From<AllocFailed<(Text, Table)>> for TablesFault {
    ghost use Rattle.std.specs.Prelude.{◌≡◌};
    ghost use Rattle.view_folder.specs.declared.held.TablesFault.{TablesFault};

    ghost from_gives = { λ _ fault. fault ≡ TablesFault.NoMemory };

    fn from(_: AllocFailed<(Text, Table)>) -> Self {
        TablesFault::NoMemory
    }
}

/// Reads the tables that the folder of a view's database holds: the files whose names are a legal table label and then
/// `.csv`, in the order of their names. Other names are passed over, and so is a file that is gone when it is read.
/// Answers the first refusal: for each file in turn, whether it has a record, whether its header names one twice, the
/// first record of another length, and whether it is a table of a view of this form. `ReadFault` comes only where a
/// call on the store failed. The store is only read.
#[tactic(auto, unfolding(crate::specs::Held::held))]
pub fn read_tables<F: Folders>(
    alloc: Global,
    store: &mut F,
    view_db: &Text,
    shape: &Shape,
) -> Result<Tables, TablesFault>
    ensures held { IfOk result (λ tables. WhereTold (F.state store.old) (λ t. held shape.now t (view_folder view_db.now) ≡ Ok tables)) }
    ensures keys { IfOk result (λ tables. AllKeysFit shape.now tables) }
    ensures refused { IfErr result (λ e. is_refusal e ≡ true → WhereTold (F.state store.old) (λ t. held shape.now t (view_folder view_db.now) ≡ Err e)) }
    ensures read_fault { IsErrOf result TablesFault.ReadFault → Rose ((F.state store.old).read_faults) ((F.state store.new).read_faults) }
    ensures store { OnlyRead (F.state store.old) (F.state store.new) }
{
    let folder = folder_of_view(alloc, view_db)?;
    let names = match store.files(alloc, &folder) {
        Ok(names) => names,
        Err(StoreFault::Failed) => return Err(TablesFault::ReadFault),
        Err(StoreFault::NoMemory) => return Err(TablesFault::NoMemory),
    };
    let tables = read_files(alloc, store, shape, &folder, names)?;
    let tables = all_tables(alloc, tables)?;
    Ok(tables)
}

// Reads the tables of these files of a folder, in their order.
fn read_files<F: Folders>(
    alloc: Global,
    store: &mut F,
    shape: &Shape,
    folder: &Text,
    names: Vec<Text>,
) -> Result<BTreeMap<Text, Table>, TablesFault>
    ensures sound { OnOk result (WhereTold (F.state store.old) (λ t. files_fault shape.now (files_held t folder.now names.items) ≡ None)) }
    ensures told { IfOk result (λ tables. WhereTold (F.state store.old) (λ t. tables.entries ≡ fold (with_file shape.now) [] (files_held t folder.now names.items))) }
    ensures keys { IfOk result (λ tables. AllKeysFit shape.now tables.entries) }
    ensures refused { IfErr result (λ e. is_refusal e ≡ true → WhereTold (F.state store.old) (λ t. files_fault shape.now (files_held t folder.now names.items) ≡ Some e)) }
    ensures read_fault { IsErrOf result TablesFault.ReadFault → Rose ((F.state store.old).read_faults) ((F.state store.new).read_faults) }
    ensures store { OnlyRead (F.state store.old) (F.state store.new) }
{
    let mut tables = BTreeMap::new(alloc);
    for name in names {
        match read_one_more(alloc, store, shape, folder, name, &mut tables) {
            Ok(()) => (),
            Err(fault) => return Err(fault),
        }
    }
    Ok(tables)
}

// Reads the table of one more file, where it is a table's and is there.
#[tactic(auto, using(crate::proofs::HeldLemmas::other_sound, crate::proofs::HeldLemmas::other_tables, crate::proofs::HeldLemmas::missing_sound, crate::proofs::HeldLemmas::missing_tables, crate::proofs::HeldLemmas::sound_file, crate::proofs::HeldLemmas::file_tables, crate::proofs::HeldLemmas::refused_file, crate::proofs::HeldLemmas::keys_fit_with))]
fn read_one_more<F: Folders>(
    alloc: Global,
    store: &mut F,
    shape: &Shape,
    folder: &Text,
    name: Text,
    tables: &mut BTreeMap<Text, Table>,
) -> Result<(), TablesFault>
    ensures sound { OnOk result (WhereTold (F.state store.old) (λ t. files_fault shape.now (files_held t folder.now (name ∷ [])) ≡ None)) }
    ensures told { OnOk result (WhereTold (F.state store.old) (λ t. tables.new.entries ≡ fold (with_file shape.now) tables.old.entries (files_held t folder.now (name ∷ [])))) }
    ensures keys { OnOk result (AllKeysFit shape.now tables.old.entries → AllKeysFit shape.now tables.new.entries) }
    ensures refused { IfErr result (λ e. is_refusal e ≡ true → WhereTold (F.state store.old) (λ t. files_fault shape.now (files_held t folder.now (name ∷ [])) ≡ Some e)) }
    ensures read_fault { IsErrOf result TablesFault.ReadFault → Rose ((F.state store.old).read_faults) ((F.state store.new).read_faults) }
    ensures store { OnlyRead (F.state store.old) (F.state store.new) }
{
    let Some(label) = table_label(alloc, &name)? else {
        return Ok(());
    };
    let bytes = match store.read(alloc, folder, &name) {
        Ok(Some(bytes)) => bytes,
        Ok(None) => return Ok(()),
        Err(StoreFault::Failed) => return Err(TablesFault::ReadFault),
        Err(StoreFault::NoMemory) => return Err(TablesFault::NoMemory),
    };
    match table_of_bytes(alloc, store.seed(), shape, name, bytes.as_slice()) {
        Ok(table) => {
            tables.insert(label, table)?;
            Ok(())
        }
        Err(fault) => Err(fault),
    }
}

// The table of a file with these bytes.
fn table_of_bytes(
    alloc: Global,
    seed: Seed,
    shape: &Shape,
    name: Text,
    bytes: &[u8],
) -> Result<Table, TablesFault>
    ensures sound { OnOk result (records_fault shape.now name (records_of bytes.now) ≡ None) }
    ensures table { IfOk result (λ table. table ≡ table_in shape.now (records_of bytes.now)) }
    ensures keys { IfOk result (λ table. KeysFit shape.now table) }
    ensures refused { IfErr result (λ e. is_refusal e ≡ true → records_fault shape.now name (records_of bytes.now) ≡ Some e) }
    ensures no_read { IfErr result (λ e. e ≢ TablesFault.ReadFault) }
{
    let records = records(alloc, bytes)?;
    table_of(alloc, seed, shape, name, &records)
}

// The label of a table's file, where the name is that of one.
fn table_label(alloc: Global, name: &Text) -> Result<Option<Text>, NoMemory>
    ensures label { IfOk result (λ label. IfSome label (λ l. (l ≡ label_of name.now) × (is_relation_file name.now ≡ true))) }
    ensures none { IfOk result (λ label. IfNone label (is_relation_file name.now ≡ false)) }
{
    let Some(label) = name.as_slice().strip_suffix(b".csv") else {
        return Ok(None);
    };
    let label = Text::of(alloc, label)?;
    if !table_label_legal(&label) {
        return Ok(None);
    }
    Ok(Some(label))
}

// Tables by their labels, as tables.
fn all_tables(alloc: Global, tables: BTreeMap<Text, Table>) -> Result<Tables, NoMemory>
    ensures { IfOk result (λ all. all ≡ tables.entries) }
{
    let mut all = Tables::new(alloc);
    for (label, table) in tables {
        all.put_table(label, table)?;
    }
    Ok(all)
}
