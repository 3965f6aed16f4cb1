//! The catalogue of a store.
ghost use Rattle.std.specs.Prelude.{◌≡◌, ◌≢◌, ◌<◌, ◌≤◌, [], ◌∷◌, ◌++◌, Some, None, Ok, Err, true, false, length, filter, IfOk, IfErr, OnOk, IsErrOf};
ghost use Rattle.ss_text.specs.Label.{is_table_label};
ghost use Rattle.outside.specs.Counts.{Rose};
ghost use Rattle.schema_model.specs.Catalogue.{database_names, row_count};
ghost use Rattle.schema_model.specs.Sound.{AreNames};
ghost use Rattle.schema_model.specs.States.{settled};
ghost use Rattle.csv_catalog.specs.Loaded.{loaded, databases_in, database_in, database_fault, is_refusal};
ghost use Rattle.outside.specs.Reading.{OnlyRead};
ghost use Rattle.csv_catalog.specs.Reading.{WhereTold};
ghost use Rattle.schema_model.specs.Limits.{most_rows, most_databases};

use crate::LoadFault;
use crate::database::read_database;
use crate::put::put_database;
use outside::{Folders, StoreFault};
use schema_model::{Catalogue, MOST_DATABASES, Which};
use ss_text::{Text, table_label_legal};
use std::alloc::Global;

/// Reads the catalogue of the folder `sources`: its databases are the folders in it whose names are legal table
/// labels, and their relations the files whose names are a legal table label and then `.csv`. Other names are
/// passed over, and so is a file that is gone when it is read. A missing folder is empty.
///
/// It judges in this order, and answers the first refusal: how many databases there are; then for each database,
/// ascending, how many relations; then for each file, ascending by its name, whether it has a record, how many
/// attributes, and whether one is named twice; then for each record in order its number of fields, and whether
/// there are too many rows in all. `ReadFault` comes only where a call on the store failed. The store is only read. The
/// catalogue carries the store's seed.
pub fn load<F: Folders>(alloc: Global, store: &mut F) -> Result<Catalogue, LoadFault>
    ensures loaded { IfOk result (λ catalogue. WhereTold (F.state store.old) (λ t. loaded t ≡ Ok catalogue.databases)) }
    ensures settled { IfOk result (λ catalogue. catalogue ≡ settled catalogue.databases) }
    ensures refused { IfErr result (λ e. is_refusal e ≡ true → WhereTold (F.state store.old) (λ t. loaded t ≡ Err e)) }
    ensures read_fault { IsErrOf result LoadFault.ReadFault → Rose ((F.state store.old).read_faults) ((F.state store.new).read_faults) }
    ensures store { OnlyRead (F.state store.old) (F.state store.new) }
{
    let names = database_names(alloc, store)?;
    if names.len() > MOST_DATABASES {
        return Err(LoadFault::Limit {
            which: Which::Databases,
        });
    }
    let mut catalogue = Catalogue::seeded(alloc, store.seed());
    for db in names {
        match load_database(alloc, store, &mut catalogue, db) {
            Ok(()) => (),
            Err(fault) => return Err(fault),
        }
    }
    Ok(catalogue)
}

// The names of the databases, ascending.
#[tactic(auto, using(crate::proofs::LoadLemmas::names_legal))]
fn database_names<F: Folders>(alloc: Global, store: &mut F) -> Result<Vec<Text>, LoadFault>
    ensures told { IfOk result (λ names. WhereTold (F.state store.old) (λ t. names.items ≡ databases_in t)) }
    ensures names { IfOk result (λ names. AreNames names.items) }
    ensures no_refusal { IfErr result (λ e. is_refusal e ≡ false) }
    ensures read_fault { IsErrOf result LoadFault.ReadFault → Rose ((F.state store.old).read_faults) ((F.state store.new).read_faults) }
    ensures store { OnlyRead (F.state store.old) (F.state store.new) }
{
    let sources = Text::of(alloc, b"sources")?;
    match store.subfolders(alloc, &sources) {
        Ok(names) => Ok(legal_names(names)),
        Err(StoreFault::Failed) => Err(LoadFault::ReadFault),
        Err(StoreFault::NoMemory) => Err(LoadFault::NoMemory),
    }
}

// Those that are legal table labels.
fn legal_names(mut names: Vec<Text>) -> Vec<Text>
    ensures { result.items ≡ filter is_table_label names.items }
{
    names.retain(|name| table_label_legal(name));
    names
}

// Reads a database, and puts it after all others.
fn load_database<F: Folders>(
    alloc: Global,
    store: &mut F,
    catalogue: &mut Catalogue,
    db: Text,
) -> Result<(), LoadFault>
    requires names { AreNames (database_names catalogue.old.databases ++ db ∷ []) }
    requires place { length catalogue.old.databases < most_databases }
    requires few { row_count catalogue.old.databases ≤ most_rows }
    ensures sound { OnOk result (WhereTold (F.state store.old) (λ t. database_fault t db (row_count catalogue.old.databases) ≡ None)) }
    ensures told { OnOk result (WhereTold (F.state store.old) (λ t. catalogue.new.databases ≡ catalogue.old.databases ++ database_in t db ∷ [])) }
    ensures refused { IfErr result (λ e. is_refusal e ≡ true → WhereTold (F.state store.old) (λ t. database_fault t db (row_count catalogue.old.databases) ≡ Some e)) }
    ensures names { OnOk result (database_names catalogue.new.databases ≡ database_names catalogue.old.databases ++ db ∷ []) }
    ensures few { OnOk result (row_count catalogue.new.databases ≤ most_rows) }
    ensures settled { OnOk result (catalogue.new ≡ settled catalogue.new.databases) }
    ensures read_fault { IsErrOf result LoadFault.ReadFault → Rose ((F.state store.old).read_faults) ((F.state store.new).read_faults) }
    ensures store { OnlyRead (F.state store.old) (F.state store.new) }
{
    let relations = read_database(alloc, store, &db, catalogue.row_count())?;
    put_database(catalogue, db, relations)?;
    Ok(())
}
