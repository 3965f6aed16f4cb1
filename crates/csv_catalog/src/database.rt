//! The relations of a database.
ghost use Rattle.std.specs.Prelude.{◌≡◌, ◌≤◌, Some, None, true, length, IfOk, IfErr, OnOk, IsErrOf};
ghost use Rattle.outside.specs.Counts.{Rose};
ghost use Rattle.schema_model.specs.Catalogue.{database_value};
ghost use Rattle.csv_catalog.specs.Loaded.{database_folder, database_fault, database_in, is_refusal};
ghost use Rattle.outside.specs.Reading.{OnlyRead};
ghost use Rattle.csv_catalog.specs.Reading.{WhereTold, AreKept};
ghost use Rattle.schema_model.specs.Limits.{most_rows, most_relations};

use crate::LoadFault;
use crate::files::read_relations;
use crate::listing::relation_files;
use crate::relation::ReadRelation;
use outside::{Folders, StoreFault};
use schema_model::{MOST_RELATIONS, Which};
use ss_text::{NoMemory, Text};
use std::alloc::Global;

// Reads the relations of a database, where so many rows were counted before.
#[tactic(auto, using(crate::proofs::DatabaseLemmas::database_wide, crate::proofs::DatabaseLemmas::database_rest, crate::proofs::DatabaseLemmas::database_told))]
pub(crate) fn read_database<F: Folders>(
    alloc: Global,
    store: &mut F,
    db: &Text,
    count: usize,
) -> Result<Vec<ReadRelation>, LoadFault>
    requires few { count ≤ most_rows }
    ensures sound { OnOk result (WhereTold (F.state store.old) (λ t. database_fault t db.now count ≡ None)) }
    ensures told { IfOk result (λ relations. WhereTold (F.state store.old) (λ t. database_value db.now relations.items ≡ database_in t db.now)) }
    ensures refused { IfErr result (λ e. is_refusal e ≡ true → WhereTold (F.state store.old) (λ t. database_fault t db.now count ≡ Some e)) }
    ensures kept { IfOk result (λ relations. AreKept count relations.items most_rows) }
    ensures length { IfOk result (λ relations. length relations.items ≤ most_relations) }
    ensures read_fault { IsErrOf result LoadFault.ReadFault → Rose ((F.state store.old).read_faults) ((F.state store.new).read_faults) }
    ensures store { OnlyRead (F.state store.old) (F.state store.new) }
{
    let folder = database_folder(alloc, db)?;
    let names = match store.files(alloc, &folder) {
        Ok(names) => names,
        Err(StoreFault::Failed) => return Err(LoadFault::ReadFault),
        Err(StoreFault::NoMemory) => return Err(LoadFault::NoMemory),
    };
    let files = relation_files(alloc, names)?;
    if files.len() > MOST_RELATIONS {
        return Err(LoadFault::Limit {
            which: Which::Relations,
        });
    }
    read_relations(alloc, store, db, &folder, files, count)
}

// The folder of a database.
pub(crate) fn database_folder(alloc: Global, db: &Text) -> Result<Text, NoMemory>
    ensures { IfOk result (λ folder. folder ≡ database_folder db.now) }
{
    let mut bytes = Vec::from_slice(alloc, b"sources/")?;
    bytes.extend_from_slice(db.as_slice())?;
    Text::of(alloc, &bytes)
}
