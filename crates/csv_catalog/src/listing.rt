//! The files that hold relations, by their names.
ghost use Rattle.std.specs.Prelude.{◌≡◌, Some, None, true, filter, IfOk, if◌then◌else◌};
ghost use Rattle.ss_text.specs.Label.{is_table_label};
ghost use Rattle.csv_catalog.specs.Loaded.{is_relation_file, label_of};

use ss_text::{NoMemory, Text, table_label_legal};
use std::alloc::Global;
use std::marker::Model;

/// A file of a relation, which contracts see as its name.
#[derive(Debug, Drop)]
pub(crate) struct RelationFile {
    name: Text,
    label: Text,
}

impl Model for RelationFile {
    ghost use Rattle.std.specs.Prelude.{◌≡◌, List, ℕ};

    ghost Value = { List ℕ };

    ghost use Rattle.csv_catalog.specs.Reading.{IsLabelled};

    ghost view = { λ f. f.name };

    ghost invariant = { λ f. IsLabelled f.name f.label };
}

impl RelationFile {
    // The file of this name, where it is a relation's.
    pub(crate) fn of(alloc: Global, name: Text) -> Result<Option<RelationFile>, NoMemory>
        ensures { IfOk result (λ file. file ≡ (if is_relation_file name then Some name else None)) }
    {
        let Some(label) = name.as_slice().strip_suffix(b".csv") else {
            return Ok(None);
        };
        let label = Text::of(alloc, label)?;
        if !table_label_legal(&label) {
            return Ok(None);
        }
        Ok(Some(RelationFile { name, label }))
    }

    pub(crate) fn name(&self) -> &Text
        ensures { result.now ≡ self.now }
    {
        &self.name
    }

    // Its name, and the relation's.
    pub(crate) fn into_names(self) -> (Text, Text)
        ensures name { result.0 ≡ self }
        ensures label { result.1 ≡ label_of self }
        ensures legal { is_table_label result.1 ≡ true }
    {
        (self.name, self.label)
    }
}

// The files of relations among these names, in their order.
pub(crate) fn relation_files(alloc: Global, names: Vec<Text>) -> Result<Vec<RelationFile>, NoMemory>
    ensures { IfOk result (λ files. files.items ≡ filter is_relation_file names.items) }
{
    let mut files = Vec::new(alloc);
    for name in names {
        if let Some(file) = RelationFile::of(alloc, name)? {
            files.push(file)?;
        }
    }
    Ok(files)
}
