//! A relation that was read and is in no catalogue yet.
ghost use Rattle.std.specs.Prelude.{◌≡◌, ◌<◌, ◌≤◌, ◌+◌, true, None, length};
ghost use Rattle.std.specs.List.{list_all};
ghost use Rattle.csv_catalog.specs.FileFaults.{file_fault, header_of, rows_of};
ghost use Rattle.csv_catalog.specs.RecordText.{has_field};
ghost use Rattle.schema_model.specs.Catalogue.{relation_value};
ghost use Rattle.schema_model.specs.Sound.{IsRelation};
ghost use Rattle.schema_model.specs.Limits.{most_rows};

use ss_text::{Row, Text};
use std::marker::Model;

/// A relation that was read, which contracts see as the relation.
#[derive(Debug, Drop)]
pub(crate) struct ReadRelation {
    label: Text,
    attributes: Row,
    rows: Vec<Row>,
}

impl Model for ReadRelation {
    ghost use Rattle.schema_model.specs.Catalogue.{RelationValue, relation_value};

    ghost Value = { RelationValue };

    ghost use Rattle.schema_model.specs.Sound.{IsRelation};

    ghost view = { λ r. relation_value r.label r.attributes r.rows.items };

    ghost invariant = { λ r. IsRelation (relation_value r.label r.attributes r.rows.items) };
}

impl ReadRelation {
    // The relation of the records of a file without a fault, where so many rows were counted before.
    #[tactic(auto, using(crate::proofs::FaultLemmas::sound_relation))]
    pub(crate) fn of(label: Text, mut records: Vec<Row>, count: usize) -> ReadRelation
        requires some { 0 < length records.items }
        requires fields { list_all has_field records.items ≡ true }
        requires few { count ≤ most_rows }
        requires sound { file_fault count records.items ≡ None }
        ensures relation { result ≡ relation_value label (header_of records.items) (rows_of records.items) }
        ensures room { count + length result.rows ≤ most_rows }
    {
        let attributes = records.remove(0);
        ReadRelation {
            label,
            attributes,
            rows: records,
        }
    }

    pub(crate) fn label(&self) -> &Text
        ensures { result.now ≡ self.now.name }
    {
        &self.label
    }

    pub(crate) fn count(&self) -> usize
        ensures { result ≡ length self.now.rows }
    {
        self.rows.len()
    }

    // Its name, attributes and rows.
    pub(crate) fn into_parts(self) -> (Text, Row, Vec<Row>)
        ensures label { result.0 ≡ self.name }
        ensures attributes { result.1 ≡ self.attributes }
        ensures rows { result.2.items ≡ self.rows }
        ensures sound { IsRelation self }
    {
        (self.label, self.attributes, self.rows)
    }
}
