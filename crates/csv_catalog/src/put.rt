//! Puts what was read into a catalogue.
ghost use Rattle.std.specs.Prelude.{◌≡◌, [], ◌∷◌, ◌++◌, OnOk};
ghost use Rattle.ss_text.specs.Places.{at_place};
ghost use Rattle.schema_model.specs.Catalogue.{database_value, with_relation, with_relation_at, with_rows};
ghost use Rattle.schema_model.specs.States.{settled};
ghost use Rattle.csv_catalog.specs.Put.{with_relations, CanTakeRows, CanTakeRelations, CanTakeDatabase};

use crate::relation::ReadRelation;
use schema_model::Catalogue;
use ss_text::{NoMemory, Row, Text};

#[tactic(auto, using(crate::proofs::PutLemmas::relations_then, crate::proofs::PutLemmas::takes_relations))]
// Puts a database with these relations after all others.
pub(crate) fn put_database(
    catalogue: &mut Catalogue,
    name: Text,
    relations: Vec<ReadRelation>,
) -> Result<(), NoMemory>
    requires { CanTakeDatabase catalogue.old.databases name relations.items }
    ensures { OnOk result (catalogue.new ≡ settled (catalogue.old.databases ++ database_value name relations.items ∷ [])) }
{
    let db = catalogue.databases().len();
    catalogue.put_database(name)?;
    put_relations(catalogue, db, relations)
}

// Puts these relations after all others of a database.
fn put_relations(
    catalogue: &mut Catalogue,
    db: usize,
    relations: Vec<ReadRelation>,
) -> Result<(), NoMemory>
    requires settled { catalogue.old ≡ settled catalogue.old.databases }
    requires takes { CanTakeRelations catalogue.old.databases db relations.items }
    ensures { OnOk result (catalogue.new ≡ settled (at_place db (with_relations relations.items) catalogue.old.databases)) }
{
    for relation in relations {
        put_relation(catalogue, db, relation)?;
    }
    Ok(())
}

#[tactic(auto, using(crate::proofs::PutLemmas::rows_then))]
// Puts a relation after all others of a database.
fn put_relation(
    catalogue: &mut Catalogue,
    db: usize,
    relation: ReadRelation,
) -> Result<(), NoMemory>
    requires { CanTakeRelations catalogue.old.databases db (relation ∷ []) }
    ensures { OnOk result (catalogue.new ≡ settled (at_place db (with_relation relation) catalogue.old.databases)) }
{
    let rel = catalogue.databases()[db].relations().len();
    let (label, attributes, rows) = relation.into_parts();
    catalogue.put_relation(db, label, attributes)?;
    put_rows(catalogue, db, rel, rows)
}

// Puts these rows after all others of a relation.
fn put_rows(
    catalogue: &mut Catalogue,
    db: usize,
    rel: usize,
    rows: Vec<Row>,
) -> Result<(), NoMemory>
    requires settled { catalogue.old ≡ settled catalogue.old.databases }
    requires takes { CanTakeRows catalogue.old.databases db rel rows.items }
    ensures { OnOk result (catalogue.new ≡ settled (at_place db (with_relation_at rel (with_rows rows.items)) catalogue.old.databases)) }
{
    for row in rows {
        catalogue.put_row(db, rel, row)?;
    }
    Ok(())
}
