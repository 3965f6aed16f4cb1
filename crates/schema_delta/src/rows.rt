//! The flat rows of a declaration over a whole catalogue.
ghost use Rattle.std.specs.Prelude.{◌≡◌, ◌++◌, [], IfOk, OnOk, map};
ghost use Rattle.std.specs.List.{flat_map};
ghost use Rattle.schema_model.specs.Catalogue.{database_value};
ghost use Rattle.schema_model.specs.States.{plain_relation, plain_database};
ghost use Rattle.schema_delta.specs.Flat.{flat, whole, part, own};

use crate::FlatSpec;
use crate::inside::one;
use crate::part::{goes_over, push_part};
use schema_model::{Catalogue, Database, Relation};
use ss_text::{NoMemory, Row, Text};
use std::alloc::Global;
use view_def::Range;

/// What a declaration contributes, in the order of the catalogue.
pub fn flat_rows(
    alloc: Global,
    catalogue: &Catalogue,
    spec: &FlatSpec,
) -> Result<Vec<Row>, NoMemory>
    ensures { IfOk result (λ rows. rows.items ≡ flat catalogue.now.databases spec.now) }
{
    let mut rows = Vec::new(alloc);
    for database in catalogue.databases() {
        push_database(alloc, &mut rows, database, database.name(), spec)?;
    }
    Ok(rows)
}

/// What a database contributes under this name.
pub(crate) fn database_rows(
    alloc: Global,
    database: &Database,
    name: &Text,
    spec: &FlatSpec,
) -> Result<Vec<Row>, NoMemory>
    ensures { IfOk result (λ rows. rows.items ≡ whole spec.now (database_value name.now (plain_database database.now).relations)) }
{
    let mut rows = Vec::new(alloc);
    push_database(alloc, &mut rows, database, name, spec)?;
    Ok(rows)
}

/// What a database without relations contributes under this name.
pub(crate) fn own_rows(alloc: Global, name: &Text, spec: &FlatSpec) -> Result<Vec<Row>, NoMemory>
    ensures { IfOk result (λ rows. rows.items ≡ whole spec.now (database_value name.now [])) }
{
    let mut rows = Vec::new(alloc);
    push_own(alloc, &mut rows, &spec.range, name)?;
    Ok(rows)
}

// Adds what a relation contributes under this name. Its rows are walked where the declaration goes through them, and only
// there.
fn push_relation(
    alloc: Global,
    rows: &mut Vec<Row>,
    db: &Text,
    relation: &Relation,
    name: &Text,
    spec: &FlatSpec,
) -> Result<(), NoMemory>
    ensures { OnOk result (rows.new.items ≡ rows.old.items ++ part spec.now db.now (record (plain_relation relation.now) { name = name.now })) }
{
    if !goes_over(&spec.range, db, name) {
        return Ok(());
    }
    let attributes = relation.attributes();
    match &spec.range {
        Range::Tuples(..) | Range::Values(..) => {
            let kept = relation.rows(alloc)?;
            push_part(alloc, rows, spec, db, name, attributes, &kept)
        }
        Range::Databases | Range::Relations(..) | Range::Attributes(..) | Range::Alias(..) => {
            push_part(alloc, rows, spec, db, name, attributes, &[])
        }
    }
}

/// What a relation contributes under this name.
pub(crate) fn relation_rows(
    alloc: Global,
    db: &Text,
    relation: &Relation,
    name: &Text,
    spec: &FlatSpec,
) -> Result<Vec<Row>, NoMemory>
    ensures { IfOk result (λ rows. rows.items ≡ part spec.now db.now (record (plain_relation relation.now) { name = name.now })) }
{
    let mut rows = Vec::new(alloc);
    push_relation(alloc, &mut rows, db, relation, name, spec)?;
    Ok(rows)
}

fn push_database(
    alloc: Global,
    rows: &mut Vec<Row>,
    database: &Database,
    name: &Text,
    spec: &FlatSpec,
) -> Result<(), NoMemory>
    ensures { OnOk result (rows.new.items ≡ rows.old.items ++ whole spec.now (database_value name.now (plain_database database.now).relations)) }
{
    push_own(alloc, rows, &spec.range, name)?;
    push_parts(alloc, rows, database, name, spec)?;
    Ok(())
}

fn push_own(alloc: Global, rows: &mut Vec<Row>, range: &Range, db: &Text) -> Result<(), NoMemory>
    ensures { OnOk result (rows.new.items ≡ rows.old.items ++ own range.now db.now) }
{
    if let Range::Databases = range {
        rows.push(one(alloc, db)?)?;
    }
    Ok(())
}

fn push_parts(
    alloc: Global,
    rows: &mut Vec<Row>,
    database: &Database,
    db: &Text,
    spec: &FlatSpec,
) -> Result<(), NoMemory>
    ensures { OnOk result (rows.new.items ≡ rows.old.items ++ flat_map (part spec.now db.now) (map plain_relation database.now.relations)) }
{
    for relation in database.relations() {
        push_relation(alloc, rows, db, relation, relation.name(), spec)?;
    }
    Ok(())
}
