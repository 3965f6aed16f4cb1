//! Refusals of a change line.
ghost use Rattle.std.specs.Prelude.{◌≡◌, ◌∷◌, ◌++◌, [], IfOk};
ghost use Rattle.ss_print.specs.Fields.{escape_fields, line_fields, refusal_fields, first_field, database_named_by, relation_named_by, new_name, attribute_named_by, new_attribute};

use crate::fields::Fields;
use crate::load::counted;
use schema_model::{Change, ChangeFault, Refusal};
use ss_text::{NoMemory, Row, Text};
use std::alloc::Global;

/// The name and the fields of a line with a backslash that spells nothing: its place, from 0.
pub fn escape_fields(alloc: Global, at: usize) -> Result<Row, NoMemory>
    ensures { IfOk result (λ row. row ≡ escape_fields at) }
{
    let fields = Fields::named(alloc, b"bad-escape")?.number(alloc, at as u64)?;
    Ok(fields.row())
}

/// The name and the fields of a line that says no change. Want of memory is no refusal, and has no fields.
pub fn line_fields(alloc: Global, line: &Row, fault: ChangeFault) -> Result<Row, NoMemory>
    ensures { IfOk result (λ row. row ≡ line_fields line.now fault) }
{
    let fields = match fault {
        ChangeFault::UnknownVerb => with_first(
            Fields::named(alloc, b"unknown-verb")?,
            alloc,
            line,
        )?,
        ChangeFault::FieldCount { got } => {
            with_first(Fields::named(alloc, b"field-count")?, alloc, line)?.number(
                alloc, got as u64,
            )?
        }
        ChangeFault::NoMemory => return Ok(Row::of(Vec::new(alloc))),
    };
    Ok(fields.row())
}

// With the first field of a line.
pub(crate) fn with_first(fields: Fields, alloc: Global, line: &Row) -> Result<Fields, NoMemory>
    ensures { IfOk result (λ all. all ≡ fields ++ first_field line.now ∷ []) }
{
    match line.cells() {
        [first, ..] => fields.text(first),
        [] => fields.word(alloc, b""),
    }
}

/// The name and the fields of a change that the catalogue refuses.
pub fn refusal_fields(alloc: Global, change: &Change, refusal: Refusal) -> Result<Row, NoMemory>
    ensures { IfOk result (λ row. row ≡ refusal_fields change.now refusal) }
{
    let (db, rel) = (database(change), relation(change));
    let fields = match refusal {
        Refusal::NoDatabase => Fields::named(alloc, b"no-database")?.text(db)?,
        Refusal::IllegalName => { Fields::named(alloc, b"illegal-name")?.text(new_name(change))? }
        Refusal::DatabaseThere => {
            Fields::named(alloc, b"database-there")?.text(new_name(change))?
        }
        Refusal::NoRelation => Fields::named(alloc, b"no-relation")?.text(db)?.text(rel)?,
        Refusal::RelationThere => Fields::named(alloc, b"relation-there")?
            .text(db)?
            .text(new_name(change))?,
        Refusal::NoAttribute => Fields::named(alloc, b"no-attribute")?
            .text(db)?
            .text(rel)?
            .text(attribute(change))?,
        Refusal::AttributeThere { place } => Fields::named(alloc, b"attribute-there")?
            .text(db)?
            .text(rel)?
            .text(new_attribute(change, place))?,
        Refusal::LastAttribute => Fields::named(alloc, b"last-attribute")?
            .text(db)?
            .text(rel)?
            .text(attribute(change))?,
        Refusal::ArityDiffers { want, got } => Fields::named(alloc, b"arity-differs")?
            .text(db)?
            .text(rel)?
            .number(alloc, want as u64)?
            .number(alloc, got as u64)?,
        Refusal::NoRow => Fields::named(alloc, b"no-row")?.text(db)?.text(rel)?,
        Refusal::Limit { which } => Fields::named(alloc, b"limit")?.word(alloc, counted(which))?,
    };
    Ok(fields.row())
}

// The database that a change names.
fn database(change: &Change) -> &Text
    ensures { result.now ≡ database_named_by change.now }
{
    match change {
        Change::Insert { db, .. }
        | Change::Delete { db, .. }
        | Change::AddAttribute { db, .. }
        | Change::DropAttribute { db, .. }
        | Change::RenameAttribute { db, .. }
        | Change::CreateRelation { db, .. }
        | Change::DropRelation { db, .. }
        | Change::RenameRelation { db, .. }
        | Change::CreateDatabase { db }
        | Change::DropDatabase { db }
        | Change::RenameDatabase { db, .. } => db,
    }
}

// The relation that it names, or the database's name where it names none.
fn relation(change: &Change) -> &Text
    ensures { result.now ≡ relation_named_by change.now }
{
    match change {
        Change::Insert { rel, .. }
        | Change::Delete { rel, .. }
        | Change::AddAttribute { rel, .. }
        | Change::DropAttribute { rel, .. }
        | Change::RenameAttribute { rel, .. }
        | Change::CreateRelation { rel, .. }
        | Change::DropRelation { rel, .. }
        | Change::RenameRelation { rel, .. } => rel,
        _ => database(change),
    }
}

// The name after the change of what it makes or renames.
fn new_name(change: &Change) -> &Text
    ensures { result.now ≡ new_name change.now }
{
    match change {
        Change::RenameRelation { to, .. } | Change::RenameDatabase { to, .. } => to,
        _ => relation(change),
    }
}

// The attribute that it is for, or the relation's name where it is for none.
fn attribute(change: &Change) -> &Text
    ensures { result.now ≡ attribute_named_by change.now }
{
    match change {
        Change::AddAttribute { name, .. }
        | Change::DropAttribute { name, .. }
        | Change::RenameAttribute { name, .. } => name,
        _ => relation(change),
    }
}

// The new attribute at a place in its list of names.
fn new_attribute(change: &Change, place: usize) -> &Text
    ensures { result.now ≡ new_attribute change.now place }
{
    match change {
        Change::RenameAttribute { to, .. } => to,
        Change::CreateRelation {
            rel,
            attributes,
            ..
        } => attributes.cells().get(place).unwrap_or(rel),
        _ => attribute(change),
    }
}
