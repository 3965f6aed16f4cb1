//! Rows that come and go one after another among the kept rows of a relation.
ghost use Rattle.std.specs.Prelude.{◌≡◌, ◌∷◌, [], IsTrue, IfOk};
ghost use Rattle.schema_model.specs.Changes.{is_well_formed};

use crate::made::row;
use schema_model::{Catalogue, Change};
use ss_text::{NoMemory, Row, Text};
use std::alloc::Global;

/// How many rows are left of so many kept ones after so many changes, by which a row comes and goes in turn.
pub(crate) fn left(alloc: Global, kept: u32, changes: u32) -> Result<usize, NoMemory> {
    let mut catalogue = Catalogue::empty(alloc);
    let moved = move_rows(alloc, &mut catalogue, kept, changes);
    let count = catalogue.row_count();
    drop(catalogue);
    moved?;
    Ok(count)
}

// Puts the kept rows into a relation, and makes the changes.
fn move_rows(
    alloc: Global,
    catalogue: &mut Catalogue,
    kept: u32,
    changes: u32,
) -> Result<(), NoMemory> {
    make(catalogue, database(alloc)?)?;
    make(catalogue, relation(alloc)?)?;
    for number in 0..kept {
        make(catalogue, come(alloc, number)?)?;
    }
    for number in 0..changes {
        make(catalogue, change_at(alloc, number, kept)?)?;
    }
    Ok(())
}

// A row comes, or the one before goes again.
fn change_at(alloc: Global, number: u32, kept: u32) -> Result<Change, NoMemory>
    ensures { IfOk result (λ change. IsTrue (is_well_formed change)) }
{
    let key = number / 2 % kept.max(1);
    if number % 2 == 0 {
        come(alloc, key)
    } else {
        go(alloc, key)
    }
}

// Makes a change, if it is not refused.
fn make(catalogue: &mut Catalogue, change: Change) -> Result<(), NoMemory>
    requires { IsTrue (is_well_formed change) }
{
    let made = make_one(catalogue, &change);
    drop(change);
    made
}

fn make_one(catalogue: &mut Catalogue, change: &Change) -> Result<(), NoMemory>
    requires { IsTrue (is_well_formed change.now) }
{
    if catalogue.judge(change).is_none() {
        let ready = catalogue.reserve(change)?;
        catalogue.commit(ready);
    }
    Ok(())
}

fn database(alloc: Global) -> Result<Change, NoMemory>
    ensures { IfOk result (λ change. IsTrue (is_well_formed change)) }
{
    Ok(Change::CreateDatabase {
        db: Text::of(alloc, b"d")?,
    })
}

fn relation(alloc: Global) -> Result<Change, NoMemory>
    ensures { IfOk result (λ change. IsTrue (is_well_formed change)) }
{
    let attributes = two_names(alloc)?;
    match names(alloc) {
        Ok((db, rel)) => Ok(Change::CreateRelation {
            db,
            rel,
            attributes,
        }),
        Err(fault) => {
            drop(attributes);
            Err(fault)
        }
    }
}

// The names of two attributes.
fn two_names(alloc: Global) -> Result<Row, NoMemory>
    ensures { IfOk result (λ row. row ≡ (97 ∷ []) ∷ (98 ∷ []) ∷ []) }
{
    let mut names = Vec::with_capacity(alloc, 2)?;
    names.push(Text::of(alloc, b"a")?)?;
    names.push(Text::of(alloc, b"b")?)?;
    Ok(Row::of(names))
}

// The names of the relation and of its database.
fn names(alloc: Global) -> Result<(Text, Text), NoMemory> {
    let db = Text::of(alloc, b"d")?;
    match Text::of(alloc, b"r") {
        Ok(rel) => Ok((db, rel)),
        Err(fault) => {
            drop(db);
            Err(fault)
        }
    }
}

fn come(alloc: Global, key: u32) -> Result<Change, NoMemory>
    ensures { IfOk result (λ change. IsTrue (is_well_formed change)) }
{
    let row = row(alloc, key, key / 7)?;
    match names(alloc) {
        Ok((db, rel)) => Ok(Change::Insert { db, rel, row }),
        Err(fault) => {
            drop(row);
            Err(fault)
        }
    }
}

fn go(alloc: Global, key: u32) -> Result<Change, NoMemory>
    ensures { IfOk result (λ change. IsTrue (is_well_formed change)) }
{
    let row = row(alloc, key, key / 7)?;
    match names(alloc) {
        Ok((db, rel)) => Ok(Change::Delete { db, rel, row }),
        Err(fault) => {
            drop(row);
            Err(fault)
        }
    }
}
