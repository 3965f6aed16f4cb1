//! Changes of rows that are made together, in place.
ghost use Rattle.std.specs.Prelude.{◌≡◌, ◌<◌, ◌≤◌, true, None, IfOk, OnOk, IsTrue, MatchOption, reverse};
ghost use Rattle.std.specs.List.{list_all};
ghost use Rattle.ss_text.specs.Keys.{IsPlaceOf};
ghost use Rattle.schema_model.specs.Catalogue.{CatalogueValue, database_name, relation_name, database_at, relation_of};
ghost use Rattle.schema_model.specs.Sound.{IsSound, IsCounted};
ghost use Rattle.schema_model.specs.Refusals.{fault, group_fault};
ghost use Rattle.schema_model.specs.States.{plain_databases};
ghost use Rattle.schema_model.specs.Edits.{FitsWaiting};
ghost use Rattle.schema_model.specs.Groups.{is_of_row, all_named, all_waits, waits_at, row_edited, all_left, rows_edited, IsRowEdit, MakesRow, AreRowEdits, all_edited, AreWaiting, AreReady, all_own, KeepsOwn, FindsOwn, AreOwn};
ghost use Rattle.schema_model.specs.declared.change.Change.TheVariants as change_is;
ghost use Rattle.schema_model.specs.Limits.{most_rows};

use crate::edit::{DatabaseEdit, RelationEdit, RowEdit};
use crate::ready::place_of;
use crate::{Change, Database};
use ss_text::{NoMemory, Row, Seed, Text};
use std::alloc::Global;
use std::snapshot::Snapshot;

/// Whether a change puts a row last or takes one out.
fn is_of_row(change: &Change) -> bool
    ensures { result ≡ is_of_row change.now }
{
    matches!(change, Change::Insert { .. } | Change::Delete { .. })
}

/// Whether all changes do.
pub(crate) fn are_of_rows(changes: &[Change]) -> bool
    ensures { result ≡ list_all is_of_row changes.now }
{
    changes.iter().all(|change| is_of_row(change))
}

/// The edits that make changes of rows, all their memory taken. The first to be made is the last.
pub(crate) fn rows_ready(
    databases: &mut Vec<Database>,
    seed: Seed,
    changes: &[Change],
) -> Result<Vec<RowEdit>, NoMemory>
    requires sound { IsSound (plain_databases databases.old.items) }
    requires rows { list_all is_of_row changes.now ≡ true }
    requires accepted { group_fault (plain_databases databases.old.items) changes.now ≡ None }
    ensures same { plain_databases databases.new.items ≡ plain_databases databases.old.items }
    ensures ready { IfOk result (λ edits. AreReady databases.new.items changes.now edits.items) }
{
    let alloc = *databases.allocator();
    prepare_all(databases, seed, changes)?;
    let mut edits = Vec::with_capacity(alloc, changes.len())?;
    let mut left = changes;
    while let Some((change, earlier)) = left.split_last() {
        edits.push(row_ready(databases, change)?)?;
        left = earlier;
    }
    Ok(edits)
}

// Links the relations that rows are to go from, and lets no row wait that was to come before.
fn prepare_all(
    databases: &mut Vec<Database>,
    seed: Seed,
    changes: &[Change],
) -> Result<(), NoMemory>
    requires { IsSound (plain_databases databases.old.items) }
    ensures { plain_databases databases.new.items ≡ plain_databases databases.old.items }
{
    for change in changes {
        prepare(databases, seed, change)?;
    }
    Ok(())
}

fn prepare(databases: &mut Vec<Database>, seed: Seed, change: &Change) -> Result<(), NoMemory>
    requires { IsSound (plain_databases databases.old.items) }
    ensures { plain_databases databases.new.items ≡ plain_databases databases.old.items }
{
    match change {
        Change::Insert { db, rel, .. } => forget_rows(databases, db, rel),
        Change::Delete { db, rel, .. } => link_rows(databases, seed, db, rel),
        _ => Ok(()),
    }
}

fn forget_rows(databases: &mut Vec<Database>, db: &Text, rel: &Text) -> Result<(), NoMemory>
    requires { IsSound (plain_databases databases.old.items) }
    ensures { plain_databases databases.new.items ≡ plain_databases databases.old.items }
{
    if let Some((db, rel)) = places(databases, db, rel) {
        let database = &mut databases[db];
        database.forget_rows(rel)?;
    }
    Ok(())
}

/// Links the rows of a relation, where it is there and no copy holds them, so that one is found and taken out without a
/// walk of all: takes all memory that this needs.
pub(crate) fn link_rows(
    databases: &mut Vec<Database>,
    seed: Seed,
    db: &Text,
    rel: &Text,
) -> Result<(), NoMemory>
    requires { IsSound (plain_databases databases.old.items) }
    ensures { plain_databases databases.new.items ≡ plain_databases databases.old.items }
{
    if let Some((db, rel)) = places(databases, db, rel) {
        let database = &mut databases[db];
        database.link_rows(seed, rel)?;
    }
    Ok(())
}

// The places of a database and of a relation in it.
fn places(databases: &Vec<Database>, db: &Text, rel: &Text) -> Option<(usize, usize)>
    requires { IsSound (plain_databases databases.now.items) }
    ensures { MatchOption result (relation_of (plain_databases databases.now.items) db.now rel.now ≡ None) (λ at. IsPlaceOf database_name db.now (plain_databases databases.now.items) at.0
        × IsPlaceOf relation_name rel.now (database_at at.0 (plain_databases databases.now.items)).relations at.1) }
{
    let Ok(db) = place_of(databases, db) else {
        return None;
    };
    match databases[db].place_of(rel) {
        Ok(rel) => Some((db, rel)),
        Err(_) => None,
    }
}

// The edit that makes a change of a row, its memory taken: the row waits before those of later changes.
fn row_ready(databases: &mut Vec<Database>, change: &Change) -> Result<RowEdit, NoMemory>
    requires sound { IsSound (plain_databases databases.old.items) }
    requires row { IsTrue (is_of_row change.now) }
    requires later { (later : CatalogueValue) × (all_named (plain_databases databases.old.items) ≡ all_named later) × (fault later change.now ≡ None) }
    ensures same { plain_databases databases.new.items ≡ plain_databases databases.old.items }
    ensures makes { IfOk result (λ e. MakesRow (plain_databases databases.old.items) change.now e) }
    ensures waits { IfOk result (λ e. FitsWaiting e.edit (waits_at e.db e.rel (all_waits databases.new.items)) × (all_left e (all_waits databases.new.items) ≡ all_waits databases.old.items)) }
    ensures own { IfOk result (λ e. FindsOwn (all_own databases.new.items) e × KeepsOwn (all_own databases.old.items) (all_own databases.new.items)) }
{
    match change {
        Change::Insert { db, rel, row } => insert_ready(databases, db, rel, row),
        Change::Delete { db, rel, row } => delete_ready(databases, db, rel, row),
        _ => unreachable!(),
    }
}

fn insert_ready(
    databases: &mut Vec<Database>,
    db: &Text,
    rel: &Text,
    row: &Row,
) -> Result<RowEdit, NoMemory>
    requires sound { IsSound (plain_databases databases.old.items) }
    requires later { (later : CatalogueValue) × (all_named (plain_databases databases.old.items) ≡ all_named later) × (fault later (change_is.Insert db.now rel.now row.now) ≡ None) }
    ensures same { plain_databases databases.new.items ≡ plain_databases databases.old.items }
    ensures makes { IfOk result (λ e. MakesRow (plain_databases databases.old.items) (change_is.Insert db.now rel.now row.now) e) }
    ensures waits { IfOk result (λ e. FitsWaiting e.edit (waits_at e.db e.rel (all_waits databases.new.items)) × (all_left e (all_waits databases.new.items) ≡ all_waits databases.old.items)) }
    ensures own { IfOk result (λ e. FindsOwn (all_own databases.new.items) e × KeepsOwn (all_own databases.old.items) (all_own databases.new.items)) }
{
    let Some((db, rel)) = places(databases, db, rel) else {
        unreachable!()
    };
    let row = row.copy()?;
    let asked = Snapshot::of(&row);
    let database = &mut databases[db];
    database.wait_row(rel, row)?;
    Ok(RowEdit {
        db,
        rel,
        edit: RelationEdit::Add { row: asked },
    })
}

fn delete_ready(
    databases: &mut Vec<Database>,
    db: &Text,
    rel: &Text,
    row: &Row,
) -> Result<RowEdit, NoMemory>
    requires sound { IsSound (plain_databases databases.old.items) }
    requires later { (later : CatalogueValue) × (all_named (plain_databases databases.old.items) ≡ all_named later) × (fault later (change_is.Delete db.now rel.now row.now) ≡ None) }
    ensures same { plain_databases databases.new.items ≡ plain_databases databases.old.items }
    ensures makes { IfOk result (λ e. MakesRow (plain_databases databases.old.items) (change_is.Delete db.now rel.now row.now) e) }
    ensures waits { IfOk result (λ e. FitsWaiting e.edit (waits_at e.db e.rel (all_waits databases.new.items)) × (all_left e (all_waits databases.new.items) ≡ all_waits databases.old.items)) }
    ensures own { IfOk result (λ e. FindsOwn (all_own databases.new.items) e × KeepsOwn (all_own databases.old.items) (all_own databases.new.items)) }
{
    let Some((db, rel)) = places(databases, db, rel) else {
        unreachable!()
    };
    let row = row.copy()?;
    let database = &mut databases[db];
    database.own_rows(rel)?;
    Ok(RowEdit {
        db,
        rel,
        edit: RelationEdit::Take { row },
    })
}

/// Makes edits of rows, the last of the list first, and answers how many rows all relations have then. This takes no
/// memory.
pub(crate) fn make_rows(databases: &mut Vec<Database>, rows: usize, edits: Vec<RowEdit>) -> usize
    requires counted { IsCounted (plain_databases databases.old.items) rows }
    requires edits { AreRowEdits (reverse edits.items) (plain_databases databases.old.items) }
    requires waits { AreWaiting (reverse edits.items) (all_waits databases.old.items) }
    requires own { AreOwn (reverse edits.items) (all_own databases.old.items) }
    ensures made { plain_databases databases.new.items ≡ all_edited (reverse edits.items) (plain_databases databases.old.items) }
    ensures counted { IsCounted (plain_databases databases.new.items) result }
{
    let mut count = rows;
    let mut left = edits;
    while let Some(edit) = left.pop() {
        count = rows_edited(&edit.edit, count);
        make_row(databases, edit);
    }
    count
}

/// The places of the relations that edits of rows change.
pub(crate) fn touched(alloc: Global, edits: &[RowEdit]) -> Result<Vec<(usize, usize)>, NoMemory> {
    let mut places = Vec::with_capacity(alloc, edits.len())?;
    for edit in edits {
        places.push((edit.db, edit.rel))?;
    }
    Ok(places)
}

/// Lets copies share the rows of the relations at these places again. This takes no memory.
pub(crate) fn settle_at(databases: &mut Vec<Database>, places: &[(usize, usize)])
    ensures { plain_databases databases.new.items ≡ plain_databases databases.old.items }
{
    for (db, rel) in places {
        settle_one(databases, *db, *rel);
    }
}

fn settle_one(databases: &mut Vec<Database>, db: usize, rel: usize)
    ensures { plain_databases databases.new.items ≡ plain_databases databases.old.items }
{
    if db < databases.len() {
        let database = &mut databases[db];
        database.settle(rel);
    }
}

/// Lets copies share the rows of all relations again. This takes no memory.
pub(crate) fn settle_all(databases: &mut Vec<Database>)
    ensures { plain_databases databases.new.items ≡ plain_databases databases.old.items }
{
    let count = databases.len();
    for db in 0..count {
        settle_database(databases, db);
    }
}

fn settle_database(databases: &mut Vec<Database>, db: usize)
    ensures { plain_databases databases.new.items ≡ plain_databases databases.old.items }
{
    if db < databases.len() {
        let database = &mut databases[db];
        database.settle_all();
    }
}

fn rows_edited(edit: &RelationEdit, rows: usize) -> usize
    requires { rows ≤ most_rows }
    ensures { result ≡ rows_edited edit.now rows }
{
    match edit {
        RelationEdit::Add { .. } => rows + 1,
        RelationEdit::Take { .. } => rows.saturating_sub(1),
        _ => rows,
    }
}

fn make_row(databases: &mut Vec<Database>, edit: RowEdit)
    requires edit { IsRowEdit (plain_databases databases.old.items) edit }
    requires waits { FitsWaiting edit.edit (waits_at edit.db edit.rel (all_waits databases.old.items)) }
    requires own { FindsOwn (all_own databases.old.items) edit }
    ensures made { plain_databases databases.new.items ≡ row_edited edit (plain_databases databases.old.items) }
    ensures left { all_waits databases.new.items ≡ all_left edit (all_waits databases.old.items) }
    ensures own { KeepsOwn (all_own databases.old.items) (all_own databases.new.items) }
{
    let RowEdit { db, rel, edit } = edit;
    let database = &mut databases[db];
    database.edit(DatabaseEdit::At { rel, edit });
}
