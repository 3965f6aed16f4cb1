//! Finds the places of a change and takes its memory.
ghost use Rattle.std.specs.Prelude.{◌≡◌, ◌-◌, ◌++◌, ◌∷◌, [], map, None, IfOk, IfErr, IsTrue, is_ok, vec_len, vec_capacity, nat_le, nat_lt, length, if◌then◌else◌};
ghost use Rattle.std.specs.List.{list_any};
ghost use Rattle.ss_text.specs.Texts.{text_cmp, text_eq};
ghost use Rattle.ss_text.specs.Keys.{IsPlaceOf, IsPlaceFor};
ghost use Rattle.schema_model.specs.Catalogue.{DatabaseValue, database_name};
ghost use Rattle.schema_model.specs.Sound.{IsSound};
ghost use Rattle.schema_model.specs.Changes.{is_well_formed};
ghost use Rattle.schema_model.specs.Refusals.{fault};
ghost use Rattle.schema_model.specs.declared.change.Change.TheVariants as change_is;
ghost use Rattle.schema_model.specs.States.{plain_databases};
ghost use Rattle.schema_model.specs.Edits.{Makes};

use crate::edit::{CatalogueEdit, DatabaseEdit, RelationEdit};
use crate::sheets::{delete_ready, drop_attribute_ready, rename_attribute_ready};
use crate::{Change, Database, Relation};
use ss_text::{NoMemory, Row, Seed, Text};
use std::alloc::Global;
use std::snapshot::Snapshot;

/// The edit that makes a change, all its memory taken. Where it links rows it does so by the seed.
pub(crate) fn ready(
    databases: &mut Vec<Database>,
    seed: Seed,
    change: &Change,
) -> Result<CatalogueEdit, NoMemory>
    requires well_formed { IsTrue (is_well_formed change.now) }
    requires sound { IsSound (plain_databases databases.old.items) }
    requires accepted { fault (plain_databases databases.old.items) change.now ≡ None }
    ensures same { plain_databases databases.new.items ≡ plain_databases databases.old.items }
    ensures makes { IfOk result (λ e. Makes databases.new.items (vec_capacity databases.new - vec_len databases.new) change.now e) }
{
    match change {
        Change::Insert { db, rel, row } => insert_ready(databases, db, rel, row),
        Change::Delete { db, rel, row } => delete_ready(databases, seed, db, rel, row),
        Change::DropAttribute { db, rel, name } => drop_attribute_ready(databases, db, rel, name),
        Change::RenameAttribute { db, rel, name, to } => {
            rename_attribute_ready(databases, db, rel, name, to)
        }
        Change::AddAttribute {
            db,
            rel,
            name,
            fill,
        } => add_attribute_ready(databases, db, rel, name, fill),
        Change::CreateRelation {
            db,
            rel,
            attributes,
        } => create_relation_ready(databases, db, rel, attributes),
        Change::DropRelation { db, rel } => Ok(drop_relation_ready(databases, db, rel)),
        Change::CreateDatabase { db } => create_database_ready(databases, db),
        Change::RenameRelation { db, rel, to } => rename_relation_ready(databases, db, rel, to),
        Change::RenameDatabase { db, to } => rename_database_ready(databases, db, to),
        Change::DropDatabase { db } => Ok(drop_database_ready(databases, db)),
    }
}

fn create_database_ready(
    databases: &mut Vec<Database>,
    db: &Text,
) -> Result<CatalogueEdit, NoMemory>
    requires sound { IsSound (plain_databases databases.old.items) }
    requires accepted { fault (plain_databases databases.old.items) (change_is.CreateDatabase db.now) ≡ None }
    ensures same { plain_databases databases.new.items ≡ plain_databases databases.old.items }
    ensures makes { IfOk result (λ e. Makes databases.new.items (vec_capacity databases.new - vec_len databases.new) (change_is.CreateDatabase db.now) e) }
{
    let alloc = *databases.allocator();
    let Err(place) = place_of(databases, db) else {
        unreachable!()
    };
    let name = db.copy()?;
    databases.reserve(1)?;
    Ok(CatalogueEdit::Put {
        place,
        database: Database::new(alloc, name),
    })
}

fn drop_database_ready(databases: &Vec<Database>, db: &Text) -> CatalogueEdit
    requires sound { IsSound (plain_databases databases.now.items) }
    requires accepted { fault (plain_databases databases.now.items) (change_is.DropDatabase db.now) ≡ None }
    ensures { Makes databases.now.items (vec_capacity databases.now - vec_len databases.now) (change_is.DropDatabase db.now) result }
{
    let Ok(place) = place_of(databases, db) else {
        unreachable!()
    };
    CatalogueEdit::Out { place }
}

fn add_attribute_ready(
    databases: &Vec<Database>,
    db: &Text,
    rel: &Text,
    name: &Text,
    fill: &Text,
) -> Result<CatalogueEdit, NoMemory>
    requires sound { IsSound (plain_databases databases.now.items) }
    requires accepted { fault (plain_databases databases.now.items) (change_is.AddAttribute db.now rel.now name.now fill.now) ≡ None }
    ensures { IfOk result (λ e. Makes databases.now.items (vec_capacity databases.now - vec_len databases.now) (change_is.AddAttribute db.now rel.now name.now fill.now) e) }
{
    let alloc = *databases.allocator();
    let Ok(db) = place_of(databases, db) else {
        unreachable!()
    };
    let Ok(rel) = databases[db].place_of(rel) else {
        unreachable!()
    };
    let relation = databases[db].relation_at(rel);
    let attributes = with_last(alloc, relation.attributes().cells(), name)?;
    let kept = relation.rows(alloc)?;
    let rows = all_with_last(alloc, &kept, fill)?;
    let edit = DatabaseEdit::At {
        rel,
        edit: RelationEdit::Sheet { attributes, rows },
    };
    Ok(CatalogueEdit::At { db, edit })
}

// The texts with one more.
fn with_last(alloc: Global, cells: &[Text], last: &Text) -> Result<Row, NoMemory>
    ensures { IfOk result (λ row. row ≡ cells.now ++ last.now ∷ []) }
{
    let mut texts = Vec::with_capacity(alloc, cells.len() + 1)?;
    for cell in cells {
        texts.push(cell.copy()?)?;
    }
    texts.push(last.copy()?)?;
    Ok(Row::of(texts))
}

// Each row with one more text.
fn all_with_last(alloc: Global, rows: &[&Row], last: &Text) -> Result<Vec<Row>, NoMemory>
    ensures { IfOk result (λ made. made.items ≡ map (λ row. row.now ++ last.now ∷ []) rows.now) }
{
    let mut made = Vec::with_capacity(alloc, rows.len())?;
    for row in rows {
        made.push(with_last(alloc, row.cells(), last)?)?;
    }
    Ok(made)
}

fn rename_database_ready(
    databases: &Vec<Database>,
    db: &Text,
    to: &Text,
) -> Result<CatalogueEdit, NoMemory>
    requires sound { IsSound (plain_databases databases.now.items) }
    requires accepted { fault (plain_databases databases.now.items) (change_is.RenameDatabase db.now to.now) ≡ None }
    ensures { IfOk result (λ e. Makes databases.now.items (vec_capacity databases.now - vec_len databases.now) (change_is.RenameDatabase db.now to.now) e) }
{
    let Ok(place) = place_of(databases, db) else {
        unreachable!()
    };
    let Err(gap) = place_of(databases, to) else {
        unreachable!()
    };
    let name = to.copy()?;
    let to = among_others(place, gap);
    Ok(CatalogueEdit::Rename { place, to, name })
}

fn rename_relation_ready(
    databases: &Vec<Database>,
    db: &Text,
    rel: &Text,
    to: &Text,
) -> Result<CatalogueEdit, NoMemory>
    requires sound { IsSound (plain_databases databases.now.items) }
    requires accepted { fault (plain_databases databases.now.items) (change_is.RenameRelation db.now rel.now to.now) ≡ None }
    ensures { IfOk result (λ e. Makes databases.now.items (vec_capacity databases.now - vec_len databases.now) (change_is.RenameRelation db.now rel.now to.now) e) }
{
    let Ok(db) = place_of(databases, db) else {
        unreachable!()
    };
    let database = &databases[db];
    let Ok(place) = database.place_of(rel) else {
        unreachable!()
    };
    let Err(gap) = database.place_of(to) else {
        unreachable!()
    };
    let name = to.copy()?;
    let to = among_others(place, gap);
    let edit = DatabaseEdit::Rename { place, to, name };
    Ok(CatalogueEdit::At { db, edit })
}

// A place counted without the element at another.
fn among_others(place: usize, gap: usize) -> usize
    ensures { result ≡ (if nat_lt place gap then gap - 1 else gap) }
{
    if place < gap { gap - 1 } else { gap }
}

fn create_relation_ready(
    databases: &mut Vec<Database>,
    db: &Text,
    rel: &Text,
    attributes: &Row,
) -> Result<CatalogueEdit, NoMemory>
    requires well_formed { IsTrue (nat_le 1 (length attributes.now)) }
    requires sound { IsSound (plain_databases databases.old.items) }
    requires accepted { fault (plain_databases databases.old.items) (change_is.CreateRelation db.now rel.now attributes.now) ≡ None }
    ensures same { plain_databases databases.new.items ≡ plain_databases databases.old.items }
    ensures makes { IfOk result (λ e. Makes databases.new.items (vec_capacity databases.new - vec_len databases.new) (change_is.CreateRelation db.now rel.now attributes.now) e) }
{
    let alloc = *databases.allocator();
    let Ok(db) = place_of(databases, db) else {
        unreachable!()
    };
    let name = rel.copy()?;
    let attributes = attributes.copy()?;
    let relation = Relation::new(alloc, name, attributes)?;
    let database = &mut databases[db];
    let Err(place) = database.place_of(rel) else {
        unreachable!()
    };
    database.reserve()?;
    let edit = DatabaseEdit::Put { place, relation };
    Ok(CatalogueEdit::At { db, edit })
}

fn drop_relation_ready(databases: &Vec<Database>, db: &Text, rel: &Text) -> CatalogueEdit
    requires sound { IsSound (plain_databases databases.now.items) }
    requires accepted { fault (plain_databases databases.now.items) (change_is.DropRelation db.now rel.now) ≡ None }
    ensures { Makes databases.now.items (vec_capacity databases.now - vec_len databases.now) (change_is.DropRelation db.now rel.now) result }
{
    let Ok(db) = place_of(databases, db) else {
        unreachable!()
    };
    let Ok(rel) = databases[db].place_of(rel) else {
        unreachable!()
    };
    let edit = DatabaseEdit::Out { place: rel };
    CatalogueEdit::At { db, edit }
}

fn insert_ready(
    databases: &mut Vec<Database>,
    db: &Text,
    rel: &Text,
    row: &Row,
) -> Result<CatalogueEdit, NoMemory>
    requires sound { IsSound (plain_databases databases.old.items) }
    requires accepted { fault (plain_databases databases.old.items) (change_is.Insert db.now rel.now row.now) ≡ None }
    ensures same { plain_databases databases.new.items ≡ plain_databases databases.old.items }
    ensures makes { IfOk result (λ e. Makes databases.new.items (vec_capacity databases.new - vec_len databases.new) (change_is.Insert db.now rel.now row.now) e) }
{
    let Ok(db) = place_of(databases, db) else {
        unreachable!()
    };
    let row = row.copy()?;
    let database = &mut databases[db];
    let Ok(rel) = database.place_of(rel) else {
        unreachable!()
    };
    let asked = Snapshot::of(&row);
    database.reserve_row(rel, row)?;
    let edit = DatabaseEdit::At {
        rel,
        edit: RelationEdit::Add { row: asked },
    };
    Ok(CatalogueEdit::At { db, edit })
}

// Where the database of a name stands, or where it would.
pub(crate) fn place_of(databases: &Vec<Database>, name: &Text) -> Result<usize, usize>
    requires { IsSound (plain_databases databases.now.items) }
    ensures there { is_ok result ≡ list_any (λ (d : DatabaseValue). text_eq name.now d.name) (plain_databases databases.now.items) }
    ensures found { IfOk result (IsPlaceOf database_name name.now (plain_databases databases.now.items)) }
    ensures absent { IfErr result (IsPlaceFor text_cmp database_name name.now (plain_databases databases.now.items)) }
{
    databases.binary_search_by(|database| database.name().cmp(name))
}
