//! Changes of one relation that take no room in it.
ghost use Rattle.std.specs.Prelude.{◌≡◌, ◌<◌, ◌-◌, None, length, map, remove, IfOk, IsTrue, slice_set, vec_len, vec_capacity};
ghost use Rattle.std.specs.List.{position, position_or_len};
ghost use Rattle.ss_text.specs.Texts.{text_eq, is_in};
ghost use Rattle.schema_model.specs.Sound.{IsSound};
ghost use Rattle.schema_model.specs.Refusals.{fault};
ghost use Rattle.schema_model.specs.declared.change.Change.TheVariants as change_is;
ghost use Rattle.schema_model.specs.States.{plain_databases};
ghost use Rattle.schema_model.specs.Edits.{Makes};

use crate::Database;
use crate::edit::{CatalogueEdit, DatabaseEdit, RelationEdit};
use crate::ready::place_of;
use ss_text::{NoMemory, Row, Seed, Text};
use std::alloc::Global;

pub(crate) fn delete_ready(
    databases: &mut Vec<Database>,
    seed: Seed,
    db: &Text,
    rel: &Text,
    row: &Row,
) -> Result<CatalogueEdit, NoMemory>
    requires sound { IsSound (plain_databases databases.old.items) }
    requires accepted { fault (plain_databases databases.old.items) (change_is.Delete db.now rel.now row.now) ≡ None }
    ensures same { plain_databases databases.new.items ≡ plain_databases databases.old.items }
    ensures makes { IfOk result (λ e. Makes databases.new.items (vec_capacity databases.new - vec_len databases.new) (change_is.Delete db.now rel.now row.now) e) }
{
    let Ok(db) = place_of(databases, db) else {
        unreachable!()
    };
    let row = row.copy()?;
    let database = &mut databases[db];
    let Ok(rel) = database.place_of(rel) else {
        unreachable!()
    };
    database.link_rows(seed, rel)?;
    database.own_rows(rel)?;
    let edit = DatabaseEdit::At {
        rel,
        edit: RelationEdit::Take { row },
    };
    Ok(CatalogueEdit::At { db, edit })
}

pub(crate) fn rename_attribute_ready(
    databases: &Vec<Database>,
    db: &Text,
    rel: &Text,
    name: &Text,
    to: &Text,
) -> Result<CatalogueEdit, NoMemory>
    requires sound { IsSound (plain_databases databases.now.items) }
    requires accepted { fault (plain_databases databases.now.items) (change_is.RenameAttribute db.now rel.now name.now to.now) ≡ None }
    ensures { IfOk result (λ e. Makes databases.now.items (vec_capacity databases.now - vec_len databases.now) (change_is.RenameAttribute db.now rel.now name.now to.now) e) }
{
    let alloc = *databases.allocator();
    let Ok(db) = place_of(databases, db) else {
        unreachable!()
    };
    let database = &databases[db];
    let Ok(rel) = database.place_of(rel) else {
        unreachable!()
    };
    let relation = database.relation_at(rel);
    let attributes = renamed(alloc, relation.attributes().cells(), name, to)?;
    let edit = DatabaseEdit::At {
        rel,
        edit: RelationEdit::Header { attributes },
    };
    Ok(CatalogueEdit::At { db, edit })
}

pub(crate) fn drop_attribute_ready(
    databases: &Vec<Database>,
    db: &Text,
    rel: &Text,
    name: &Text,
) -> Result<CatalogueEdit, NoMemory>
    requires sound { IsSound (plain_databases databases.now.items) }
    requires accepted { fault (plain_databases databases.now.items) (change_is.DropAttribute db.now rel.now name.now) ≡ None }
    ensures { IfOk result (λ e. Makes databases.now.items (vec_capacity databases.now - vec_len databases.now) (change_is.DropAttribute db.now rel.now name.now) e) }
{
    let alloc = *databases.allocator();
    let Ok(db) = place_of(databases, db) else {
        unreachable!()
    };
    let database = &databases[db];
    let Ok(rel) = database.place_of(rel) else {
        unreachable!()
    };
    let relation = database.relation_at(rel);
    let Some(place) = position_of(relation.attributes().cells(), name) else {
        unreachable!()
    };
    let attributes = without(alloc, relation.attributes().cells(), place)?;
    let kept = relation.rows(alloc)?;
    let rows = all_without(alloc, &kept, place)?;
    let edit = DatabaseEdit::At {
        rel,
        edit: RelationEdit::Sheet { attributes, rows },
    };
    Ok(CatalogueEdit::At { db, edit })
}

// The texts without the one at a place, if it is there.
fn without(alloc: Global, cells: &[Text], place: usize) -> Result<Row, NoMemory>
    ensures { IfOk result (λ row. row ≡ remove cells.now place) }
{
    let mut texts = copied(alloc, cells)?;
    take_out(&mut texts, place);
    Ok(Row::of(texts))
}

#[tactic(auto, using(crate::proofs::ReadyLemmas::remove_beyond))]
fn take_out(texts: &mut Vec<Text>, place: usize)
    ensures { texts.new.items ≡ remove texts.old.items place }
{
    if place < texts.len() {
        texts.remove(place);
    }
}

fn all_without(alloc: Global, rows: &[&Row], place: usize) -> Result<Vec<Row>, NoMemory>
    ensures { IfOk result (λ made. made.items ≡ map (λ row. remove row.now place) rows.now) }
{
    let mut made = Vec::with_capacity(alloc, rows.len())?;
    for row in rows {
        made.push(without(alloc, row.cells(), place)?)?;
    }
    Ok(made)
}

// The names with another in place of one that is there.
fn renamed(alloc: Global, names: &[Text], name: &Text, to: &Text) -> Result<Row, NoMemory>
    requires { IsTrue (is_in name.now names.now) }
    ensures { IfOk result (λ row. row ≡ slice_set names.now (position_or_len (text_eq name.now) names.now) to.now) }
{
    let Some(place) = position_of(names, name) else {
        unreachable!()
    };
    let to = to.copy()?;
    let mut texts = copied(alloc, names)?;
    set(&mut texts, place, to);
    Ok(Row::of(texts))
}

fn set(texts: &mut Vec<Text>, place: usize, to: Text)
    requires { place < length texts.old.items }
    ensures { texts.new.items ≡ slice_set texts.old.items place to }
{
    texts[place] = to;
}

fn copied(alloc: Global, names: &[Text]) -> Result<Vec<Text>, NoMemory>
    ensures { IfOk result (λ texts. texts.items ≡ names.now) }
{
    let mut texts = Vec::with_capacity(alloc, names.len())?;
    for name in names {
        texts.push(name.copy()?)?;
    }
    Ok(texts)
}

fn position_of(names: &[Text], name: &Text) -> Option<usize>
    ensures { result ≡ position (text_eq name.now) names.now }
{
    names.iter().position(|n| name == n)
}
