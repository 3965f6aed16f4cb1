//! A copy of a change.
ghost use Rattle.std.specs.Prelude.{◌≡◌, IfOk};
ghost use Rattle.schema_model.specs.declared.change.Change.TheVariants as change_is;

use crate::Change;
use ss_text::{NoMemory, Row, Text};

impl Change {
    /// An equal change.
    pub fn copy(&self) -> Result<Change, NoMemory>
        ensures { IfOk result (λ copy. copy ≡ self.now) }
    {
        match self {
            Change::Insert { db, rel, row } => insert(db, rel, row),
            Change::Delete { db, rel, row } => delete(db, rel, row),
            Change::AddAttribute {
                db,
                rel,
                name,
                fill,
            } => add_attribute(db, rel, name, fill),
            Change::DropAttribute { db, rel, name } => drop_attribute(db, rel, name),
            Change::RenameAttribute { db, rel, name, to } => rename_attribute(db, rel, name, to),
            Change::CreateRelation {
                db,
                rel,
                attributes,
            } => create_relation(db, rel, attributes),
            Change::DropRelation { db, rel } => drop_relation(db, rel),
            Change::RenameRelation { db, rel, to } => rename_relation(db, rel, to),
            Change::CreateDatabase { db } => create_database(db),
            Change::DropDatabase { db } => drop_database(db),
            Change::RenameDatabase { db, to } => rename_database(db, to),
        }
    }
}

fn insert(db: &Text, rel: &Text, row: &Row) -> Result<Change, NoMemory>
    ensures { IfOk result (λ copy. copy ≡ change_is.Insert db.now rel.now row.now) }
{
    let db = db.copy()?;
    let rel = rel.copy()?;
    let row = row.copy()?;
    Ok(Change::Insert { db, rel, row })
}

fn delete(db: &Text, rel: &Text, row: &Row) -> Result<Change, NoMemory>
    ensures { IfOk result (λ copy. copy ≡ change_is.Delete db.now rel.now row.now) }
{
    let db = db.copy()?;
    let rel = rel.copy()?;
    let row = row.copy()?;
    Ok(Change::Delete { db, rel, row })
}

fn add_attribute(db: &Text, rel: &Text, name: &Text, fill: &Text) -> Result<Change, NoMemory>
    ensures { IfOk result (λ copy. copy ≡ change_is.AddAttribute db.now rel.now name.now fill.now) }
{
    let db = db.copy()?;
    let rel = rel.copy()?;
    let name = name.copy()?;
    let fill = fill.copy()?;
    Ok(Change::AddAttribute {
        db,
        rel,
        name,
        fill,
    })
}

fn drop_attribute(db: &Text, rel: &Text, name: &Text) -> Result<Change, NoMemory>
    ensures { IfOk result (λ copy. copy ≡ change_is.DropAttribute db.now rel.now name.now) }
{
    let db = db.copy()?;
    let rel = rel.copy()?;
    let name = name.copy()?;
    Ok(Change::DropAttribute { db, rel, name })
}

fn rename_attribute(db: &Text, rel: &Text, name: &Text, to: &Text) -> Result<Change, NoMemory>
    ensures { IfOk result (λ copy. copy ≡ change_is.RenameAttribute db.now rel.now name.now to.now) }
{
    let db = db.copy()?;
    let rel = rel.copy()?;
    let name = name.copy()?;
    let to = to.copy()?;
    Ok(Change::RenameAttribute { db, rel, name, to })
}

fn create_relation(db: &Text, rel: &Text, attributes: &Row) -> Result<Change, NoMemory>
    ensures { IfOk result (λ copy. copy ≡ change_is.CreateRelation db.now rel.now attributes.now) }
{
    let db = db.copy()?;
    let rel = rel.copy()?;
    let attributes = attributes.copy()?;
    Ok(Change::CreateRelation {
        db,
        rel,
        attributes,
    })
}

fn drop_relation(db: &Text, rel: &Text) -> Result<Change, NoMemory>
    ensures { IfOk result (λ copy. copy ≡ change_is.DropRelation db.now rel.now) }
{
    let db = db.copy()?;
    let rel = rel.copy()?;
    Ok(Change::DropRelation { db, rel })
}

fn rename_relation(db: &Text, rel: &Text, to: &Text) -> Result<Change, NoMemory>
    ensures { IfOk result (λ copy. copy ≡ change_is.RenameRelation db.now rel.now to.now) }
{
    let db = db.copy()?;
    let rel = rel.copy()?;
    let to = to.copy()?;
    Ok(Change::RenameRelation { db, rel, to })
}

fn create_database(db: &Text) -> Result<Change, NoMemory>
    ensures { IfOk result (λ copy. copy ≡ change_is.CreateDatabase db.now) }
{
    let db = db.copy()?;
    Ok(Change::CreateDatabase { db })
}

fn drop_database(db: &Text) -> Result<Change, NoMemory>
    ensures { IfOk result (λ copy. copy ≡ change_is.DropDatabase db.now) }
{
    let db = db.copy()?;
    Ok(Change::DropDatabase { db })
}

fn rename_database(db: &Text, to: &Text) -> Result<Change, NoMemory>
    ensures { IfOk result (λ copy. copy ≡ change_is.RenameDatabase db.now to.now) }
{
    let db = db.copy()?;
    let to = to.copy()?;
    Ok(Change::RenameDatabase { db, to })
}
