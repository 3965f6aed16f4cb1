//! The first refusal of a change.
ghost use Rattle.std.specs.Prelude.{◌≡◌, ◌∷◌, [], Some, None, IfOk, IfErr};
ghost use Rattle.ss_text.specs.Texts.{is_in};
ghost use Rattle.schema_model.specs.Catalogue.{relation_of};
ghost use Rattle.schema_model.specs.States.{plain_relation};
ghost use Rattle.schema_model.specs.Refusals.{fault, row_fault, first_of, first_repeated, no_database, no_relation};

use crate::limits::{MOST_ATTRIBUTES, MOST_DATABASES, MOST_RELATIONS, MOST_ROWS};
use crate::{Catalogue, Change, Refusal, Relation, Which};
use ss_text::{Row, Text, table_label_legal};

impl Catalogue {
    /// The first refusal of a change, or none where it can be made.
    pub fn judge(&self, change: &Change) -> Option<Refusal>
        ensures { result ≡ fault self.now.databases change.now }
    {
        match change {
            Change::Insert { db, rel, row } => self.judge_insert(db, rel, row),
            Change::Delete { db, rel, row } => self.judge_delete(db, rel, row),
            Change::AddAttribute {
                db,
                rel,
                name,
                fill,
            } => self.judge_add(db, rel, name, fill),
            Change::DropAttribute { db, rel, name } => self.judge_drop(db, rel, name),
            Change::RenameAttribute { db, rel, name, to } => self.judge_rename(db, rel, name, to),
            Change::CreateRelation {
                db,
                rel,
                attributes,
            } => self.judge_create(db, rel, attributes),
            Change::DropRelation { db, rel } => self.judge_drop_relation(db, rel),
            Change::RenameRelation { db, rel, to } => self.judge_rename_relation(db, rel, to),
            Change::CreateDatabase { db } => self.judge_create_database(db),
            Change::DropDatabase { db } => self.judge_drop_database(db),
            Change::RenameDatabase { db, to } => self.judge_rename_database(db, to),
        }
    }

    fn judge_insert(&self, db: &Text, rel: &Text, row: &Row) -> Option<Refusal>
        ensures { result ≡ fault self.now.databases (Change.Insert db.now rel.now row.now) }
    {
        match self.relation_for(db, rel, row) {
            Err(refusal) => Some(refusal),
            Ok(_) if self.row_count() >= MOST_ROWS => Some(Refusal::Limit { which: Which::Rows }),
            Ok(_) => None,
        }
    }

    fn judge_delete(&self, db: &Text, rel: &Text, row: &Row) -> Option<Refusal>
        ensures { result ≡ fault self.now.databases (Change.Delete db.now rel.now row.now) }
    {
        match self.relation_for(db, rel, row) {
            Err(refusal) => Some(refusal),
            Ok(relation) if !relation.has_row(row) => Some(Refusal::NoRow),
            Ok(_) => None,
        }
    }

    fn judge_add(&self, db: &Text, rel: &Text, name: &Text, _fill: &Text) -> Option<Refusal>
        ensures { result ≡ fault self.now.databases (Change.AddAttribute db.now rel.now name.now _fill.now) }
    {
        match self.relation_named(db, rel) {
            Err(refusal) => Some(refusal),
            Ok(relation) if is_in(name, relation.attributes().cells()) => Some(
                Refusal::AttributeThere { place: 0 },
            ),
            Ok(relation) if relation.attributes().cells().len() >= MOST_ATTRIBUTES => Some(
                Refusal::Limit {
                    which: Which::Attributes,
                },
            ),
            Ok(_) => None,
        }
    }

    fn judge_drop(&self, db: &Text, rel: &Text, name: &Text) -> Option<Refusal>
        ensures { result ≡ fault self.now.databases (Change.DropAttribute db.now rel.now name.now) }
    {
        match self.relation_named(db, rel) {
            Err(refusal) => Some(refusal),
            Ok(relation) if !is_in(name, relation.attributes().cells()) => Some(
                Refusal::NoAttribute,
            ),
            Ok(relation) if relation.attributes().cells().len() == 1 => Some(
                Refusal::LastAttribute,
            ),
            Ok(_) => None,
        }
    }

    fn judge_rename(&self, db: &Text, rel: &Text, name: &Text, to: &Text) -> Option<Refusal>
        ensures { result ≡ fault self.now.databases (Change.RenameAttribute db.now rel.now name.now to.now) }
    {
        match self.relation_named(db, rel) {
            Err(refusal) => Some(refusal),
            Ok(relation) if !is_in(name, relation.attributes().cells()) => Some(
                Refusal::NoAttribute,
            ),
            Ok(relation) if is_in(to, relation.attributes().cells()) => Some(
                Refusal::AttributeThere { place: 0 },
            ),
            Ok(_) => None,
        }
    }

    fn judge_create(&self, db: &Text, rel: &Text, attributes: &Row) -> Option<Refusal>
        ensures { result ≡ fault self.now.databases (Change.CreateRelation db.now rel.now attributes.now) }
    {
        let Some(database) = self.database(db) else {
            return Some(Refusal::NoDatabase);
        };
        if !table_label_legal(rel) {
            return Some(Refusal::IllegalName);
        }
        if database.relation(rel).is_some() {
            return Some(Refusal::RelationThere);
        }
        if let Some(place) = first_repeated(attributes.cells()) {
            return Some(Refusal::AttributeThere { place });
        }
        if database.relations().len() >= MOST_RELATIONS {
            return Some(Refusal::Limit {
                which: Which::Relations,
            });
        }
        if attributes.cells().len() > MOST_ATTRIBUTES {
            return Some(Refusal::Limit {
                which: Which::Attributes,
            });
        }
        None
    }

    fn judge_drop_relation(&self, db: &Text, rel: &Text) -> Option<Refusal>
        ensures { result ≡ fault self.now.databases (Change.DropRelation db.now rel.now) }
    {
        self.relation_named(db, rel).err()
    }

    fn judge_rename_relation(&self, db: &Text, rel: &Text, to: &Text) -> Option<Refusal>
        ensures { result ≡ fault self.now.databases (Change.RenameRelation db.now rel.now to.now) }
    {
        let Some(database) = self.database(db) else {
            return Some(Refusal::NoDatabase);
        };
        if !table_label_legal(to) {
            return Some(Refusal::IllegalName);
        }
        if database.relation(rel).is_none() {
            return Some(Refusal::NoRelation);
        }
        if database.relation(to).is_some() {
            return Some(Refusal::RelationThere);
        }
        None
    }

    fn judge_create_database(&self, db: &Text) -> Option<Refusal>
        ensures { result ≡ fault self.now.databases (Change.CreateDatabase db.now) }
    {
        if !table_label_legal(db) {
            return Some(Refusal::IllegalName);
        }
        if self.database(db).is_some() {
            return Some(Refusal::DatabaseThere);
        }
        if self.databases().len() >= MOST_DATABASES {
            return Some(Refusal::Limit {
                which: Which::Databases,
            });
        }
        None
    }

    fn judge_drop_database(&self, db: &Text) -> Option<Refusal>
        ensures { result ≡ fault self.now.databases (Change.DropDatabase db.now) }
    {
        if self.database(db).is_none() {
            return Some(Refusal::NoDatabase);
        }
        None
    }

    fn judge_rename_database(&self, db: &Text, to: &Text) -> Option<Refusal>
        ensures { result ≡ fault self.now.databases (Change.RenameDatabase db.now to.now) }
    {
        if self.database(db).is_none() {
            return Some(Refusal::NoDatabase);
        }
        if !table_label_legal(to) {
            return Some(Refusal::IllegalName);
        }
        if self.database(to).is_some() {
            return Some(Refusal::DatabaseThere);
        }
        None
    }

    // The relation of these names.
    fn relation_named(&self, db: &Text, rel: &Text) -> Result<&Relation, Refusal>
        ensures found { IfOk result (λ r. relation_of self.now.databases db.now rel.now ≡ Some (plain_relation r.now)) }
        ensures passed { IfOk result (λ r. first_of (no_database self.now.databases db.now ∷ no_relation self.now.databases db.now rel.now ∷ []) ≡ None) }
        ensures refused { IfErr result (λ e. first_of (no_database self.now.databases db.now ∷ no_relation self.now.databases db.now rel.now ∷ []) ≡ Some e) }
    {
        let Some(database) = self.database(db) else {
            return Err(Refusal::NoDatabase);
        };
        let Some(relation) = database.relation(rel) else {
            return Err(Refusal::NoRelation);
        };
        Ok(relation)
    }

    /// The relation that a row is for, where the row has as many texts as it has attributes; or the first refusal that an
    /// insert of the row and a delete share.
    pub fn relation_for(&self, db: &Text, rel: &Text, row: &Row) -> Result<&Relation, Refusal>
        ensures found { IfOk result (λ r. relation_of self.now.databases db.now rel.now ≡ Some (plain_relation r.now)) }
        ensures fits { IfOk result (λ r. row_fault self.now.databases db.now rel.now row.now ≡ None) }
        ensures refused { IfErr result (λ e. row_fault self.now.databases db.now rel.now row.now ≡ Some e) }
    {
        let Some(database) = self.database(db) else {
            return Err(Refusal::NoDatabase);
        };
        let Some(relation) = database.relation(rel) else {
            return Err(Refusal::NoRelation);
        };
        let (want, got) = (relation.attributes().cells().len(), row.cells().len());
        if got != want {
            return Err(Refusal::ArityDiffers { want, got });
        }
        Ok(relation)
    }
}

fn is_in(text: &Text, texts: &[Text]) -> bool
    ensures { result ≡ is_in text.now texts.now }
{
    texts.iter().any(|t| text == t)
}

// The place of the first text that stands earlier in the list.
fn first_repeated(names: &[Text]) -> Option<usize>
    ensures { result ≡ first_repeated names.now }
{
    for place in 0..names.len() {
        if is_in(&names[place], &names[..place]) {
            return Some(place);
        }
    }
    None
}
