//! The databases and relations that a change names.
ghost use Rattle.std.specs.Prelude.{◌≡◌, Some};
ghost use Rattle.schema_model.specs.Catalogue.{RelationValue, DatabaseValue, database_of, relation_of};
ghost use Rattle.schema_model.specs.States.{plain_relation, plain_database};
ghost use Rattle.schema_model.specs.Sound.{IsSound};

use schema_model::{Catalogue, Database, Relation};
use ss_text::Text;

/// The database of this name, which is there.
pub(crate) fn database_of<'a>(catalogue: &'a Catalogue, db: &Text) -> &'a Database
    requires { (d : DatabaseValue) × (database_of catalogue.now.databases db.now ≡ Some d) }
    ensures found { database_of catalogue.now.databases db.now ≡ Some (plain_database result.now) }
    ensures sound { IsSound catalogue.now.databases }
{
    let _sound = catalogue.databases();
    let Some(database) = catalogue.database(db) else {
        unreachable!()
    };
    database
}

/// The relation of these names, which is there.
pub(crate) fn relation_of<'a>(catalogue: &'a Catalogue, db: &Text, rel: &Text) -> &'a Relation
    requires { (r : RelationValue) × (relation_of catalogue.now.databases db.now rel.now ≡ Some r) }
    ensures found { relation_of catalogue.now.databases db.now rel.now ≡ Some (plain_relation result.now) }
    ensures sound { IsSound catalogue.now.databases }
{
    let database = database_of(catalogue, db);
    let Some(relation) = database.relation(rel) else {
        unreachable!()
    };
    relation
}
