//! How many rows there are after a change.
ghost use Rattle.std.specs.Prelude.{◌≡◌, None, length};
ghost use Rattle.std.specs.Option.{option_map_or};
ghost use Rattle.schema_model.specs.Catalogue.{rows_in, rows_of, database_of};
ghost use Rattle.schema_model.specs.Edits.{rows_after};
ghost use Rattle.schema_model.specs.Refusals.{fault};
ghost use Rattle.schema_model.specs.Sound.{IsSound};

use crate::{Catalogue, Change};
use ss_text::Text;

impl Catalogue {
    /// How many rows all relations have together after a change that is not refused.
    pub(crate) fn rows_after(&self, change: &Change) -> usize
        requires { fault self.now.databases change.now ≡ None }
        ensures { result ≡ rows_after self.now.databases change.now }
    {
        match change {
            Change::Insert { .. } => self.row_count() + 1,
            Change::Delete { .. } => self.row_count() - 1,
            Change::DropRelation { db, rel } => self.row_count() - self.rows_of_relation(db, rel),
            Change::DropDatabase { db } => self.row_count() - self.rows_of_database(db),
            _ => self.row_count(),
        }
    }

    fn rows_of_relation(&self, db: &Text, rel: &Text) -> usize
        ensures { result ≡ length (rows_of self.now.databases db.now rel.now) }
    {
        let Some(database) = self.database(db) else {
            return 0;
        };
        match database.relation(rel) {
            Some(relation) => relation.count(),
            None => 0,
        }
    }

    fn rows_of_database(&self, db: &Text) -> usize
        requires { IsSound self.now.databases }
        ensures { result ≡ option_map_or rows_in (database_of self.now.databases db.now) 0 }
    {
        match self.database(db) {
            Some(database) => database.row_count(),
            None => 0,
        }
    }
}
