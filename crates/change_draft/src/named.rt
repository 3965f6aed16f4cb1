//! A row of a relation, as a key.
ghost use Rattle.std.specs.Prelude.{◌≡◌, IfOk};
ghost use Rattle.change_draft.specs.Named.{named};

use ss_text::{NoMemory, Row, Text};
use std::hash::{Hash, Hasher};
use std::marker::Model;

/// A row of the relation of these names, which contracts see as the names and the row. It is kept by what it owns, and
/// looked up by what it is lent.
#[derive(Drop)]
pub(crate) struct Named<'a> {
    parts: Parts<'a>,
}

#[derive(Drop)]
enum Parts<'a> {
    Owned {
        db: Text,
        rel: Text,
        row: Row,
    },
    Lent {
        db: &'a Text,
        rel: &'a Text,
        row: &'a Row,
    },
}

impl<'a> Model for Named<'a> {
    ghost use Rattle.change_draft.specs.Named.{NamedRow, named_by};

    ghost Value = { NamedRow };

    ghost view = { λ n. named_by n.parts };
}

impl<'a> Named<'a> {
    // The row of these names, as it is lent.
    pub(crate) fn lent(db: &'a Text, rel: &'a Text, row: &'a Row) -> Named<'a>
        ensures { result ≡ named db.now rel.now row.now }
    {
        Named {
            parts: Parts::Lent { db, rel, row },
        }
    }

    // The row of these names, in copies.
    pub(crate) fn owned(db: &Text, rel: &Text, row: &Row) -> Result<Named<'a>, NoMemory>
        ensures { IfOk result (λ n. n ≡ named db.now rel.now row.now) }
    {
        let db = db.copy()?;
        let rel = rel.copy()?;
        let row = row.copy()?;
        Ok(Named {
            parts: Parts::Owned { db, rel, row },
        })
    }

    fn db(&self) -> &Text
        ensures { result.now ≡ self.now.db }
    {
        match &self.parts {
            Parts::Owned { db, .. } => db,
            Parts::Lent { db, .. } => db,
        }
    }

    fn rel(&self) -> &Text
        ensures { result.now ≡ self.now.rel }
    {
        match &self.parts {
            Parts::Owned { rel, .. } => rel,
            Parts::Lent { rel, .. } => rel,
        }
    }

    fn row(&self) -> &Row
        ensures { result.now ≡ self.now.row }
    {
        match &self.parts {
            Parts::Owned { row, .. } => row,
            Parts::Lent { row, .. } => row,
        }
    }
}

impl<'a> PartialEq for Named<'a> {
    ghost use Rattle.std.specs.Cmp.{partial_equiv_from_equiv};
    ghost use Rattle.change_draft.specs.Named.{named_eq, named_equiv};

    ghost eq = { named_eq };

    ghost laws = { partial_equiv_from_equiv named_equiv };

    fn eq(&self, other: &Named<'a>) -> bool {
        self.db() == other.db() && self.rel() == other.rel() && self.row() == other.row()
    }
}

impl<'a> Eq for Named<'a> {
    ghost use Rattle.change_draft.specs.Named.{named_equiv};

    ghost laws = { named_equiv };
}

impl<'a> Hash for Named<'a> {
    ghost use Rattle.change_draft.specs.Named.{writes, writes_alike};

    ghost hash_input = { writes };

    ghost respects_eq = { writes_alike.fed };

    fn hash<H: Hasher>(&self, state: &mut H) {
        self.db().hash(state);
        self.rel().hash(state);
        self.row().hash(state);
    }
}
