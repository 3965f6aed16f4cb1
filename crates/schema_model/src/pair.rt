//! The name of a relation in a catalogue.
ghost use Rattle.std.specs.Prelude.{◌≡◌, IfOk};

use ss_text::{NoMemory, Text};

/// Names a relation: its database and its own name there. Pairs are ordered by the first, and then by the second.
#[derive(Debug, PartialEq, Eq, PartialOrd, Ord)]
pub struct Pair {
    pub db: Text,
    pub rel: Text,
}

impl Drop for Pair {
    fn drop(self) {
        let Pair { db, rel } = self;
        drop(db);
        drop(rel);
    }
}

impl Pair {
    /// The pair of these names.
    pub fn of(db: &Text, rel: &Text) -> Result<Pair, NoMemory>
        ensures { IfOk result (λ pair. pair ≡ record { db = db.now; rel = rel.now }) }
    {
        let db = db.copy()?;
        let rel = rel.copy()?;
        Ok(Pair { db, rel })
    }

    /// An equal pair.
    pub fn copy(&self) -> Result<Pair, NoMemory>
        ensures { IfOk result (λ pair. pair ≡ self.now) }
    {
        Pair::of(&self.db, &self.rel)
    }
}
