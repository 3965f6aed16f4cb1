//! Changes by chance.
ghost use Rattle.std.specs.Prelude.{◌<◌, length, IfOk, IsTrue};
ghost use Rattle.schema_model.specs.Changes.{is_well_formed};

use crate::building::make;
use schema_model::{Catalogue, Change, ChangeFault, Relation};
use ss_text::{NoMemory, Row, Text};
use std::alloc::Global;

/// A counter that tells what comes next.
#[derive(Clone, Copy)]
pub struct Chance {
    state: u32,
}

const DATABASES: [&str; 3] = ["d", "d", "e"];

// What a database is renamed to, and from.
const NAMES: [&str; 3] = ["d", "e", "f"];

const RELATIONS: [&str; 3] = ["r", "s", "t"];

const ATTRIBUTES: [&str; 3] = ["a", "b", "c"];

const VALUES: &[&str] = &["", "1", "2", "b"];

// The verb of a change, a letter for each further field (a database, a name of one, a relation, an attribute or a value),
// and how many of sixty changes it is. The row of an insert or a delete stands behind its fields.
const FORMS: &[(&str, &str, usize)] = &[
    ("insert", "dr", 30),
    ("delete", "dr", 8),
    ("add-attribute", "drav", 3),
    ("drop-attribute", "dra", 1),
    ("rename-attribute", "draa", 3),
    ("create-relation", "draaa", 6),
    ("drop-relation", "dr", 1),
    ("rename-relation", "drr", 2),
    ("create-database", "d", 3),
    ("drop-database", "d", 1),
    ("rename-database", "nn", 2),
];

// The relation that the fields of an insert or a delete name, if it is there.
fn relation_of<'a>(catalogue: &'a Catalogue, fields: &[Text]) -> Option<&'a Relation> {
    match fields {
        [_, db, rel] => catalogue.database(db)?.relation(rel),
        _ => None,
    }
}

impl Chance {
    /// The counter of a seed.
    pub fn of(seed: u32) -> Chance {
        Chance { state: seed }
    }

    /// A number below this one, or 0.
    pub fn below(&mut self, count: usize) -> usize
        ensures { 0 < count → result < count }
    {
        self.state = self
            .state
            .wrapping_mul(1_664_525)
            .wrapping_add(1_013_904_223);
        let number = (self.state >> 16) as usize;
        if count == 0 { 0 } else { number % count }
    }

    // One of these texts.
    fn one_of(&mut self, texts: &[&'static str]) -> &'static str
        requires { 0 < length texts.now }
    {
        let place = self.below(texts.len());
        texts[place]
    }

    // A verb with its letters.
    fn form(&mut self) -> (&'static str, &'static str) {
        let mut rest = self.below(60);
        for &(verb, letters, many) in FORMS {
            if rest < many {
                return (verb, letters);
            }
            rest -= many;
        }
        ("insert", "dr")
    }

    // A field of this letter.
    fn field(&mut self, letter: u8) -> &'static str {
        match letter {
            b'd' => self.one_of(&DATABASES),
            b'n' => self.one_of(&NAMES),
            b'r' => self.one_of(&RELATIONS),
            b'a' => self.one_of(&ATTRIBUTES),
            _ => self.one_of(VALUES),
        }
    }

    // Puts so many values last.
    fn put_values(
        &mut self,
        alloc: Global,
        fields: &mut Vec<Text>,
        count: usize,
    ) -> Result<(), NoMemory> {
        for _ in 0..count {
            fields.push(Text::of(alloc, self.field(b'v').as_bytes())?)?;
        }
        Ok(())
    }

    // Puts the cells of a row of a relation last, or where it has none those of a row that is not there.
    fn put_row(
        &mut self,
        alloc: Global,
        fields: &mut Vec<Text>,
        relation: &Relation,
    ) -> Result<(), NoMemory> {
        let rows = relation.rows(alloc)?;
        let place = self.below(rows.len());
        let Some(row) = rows.get(place) else {
            return self.put_values(alloc, fields, 2);
        };
        for cell in row.cells() {
            fields.push(cell.copy()?)?;
        }
        Ok(())
    }

    // Puts the row last that is inserted or deleted.
    fn put_behind(
        &mut self,
        alloc: Global,
        fields: &mut Vec<Text>,
        verb: &str,
        relation: Option<&Relation>,
    ) -> Result<(), NoMemory> {
        match (verb, relation) {
            ("insert", Some(relation)) => {
                self.put_values(alloc, fields, relation.attributes().cells().len())
            }
            ("delete", Some(relation)) => self.put_row(alloc, fields, relation),
            ("insert" | "delete", None) => self.put_values(alloc, fields, 2),
            _ => Ok(()),
        }
    }

    // The fields of the next change.
    fn line(&mut self, alloc: Global, catalogue: &Catalogue) -> Result<Row, NoMemory> {
        let (verb, letters) = self.form();
        let mut fields = Vec::new(alloc);
        fields.push(Text::of(alloc, verb.as_bytes())?)?;
        for letter in letters.bytes() {
            fields.push(Text::of(alloc, self.field(letter).as_bytes())?)?;
        }
        let relation = relation_of(catalogue, &fields);
        self.put_behind(alloc, &mut fields, verb, relation)?;
        Ok(Row::of(fields))
    }

    /// The next change of a catalogue, which may refuse it.
    pub fn change(&mut self, alloc: Global, catalogue: &Catalogue) -> Result<Change, ChangeFault>
        ensures { IfOk result (λ change. IsTrue (is_well_formed change)) }
    {
        let line = self.line(alloc, catalogue)?;
        Change::read(alloc, &line)
    }

    /// Makes the next changes of a catalogue, but those that it refuses.
    pub fn make(
        &mut self,
        alloc: Global,
        catalogue: &mut Catalogue,
        count: usize,
    ) -> Result<(), ChangeFault> {
        for _ in 0..count {
            let change = self.change(alloc, catalogue)?;
            let made = make(catalogue, &change);
            drop(change);
            made?;
        }
        Ok(())
    }
}
