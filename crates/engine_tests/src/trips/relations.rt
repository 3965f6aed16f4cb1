//! Relations by chance, whose names stand as values, as columns or as tables.
use crate::chance::Chance;
use schema_model::{Catalogue, Change};
use ss_text::{NoMemory, Row, Text};
use std::alloc::Global;
use std::test::Fail;

/// A key, a name and a value.
#[derive(Clone, Copy, Drop)]
pub struct Said {
    pub key: &'static str,
    pub name: &'static str,
    pub value: &'static str,
}

const KEYS: [&str; 3] = ["1", "2", ""];

// `k` is the attribute of the keys, and `a/b` and the empty text are no labels.
const NAMES: [&str; 6] = ["x", "y", "z", "k", "a/b", ""];

const VALUES: [&str; 3] = ["", "5", "6"];

/// So many of them by chance, with names among the first so many of all.
pub fn said_by(
    alloc: Global,
    chance: &mut Chance,
    count: usize,
    names: usize,
) -> Result<Vec<Said>, NoMemory> {
    let mut said = Vec::new(alloc);
    for _ in 0..count {
        let key = KEYS[chance.below(KEYS.len())];
        let name = NAMES[chance.below(NAMES.len()) % names.clamp(1, NAMES.len())];
        let value = VALUES[chance.below(VALUES.len())];
        said.push(Said { key, name, value })?;
    }
    Ok(said)
}

fn row_of(alloc: Global, cells: &[&str]) -> Result<Row, NoMemory> {
    let mut row = Vec::new(alloc);
    for cell in cells {
        row.push(Text::of(alloc, cell.as_bytes())?)?;
    }
    Ok(Row::of(row))
}

// Makes the change that fields say, unless it is refused.
fn make(alloc: Global, catalogue: &mut Catalogue, fields: &[&str]) -> Result<(), Fail> {
    let line = row_of(alloc, fields)?;
    let change = Change::read(alloc, &line)?;
    if catalogue.judge(&change).is_none() {
        let ready = catalogue.reserve(&change)?;
        catalogue.commit(ready);
    }
    Ok(())
}

fn database(alloc: Global) -> Result<Catalogue, Fail> {
    let mut catalogue = Catalogue::empty(alloc);
    make(alloc, &mut catalogue, &["create-database", "d"])?;
    Ok(catalogue)
}

/// The names as values: `d::r(n, v, k)`.
pub fn as_values(alloc: Global, said: &[Said]) -> Result<Catalogue, Fail> {
    let mut catalogue = database(alloc)?;
    make(
        alloc,
        &mut catalogue,
        &["create-relation", "d", "r", "n", "v", "k"],
    )?;
    for s in said {
        make(
            alloc,
            &mut catalogue,
            &["insert", "d", "r", s.name, s.value, s.key],
        )?;
    }
    Ok(catalogue)
}

/// The names as tables: `d::x(k, v)` and others.
pub fn as_tables(alloc: Global, said: &[Said]) -> Result<Catalogue, Fail> {
    let mut catalogue = database(alloc)?;
    for s in said {
        make(
            alloc,
            &mut catalogue,
            &["create-relation", "d", s.name, "k", "v"],
        )?;
        make(
            alloc,
            &mut catalogue,
            &["insert", "d", s.name, s.key, s.value],
        )?;
    }
    Ok(catalogue)
}

/// The names as columns, with a row for each of them: `d::r(k, x, y, z)`.
pub fn as_columns(alloc: Global, said: &[Said]) -> Result<Catalogue, Fail> {
    let mut catalogue = database(alloc)?;
    make(
        alloc,
        &mut catalogue,
        &["create-relation", "d", "r", "k", "x", "y", "z"],
    )?;
    for s in said {
        let x = if s.name == "x" { s.value } else { "" };
        let y = if s.name == "y" { s.value } else { "" };
        let z = if s.name == "z" { s.value } else { "" };
        make(alloc, &mut catalogue, &["insert", "d", "r", s.key, x, y, z])?;
    }
    Ok(catalogue)
}

/// Whether one has a name that is none of a table.
pub fn has_no_label(said: &[Said]) -> bool {
    for s in said {
        if s.name == "" || s.name == "a/b" {
            return true;
        }
    }
    false
}

/// Whether one has a name that is none of a column beside that of the keys.
pub fn has_no_column(said: &[Said]) -> bool {
    for s in said {
        if s.name == "" || s.name == "k" {
            return true;
        }
    }
    false
}

fn clash(one: &Said, other: &Said) -> bool {
    one.key == other.key
        && one.name == other.name
        && one.value != other.value
        && one.value != ""
        && other.value != ""
}

/// Whether two of them give a key and a name two values.
pub fn has_clash(said: &[Said]) -> bool {
    for one in said {
        for other in said {
            if clash(one, other) {
                return true;
            }
        }
    }
    false
}
