//! The changes of a run.
ghost use Rattle.std.specs.Prelude.{◌≡◌, ◌+◌, IfOk, IsTrue};
ghost use Rattle.schema_model.specs.Changes.{is_well_formed};
ghost use Rattle.load_run.specs.Generator.{row_with, row_at, inserts, deletes, change_at};

use crate::number::number_behind;
use schema_model::Change;
use ss_text::{NoMemory, Row, Text};
use std::alloc::Global;

// The change at a place, from 0: of each ten, eight insert a row, the ninth deletes the first of these, and the last
// gives another value for the key and the column of the third.
#[tactic(auto, using(crate::proofs::GeneratorLemmas::last_below))]
pub(crate) fn change_at(alloc: Global, seed: u32, place: u32) -> Result<Change, NoMemory>
    ensures change { IfOk result (λ change. change ≡ change_at seed place) }
    ensures well_formed { IfOk result (λ change. IsTrue (is_well_formed change)) }
{
    let last = place % 10;
    if last < 8 {
        insert(alloc, row_at(alloc, seed, place)?)
    } else if last == 8 {
        delete(alloc, row_at(alloc, seed, place - 8)?)
    } else {
        let row = row_with(alloc, value_at(seed, place), seed, place - 7)?;
        insert(alloc, row)
    }
}

// The value of a place.
fn value_at(seed: u32, place: u32) -> u64
    ensures { result ≡ place + seed }
{
    u64::from(place) + u64::from(seed)
}

// The row of a place.
fn row_at(alloc: Global, seed: u32, place: u32) -> Result<Row, NoMemory>
    ensures { IfOk result (λ row. row ≡ row_at seed place) }
{
    row_with(alloc, value_at(seed, place), seed, place)
}

// The key and the column of a place, with a value.
fn row_with(alloc: Global, value: u64, seed: u32, place: u32) -> Result<Row, NoMemory>
    ensures { IfOk result (λ row. row ≡ row_with value seed place) }
{
    let mut cells = Vec::new(alloc);
    cells.push(number_behind(alloc, b"k", u128::from(place / 10))?)?;
    cells.push(number_behind(alloc, b"d", u128::from(value_at(seed, place) % 8))?)?;
    cells.push(number_behind(alloc, b"", u128::from(value))?)?;
    Ok(Row::of(cells))
}

// A row is put into the relation.
fn insert(alloc: Global, row: Row) -> Result<Change, NoMemory>
    ensures change { IfOk result (λ change. change ≡ inserts row) }
    ensures well_formed { IfOk result (λ change. IsTrue (is_well_formed change)) }
{
    let db = Text::of(alloc, b"g")?;
    let rel = Text::of(alloc, b"r")?;
    Ok(Change::Insert { db, rel, row })
}

// A row is taken out of the relation.
fn delete(alloc: Global, row: Row) -> Result<Change, NoMemory>
    ensures change { IfOk result (λ change. change ≡ deletes row) }
    ensures well_formed { IfOk result (λ change. IsTrue (is_well_formed change)) }
{
    let db = Text::of(alloc, b"g")?;
    let rel = Text::of(alloc, b"r")?;
    Ok(Change::Delete { db, rel, row })
}
