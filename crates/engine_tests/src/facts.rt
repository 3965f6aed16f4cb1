//! Facts as rows, which come and go.
ghost use Rattle.std.specs.Prelude.{◌≡◌, ◌∷◌, [], IfOk, IfSome, IsTrue};
ghost use Rattle.std.specs.List.{list_all, position};
ghost use Rattle.ss_text.specs.Texts.{row_eq};
ghost use Rattle.flow_law.specs.FactRows.{fact_width};
ghost use Rattle.operator_law.specs.declared.delta.Signed.{Signed as SignedValue};
ghost use Rattle.operator_law.specs.Bags.{MovesBag};
ghost use Rattle.view_engine.specs.Forms.{MovesForm};
ghost use Rattle.engine_tests.specs.Facts.{bears, is_fact_row};

use flow_law::Shape;
use operator_law::{Delta, Signed};
use ss_text::{NoMemory, Row, Text};
use std::alloc::Global;

/// The row of these words, which are parted by spaces.
pub fn row(alloc: Global, words: &str) -> Result<Row, NoMemory> {
    let mut cells = Vec::new(alloc);
    for word in words.split(' ') {
        cells.push(Text::of(alloc, word.as_bytes())?)?;
    }
    Ok(Row::of(cells))
}

/// The moves that a text tells, which are parted by commas: `+` and the words of a row that comes, or `-` and those of
/// one that goes.
pub fn moves(alloc: Global, text: &str) -> Result<Delta, NoMemory> {
    let mut moves = Vec::new(alloc);
    for told in text.split(',') {
        if let Some((sign, words)) = told.split_once(' ') {
            let row = row(alloc, words)?;
            moves.push(Signed {
                row,
                up: sign == "+",
            })?;
        }
    }
    Ok(Delta { moves })
}

// How many texts the row of a fact of this form has.
fn width(shape: &Shape) -> usize
    ensures { result ≡ fact_width shape.now }
{
    let constants = shape.constants.cells().len();
    match shape.spot {
        None => constants + 1,
        Some(_) => constants + 3,
    }
}

// Whether a row begins with the constant label, where there is one.
fn bears(label: &Option<Text>, row: &Row) -> bool
    ensures { result ≡ bears label.now row.now }
{
    match (label, row.cells()) {
        (None, _) => true,
        (Some(label), [first, ..]) => label == first,
        (Some(label), []) => label.as_slice().is_empty(),
    }
}

// Whether a row is that of a fact of this form.
fn is_fact(shape: &Shape, row: &Row) -> bool
    ensures { result ≡ is_fact_row shape.now row.now }
{
    row.cells().len() == width(shape) && bears(&shape.label, row)
}

fn are_facts(shape: &Shape, rows: &[Row]) -> bool
    ensures { result ≡ list_all (is_fact_row shape.now) rows.now }
{
    rows.iter().all(|row| is_fact(shape, row))
}

fn move_facts(shape: &Shape, moves: &[Signed]) -> bool
    ensures { result ≡ list_all (λ (m : SignedValue). is_fact_row shape.now m.row) moves.now }
{
    moves.iter().all(|m| is_fact(shape, &m.row))
}

// The place of the first row that equals this one.
fn place_of(rows: &[Row], row: &Row) -> Option<usize>
    ensures { result ≡ position (row_eq row.now) rows.now }
{
    rows.iter().position(|there| row == there)
}

// Moves rows once, and tells whether a row that goes was there.
fn move_one(rows: &mut Vec<Row>, m: &Signed) -> Result<bool, NoMemory>
    ensures { IfOk result (λ moved. IsTrue moved → MovesBag rows.old.items (m.now ∷ []) rows.new.items) }
{
    if m.up {
        rows.push(m.row.copy()?)?;
        return Ok(true);
    }
    match place_of(rows, &m.row) {
        Some(place) => {
            rows.remove(place);
            Ok(true)
        }
        None => Ok(false),
    }
}

// And by one move after the other.
fn move_all(rows: &mut Vec<Row>, moves: &[Signed]) -> Result<bool, NoMemory>
    ensures { IfOk result (λ moved. IsTrue moved → MovesBag rows.old.items moves.now rows.new.items) }
{
    for m in moves {
        if !move_one(rows, m)? {
            return Ok(false);
        }
    }
    Ok(true)
}

fn copies(alloc: Global, rows: &[Row]) -> Result<Vec<Row>, NoMemory>
    ensures { IfOk result (λ copies. copies.items ≡ rows.now) }
{
    let mut copies = Vec::with_capacity(alloc, rows.len())?;
    for row in rows {
        copies.push(row.copy()?)?;
    }
    Ok(copies)
}

/// The rows after moves, where all these are of facts of this form and those that go are there.
pub fn rows_after(
    alloc: Global,
    shape: &Shape,
    rows: &[Row],
    moves: &[Signed],
) -> Result<Option<Vec<Row>>, NoMemory>
    ensures { IfOk result (λ told. IfSome told (λ after. MovesForm shape.now moves.now rows.now after.items)) }
{
    let mut after = copies(alloc, rows)?;
    if move_all(&mut after, moves)? && are_facts(shape, &after) && move_facts(shape, moves) {
        Ok(Some(after))
    } else {
        Ok(None)
    }
}
