//! Moves of rows as moves of facts.
ghost use Rattle.std.specs.Prelude.{◌≡◌, ◌++◌, ℕ, length, map, filter_map, option_to_list, All, IfOk, OnOk};
ghost use Rattle.flow_law.specs.FactRows.{fact_width};
ghost use Rattle.unfold_op.specs.Moves.{AreNets};
ghost use Rattle.unfold_op.specs.FactMoves.{fact_moves, key_move, column_move, entry_move};

use crate::facts::Nets;
use crate::parts::key_in;
use counts::{Move, Net};
use flow_law::Shape;
use operator_law::Signed;
use ss_text::{NoMemory, Row, Text};
use std::alloc::Global;

fn key_move(alloc: Global, shape: &Shape, m: &Signed) -> Result<Move<Row>, NoMemory>
    requires { length m.now.row ≡ fact_width shape.now }
    ensures { IfOk result (λ key. key ≡ key_move shape.now m.now) }
{
    let key = key_in(alloc, shape, &m.row)?;
    Ok(Move { key, up: m.up })
}

fn column_move(shape: &Shape, m: &Signed) -> Result<Option<Move<Text>>, NoMemory>
    requires { length m.now.row ≡ fact_width shape.now }
    ensures { IfOk result (λ column. column ≡ column_move shape.now m.now) }
{
    match shape.spot {
        None => Ok(None),
        Some(_) => {
            let key = m.row.cells()[shape.constants.cells().len() + 1].copy()?;
            Ok(Some(Move { key, up: m.up }))
        }
    }
}

fn entry_move(
    alloc: Global,
    shape: &Shape,
    m: &Signed,
) -> Result<Option<Move<((Row, Text), Text)>>, NoMemory>
    requires { length m.now.row ≡ fact_width shape.now }
    ensures { IfOk result (λ entry. entry ≡ entry_move shape.now m.now) }
{
    if shape.spot.is_none() {
        return Ok(None);
    }
    let cells = m.row.cells();
    let count = shape.constants.cells().len();
    if cells[count + 2].as_slice().is_empty() {
        return Ok(None);
    }
    let key = key_in(alloc, shape, &m.row)?;
    let column = cells[count + 1].copy()?;
    let value = cells[count + 2].copy()?;
    Ok(Some(Move {
        key: ((key, column), value),
        up: m.up,
    }))
}

fn key_moves(alloc: Global, shape: &Shape, moves: &[Signed]) -> Result<Vec<Move<Row>>, NoMemory>
    requires { All (λ m. length m.row ≡ fact_width shape.now) moves.now }
    ensures { IfOk result (λ keys. keys.items ≡ map (key_move shape.now) moves.now) }
{
    let mut keys = Vec::new(alloc);
    for m in moves {
        keys.push(key_move(alloc, shape, m)?)?;
    }
    Ok(keys)
}

fn push_column(columns: &mut Vec<Move<Text>>, column: Option<Move<Text>>) -> Result<(), NoMemory>
    ensures { OnOk result (columns.new.items ≡ columns.old.items ++ option_to_list column) }
{
    if let Some(column) = column {
        columns.push(column)?;
    }
    Ok(())
}

fn column_moves(alloc: Global, shape: &Shape, moves: &[Signed]) -> Result<Vec<Move<Text>>, NoMemory>
    requires { All (λ m. length m.row ≡ fact_width shape.now) moves.now }
    ensures { IfOk result (λ columns. columns.items ≡ filter_map (column_move shape.now) moves.now) }
{
    let mut columns = Vec::new(alloc);
    for m in moves {
        let column = column_move(shape, m)?;
        push_column(&mut columns, column)?;
    }
    Ok(columns)
}

fn push_entry(
    entries: &mut Vec<Move<((Row, Text), Text)>>,
    entry: Option<Move<((Row, Text), Text)>>,
) -> Result<(), NoMemory>
    ensures { OnOk result (entries.new.items ≡ entries.old.items ++ option_to_list entry) }
{
    if let Some(entry) = entry {
        entries.push(entry)?;
    }
    Ok(())
}

fn entry_moves(
    alloc: Global,
    shape: &Shape,
    moves: &[Signed],
) -> Result<Vec<Move<((Row, Text), Text)>>, NoMemory>
    requires { All (λ m. length m.row ≡ fact_width shape.now) moves.now }
    ensures { IfOk result (λ entries. entries.items ≡ filter_map (entry_move shape.now) moves.now) }
{
    let mut entries = Vec::new(alloc);
    for m in moves {
        let entry = entry_move(alloc, shape, m)?;
        push_entry(&mut entries, entry)?;
    }
    Ok(entries)
}

/// What moves of fact rows come to.
pub(crate) fn nets_of(alloc: Global, shape: &Shape, moves: &[Signed]) -> Result<Nets, NoMemory>
    requires { All (λ m. length m.row ≡ fact_width shape.now) moves.now }
    ensures { IfOk result (λ nets. AreNets nets (fact_moves shape.now moves.now)) }
{
    let keys = Net::of(alloc, key_moves(alloc, shape, moves)?)?;
    let columns = Net::of(alloc, column_moves(alloc, shape, moves)?)?;
    let entries = Net::of(alloc, entry_moves(alloc, shape, moves)?)?;
    Ok(Nets {
        keys,
        columns,
        entries,
    })
}
