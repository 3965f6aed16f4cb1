//! Flat rows behind names, each with the room that it needs.
ghost use Rattle.std.specs.Prelude.{◌≡◌, ◌++◌, ◌∷◌, [], IfOk, OnOk, slice_index_or};
ghost use Rattle.operator_law.specs.Rows.{cells_at};
ghost use Rattle.fold_op.specs.Flat.{entry};
ghost use Rattle.unite_op.specs.NamedThings.{rows_behind};

use ss_text::{NoMemory, Row, Text};
use std::alloc::Global;

fn push_texts(cells: &mut Vec<Text>, texts: &[Text]) -> Result<(), NoMemory>
    ensures { OnOk result (cells.new.items ≡ cells.old.items ++ texts.now) }
{
    for text in texts {
        cells.push(text.copy()?)?;
    }
    Ok(())
}

// The cell at a place, empty where the row has none there.
fn cell_at(alloc: Global, row: &Row, place: usize) -> Result<Text, NoMemory>
    ensures { IfOk result (λ cell. cell ≡ slice_index_or row.now place []) }
{
    match row.cells().get(place) {
        Some(cell) => cell.copy(),
        None => Ok(Text::empty(alloc)),
    }
}

fn push_cells(
    alloc: Global,
    cells: &mut Vec<Text>,
    places: &[usize],
    row: &Row,
) -> Result<(), NoMemory>
    ensures { OnOk result (cells.new.items ≡ cells.old.items ++ cells_at places.now row.now) }
{
    for place in places {
        cells.push(cell_at(alloc, row, *place)?)?;
    }
    Ok(())
}

// The texts of names, with room for so many more.
fn begun(alloc: Global, names: &Row, more: usize) -> Result<Vec<Text>, NoMemory>
    ensures { IfOk result (λ cells. cells.items ≡ names.now) }
{
    let width = names.cells().len().saturating_add(more);
    let mut cells = Vec::with_capacity(alloc, width)?;
    push_texts(&mut cells, names.cells())?;
    Ok(cells)
}

// The names, and the cells of a row at these places, with room for so many more.
fn picked(
    alloc: Global,
    names: &Row,
    places: &[usize],
    row: &Row,
    more: usize,
) -> Result<Vec<Text>, NoMemory>
    ensures { IfOk result (λ cells. cells.items ≡ names.now ++ cells_at places.now row.now) }
{
    let mut cells = begun(alloc, names, places.len().saturating_add(more))?;
    push_cells(alloc, &mut cells, places, row)?;
    Ok(cells)
}

/// The names, and one more behind them.
pub(crate) fn with_name(alloc: Global, names: &Row, name: &Text) -> Result<Row, NoMemory>
    ensures { IfOk result (λ row. row ≡ names.now ++ name.now ∷ []) }
{
    let mut cells = begun(alloc, names, 1)?;
    cells.push(name.copy()?)?;
    Ok(Row::of(cells))
}

// Adds a row behind names.
fn push_row(alloc: Global, flat: &mut Vec<Row>, names: &Row, row: &Row) -> Result<(), NoMemory>
    ensures { OnOk result (flat.new.items ≡ flat.old.items ++ (names.now ++ row.now) ∷ []) }
{
    let mut cells = begun(alloc, names, row.cells().len())?;
    push_texts(&mut cells, row.cells())?;
    flat.push(Row::of(cells))?;
    Ok(())
}

/// Adds rows, each behind names.
pub(crate) fn push_rows(
    alloc: Global,
    flat: &mut Vec<Row>,
    names: &Row,
    rows: &[Row],
) -> Result<(), NoMemory>
    ensures { OnOk result (flat.new.items ≡ flat.old.items ++ rows_behind names.now rows.now) }
{
    for row in rows {
        push_row(alloc, flat, names, row)?;
    }
    Ok(())
}

/// Adds the cells of a row at these places, behind names.
pub(crate) fn push_picked(
    alloc: Global,
    flat: &mut Vec<Row>,
    names: &Row,
    places: &[usize],
    row: &Row,
) -> Result<(), NoMemory>
    ensures { OnOk result (flat.new.items ≡ flat.old.items ++ (names.now ++ cells_at places.now row.now) ∷ []) }
{
    let cells = picked(alloc, names, places, row, 0)?;
    flat.push(Row::of(cells))?;
    Ok(())
}

/// Adds the same with an attribute's name and its cell.
pub(crate) fn push_entry(
    alloc: Global,
    flat: &mut Vec<Row>,
    names: &Row,
    places: &[usize],
    row: &Row,
    name: &Text,
    cell: &Text,
) -> Result<(), NoMemory>
    ensures { OnOk result (flat.new.items ≡ flat.old.items ++ (names.now ++ entry (cells_at places.now row.now) name.now cell.now) ∷ []) }
{
    let mut cells = picked(alloc, names, places, row, 2)?;
    cells.push(name.copy()?)?;
    cells.push(cell.copy()?)?;
    flat.push(Row::of(cells))?;
    Ok(())
}
