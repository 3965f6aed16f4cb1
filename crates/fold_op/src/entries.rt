//! Flat rows of one attribute's name and cell.
ghost use Rattle.std.specs.Prelude.{◌≡◌, ◌++◌, ◌∷◌, [], IfOk, OnOk, map};
ghost use Rattle.operator_law.specs.Rows.{cells_at};
ghost use Rattle.fold_op.specs.Cells.{cell_at};
ghost use Rattle.fold_op.specs.Flat.{entry, entries};

use crate::cells::{cell_at, cells_at};
use ss_text::{NoMemory, Row, Text};
use std::alloc::Global;

/// Adds a row's flat rows, one for each attribute.
pub(crate) fn push_entries(
    alloc: Global,
    flat: &mut Vec<Row>,
    places: &[usize],
    attributes: &Row,
    row: &Row,
) -> Result<(), NoMemory>
    ensures { OnOk result (flat.new.items ≡ flat.old.items ++ entries places.now attributes.now row.now) }
{
    let (names, cells) = (attributes.cells(), row.cells());
    let count = names.len().min(cells.len());
    for k in 0..count {
        push_entry(alloc, flat, places, row, &names[k], &cells[k])?;
    }
    Ok(())
}

/// Each row's flat row for the attribute of this name, at this place.
pub(crate) fn column_rows(
    alloc: Global,
    places: &[usize],
    name: &Text,
    rows: &[&Row],
    place: usize,
) -> Result<Vec<Row>, NoMemory>
    ensures { IfOk result (λ flat. flat.items ≡ map (λ row. entry (cells_at places.now row) name.now (cell_at row place)) (map (λ r. r.now) rows.now)) }
{
    let mut flat = Vec::with_capacity(alloc, rows.len())?;
    for row in rows {
        let cell = cell_at(alloc, row, place)?;
        push_entry(alloc, &mut flat, places, row, name, &cell)?;
    }
    Ok(flat)
}

fn push_entry(
    alloc: Global,
    flat: &mut Vec<Row>,
    places: &[usize],
    row: &Row,
    name: &Text,
    cell: &Text,
) -> Result<(), NoMemory>
    ensures { OnOk result (flat.new.items ≡ flat.old.items ++ entry (cells_at places.now row.now) name.now cell.now ∷ []) }
{
    let mut cells = cells_at(alloc, places, row)?;
    cells.push(name.copy()?)?;
    cells.push(cell.copy()?)?;
    flat.push(Row::of(cells))?;
    Ok(())
}
