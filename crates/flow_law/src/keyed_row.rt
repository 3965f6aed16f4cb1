//! A row of a table.
ghost use Rattle.std.specs.Prelude.{◌≡◌, ◌≤◌, ◌<◌, [], map, replicate, length, OnOk, IfOk};
ghost use Rattle.std.specs.List.{All};
ghost use Rattle.flow_law.specs.Lines.{with_empty_cell, with_cell_at, without_cell};
ghost use Rattle.flow_law.specs.KeyedRows.{row_value, row_values, HasRoom};

use ss_text::{NoMemory, Row, Text};
use std::alloc::Global;

/// A key, and a cell for each dynamic column.
#[derive(Debug, Drop)]
pub(crate) struct KeyedRow {
    pub(crate) key: Row,
    pub(crate) cells: Vec<Text>,
}

impl KeyedRow {
    /// A row of empty cells.
    pub(crate) fn empty(alloc: Global, key: &Row, count: usize) -> Result<KeyedRow, NoMemory>
        ensures { IfOk result (λ row. row_value row ≡ (key.now, replicate count [])) }
    {
        let mut cells = Vec::new(alloc);
        for _ in 0..count {
            cells.push(Text::empty(alloc))?;
        }
        Ok(KeyedRow {
            key: key.copy()?,
            cells,
        })
    }

    /// Takes the memory for one more cell.
    fn make_room(&mut self) -> Result<(), NoMemory>
        ensures same { row_value self.new ≡ row_value self.old }
        ensures room { OnOk result (HasRoom self.new) }
    {
        self.cells.reserve(1)?;
        Ok(())
    }

    /// Puts an empty cell at this place, for which there is room.
    fn insert_cell(&mut self, alloc: Global, place: usize)
        requires room { HasRoom self.old }
        requires within { place ≤ length self.old.cells.items }
        ensures { row_value self.new ≡ with_empty_cell place (row_value self.old) }
    {
        let Ok(()) = self.cells.insert(place, Text::empty(alloc)) else {
            unreachable!()
        };
    }

    /// Gives the cell at this place another value.
    pub(crate) fn set_cell(&mut self, place: usize, value: Text)
        requires { place < length self.old.cells.items }
        ensures { row_value self.new ≡ with_cell_at place value (row_value self.old) }
    {
        self.cells[place] = value;
    }

    /// Takes the cell at this place out.
    fn remove_cell(&mut self, place: usize)
        requires { place < length self.old.cells.items }
        ensures { row_value self.new ≡ without_cell place (row_value self.old) }
    {
        self.cells.remove(place);
    }
}

/// Takes the memory for one more cell in each row.
pub(crate) fn make_room(rows: &mut Vec<KeyedRow>) -> Result<(), NoMemory>
    ensures same { row_values rows.new.items ≡ row_values rows.old.items }
    ensures room { OnOk result (All HasRoom rows.new.items) }
{
    for row in rows.iter_mut() {
        row.make_room()?;
    }
    Ok(())
}

/// Puts an empty cell into each row, at this place.
pub(crate) fn insert_cells(alloc: Global, rows: &mut Vec<KeyedRow>, place: usize)
    requires room { All HasRoom rows.old.items }
    requires within { All (λ r. place ≤ length r.1) (row_values rows.old.items) }
    ensures { row_values rows.new.items ≡ map (with_empty_cell place) (row_values rows.old.items) }
{
    for row in rows.iter_mut() {
        row.insert_cell(alloc, place);
    }
}

/// Takes the cell at this place out of each row.
pub(crate) fn remove_cells(rows: &mut Vec<KeyedRow>, place: usize)
    requires { All (λ r. place < length r.1) (row_values rows.old.items) }
    ensures { row_values rows.new.items ≡ map (without_cell place) (row_values rows.old.items) }
{
    for row in rows.iter_mut() {
        row.remove_cell(place);
    }
}
