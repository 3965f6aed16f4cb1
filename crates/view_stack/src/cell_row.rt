//! The row that a line of a cell may go on with.
ghost use Rattle.std.specs.Prelude.{◌≡◌, ◌∷◌, ◌++◌, [], Some, map, option_map, OnOk};
ghost use Rattle.std.specs.Option.{option_to_list};
ghost use Rattle.view_stack.specs.Lifted.{row_of, goes_on};
ghost use Rattle.view_stack.specs.Records.{front_cells};

use flow_law::TableLine;
use ss_text::{NoMemory, Row, Text};
use std::marker::Model;

/// The label and the key of a line that brings a row, or is of a cell.
#[derive(Drop)]
pub(crate) struct CellRow<'a> {
    label: &'a Text,
    key: &'a Row,
}

impl<'a> Model for CellRow<'a> {
    ghost use Rattle.ss_text.specs.Texts.{Text, Row};

    ghost Value = { Text × Row };

    ghost view = { λ r. (r.label.now, r.key.now) };
}

impl<'a> CellRow<'a> {
    /// The row of a line, if it brings one or is of a cell.
    pub(crate) fn of(line: &'a TableLine) -> Option<CellRow<'a>>
        ensures { result ≡ row_of line.now }
    {
        match line {
            TableLine::RowPlus { label, key } | TableLine::Cell { label, key, .. } => {
                Some(CellRow { label, key })
            }
            TableLine::TableMinus { .. }
            | TableLine::TablePlus { .. }
            | TableLine::RowMinus { .. }
            | TableLine::ColumnMinus { .. }
            | TableLine::ColumnPlus { .. } => None,
        }
    }

    // Whether a line is of a cell in the row.
    fn has(&self, line: &TableLine) -> bool
        ensures { result ≡ goes_on (Some self.now) line.now }
    {
        match line {
            TableLine::Cell { label, key, .. } => self.label == label && self.key == key,
            TableLine::TableMinus { .. }
            | TableLine::TablePlus { .. }
            | TableLine::RowMinus { .. }
            | TableLine::ColumnMinus { .. }
            | TableLine::ColumnPlus { .. }
            | TableLine::RowPlus { .. } => false,
        }
    }
}

/// Whether a line is of a cell in this row.
pub(crate) fn goes_on(row: &Option<CellRow<'_>>, line: &TableLine) -> bool
    ensures { result ≡ goes_on row.now line.now }
{
    match row {
        Some(row) => row.has(line),
        None => false,
    }
}

// The column and the value of a line, if it is of a cell in a row.
fn cell_of<'a>(label: &Text, key: &Row, line: &'a TableLine) -> Option<(&'a Text, &'a Text)>
    ensures { option_to_list (option_map (λ c. (c.0.now, c.1.now)) result) ≡ front_cells label.now key.now (line.now ∷ []) }
{
    match line {
        TableLine::Cell {
            label: other,
            column,
            value,
            key: own,
        } => {
            if label == other && key == own {
                Some((column, value))
            } else {
                None
            }
        }
        TableLine::TableMinus { .. }
        | TableLine::TablePlus { .. }
        | TableLine::RowMinus { .. }
        | TableLine::ColumnMinus { .. }
        | TableLine::ColumnPlus { .. }
        | TableLine::RowPlus { .. } => None,
    }
}

/// Puts the columns and values of the lines at the front last that are of cells in a row.
pub(crate) fn push_front<'a>(
    cells: &mut Vec<(&'a Text, &'a Text)>,
    label: &Text,
    key: &Row,
    lines: &'a [TableLine],
) -> Result<(), NoMemory>
    ensures { OnOk result (map (λ c. (c.0.now, c.1.now)) cells.new.items ≡ map (λ c. (c.0.now, c.1.now)) cells.old.items ++ front_cells label.now key.now lines.now) }
{
    for line in lines {
        let Some(cell) = cell_of(label, key, line) else {
            return Ok(());
        };
        cells.push(cell)?;
    }
    Ok(())
}
