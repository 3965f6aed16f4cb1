//! Kept tables beside others.

use flow_law::{Table, Tables};
use kept_tables::{KeptTable, KeptTables};
use row_shelves::KeptRow;
use ss_text::Text;

// Whether this is the row of a table at a place.
fn is_row(table: &Table, place: usize, row: &KeptRow) -> bool {
    place < table.count() && row.key() == table.key(place) && row.cells() == table.cells(place)
}

// Whether the rows on a shelf are those of a table from a place on, and how many rows are before the next shelf.
fn row_behind(table: &Table, first: usize, shelf: &[KeptRow]) -> Option<usize> {
    let mut place = first;
    for row in shelf {
        if !is_row(table, place, row) {
            return None;
        }
        place = place.checked_add(1)?;
    }
    Some(place)
}

// Whether columns, keys and cells are the same.
fn is_table(kept: &KeptTable, table: &Table) -> bool {
    let mut place = 0;
    for shelf in kept.shelves() {
        match row_behind(table, place, shelf.rows()) {
            Some(behind) => place = behind,
            None => return false,
        }
    }
    place == table.count() && kept.columns() == table.columns()
}

// Whether this is the table at a place, under its label.
fn is_at(tables: &Tables, place: usize, label: &Text, kept: &KeptTable) -> bool {
    place < tables.count() && label == tables.label(place) && is_table(kept, tables.table(place))
}

/// Whether labels and tables are the same.
pub fn are_same(kept: &KeptTables, tables: &Tables) -> bool {
    let mut place: usize = 0;
    for slot in kept.slots() {
        if let Some(table) = slot.table() {
            if !is_at(tables, place, slot.label(), table) {
                return false;
            }
            place = place.saturating_add(1);
        }
    }
    place == tables.count()
}
