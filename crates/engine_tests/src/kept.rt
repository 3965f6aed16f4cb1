//! Kept tables beside others.

use kept_tables::{KeptTable, KeptTables};
use row_shelves::KeptRow;
use ss_text::{NoMemory, Text};
use std::alloc::Global;

// The rows of a table, shelf by shelf.
fn rows_of<'a>(alloc: Global, table: &'a KeptTable) -> Result<Vec<&'a KeptRow>, NoMemory> {
    let mut rows = Vec::new(alloc);
    for shelf in table.shelves() {
        for row in shelf.rows() {
            rows.push(row)?;
        }
    }
    Ok(rows)
}

// Whether columns, keys and cells are the same.
fn is_same(alloc: Global, table: &KeptTable, other: &KeptTable) -> Result<bool, NoMemory> {
    let rows = rows_of(alloc, table)?;
    let others = rows_of(alloc, other)?;
    for (row, other) in rows.iter().zip(&others) {
        if row.key() != other.key() || row.cells() != other.cells() {
            return Ok(false);
        }
    }
    Ok(rows.len() == others.len() && table.columns() == other.columns())
}

// Whether the table of a label is the same among both.
fn is_same_at(
    alloc: Global,
    tables: &KeptTables,
    others: &KeptTables,
    label: &Text,
) -> Result<bool, NoMemory> {
    match (tables.table_of(label), others.table_of(label)) {
        (Some(table), Some(other)) => is_same(alloc, table, other),
        _ => Ok(false),
    }
}

/// Whether labels and tables are the same.
pub fn are_same(alloc: Global, tables: &KeptTables, others: &KeptTables) -> Result<bool, NoMemory> {
    let labels = tables.labels(alloc)?;
    if labels != others.labels(alloc)? {
        return Ok(false);
    }
    for label in &labels {
        if !is_same_at(alloc, tables, others, label)? {
            return Ok(false);
        }
    }
    Ok(true)
}
