//! What becomes of moves, as text: lines as a script prints them, or a refusal, their fields parted by spaces and the
//! lines by commas.

use change_script::{Script, script_lines};
use flow_law::{Clash, EvalFault, IllegalLabel, TableLine};
use ss_text::{NoMemory, Row, Text};
use std::alloc::Global;

// Puts a row last, behind a comma where there are others.
fn put_row(bytes: &mut Vec<u8>, row: &Row) -> Result<(), NoMemory> {
    if !bytes.is_empty() {
        bytes.push(b',')?;
    }
    for (at, cell) in row.cells().iter().enumerate() {
        if at > 0 {
            bytes.push(b' ')?;
        }
        bytes.extend_from_slice(cell.as_slice())?;
    }
    Ok(())
}

// The rows as text.
fn rows_text(alloc: Global, rows: &[Row]) -> Result<Text, NoMemory> {
    let mut bytes = Vec::new(alloc);
    for row in rows {
        put_row(&mut bytes, row)?;
    }
    Text::of_vec(bytes)
}

/// The lines of a script.
pub fn lines_text(alloc: Global, lines: Vec<TableLine>) -> Result<Text, NoMemory> {
    let script = Script::of(lines);
    let rows = script_lines(alloc, &script);
    drop(script);
    let rows = rows?;
    rows_text(alloc, &rows)
}

// The fields of a label that is not legal.
fn put_label(cells: &mut Vec<Text>, label: IllegalLabel) -> Result<(), NoMemory> {
    let IllegalLabel { table, column } = label;
    cells.push(table)?;
    if let Some(column) = column {
        cells.push(column)?;
    }
    Ok(())
}

// The fields of two values for one cell.
fn put_clash(cells: &mut Vec<Text>, clash: Clash) -> Result<(), NoMemory> {
    let Clash {
        table,
        column,
        first,
        second,
        key,
    } = clash;
    cells.push(table)?;
    cells.push(column)?;
    cells.push(first)?;
    cells.push(second)?;
    for cell in key.cells() {
        cells.push(cell.copy()?)?;
    }
    Ok(())
}

// The fields of a refusal.
fn put_stop(alloc: Global, cells: &mut Vec<Text>, stop: EvalFault) -> Result<(), NoMemory> {
    match stop {
        EvalFault::Illegal(label) => {
            cells.push(Text::of(alloc, b"illegal-label")?)?;
            put_label(cells, label)
        }
        EvalFault::Conflict(clash) => {
            cells.push(Text::of(alloc, b"conflict")?)?;
            put_clash(cells, clash)
        }
        EvalFault::NoMemory => Err(NoMemory),
    }
}

/// A refusal; want of memory is no text.
pub fn stop_text(alloc: Global, stop: EvalFault) -> Result<Text, NoMemory> {
    let mut cells = Vec::new(alloc);
    put_stop(alloc, &mut cells, stop)?;
    let row = Row::of(cells);
    rows_text(alloc, &[row])
}
