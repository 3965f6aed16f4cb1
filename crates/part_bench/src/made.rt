//! Rows that are made of numbers.
ghost use Rattle.std.specs.Prelude.{◌≡◌, length, vec_len, IfOk};

use ss_text::{NoMemory, Row, Text};
use std::alloc::Global;

/// The row of these two numbers.
pub(crate) fn row(alloc: Global, first: u32, second: u32) -> Result<Row, NoMemory> {
    let mut cells = Vec::with_capacity(alloc, 2)?;
    cells.push(Text::of(alloc, &first.to_be_bytes())?)?;
    cells.push(Text::of(alloc, &second.to_be_bytes())?)?;
    Ok(Row::of(cells))
}

/// So many rows, three of each first number.
pub(crate) fn rows(alloc: Global, count: u32) -> Result<Vec<Row>, NoMemory> {
    let mut rows = Vec::new(alloc);
    for number in 0..count {
        rows.push(row(alloc, number / 3, number)?)?;
    }
    Ok(rows)
}

/// That row alone.
pub(crate) fn one(alloc: Global, first: u32, second: u32) -> Result<Vec<Row>, NoMemory>
    ensures { IfOk result (λ rows. vec_len rows ≡ 1) }
{
    let mut rows = Vec::with_capacity(alloc, 1)?;
    rows.push(row(alloc, first, second)?)?;
    Ok(rows)
}
