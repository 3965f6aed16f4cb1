//! What is told of a run.
ghost use Rattle.std.specs.Prelude.{◌≡◌, ◌++◌, ◌∷◌, [], IfOk, OnOk, decimal};
ghost use Rattle.load_run.specs.Summaries.{summary_row};

use crate::number::number_behind;
use ss_text::{NoMemory, Row, Text};
use std::alloc::Global;

/// How many keys and dynamic columns a table has, and how many bytes its file.
#[derive(Clone, Copy, Debug, PartialEq, Eq)]
pub struct Size {
    pub rows: usize,
    pub columns: usize,
    pub bytes: usize,
}

/// What is told of a run: how many changes were accepted and how many refused, the lines of all their scripts, and
/// the size of the table in the end.
#[derive(Clone, Copy, Debug, PartialEq, Eq)]
pub struct Summary {
    pub accepted: u32,
    pub refused: u32,
    pub lines: u128,
    pub table: Size,
}

/// The fields of the line that tells the summary of so many changes with a seed.
pub fn summary_row(
    alloc: Global,
    changes: u32,
    seed: u32,
    summary: &Summary,
) -> Result<Row, NoMemory>
    ensures { IfOk result (λ row. row ≡ summary_row changes seed summary.now) }
{
    let mut row = Vec::new(alloc);
    row.push(Text::of(alloc, b"load")?)?;
    row.push(number_behind(alloc, b"", u128::from(changes))?)?;
    row.push(number_behind(alloc, b"", u128::from(seed))?)?;
    push_named(alloc, &mut row, b"accepted", u128::from(summary.accepted))?;
    push_named(alloc, &mut row, b"refused", u128::from(summary.refused))?;
    push_named(alloc, &mut row, b"lines", summary.lines)?;
    push_named(alloc, &mut row, b"rows", summary.table.rows as u128)?;
    push_named(alloc, &mut row, b"columns", summary.table.columns as u128)?;
    push_named(alloc, &mut row, b"bytes", summary.table.bytes as u128)?;
    Ok(Row::of(row))
}

// Puts a name and its number last.
fn push_named(alloc: Global, row: &mut Vec<Text>, name: &[u8], number: u128) -> Result<(), NoMemory>
    ensures { OnOk result (row.new.items ≡ row.old.items ++ name.now ∷ decimal number ∷ []) }
{
    row.push(Text::of(alloc, name)?)?;
    row.push(number_behind(alloc, b"", number)?)?;
    Ok(())
}
