//! The rows that are printed for a script.
ghost use Rattle.std.specs.Prelude.{◌≡◌, ◌∷◌, ◌++◌, map, IfOk};
ghost use Rattle.change_script.specs.Printed.{verb_name, printed};

use crate::Script;
use crate::verb::Verb;
use flow_law::TableLine;
use ss_text::{NoMemory, Row, Text};
use std::alloc::Global;

/// A row for each line of the script, in order: the line's name, the label, the column and the value where the
/// line has them, and the key's texts.
pub fn script_lines(alloc: Global, script: &Script) -> Result<Vec<Row>, NoMemory>
    ensures { IfOk result (λ rows. rows.items ≡ map printed script.now) }
{
    let mut rows = Vec::with_capacity(alloc, script.lines().len())?;
    for line in script.lines() {
        rows.push(printed(alloc, line)?)?;
    }
    Ok(rows)
}

fn printed(alloc: Global, line: &TableLine) -> Result<Row, NoMemory>
    ensures { IfOk result (λ row. row ≡ printed line.now) }
{
    match line {
        TableLine::TableMinus { label } => row(alloc, Verb::TableMinus, &[label], &[]),
        TableLine::TablePlus { label } => row(alloc, Verb::TablePlus, &[label], &[]),
        TableLine::RowMinus { label, key } => row(alloc, Verb::RowMinus, &[label], key.cells()),
        TableLine::ColumnMinus { label, column } => {
            row(alloc, Verb::ColumnMinus, &[label, column], &[])
        }
        TableLine::ColumnPlus { label, column } => {
            row(alloc, Verb::ColumnPlus, &[label, column], &[])
        }
        TableLine::RowPlus { label, key } => row(alloc, Verb::RowPlus, &[label], key.cells()),
        TableLine::Cell {
            label,
            column,
            value,
            key,
        } => row(alloc, Verb::Cell, &[label, column, value], key.cells()),
    }
}

// The row of a verb, the texts behind it and those of a key.
fn row(alloc: Global, verb: Verb, texts: &[&Text], key: &[Text]) -> Result<Row, NoMemory>
    ensures { IfOk result (λ row. row ≡ verb_name verb ∷ (map (λ t. t.now) texts.now ++ key.now)) }
{
    let mut cells = Vec::with_capacity(alloc, 1 + texts.len() + key.len())?;
    cells.push(Text::of(alloc, verb.name())?)?;
    for text in texts {
        cells.push(text.copy()?)?;
    }
    for text in key {
        cells.push(text.copy()?)?;
    }
    Ok(Row::of(cells))
}
