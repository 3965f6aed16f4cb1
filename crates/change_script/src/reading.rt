//! What a printed line says.
ghost use Rattle.std.specs.Prelude.{◌≡◌, Ok, Err};
ghost use Rattle.flow_law.specs.declared.line.TableLine.{TableLine};
ghost use Rattle.change_script.specs.Reading.{IsAnswer, wrong_count, table_said, column_said, row_said, cell_said, script_line_of};
ghost use Rattle.change_script.specs.declared.reading.ScriptLine.{ScriptLine};

use crate::verb::Verb;
use flow_law::TableLine;
use ss_text::{NoMemory, Row, Text};
use std::alloc::Global;

/// What a printed line says of tables.
#[derive(Debug, Drop)]
pub enum ScriptLine {
    /// One step by which they change.
    Change(TableLine),
    /// Nothing: it is one of the lines that end an answer.
    Passed,
}

/// Why a line says nothing that a script could.
#[derive(Clone, Copy, Debug, PartialEq, Eq)]
pub enum ScriptFault {
    /// The first field is no verb, or there is none.
    UnknownVerb,
    /// The verb wants another number of fields; `got` counts the verb too.
    FieldCount { got: usize },
    NoMemory,
}

impl From<NoMemory> for ScriptFault {
    ghost use Rattle.std.specs.Prelude.{◌≡◌};
    ghost use Rattle.change_script.specs.declared.reading.ScriptFault.{ScriptFault};

    ghost from_gives = { λ _ fault. fault ≡ ScriptFault.NoMemory };

    fn from(_: NoMemory) -> Self {
        ScriptFault::NoMemory
    }
}

/// What a line of fields says: the change whose printed row it is, or nothing where its first field is `done`,
/// `refused`, `synced`, `begun`, `held` or `aborted`.
pub fn read_script_line(alloc: Global, line: &Row) -> Result<ScriptLine, ScriptFault>
    ensures { IsAnswer (script_line_of line.now) result }
{
    let [name, fields @ ..] = line.cells() else {
        return Err(ScriptFault::UnknownVerb);
    };
    match Verb::of(name) {
        None => Err(ScriptFault::UnknownVerb),
        Some(Verb::TableMinus) => read_table_minus(fields),
        Some(Verb::TablePlus) => read_table_plus(fields),
        Some(Verb::RowMinus) => read_row_minus(alloc, fields),
        Some(Verb::ColumnMinus) => read_column_minus(fields),
        Some(Verb::ColumnPlus) => read_column_plus(fields),
        Some(Verb::RowPlus) => read_row_plus(alloc, fields),
        Some(Verb::Cell) => read_cell(alloc, fields),
        Some(
            Verb::Done | Verb::Refused | Verb::Synced | Verb::Begun | Verb::Held | Verb::Aborted,
        ) => Ok(ScriptLine::Passed),
    }
}

fn read_table_minus(fields: &[Text]) -> Result<ScriptLine, ScriptFault>
    ensures { IsAnswer (table_said TableLine.TableMinus fields.now) result }
{
    let [label] = fields else {
        return Err(wrong_count(fields));
    };
    Ok(ScriptLine::Change(TableLine::TableMinus {
        label: label.copy()?,
    }))
}

fn read_table_plus(fields: &[Text]) -> Result<ScriptLine, ScriptFault>
    ensures { IsAnswer (table_said TableLine.TablePlus fields.now) result }
{
    let [label] = fields else {
        return Err(wrong_count(fields));
    };
    Ok(ScriptLine::Change(TableLine::TablePlus {
        label: label.copy()?,
    }))
}

fn read_row_minus(alloc: Global, fields: &[Text]) -> Result<ScriptLine, ScriptFault>
    ensures { IsAnswer (row_said TableLine.RowMinus fields.now) result }
{
    let [label, key @ ..] = fields else {
        return Err(wrong_count(fields));
    };
    if key.is_empty() {
        return Err(wrong_count(fields));
    }
    Ok(ScriptLine::Change(TableLine::RowMinus {
        label: label.copy()?,
        key: Row::of_copies(alloc, key)?,
    }))
}

fn read_column_minus(fields: &[Text]) -> Result<ScriptLine, ScriptFault>
    ensures { IsAnswer (column_said TableLine.ColumnMinus fields.now) result }
{
    let [label, column] = fields else {
        return Err(wrong_count(fields));
    };
    Ok(ScriptLine::Change(TableLine::ColumnMinus {
        label: label.copy()?,
        column: column.copy()?,
    }))
}

fn read_column_plus(fields: &[Text]) -> Result<ScriptLine, ScriptFault>
    ensures { IsAnswer (column_said TableLine.ColumnPlus fields.now) result }
{
    let [label, column] = fields else {
        return Err(wrong_count(fields));
    };
    Ok(ScriptLine::Change(TableLine::ColumnPlus {
        label: label.copy()?,
        column: column.copy()?,
    }))
}

fn read_row_plus(alloc: Global, fields: &[Text]) -> Result<ScriptLine, ScriptFault>
    ensures { IsAnswer (row_said TableLine.RowPlus fields.now) result }
{
    let [label, key @ ..] = fields else {
        return Err(wrong_count(fields));
    };
    if key.is_empty() {
        return Err(wrong_count(fields));
    }
    Ok(ScriptLine::Change(TableLine::RowPlus {
        label: label.copy()?,
        key: Row::of_copies(alloc, key)?,
    }))
}

fn read_cell(alloc: Global, fields: &[Text]) -> Result<ScriptLine, ScriptFault>
    ensures { IsAnswer (cell_said fields.now) result }
{
    let [label, column, value, key @ ..] = fields else {
        return Err(wrong_count(fields));
    };
    if key.is_empty() {
        return Err(wrong_count(fields));
    }
    Ok(ScriptLine::Change(TableLine::Cell {
        label: label.copy()?,
        column: column.copy()?,
        value: value.copy()?,
        key: Row::of_copies(alloc, key)?,
    }))
}

// The fault of a verb with a wrong number of further fields.
fn wrong_count(fields: &[Text]) -> ScriptFault
    ensures { Err result ≡ wrong_count fields.now }
{
    ScriptFault::FieldCount {
        got: fields.len() + 1,
    }
}
