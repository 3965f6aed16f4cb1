//! The lines of changes and of scripts, by their rows.
ghost use Rattle.std.specs.Prelude.{◌≡◌, IfOk};
ghost use Rattle.schema_model.specs.Reading.{line_of};
ghost use Rattle.feed_core.specs.Packed.{is_first};
ghost use Rattle.feed_core.specs.Handled.{table_line, row_line, column_line, cell_line, line_in};

use crate::PackedRows;
use flow_law::TableLine;
use schema_model::Change;
use ss_text::{NoMemory, Row, Text};
use std::alloc::Global;

/// Whether the first of some rows is the line of a change. It takes no memory.
pub(crate) fn is_line(rows: &PackedRows, change: &Change) -> bool
    ensures { result ≡ is_first (line_of change.now) rows.now }
{
    match change {
        Change::Insert { db, rel, row } => rows.first_is(b"insert", &[db, rel], row.cells()),
        Change::Delete { db, rel, row } => rows.first_is(b"delete", &[db, rel], row.cells()),
        Change::AddAttribute {
            db,
            rel,
            name,
            fill,
        } => rows.first_is(b"add-attribute", &[db, rel, name, fill], &[]),
        Change::DropAttribute { db, rel, name } => {
            rows.first_is(b"drop-attribute", &[db, rel, name], &[])
        }
        Change::RenameAttribute { db, rel, name, to } => {
            rows.first_is(b"rename-attribute", &[db, rel, name, to], &[])
        }
        Change::CreateRelation {
            db,
            rel,
            attributes,
        } => rows.first_is(b"create-relation", &[db, rel], attributes.cells()),
        Change::DropRelation { db, rel } => rows.first_is(b"drop-relation", &[db, rel], &[]),
        Change::RenameRelation { db, rel, to } => {
            rows.first_is(b"rename-relation", &[db, rel, to], &[])
        }
        Change::CreateDatabase { db } => rows.first_is(b"create-database", &[db], &[]),
        Change::DropDatabase { db } => rows.first_is(b"drop-database", &[db], &[]),
        Change::RenameDatabase { db, to } => rows.first_is(b"rename-database", &[db, to], &[]),
    }
}

/// The line of a script whose printed row this is. No other row is kept.
pub(crate) fn line_in(alloc: Global, row: &Row) -> Result<TableLine, NoMemory>
    ensures { IfOk result (λ line. line ≡ line_in row.now) }
{
    let [word, fields @ ..] = row.cells() else {
        return Err(NoMemory);
    };
    match word.as_slice() {
        b"table-" => table_minus(fields),
        b"table+" => table_plus(fields),
        b"row-" => row_minus(alloc, fields),
        b"column-" => column_minus(fields),
        b"column+" => column_plus(fields),
        b"row+" => row_plus(alloc, fields),
        b"cell" => cell(alloc, fields),
        _ => Err(NoMemory),
    }
}

fn table_minus(fields: &[Text]) -> Result<TableLine, NoMemory>
    ensures { IfOk result (λ line. line ≡ table_line TableLine.TableMinus fields.now) }
{
    let [label, ..] = fields else {
        return Err(NoMemory);
    };
    Ok(TableLine::TableMinus {
        label: label.copy()?,
    })
}

fn table_plus(fields: &[Text]) -> Result<TableLine, NoMemory>
    ensures { IfOk result (λ line. line ≡ table_line TableLine.TablePlus fields.now) }
{
    let [label, ..] = fields else {
        return Err(NoMemory);
    };
    Ok(TableLine::TablePlus {
        label: label.copy()?,
    })
}

fn row_minus(alloc: Global, fields: &[Text]) -> Result<TableLine, NoMemory>
    ensures { IfOk result (λ line. line ≡ row_line TableLine.RowMinus fields.now) }
{
    let [label, key @ ..] = fields else {
        return Err(NoMemory);
    };
    Ok(TableLine::RowMinus {
        label: label.copy()?,
        key: Row::of_copies(alloc, key)?,
    })
}

fn column_minus(fields: &[Text]) -> Result<TableLine, NoMemory>
    ensures { IfOk result (λ line. line ≡ column_line TableLine.ColumnMinus fields.now) }
{
    let [label, column, ..] = fields else {
        return Err(NoMemory);
    };
    Ok(TableLine::ColumnMinus {
        label: label.copy()?,
        column: column.copy()?,
    })
}

fn column_plus(fields: &[Text]) -> Result<TableLine, NoMemory>
    ensures { IfOk result (λ line. line ≡ column_line TableLine.ColumnPlus fields.now) }
{
    let [label, column, ..] = fields else {
        return Err(NoMemory);
    };
    Ok(TableLine::ColumnPlus {
        label: label.copy()?,
        column: column.copy()?,
    })
}

fn row_plus(alloc: Global, fields: &[Text]) -> Result<TableLine, NoMemory>
    ensures { IfOk result (λ line. line ≡ row_line TableLine.RowPlus fields.now) }
{
    let [label, key @ ..] = fields else {
        return Err(NoMemory);
    };
    Ok(TableLine::RowPlus {
        label: label.copy()?,
        key: Row::of_copies(alloc, key)?,
    })
}

fn cell(alloc: Global, fields: &[Text]) -> Result<TableLine, NoMemory>
    ensures { IfOk result (λ line. line ≡ cell_line fields.now) }
{
    let [label, column, value, key @ ..] = fields else {
        return Err(NoMemory);
    };
    Ok(TableLine::Cell {
        label: label.copy()?,
        column: column.copy()?,
        value: value.copy()?,
        key: Row::of_copies(alloc, key)?,
    })
}
