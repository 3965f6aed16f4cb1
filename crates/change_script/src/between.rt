//! The script of two values of tables.
ghost use Rattle.std.specs.Prelude.{◌≡◌, ◌<◌, [], ◌∷◌, ◌++◌, map, length, filter_map, flat_map, slice_index_or, IfOk, OnOk};
ghost use Rattle.ss_text.specs.Texts.{text_cmp};
ghost use Rattle.ss_text.specs.Ascending.{ascending};
ghost use Rattle.flow_law.specs.Tables.{empty_table, labels_of, table_of, row_keys, row_at, cells_of};
ghost use Rattle.flow_law.specs.Script.{keys_beyond, columns_beyond, cell_line, lines_between, lines_for, script};

use crate::Script;
use flow_law::{Table, TableLine, Tables};
use ss_text::{NoMemory, Text, make_ascending};
use std::alloc::Global;

impl Script {
    /// The lines by which new tables differ from old ones, label by label, ascending. A table's rows that go stand
    /// first, then its columns that go, the columns that come, the rows that come, and, key by key, each cell
    /// whose value is another than before.
    #[tactic(auto, unfolding(flow_law::specs::Script::script))]
    pub fn between(alloc: Global, old: &Tables, new: &Tables) -> Result<Script, NoMemory>
        ensures { IfOk result (λ lines. lines ≡ script old.now new.now) }
    {
        let labels = labels(alloc, old, new)?;
        let mut lines = Vec::new(alloc);
        for label in &labels {
            push_lines_for(alloc, &mut lines, label, old, new)?;
        }
        Ok(Script::of(lines))
    }
}

// The labels of old and new tables, each once, ascending.
fn labels(alloc: Global, old: &Tables, new: &Tables) -> Result<Vec<Text>, NoMemory>
    ensures { IfOk result (λ labels. labels.items ≡ ascending text_cmp (labels_of old.now ++ labels_of new.now)) }
{
    let mut labels = Vec::new(alloc);
    push_labels(&mut labels, old)?;
    push_labels(&mut labels, new)?;
    make_ascending(&mut labels)?;
    Ok(labels)
}

fn push_labels(labels: &mut Vec<Text>, tables: &Tables) -> Result<(), NoMemory>
    ensures { OnOk result (labels.new.items ≡ labels.old.items ++ labels_of tables.now) }
{
    for place in 0..tables.count() {
        labels.push(tables.label(place).copy()?)?;
    }
    Ok(())
}

// The lines for a label, whose table may be missing before and after.
fn push_lines_for(
    alloc: Global,
    lines: &mut Vec<TableLine>,
    label: &Text,
    old: &Tables,
    new: &Tables,
) -> Result<(), NoMemory>
    ensures { OnOk result (lines.new.items ≡ lines.old.items ++ lines_for label.now (table_of old.now label.now) (table_of new.now label.now)) }
{
    match (old.table_of(label), new.table_of(label)) {
        (None, None) => Ok(()),
        (Some(_), None) => push_table_gone(lines, label),
        (None, Some(table)) => push_table_new(alloc, lines, label, table),
        (Some(before), Some(after)) => push_changed(lines, label, before, after),
    }
}

fn push_table_gone(lines: &mut Vec<TableLine>, label: &Text) -> Result<(), NoMemory>
    ensures { OnOk result (lines.new.items ≡ lines.old.items ++ TableLine.TableMinus label.now ∷ []) }
{
    lines.push(TableLine::TableMinus {
        label: label.copy()?,
    })?;
    Ok(())
}

fn push_table_new(
    alloc: Global,
    lines: &mut Vec<TableLine>,
    label: &Text,
    table: &Table,
) -> Result<(), NoMemory>
    ensures { OnOk result (lines.new.items ≡ lines.old.items ++ TableLine.TablePlus label.now ∷ lines_between label.now empty_table table.now) }
{
    lines.push(TableLine::TablePlus {
        label: label.copy()?,
    })?;
    let empty = Table::of_columns(Vec::new(alloc));
    push_changed(lines, label, &empty, table)
}

// The lines for one table.
fn push_changed(
    lines: &mut Vec<TableLine>,
    label: &Text,
    old: &Table,
    new: &Table,
) -> Result<(), NoMemory>
    ensures { OnOk result (lines.new.items ≡ lines.old.items ++ lines_between label.now old.now new.now) }
{
    push_rows_gone(lines, label, old, new)?;
    push_columns_gone(lines, label, old, new)?;
    push_columns_new(lines, label, old, new)?;
    push_rows_new(lines, label, old, new)?;
    push_cells(lines, label, old, new)
}

fn push_rows_gone(
    lines: &mut Vec<TableLine>,
    label: &Text,
    old: &Table,
    new: &Table,
) -> Result<(), NoMemory>
    ensures { OnOk result (lines.new.items ≡ lines.old.items ++ map (λ key. TableLine.RowMinus label.now key) (keys_beyond (row_keys new.now) (row_keys old.now))) }
{
    for row in 0..old.count() {
        let key = old.key(row);
        if !new.has_row(key) {
            lines.push(TableLine::RowMinus {
                label: label.copy()?,
                key: key.copy()?,
            })?;
        }
    }
    Ok(())
}

fn push_columns_gone(
    lines: &mut Vec<TableLine>,
    label: &Text,
    old: &Table,
    new: &Table,
) -> Result<(), NoMemory>
    ensures { OnOk result (lines.new.items ≡ lines.old.items ++ map (λ column. TableLine.ColumnMinus label.now column) (columns_beyond new.now.columns old.now.columns)) }
{
    for column in old.columns() {
        if !new.has_column(column) {
            lines.push(TableLine::ColumnMinus {
                label: label.copy()?,
                column: column.copy()?,
            })?;
        }
    }
    Ok(())
}

fn push_columns_new(
    lines: &mut Vec<TableLine>,
    label: &Text,
    old: &Table,
    new: &Table,
) -> Result<(), NoMemory>
    ensures { OnOk result (lines.new.items ≡ lines.old.items ++ map (λ column. TableLine.ColumnPlus label.now column) (columns_beyond old.now.columns new.now.columns)) }
{
    for column in new.columns() {
        if !old.has_column(column) {
            lines.push(TableLine::ColumnPlus {
                label: label.copy()?,
                column: column.copy()?,
            })?;
        }
    }
    Ok(())
}

fn push_rows_new(
    lines: &mut Vec<TableLine>,
    label: &Text,
    old: &Table,
    new: &Table,
) -> Result<(), NoMemory>
    ensures { OnOk result (lines.new.items ≡ lines.old.items ++ map (λ key. TableLine.RowPlus label.now key) (keys_beyond (row_keys old.now) (row_keys new.now))) }
{
    for row in 0..new.count() {
        let key = new.key(row);
        if !old.has_row(key) {
            lines.push(TableLine::RowPlus {
                label: label.copy()?,
                key: key.copy()?,
            })?;
        }
    }
    Ok(())
}

// The lines for the new table's cells, key by key.
fn push_cells(
    lines: &mut Vec<TableLine>,
    label: &Text,
    old: &Table,
    new: &Table,
) -> Result<(), NoMemory>
    ensures { OnOk result (lines.new.items ≡ lines.old.items ++ flat_map (λ key. filter_map (cell_line label.now old.now new.now key) new.now.columns) (row_keys new.now)) }
{
    for row in 0..new.count() {
        push_cells_of(lines, label, old, new, row)?;
    }
    Ok(())
}

// Those of one row of the new table. Its cells before are looked up once.
fn push_cells_of(
    lines: &mut Vec<TableLine>,
    label: &Text,
    old: &Table,
    new: &Table,
    row: usize,
) -> Result<(), NoMemory>
    requires { row < length new.now.rows }
    ensures { OnOk result (lines.new.items ≡ lines.old.items ++ filter_map (cell_line label.now old.now new.now (row_at row new.now).0) new.now.columns) }
{
    let before = old.cells_of(new.key(row));
    for column in 0..new.columns().len() {
        if let Some(line) = cell_line(label, old, new, before, row, column)? {
            lines.push(line)?;
        }
    }
    Ok(())
}

// The line for the cell of a row and a column of the new table, where its value is another than before.
fn cell_line(
    label: &Text,
    old: &Table,
    new: &Table,
    before: &[Text],
    row: usize,
    column: usize,
) -> Result<Option<TableLine>, NoMemory>
    requires row_there { row < length new.now.rows }
    requires column_there { column < length new.now.columns }
    requires before { before.now ≡ cells_of old.now (row_at row new.now).0 }
    ensures { IfOk result (λ line. line ≡ cell_line label.now old.now new.now (row_at row new.now).0 (slice_index_or new.now.columns column [])) }
{
    let name = &new.columns()[column];
    let value = new.cell(row, column);
    if old.cell_in(before, name) == value.as_slice() {
        return Ok(None);
    }
    Ok(Some(TableLine::Cell {
        label: label.copy()?,
        column: name.copy()?,
        value: value.copy()?,
        key: new.key(row).copy()?,
    }))
}
