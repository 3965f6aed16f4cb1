//! The lines of one table.
ghost use Rattle.std.specs.Prelude.{◌≡◌, ◌<◌, ◌+◌, ◌++◌, [], ◌∷◌, map, filter, filter_map, nat_lt, length, ◌&&◌, Some, None, option_to_list, IfOk, IfErr, OnOk};
ghost use Rattle.std.specs.List.Sorted.{IsStrictlySortedBy};
ghost use Rattle.ss_text.specs.Texts.{row_eq, text_eq};
ghost use Rattle.flow_law.specs.declared.line.TableLine.TheVariants as line;
ghost use Rattle.counts.specs.Counted.{counted, keys_of, after, goes, CanMove};
ghost use Rattle.unfold_op.specs.Touched.{place_cmp};
ghost use Rattle.unfold_op.specs.Kept.{held, value_held, value_among, place_line, outer_lines, first_clash, first_illegal, places_of};
ghost use Rattle.unfold_op.specs.Nets.{before, now, CanMoveAll, present_of, net_lines};
ghost use Rattle.unfold_op.specs.Stopped.{StopsFor};

use crate::facts::{FactCounts, Nets};
use crate::values::{first_clash, places, present, touched, value_among, value_held};
use counts::count_of;
use flow_law::{Clash, EvalFault, IllegalLabel, TableLine};
use ss_text::{NoMemory, Row, Text, column_label_legal};
use std::alloc::Global;

pub(crate) fn push_rows_gone(
    lines: &mut Vec<TableLine>,
    label: &Text,
    keys: &[Row],
) -> Result<(), NoMemory>
    ensures { OnOk result (lines.new.items ≡ lines.old.items ++ map (λ key. line.RowMinus label.now key) keys.now) }
{
    for key in keys {
        lines.push(TableLine::RowMinus {
            label: label.copy()?,
            key: key.copy()?,
        })?;
    }
    Ok(())
}

pub(crate) fn push_columns_gone(
    lines: &mut Vec<TableLine>,
    label: &Text,
    columns: &[Text],
) -> Result<(), NoMemory>
    ensures { OnOk result (lines.new.items ≡ lines.old.items ++ map (λ column. line.ColumnMinus label.now column) columns.now) }
{
    for column in columns {
        lines.push(TableLine::ColumnMinus {
            label: label.copy()?,
            column: column.copy()?,
        })?;
    }
    Ok(())
}

pub(crate) fn push_columns_new(
    lines: &mut Vec<TableLine>,
    label: &Text,
    columns: &[Text],
) -> Result<(), NoMemory>
    ensures { OnOk result (lines.new.items ≡ lines.old.items ++ map (λ column. line.ColumnPlus label.now column) columns.now) }
{
    for column in columns {
        lines.push(TableLine::ColumnPlus {
            label: label.copy()?,
            column: column.copy()?,
        })?;
    }
    Ok(())
}

pub(crate) fn push_rows_new(
    lines: &mut Vec<TableLine>,
    label: &Text,
    keys: &[Row],
) -> Result<(), NoMemory>
    ensures { OnOk result (lines.new.items ≡ lines.old.items ++ map (λ key. line.RowPlus label.now key) keys.now) }
{
    for key in keys {
        lines.push(TableLine::RowPlus {
            label: label.copy()?,
            key: key.copy()?,
        })?;
    }
    Ok(())
}

// Whether the row and the column of a place are there after the change.
fn is_there(counts: &FactCounts, nets: &Nets, place: &(Row, Text)) -> bool
    requires { CanMoveAll counts.now nets.now }
    ensures { result ≡ (nat_lt 0 ((now counts.now nets.now).keys place.now.0) && nat_lt 0 ((now counts.now nets.now).columns place.now.1)) }
{
    let row = nets.keys.after(count_of(&counts.keys, &place.0), &place.0);
    let column = nets
        .columns
        .after(count_of(&counts.columns, &place.1), &place.1);
    row > 0 && column > 0
}

// The line for a place, where its value is another than before.
fn place_line(
    alloc: Global,
    label: &Text,
    counts: &FactCounts,
    nets: &Nets,
    present: &[((Row, Text), Text)],
    place: &(Row, Text),
) -> Result<Option<TableLine>, NoMemory>
    requires moves { CanMoveAll counts.now nets.now }
    requires ascend { IsStrictlySortedBy place_cmp (map (λ e. e.0) present.now) }
    ensures { IfOk result (λ line. line ≡ place_line label.now (now counts.now nets.now).keys (now counts.now nets.now).columns (value_held counts.now.cells) (value_among present.now) place.now) }
{
    if !is_there(counts, nets, place) {
        return Ok(None);
    }
    let value = value_among(present, place);
    if value_held(&counts.cells, place) == value {
        return Ok(None);
    }
    Ok(Some(TableLine::Cell {
        label: label.copy()?,
        column: place.1.copy()?,
        value: Text::of(alloc, value)?,
        key: place.0.copy()?,
    }))
}

fn push_place(lines: &mut Vec<TableLine>, line: Option<TableLine>) -> Result<(), NoMemory>
    ensures { OnOk result (lines.new.items ≡ lines.old.items ++ option_to_list line) }
{
    if let Some(line) = line {
        lines.push(line)?;
    }
    Ok(())
}

// The lines for the cells at these places.
pub(crate) fn push_cells(
    alloc: Global,
    lines: &mut Vec<TableLine>,
    label: &Text,
    counts: &FactCounts,
    nets: &Nets,
    present: &[((Row, Text), Text)],
    places: &[(Row, Text)],
) -> Result<(), NoMemory>
    requires moves { CanMoveAll counts.now nets.now }
    requires ascend { IsStrictlySortedBy place_cmp (map (λ e. e.0) present.now) }
    ensures { OnOk result (lines.new.items ≡ lines.old.items
        ++ filter_map (place_line label.now (now counts.now nets.now).keys (now counts.now nets.now).columns (value_held counts.now.cells) (value_among present.now)) places.now) }
{
    for place in places {
        let line = place_line(alloc, label, counts, nets, present, place)?;
        push_place(lines, line)?;
    }
    Ok(())
}

// The lines for rows and columns that go and come.
pub(crate) fn outer_lines(
    alloc: Global,
    label: &Text,
    counts: &FactCounts,
    nets: &Nets,
) -> Result<Vec<TableLine>, NoMemory>
    requires { CanMoveAll counts.now nets.now }
    ensures { IfOk result (λ lines. lines.items ≡ outer_lines label.now (before counts.now) (now counts.now nets.now) (keys_of nets.now.keys) (keys_of nets.now.columns)) }
{
    let mut lines = Vec::new(alloc);
    let gone = nets.keys.gone(alloc, &counts.keys)?;
    push_rows_gone(&mut lines, label, &gone)?;
    let gone = nets.columns.gone(alloc, &counts.columns)?;
    push_columns_gone(&mut lines, label, &gone)?;
    let begun = nets.columns.begun(alloc, &counts.columns)?;
    push_columns_new(&mut lines, label, &begun)?;
    let begun = nets.keys.begun(alloc, &counts.keys)?;
    push_rows_new(&mut lines, label, &begun)?;
    Ok(lines)
}

// The entries at the named places that are there after the change.
pub(crate) fn present_of(
    alloc: Global,
    counts: &FactCounts,
    nets: &Nets,
    places: &[(Row, Text)],
) -> Result<Vec<((Row, Text), Text)>, NoMemory>
    requires moves { CanMoveAll counts.now nets.now }
    requires places { places.now ≡ places_of (keys_of nets.now.entries) }
    ensures { IfOk result (λ entries. entries.items ≡ present_of counts.now nets.now) }
{
    let touched = touched(alloc, &counts.cells, nets.entries.tallies(), places)?;
    let entries = present(alloc, &counts.cells, &nets.entries, &touched)?;
    Ok(entries)
}

// The lines, where no place has two values.
fn lines_of(
    alloc: Global,
    label: &Text,
    counts: &FactCounts,
    nets: &Nets,
    present: &[((Row, Text), Text)],
    places: &[(Row, Text)],
) -> Result<Vec<TableLine>, NoMemory>
    requires moves { CanMoveAll counts.now nets.now }
    requires ascend { IsStrictlySortedBy place_cmp (map (λ e. e.0) present.now) }
    ensures { IfOk result (λ lines. lines.items ≡ outer_lines label.now (before counts.now) (now counts.now nets.now) (keys_of nets.now.keys) (keys_of nets.now.columns)
        ++ filter_map (place_line label.now (now counts.now nets.now).keys (now counts.now nets.now).columns (value_held counts.now.cells) (value_among present.now)) places.now) }
{
    let mut lines = outer_lines(alloc, label, counts, nets)?;
    push_cells(alloc, &mut lines, label, counts, nets, present, places)?;
    Ok(lines)
}

fn illegal_label(
    label: &Text,
    constants: &Row,
    columns: &[Text],
) -> Result<Option<IllegalLabel>, NoMemory>
    ensures { IfOk result (λ found. found ≡ first_illegal label.now constants.now columns.now) }
{
    let mut place = 0;
    while let [column, ..] = &columns[place..] {
        if !column_label_legal(column, constants) {
            return Ok(Some(IllegalLabel {
                table: label.copy()?,
                column: Some(column.copy()?),
            }));
        }
        place += 1;
    }
    Ok(None)
}

// The first column that begins and is not legal.
fn first_illegal(
    alloc: Global,
    label: &Text,
    constants: &Row,
    counts: &FactCounts,
    nets: &Nets,
) -> Result<Option<IllegalLabel>, NoMemory>
    requires { CanMoveAll counts.now nets.now }
    ensures { IfOk result (λ found. found ≡ first_illegal label.now constants.now (filter (goes (now counts.now nets.now).columns (before counts.now).columns) (keys_of nets.now.columns))) }
{
    let begun = nets.columns.begun(alloc, &counts.columns)?;
    let found = illegal_label(label, constants, &begun)?;
    Ok(found)
}

// The lines by which the table changes, or the clash of two values.
#[tactic(auto, using(crate::proofs::Clashes::present_ascends))]
fn clash_or_lines(
    alloc: Global,
    label: &Text,
    counts: &FactCounts,
    nets: &Nets,
) -> Result<Result<Vec<TableLine>, Clash>, NoMemory>
    requires { CanMoveAll counts.now nets.now }
    ensures none { IfOk result (λ answer. IfOk answer (λ lines. first_clash label.now (present_of counts.now nets.now) ≡ None)) }
    ensures ok { IfOk result (λ answer. IfOk answer (λ lines. lines.items ≡ net_lines label.now counts.now nets.now)) }
    ensures err { IfOk result (λ answer. IfErr answer (λ clash. first_clash label.now (present_of counts.now nets.now) ≡ Some clash)) }
{
    let places = places(alloc, nets.entries.tallies())?;
    let present = present_of(alloc, counts, nets, &places)?;
    if let Some(clash) = first_clash(label, &present)? {
        return Ok(Err(clash));
    }
    let lines = lines_of(alloc, label, counts, nets, &present, &places)?;
    Ok(Ok(lines))
}

/// The lines by which the table changes, or why there are none: an illegal column before a clash of two values.
pub fn net_lines(
    alloc: Global,
    label: &Text,
    constants: &Row,
    counts: &FactCounts,
    nets: &Nets,
) -> Result<Vec<TableLine>, EvalFault>
    requires { CanMoveAll counts.now nets.now }
    ensures legal { IfOk result (λ lines. first_illegal label.now constants.now (filter (goes (now counts.now nets.now).columns (before counts.now).columns) (keys_of nets.now.columns)) ≡ None) }
    ensures none { IfOk result (λ lines. first_clash label.now (present_of counts.now nets.now) ≡ None) }
    ensures ok { IfOk result (λ lines. lines.items ≡ net_lines label.now counts.now nets.now) }
    ensures err { IfErr result (λ s. StopsFor (first_illegal label.now constants.now (filter (goes (now counts.now nets.now).columns (before counts.now).columns) (keys_of nets.now.columns)))
        (first_clash label.now (present_of counts.now nets.now)) s) }
{
    if let Some(found) = first_illegal(alloc, label, constants, counts, nets)? {
        return Err(EvalFault::Illegal(found));
    }
    match clash_or_lines(alloc, label, counts, nets)? {
        Ok(lines) => Ok(lines),
        Err(clash) => Err(EvalFault::Conflict(clash)),
    }
}
