//! The printed fields of each refusal of a line and of a view folder.
ghost use Rattle.std.specs.Prelude.{◌≡◌, ◌∷◌, true, map, IfOk, OnOk};
ghost use Rattle.view_folder.specs.declared.held.TablesFault.{TablesFault};
ghost use Rattle.std.specs.Option.{option_copied};
ghost use Rattle.view_folder.specs.Held.{is_refusal};
ghost use Rattle.plain_commands.specs.Refused.{escape_fields, script_fields, first_field, apply_fields, illegal_fields, tables_fields, column_in, target_in};

use change_script::{ApplyFault, ScriptFault};
use flow_law::{IllegalLabel, TableLine};
use ss_print::number_text;
use ss_text::{NoMemory, Row, Text};
use std::alloc::Global;
use view_folder::TablesFault;

// The row of a name and of these texts.
fn row(alloc: Global, name: &[u8], texts: &[&Text]) -> Result<Row, NoMemory>
    ensures { IfOk result (λ row. row ≡ name.now ∷ map (λ t. t.now) texts.now) }
{
    let mut fields = Vec::with_capacity(alloc, 1 + texts.len())?;
    fields.push(Text::of(alloc, name)?)?;
    for text in texts {
        fields.push(text.copy()?)?;
    }
    Ok(Row::of(fields))
}

// A line with a backslash that spells nothing: its place, from 0.
pub(crate) fn escape_fields(alloc: Global, at: usize) -> Result<Row, NoMemory>
    ensures { IfOk result (λ row. row ≡ escape_fields at) }
{
    let at = number_text(alloc, at)?;
    row(alloc, b"bad-escape", &[&at])
}

// A line that says nothing that a script could. Want of memory is no refusal, and has no fields.
pub(crate) fn script_fields(alloc: Global, line: &Row, fault: ScriptFault) -> Result<Row, NoMemory>
    ensures { IfOk result (λ row. row ≡ script_fields line.now fault) }
{
    let first = first_field(alloc, line)?;
    match fault {
        ScriptFault::UnknownVerb => row(alloc, b"unknown-verb", &[&first]),
        ScriptFault::FieldCount { got } => {
            let got = number_text(alloc, got)?;
            row(alloc, b"field-count", &[&first, &got])
        }
        ScriptFault::NoMemory => Ok(Row::of(Vec::new(alloc))),
    }
}

// The first field of a line.
fn first_field(alloc: Global, line: &Row) -> Result<Text, NoMemory>
    ensures { IfOk result (λ text. text ≡ first_field line.now) }
{
    match line.cells() {
        [first, ..] => first.copy(),
        [] => Ok(Text::empty(alloc)),
    }
}

// A line that is not applied. Want of memory is no refusal, and has no fields.
pub(crate) fn apply_fields(
    alloc: Global,
    line: &TableLine,
    fault: &ApplyFault,
) -> Result<Row, NoMemory>
    ensures { IfOk result (λ row. row ≡ apply_fields line.now fault.now) }
{
    match fault {
        ApplyFault::KeyLength { want, got } => {
            let want = number_text(alloc, *want)?;
            let got = number_text(alloc, *got)?;
            row(alloc, b"key-length", &[&want, &got])
        }
        ApplyFault::Illegal(label) => illegal_fields(alloc, label),
        ApplyFault::NoTarget => target_fields(alloc, b"no-target", line),
        ApplyFault::TargetThere => target_fields(alloc, b"target-there", line),
        ApplyFault::NoMemory => Ok(Row::of(Vec::new(alloc))),
    }
}

fn illegal_fields(alloc: Global, label: &IllegalLabel) -> Result<Row, NoMemory>
    ensures { IfOk result (λ row. row ≡ illegal_fields label.now) }
{
    match &label.column {
        Some(column) => row(alloc, b"illegal-label", &[&label.table, column]),
        None => row(alloc, b"illegal-label", &[&label.table]),
    }
}

// A name, a line's label, and its column where it names one.
fn target_fields(alloc: Global, name: &[u8], line: &TableLine) -> Result<Row, NoMemory>
    ensures { IfOk result (λ row. row ≡ name.now ∷ target_in line.now) }
{
    match column(line) {
        Some(column) => row(alloc, name, &[line.label(), column]),
        None => row(alloc, name, &[line.label()]),
    }
}

// The column that a line names.
fn column(line: &TableLine) -> Option<&Text>
    ensures { option_copied result ≡ column_in line.now }
{
    match line {
        TableLine::ColumnMinus { column, .. }
        | TableLine::ColumnPlus { column, .. }
        | TableLine::Cell { column, .. } => Some(column),
        TableLine::TableMinus { .. }
        | TableLine::TablePlus { .. }
        | TableLine::RowMinus { .. }
        | TableLine::RowPlus { .. } => None,
    }
}

// The folder of a view's database. A fault of reading or of memory is no refusal: nothing is answered.
pub(crate) fn tables_fields(alloc: Global, db: &Text, fault: &TablesFault) -> Result<Row, NoMemory>
    ensures some { OnOk result (is_refusal fault.now ≡ true) }
    ensures fields { IfOk result (λ row. row ≡ tables_fields db.now fault.now) }
{
    match fault {
        TablesFault::NoHeader { file } => row(alloc, b"no-header", &[db, file]),
        TablesFault::NameTwice { file, name } => row(alloc, b"name-twice", &[db, file, name]),
        TablesFault::Ragged {
            file,
            nth,
            want,
            got,
        } => ragged_fields(alloc, db, file, *nth, *want, *got),
        TablesFault::NotThisView { file } => row(alloc, b"not-this-view", &[file]),
        TablesFault::ReadFault | TablesFault::NoMemory => Err(NoMemory),
    }
}

fn ragged_fields(
    alloc: Global,
    db: &Text,
    file: &Text,
    nth: u64,
    want: usize,
    got: usize,
) -> Result<Row, NoMemory>
    ensures { IfOk result (λ row. row ≡ tables_fields db.now (TablesFault.Ragged file.now nth want got)) }
{
    let nth = number_text(alloc, nth as usize)?;
    let want = number_text(alloc, want)?;
    let got = number_text(alloc, got)?;
    row(alloc, b"ragged", &[db, file, &nth, &want, &got])
}
