//! Lines that are applied to tables.
ghost use Rattle.std.specs.Prelude.{◌≡◌, ◌≢◌, Ok, Err, Some, IfOk, IfErr, OnOk, OnErr};
ghost use Rattle.std.specs.Option.{option_copied};
ghost use Rattle.flow_law.specs.Lines.{has_table};
ghost use Rattle.change_script.specs.declared.applying.ApplyFault.{ApplyFault};
ghost use Rattle.change_script.specs.Applied.{key_fault, wrong_key, label_fault, can_have, has_needed, has_added, is_target_there, is_added_there, line_fault, applied_line};

use flow_law::{IllegalLabel, Shape, Table, TableLine, Tables};
use ss_text::{NoMemory, Row, Text, column_label_legal, table_label_legal};

/// Why a line is not applied. The line holds the names that a refusal speaks of.
#[derive(Debug, Drop)]
pub enum ApplyFault {
    /// How many texts the view wants in a key, and how many the line's key has.
    KeyLength { want: usize, got: usize },
    /// The label that the line adds.
    Illegal(IllegalLabel),
    /// The table, the row or the column that the line needs is not there.
    NoTarget,
    /// What the line adds is there.
    TargetThere,
    NoMemory,
}

impl From<NoMemory> for ApplyFault {
    ghost use Rattle.std.specs.Prelude.{◌≡◌};
    ghost use Rattle.change_script.specs.declared.applying.ApplyFault.{ApplyFault};

    ghost from_gives = { λ _ fault. fault ≡ ApplyFault.NoMemory };

    fn from(_: NoMemory) -> Self {
        ApplyFault::NoMemory
    }
}

/// Makes the step of a line on tables of this form, or answers the first fault of the line, which changes nothing:
/// its key's length, then a label that it adds, then what it needs, then what it adds.
#[tactic(auto, using(crate::proofs::ApplyLemmas::no_fault_fits))]
pub fn apply_line(tables: &mut Tables, shape: &Shape, line: &TableLine) -> Result<(), ApplyFault>
    ensures applied { OnOk result (applied_line shape.now tables.old line.now ≡ Ok tables.new) }
    ensures refused { IfErr result (λ fault. fault ≢ ApplyFault.NoMemory → applied_line shape.now tables.old line.now ≡ Err fault) }
    ensures same { OnErr result (tables.new ≡ tables.old) }
{
    if let Some(fault) = line_fault(tables, shape, line)? {
        return Err(fault);
    }
    tables.change(line)?;
    Ok(())
}

// The first fault of a line.
fn line_fault(
    tables: &Tables,
    shape: &Shape,
    line: &TableLine,
) -> Result<Option<ApplyFault>, NoMemory>
    ensures { IfOk result (λ fault. fault ≡ line_fault shape.now tables.now line.now) }
{
    if let Some(fault) = key_fault(&shape.constants, line) {
        return Ok(Some(fault));
    }
    if let Some(fault) = label_fault(&shape.constants, line)? {
        return Ok(Some(fault));
    }
    if !is_target_there(shape.spot, tables, line) {
        return Ok(Some(ApplyFault::NoTarget));
    }
    if is_added_there(tables, line) {
        return Ok(Some(ApplyFault::TargetThere));
    }
    Ok(None)
}

// The fault of a line's key.
fn key_fault(constants: &Row, line: &TableLine) -> Option<ApplyFault>
    ensures { result ≡ key_fault constants.now line.now }
{
    match line {
        TableLine::RowMinus { key, .. }
        | TableLine::RowPlus { key, .. }
        | TableLine::Cell { key, .. } => wrong_key(constants, key),
        TableLine::TableMinus { .. }
        | TableLine::TablePlus { .. }
        | TableLine::ColumnMinus { .. }
        | TableLine::ColumnPlus { .. } => None,
    }
}

fn wrong_key(constants: &Row, key: &Row) -> Option<ApplyFault>
    ensures { result ≡ wrong_key constants.now key.now }
{
    let (want, got) = (constants.cells().len(), key.cells().len());
    if got == want {
        return None;
    }
    Some(ApplyFault::KeyLength { want, got })
}

// The fault of a label that a line adds.
fn label_fault(constants: &Row, line: &TableLine) -> Result<Option<ApplyFault>, NoMemory>
    ensures { IfOk result (λ fault. fault ≡ label_fault constants.now line.now) }
{
    match line {
        TableLine::TablePlus { label } if !table_label_legal(label) => illegal(label, None),
        TableLine::ColumnPlus { label, column } if !column_label_legal(column, constants) => {
            illegal(label, Some(column))
        }
        _ => Ok(None),
    }
}

fn illegal(label: &Text, column: Option<&Text>) -> Result<Option<ApplyFault>, NoMemory>
    ensures { IfOk result (λ fault. fault ≡ Some (ApplyFault.Illegal (record { table = label.now; column = option_copied column.entry }))) }
{
    let table = label.copy()?;
    let column = match column {
        Some(column) => Some(column.copy()?),
        None => None,
    };
    Ok(Some(ApplyFault::Illegal(IllegalLabel { table, column })))
}

// Whether the table, the row and the column that a line needs are there.
fn is_target_there(spot: Option<usize>, tables: &Tables, line: &TableLine) -> bool
    ensures { result ≡ is_target_there spot tables.now line.now }
{
    if let TableLine::TablePlus { .. } = line {
        return true;
    }
    match tables.table_of(line.label()) {
        Some(table) => can_have(spot, line) && has_needed(table, line),
        None => false,
    }
}

// Whether the view can have the column that a line names.
fn can_have(spot: Option<usize>, line: &TableLine) -> bool
    ensures { result ≡ can_have spot line.now }
{
    match line {
        TableLine::ColumnMinus { .. } | TableLine::ColumnPlus { .. } | TableLine::Cell { .. } =>
            spot.is_some(),
        TableLine::TableMinus { .. }
        | TableLine::TablePlus { .. }
        | TableLine::RowMinus { .. }
        | TableLine::RowPlus { .. } => true,
    }
}

// Whether the row and the column that a line needs are there in its table.
fn has_needed(table: &Table, line: &TableLine) -> bool
    ensures { result ≡ has_needed line.now table.now }
{
    match line {
        TableLine::RowMinus { key, .. } => table.has_row(key),
        TableLine::ColumnMinus { column, .. } => table.has_column(column),
        TableLine::Cell { key, column, .. } => table.has_row(key) && table.has_column(column),
        TableLine::TableMinus { .. }
        | TableLine::TablePlus { .. }
        | TableLine::ColumnPlus { .. }
        | TableLine::RowPlus { .. } => true,
    }
}

// Whether what a line adds is there.
fn is_added_there(tables: &Tables, line: &TableLine) -> bool
    ensures { result ≡ is_added_there tables.now line.now }
{
    if let TableLine::TablePlus { label } = line {
        return has_table(tables, label);
    }
    match tables.table_of(line.label()) {
        Some(table) => has_added(table, line),
        None => false,
    }
}

// Whether a label has a table.
#[tactic(auto, using(crate::proofs::AppliedLaw::has_table_is))]
fn has_table(tables: &Tables, label: &Text) -> bool
    ensures { result ≡ has_table tables.now label.now }
{
    tables.table_of(label).is_some()
}

// Whether the row or the column that a line adds is there in its table.
fn has_added(table: &Table, line: &TableLine) -> bool
    ensures { result ≡ has_added line.now table.now }
{
    match line {
        TableLine::ColumnPlus { column, .. } => table.has_column(column),
        TableLine::RowPlus { key, .. } => table.has_row(key),
        TableLine::TableMinus { .. }
        | TableLine::TablePlus { .. }
        | TableLine::RowMinus { .. }
        | TableLine::ColumnMinus { .. }
        | TableLine::Cell { .. } => false,
    }
}
