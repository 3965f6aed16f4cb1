//! Refusals of a view over a catalogue.
ghost use Rattle.std.specs.Prelude.{◌≡◌, IfOk};
ghost use Rattle.ss_print.specs.Fields.{illegal_fields, clash_fields};

use crate::fields::Fields;
use flow_law::{Clash, IllegalLabel};
use ss_text::{NoMemory, Row};
use std::alloc::Global;

/// The name and the fields of a label that is not legal.
pub fn illegal_fields(alloc: Global, label: &IllegalLabel) -> Result<Row, NoMemory>
    ensures { IfOk result (λ row. row ≡ illegal_fields label.now) }
{
    let fields = Fields::named(alloc, b"illegal-label")?.text(&label.table)?;
    let fields = match &label.column {
        Some(column) => fields.text(column)?,
        None => fields,
    };
    Ok(fields.row())
}

/// The name and the fields of two values for one cell.
pub fn clash_fields(alloc: Global, clash: &Clash) -> Result<Row, NoMemory>
    ensures { IfOk result (λ row. row ≡ clash_fields clash.now) }
{
    let fields = Fields::named(alloc, b"conflict")?
        .text(&clash.table)?
        .text(&clash.column)?
        .text(&clash.first)?
        .text(&clash.second)?
        .texts(clash.key.cells())?;
    Ok(fields.row())
}
