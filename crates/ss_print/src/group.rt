//! Refusals of a group of changes.
ghost use Rattle.std.specs.Prelude.{◌≡◌, IfOk};
ghost use Rattle.ss_print.specs.Fields.{group_broken_fields, open_group_fields, in_group_fields, no_group_fields};

use crate::change::with_first;
use crate::fields::Fields;
use ss_text::{NoMemory, Row};
use std::alloc::Global;

/// The name and the fields of a group in which so many lines were refused.
pub fn group_broken_fields(alloc: Global, lines: usize) -> Result<Row, NoMemory>
    ensures { IfOk result (λ row. row ≡ group_broken_fields lines) }
{
    let fields = Fields::named(alloc, b"group-broken")?.number(alloc, lines as u64)?;
    Ok(fields.row())
}

/// The name and the fields of a group of so many changes that the input ends in.
pub fn open_group_fields(alloc: Global, changes: usize) -> Result<Row, NoMemory>
    ensures { IfOk result (λ row. row ≡ open_group_fields changes) }
{
    let fields = Fields::named(alloc, b"open-group")?.number(alloc, changes as u64)?;
    Ok(fields.row())
}

/// The name and the fields of a line whose word does not stand in a group.
pub fn in_group_fields(alloc: Global, line: &Row) -> Result<Row, NoMemory>
    ensures { IfOk result (λ row. row ≡ in_group_fields line.now) }
{
    let fields = with_first(Fields::named(alloc, b"in-group")?, alloc, line)?;
    Ok(fields.row())
}

/// The name and the fields of a line whose word stands only in a group.
pub fn no_group_fields(alloc: Global, line: &Row) -> Result<Row, NoMemory>
    ensures { IfOk result (λ row. row ≡ no_group_fields line.now) }
{
    let fields = with_first(Fields::named(alloc, b"no-group")?, alloc, line)?;
    Ok(fields.row())
}
