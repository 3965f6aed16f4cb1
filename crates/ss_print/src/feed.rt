//! Refusals of a line of a feed.
ghost use Rattle.std.specs.Prelude.{◌≡◌, IfOk};
ghost use Rattle.ss_print.specs.Fields.{verb_fields, count_fields, number_fields, early_fields, other_change_fields};

use crate::fields::Fields;
use ss_text::{NoMemory, Row, Text};
use std::alloc::Global;

/// The name and the fields of a word or a verb that is none.
pub fn verb_fields(alloc: Global, verb: &Text) -> Result<Row, NoMemory>
    ensures { IfOk result (λ row. row ≡ verb_fields verb.now) }
{
    let fields = Fields::named(alloc, b"unknown-verb")?.text(verb)?;
    Ok(fields.row())
}

/// The name and the fields of a word or a verb with a wrong number of fields behind it, which counts it too.
pub fn count_fields(alloc: Global, verb: &Text, got: usize) -> Result<Row, NoMemory>
    ensures { IfOk result (λ row. row ≡ count_fields verb.now got) }
{
    let fields = Fields::named(alloc, b"field-count")?
        .text(verb)?
        .number(alloc, got as u64)?;
    Ok(fields.row())
}

/// The name and the fields of a number that is none.
pub fn number_fields(alloc: Global, number: &Text) -> Result<Row, NoMemory>
    ensures { IfOk result (λ row. row ≡ number_fields number.now) }
{
    let fields = Fields::named(alloc, b"bad-number")?.text(number)?;
    Ok(fields.row())
}

/// The name and the fields of a change that comes before its turn, with the number that its source wants.
pub fn early_fields(alloc: Global, source: &Text, want: u64) -> Result<Row, NoMemory>
    ensures { IfOk result (λ row. row ≡ early_fields source.now want) }
{
    let fields = Fields::named(alloc, b"early")?
        .text(source)?
        .number(alloc, want)?;
    Ok(fields.row())
}

/// The name and the fields of a change under whose number its source sent another one.
pub fn other_change_fields(alloc: Global, source: &Text, number: u64) -> Result<Row, NoMemory>
    ensures { IfOk result (λ row. row ≡ other_change_fields source.now number) }
{
    let fields = Fields::named(alloc, b"other-change")?
        .text(source)?
        .number(alloc, number)?;
    Ok(fields.row())
}
