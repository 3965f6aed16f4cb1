//! The tables of facts that are in order.
ghost use Rattle.std.specs.Prelude.{◌≡◌, [], ◌∷◌, IfOk, IfErr, OnOk, filter_map, option_copied};
ghost use Rattle.flow_law.specs.Labelled.{BearLabel, label_tables};
ghost use Rattle.std.specs.List.Sorted.{IsStrictlySortedBy};
ghost use Rattle.ss_text.specs.Texts.{text_cmp};
ghost use Rattle.ss_text.specs.Ascending.{with_element, ascending, least};
ghost use Rattle.ss_text.specs.Keys.{IsPlaceOf, IsPlaceFor};
ghost use Rattle.flow_law.specs.Facts.{column_of};
ghost use Rattle.flow_law.specs.FactOrder.{by_cell, by_key, fact_cmp};
ghost use Rattle.fact_tables.specs.Cells.{values_for, cells_for};
ghost use Rattle.flow_law.specs.FactTables.{fact_table, tables};

use crate::fact::{Fact, fact_at, facts_from, key_count, label_count};
use crate::fact_cell::FactCell;
use crate::label::Label;
use flow_law::{Shape, Table, Tables};
use ss_text::{NoMemory, Text};
use std::alloc::Global;

// Where a column stands among ascending ones, or where it would stand.
fn place_of(columns: &[Label<'_>], column: &Label<'_>) -> Result<usize, usize>
    requires { IsStrictlySortedBy text_cmp columns.now }
    ensures found { IfOk result (IsPlaceOf (λ c. c) column.now columns.now) }
    ensures absent { IfErr result (IsPlaceFor text_cmp (λ c. c) column.now columns.now) }
{
    columns.binary_search(column)
}

// Puts a column among ascending ones, where it is none of them.
fn put_column<'a>(columns: &mut Vec<Label<'a>>, column: &Label<'a>) -> Result<(), NoMemory>
    requires { IsStrictlySortedBy text_cmp columns.old.items }
    ensures { OnOk result (columns.new.items ≡ with_element text_cmp column.now columns.old.items) }
{
    match place_of(columns, column) {
        Ok(_) => Ok(()),
        Err(place) => Ok(columns.insert(place, column.again())?),
    }
}

/// The column labels of facts, each once, ascending.
pub(crate) fn columns<'f, C: FactCell>(
    alloc: Global,
    facts: &'f [Fact<'_, C>],
) -> Result<Vec<Label<'f>>, NoMemory>
    ensures { IfOk result (λ columns. columns.items ≡ ascending text_cmp (filter_map column_of facts.now)) }
{
    let mut columns = Vec::new(alloc);
    for fact in facts {
        if let Some(column) = fact.column() {
            put_column(&mut columns, column)?;
        }
    }
    Ok(columns)
}

/// Copies of the texts of labels.
pub(crate) fn copies(alloc: Global, labels: &[Label<'_>]) -> Result<Vec<Text>, NoMemory>
    ensures { IfOk result (λ texts. texts.items ≡ labels.now) }
{
    let mut texts = Vec::with_capacity(alloc, labels.len())?;
    for label in labels {
        texts.push(label.text().copy()?)?;
    }
    Ok(texts)
}

/// The least value of a column that is not empty, among facts whose cells ascend.
pub(crate) fn value<'f, C: FactCell>(
    facts: &'f [Fact<'_, C>],
    column: &Label<'_>,
) -> Option<&'f Label<'f>>
    requires { IsStrictlySortedBy by_cell facts.now }
    ensures { option_copied result ≡ least text_cmp (values_for facts.now column.now) }
{
    let place = facts.partition_point(|fact| !fact.is_past(column));
    fact_at(facts, place)?.value(column)
}

/// The cells of a row whose facts these are, one for each column.
pub(crate) fn cells<'a, C: FactCell>(
    alloc: Global,
    columns: &[Label<'_>],
    facts: &[Fact<'a, C>],
) -> Result<Vec<Text>, NoMemory>
    requires { IsStrictlySortedBy by_cell facts.now }
    ensures { IfOk result (λ cells. cells.items ≡ cells_for columns.now facts.now) }
{
    let mut cells = Vec::with_capacity(alloc, columns.len())?;
    for column in columns {
        let cell = match value(facts, column) {
            Some(value) => value.copy(alloc)?,
            None => Text::empty(alloc),
        };
        cells.push(cell)?;
    }
    Ok(cells)
}

/// The table of facts of one label.
fn table<'a, C: FactCell>(alloc: Global, facts: &[Fact<'a, C>]) -> Result<Table, NoMemory>
    requires { IsStrictlySortedBy by_key facts.now }
    ensures { IfOk result (λ table. table ≡ fact_table facts.now) }
{
    let columns = columns(alloc, facts)?;
    let mut table = Table::of_columns(copies(alloc, &columns)?);
    let mut from = 0;
    while let Some(first) = fact_at(facts, from) {
        let left = facts_from(facts, from);
        let count = key_count(left, first);
        let key = first.copy_key(alloc)?;
        let cells = cells(alloc, &columns, &left[..count])?;
        table.put_row(key, cells)?;
        from += count;
    }
    Ok(table)
}

/// The one table of facts that all bear this label.
fn one_table<'a, C: FactCell>(
    alloc: Global,
    label: &Text,
    facts: &[Fact<'a, C>],
) -> Result<Tables, NoMemory>
    requires sorted { IsStrictlySortedBy fact_cmp facts.now }
    requires bear { BearLabel (Some label.now) facts.now }
    ensures { IfOk result (λ tables. tables ≡ (label.now, fact_table facts.now) ∷ []) }
{
    let mut tables = Tables::new(alloc);
    let table = table(alloc, facts)?;
    tables.put_table(label.copy()?, table)?;
    Ok(tables)
}

/// A table for each label of facts.
fn label_tables<'a, C: FactCell>(alloc: Global, facts: &[Fact<'a, C>]) -> Result<Tables, NoMemory>
    requires { IsStrictlySortedBy fact_cmp facts.now }
    ensures { IfOk result (λ tables. tables ≡ label_tables facts.now) }
{
    let mut tables = Tables::new(alloc);
    let mut from = 0;
    while let Some(first) = fact_at(facts, from) {
        let label = first.label();
        let left = facts_from(facts, from);
        let count = label_count(left, label);
        let table = table(alloc, &left[..count])?;
        tables.put_table(label.text().copy()?, table)?;
        from += count;
    }
    Ok(tables)
}

/// The tables of a view of this form with these facts, which are in order.
pub(crate) fn tables<'a, C: FactCell>(
    alloc: Global,
    shape: &Shape,
    facts: &[Fact<'a, C>],
) -> Result<Tables, NoMemory>
    requires sorted { IsStrictlySortedBy fact_cmp facts.now }
    requires bear { BearLabel shape.now.label facts.now }
    ensures { IfOk result (λ ts. ts ≡ tables shape.now facts.now) }
{
    match &shape.label {
        Some(label) => one_table(alloc, label, facts),
        None => label_tables(alloc, facts),
    }
}
