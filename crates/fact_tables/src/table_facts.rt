//! The facts of each table.
ghost use Rattle.std.specs.Prelude.{◌≡◌, [], ◌∷◌, IfOk};
ghost use Rattle.std.specs.List.Sorted.{IsStrictlySortedBy};
ghost use Rattle.flow_law.specs.FactOrder.{by_key, fact_cmp};
ghost use Rattle.flow_law.specs.FactTables.{fact_table, tables};
ghost use Rattle.flow_law.specs.Labelled.{BearLabel, label_tables};

use crate::fact::{Fact, fact_at, facts_from, label_count};
use crate::fact_cell::FactCell;
use crate::label::Label;
use crate::rows::Rows;
use crate::tables::{columns, copies};
use flow_law::Shape;
use ss_text::{NoMemory, Text};
use std::alloc::Global;
use std::marker::Model;

/// The facts of one table, in order, which contracts see as its label and the table.
#[derive(Drop)]
pub struct TableFacts<'f, 'a, C: FactCell> {
    label: &'f Text,
    facts: &'f [Fact<'a, C>],
}

impl<'f, 'a, C: FactCell> Model for TableFacts<'f, 'a, C> {
    ghost use Rattle.std.specs.List.Sorted.{IsStrictlySortedBy};
    ghost use Rattle.ss_text.specs.Texts.{Text};
    ghost use Rattle.flow_law.specs.FactOrder.{by_key};
    ghost use Rattle.flow_law.specs.FactTables.{fact_table};
    ghost use Rattle.flow_law.specs.Tables.{TableValue};

    ghost Value = { Text × TableValue };

    ghost view = { λ t. (t.label.now, fact_table t.facts.now) };

    ghost invariant = { λ t. IsStrictlySortedBy by_key t.facts.now };
}

impl<'f, 'a, C: FactCell> TableFacts<'f, 'a, C> {
    // The facts of a table with this label.
    fn of(label: &'f Text, facts: &'f [Fact<'a, C>]) -> TableFacts<'f, 'a, C>
        requires { IsStrictlySortedBy by_key facts.now }
        ensures { result ≡ (label.now, fact_table facts.now) }
    {
        TableFacts { label, facts }
    }

    /// The label.
    pub fn label(&self) -> &'f Text
        ensures { result.now ≡ self.now.0 }
    {
        self.label
    }

    /// The dynamic columns, in ascending order.
    pub fn columns(&self, alloc: Global) -> Result<Vec<Label<'f>>, NoMemory>
        ensures { IfOk result (λ columns. columns.items ≡ self.now.1.columns) }
    {
        columns(alloc, self.facts)
    }

    /// Copies of the names of these columns.
    pub fn copy_columns(&self, alloc: Global, columns: &[Label<'_>]) -> Result<Vec<Text>, NoMemory>
        requires { columns.now ≡ self.now.1.columns }
        ensures { IfOk result (λ names. names.items ≡ self.now.1.columns) }
    {
        copies(alloc, columns)
    }

    /// The rows, which have a cell for each of these columns, the table's.
    pub fn rows<'r>(&self, columns: &'r [Label<'f>]) -> Rows<'r, 'f, 'a, C>
        requires { columns.now ≡ self.now.1.columns }
        ensures { result ≡ self.now.1.rows }
    {
        Rows::of(columns, self.facts)
    }
}

// The facts of the one table of facts that all bear this label.
fn one_table<'f, 'a, C: FactCell>(
    alloc: Global,
    label: &'f Text,
    facts: &'f [Fact<'a, C>],
) -> Result<Vec<TableFacts<'f, 'a, C>>, NoMemory>
    requires sorted { IsStrictlySortedBy fact_cmp facts.now }
    requires bear { BearLabel (Some label.now) facts.now }
    ensures { IfOk result (λ each. each.items ≡ (label.now, fact_table facts.now) ∷ []) }
{
    let mut each = Vec::new(alloc);
    each.push(TableFacts::of(label, facts))?;
    Ok(each)
}

// The facts of each label.
fn label_tables<'f, 'a, C: FactCell>(
    alloc: Global,
    facts: &'f [Fact<'a, C>],
) -> Result<Vec<TableFacts<'f, 'a, C>>, NoMemory>
    requires { IsStrictlySortedBy fact_cmp facts.now }
    ensures { IfOk result (λ each. each.items ≡ label_tables facts.now) }
{
    let mut each = Vec::new(alloc);
    let mut from = 0;
    while let Some(first) = fact_at(facts, from) {
        let label = first.label();
        let left = facts_from(facts, from);
        let count = label_count(left, label);
        each.push(TableFacts::of(label.text(), &left[..count]))?;
        from += count;
    }
    Ok(each)
}

/// The facts of each table of a view of this form with these facts, which are in order.
pub(crate) fn table_facts<'f, 'a, C: FactCell>(
    alloc: Global,
    shape: &'f Shape,
    facts: &'f [Fact<'a, C>],
) -> Result<Vec<TableFacts<'f, 'a, C>>, NoMemory>
    requires sorted { IsStrictlySortedBy fact_cmp facts.now }
    requires bear { BearLabel shape.now.label facts.now }
    ensures { IfOk result (λ each. each.items ≡ tables shape.now facts.now) }
{
    match &shape.label {
        Some(label) => one_table(alloc, label, facts),
        None => label_tables(alloc, facts),
    }
}
