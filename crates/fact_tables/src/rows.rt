//! The rows of a table, one after another.
ghost use Rattle.std.specs.Prelude.{◌≡◌, ◌<◌, ◌∷◌, [], length, slice_get, slice_index_or, option_copied, unwrap_or, Some, IfOk, IfSome, IfNone};
ghost use Rattle.std.specs.List.Sorted.{IsStrictlySortedBy};
ghost use Rattle.flow_law.specs.FactOrder.{by_cell, by_key};
ghost use Rattle.fact_tables.specs.Cells.{cells_for, rows_for};

use crate::fact::{Fact, fact_at, facts_from, key_count};
use crate::fact_cell::FactCell;
use crate::key::Key;
use crate::label::Label;
use crate::short::ShortFirst;
use crate::tables::{cells, value};
use ss_text::{NoMemory, Row, Text};
use std::alloc::Global;
use std::marker::Model;

/// The rows that are left of a table, which contracts see as the list of their keys with the cells.
#[derive(Drop)]
pub struct Rows<'r, 'f, 'a, C: FactCell> {
    columns: &'r [Label<'f>],
    facts: &'f [Fact<'a, C>],
}

impl<'r, 'f, 'a, C: FactCell> Model for Rows<'r, 'f, 'a, C> {
    ghost use Rattle.std.specs.Prelude.{List};
    ghost use Rattle.std.specs.List.Sorted.{IsStrictlySortedBy};
    ghost use Rattle.ss_text.specs.Texts.{Row};
    ghost use Rattle.flow_law.specs.FactOrder.{by_key};
    ghost use Rattle.fact_tables.specs.Cells.{rows_for};

    ghost Value = { List (Row × Row) };

    ghost view = { λ r. rows_for r.columns.now r.facts.now };

    ghost invariant = { λ r. IsStrictlySortedBy by_key r.facts.now };
}

impl<'r, 'f, 'a, C: FactCell> Rows<'r, 'f, 'a, C> {
    /// The rows of facts of one table, which are in order, with a cell for each of these columns.
    pub(crate) fn of(columns: &'r [Label<'f>], facts: &'f [Fact<'a, C>]) -> Rows<'r, 'f, 'a, C>
        requires { IsStrictlySortedBy by_key facts.now }
        ensures { result ≡ rows_for columns.now facts.now }
    {
        Rows { columns, facts }
    }

    /// Takes the next row.
    pub fn take_next(&mut self) -> Option<FactRow<'r, 'f, 'a, C>>
        ensures next { IfSome result (λ row. self.old ≡ row ∷ self.new) }
        ensures none { IfNone result (self.old ≡ []) }
    {
        let first = fact_at(self.facts, 0)?;
        let count = key_count(self.facts, first);
        let row = FactRow::of(self.columns, first.key(), &self.facts[..count]);
        self.facts = facts_from(self.facts, count);
        Some(row)
    }
}

/// A row, which contracts see as its key and its cells.
#[derive(Drop)]
pub struct FactRow<'r, 'f, 'a, C: FactCell> {
    columns: &'r [Label<'f>],
    key: &'f Key<'a>,
    facts: &'f [Fact<'a, C>],
}

impl<'r, 'f, 'a, C: FactCell> Model for FactRow<'r, 'f, 'a, C> {
    ghost use Rattle.std.specs.List.Sorted.{IsStrictlySortedBy};
    ghost use Rattle.ss_text.specs.Texts.{Row};
    ghost use Rattle.flow_law.specs.FactOrder.{by_cell};
    ghost use Rattle.fact_tables.specs.Cells.{cells_for};

    ghost Value = { Row × Row };

    ghost view = { λ r. (r.key.now, cells_for r.columns.now r.facts.now) };

    ghost invariant = { λ r. IsStrictlySortedBy by_cell r.facts.now };
}

impl<'r, 'f, 'a, C: FactCell> FactRow<'r, 'f, 'a, C> {
    // The row with this key, whose facts these are, with a cell for each of these columns.
    fn of(
        columns: &'r [Label<'f>],
        key: &'f Key<'a>,
        facts: &'f [Fact<'a, C>],
    ) -> FactRow<'r, 'f, 'a, C>
        requires { IsStrictlySortedBy by_cell facts.now }
        ensures { result ≡ (key.now, cells_for columns.now facts.now) }
    {
        FactRow {
            columns,
            key,
            facts,
        }
    }

    /// A copy of its key.
    pub fn copy_key(&self, alloc: Global) -> Result<Row, NoMemory>
        ensures { IfOk result (λ key. key ≡ self.now.0) }
    {
        self.key.copy(alloc)
    }

    /// Copies of its cells.
    pub fn copy_cells(&self, alloc: Global) -> Result<Vec<Text>, NoMemory>
        ensures { IfOk result (λ cells. cells.items ≡ self.now.1) }
    {
        cells(alloc, self.columns, self.facts)
    }

    /// How many texts its key has.
    pub fn key_len(&self) -> usize
        ensures { result ≡ length self.now.0 }
    {
        self.key.values().count()
    }

    /// The bytes of the text of its key at a place, from 0.
    pub fn key_text(&self, place: usize) -> &'a [u8]
        requires { place < length self.now.0 }
        ensures { result.now ≡ slice_index_or self.now.0 place [] }
    {
        match self.key.values().at(place) {
            Some(value) => value.as_slice(),
            None => &[],
        }
    }

    /// The bytes of the text of its key at a place, where it is short. That text is then not read.
    pub fn short(&self, place: usize) -> Option<ShortFirst>
        ensures { IfSome result (λ short. Some short ≡ slice_get self.now.0 place) }
    {
        self.key.short(place)
    }

    /// How many cells it has.
    pub fn cell_count(&self) -> usize
        ensures { result ≡ length self.now.1 }
    {
        self.columns.len()
    }

    /// The text of its cell at a place, from 0. None stands for the empty one.
    pub fn cell(&self, place: usize) -> Option<&'f Label<'f>>
        requires { place < length self.now.1 }
        ensures { unwrap_or (option_copied result) [] ≡ slice_index_or self.now.1 place [] }
    {
        value(self.facts, &self.columns[place])
    }
}
