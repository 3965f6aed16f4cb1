//! A fact of a view, borrowed from the catalogue and the view.
ghost use Rattle.std.specs.Prelude.{◌≡◌, ◌<◌, ◌≤◌, refl, drop, length, slice_get, Some, option_copied, option_map, IfOk, OnSome};
ghost use Rattle.std.specs.List.{prefix_len};
ghost use Rattle.ss_text.specs.Texts.{text_eq, row_eq};
ghost use Rattle.flow_law.specs.Facts.{column_of, value_in};
ghost use Rattle.std.specs.Ordering.{eq_by_cmp, as_partial_cmp};
ghost use Rattle.std.specs.Cmp.{partial_equiv_from_equiv, partial_order_from_agreeing_total, eq_by_cmp_equiv};
ghost use Rattle.fact_tables.specs.Parts.{fact_value};
ghost use Rattle.fact_tables.specs.Cells.{is_past};
ghost use Rattle.flow_law.specs.FactOrder.{by_key, fact_cmp, fact_total};

use crate::fact_cell::FactCell;
use crate::key::Key;
use crate::label::Label;
use ss_text::{NoMemory, Row, Text};
use std::alloc::Global;
use std::cmp::Ordering;
use std::marker::Model;

/// A table label, a key, and a cell: a column with its value where the view has a variable column. Where it has none, the
/// cell takes no room. Facts are in order by label, then by key, then by column and value.
#[derive(Drop)]
pub struct Fact<'a, C: FactCell> {
    label: Label<'a>,
    key: Key<'a>,
    cell: C,
}

impl<'a, C: FactCell> Model for Fact<'a, C> {
    ghost use Rattle.flow_law.specs.Facts.{Fact};
    ghost use Rattle.fact_tables.specs.Parts.{fact_value};

    ghost Value = { Fact };

    ghost view = { λ f. fact_value f.label f.key (C.cell f.cell) };
}

impl<'a, C: FactCell> Fact<'a, C> {
    /// The fact with these parts.
    pub fn of(label: Label<'a>, key: Key<'a>, cell: C) -> Fact<'a, C>
        ensures { result ≡ fact_value label.entry key.entry (C.cell cell) }
    {
        Fact { label, key, cell }
    }

    /// The same fact.
    pub(crate) fn again(&self) -> Fact<'a, C>
        ensures { result ≡ self.now }
    {
        Fact {
            label: self.label.again(),
            key: self.key.again(),
            cell: self.cell.again(),
        }
    }

    /// Its table label.
    pub fn label(&self) -> &Label<'a>
        ensures { result.now ≡ self.now.label }
    {
        &self.label
    }

    /// Its key.
    pub(crate) fn key(&self) -> &Key<'a>
        ensures { result.now ≡ self.now.key }
    {
        &self.key
    }

    /// Its column label.
    pub(crate) fn column(&self) -> Option<&Label<'_>>
        ensures { option_copied result ≡ column_of self.now }
    {
        self.cell.column()
    }

    /// Its column label and its value.
    pub(crate) fn cell(&self) -> Option<(&Label<'_>, &Label<'_>)>
        ensures { option_map (λ c. (c.0.now, c.1.now)) result ≡ self.now.cell }
    {
        Some((self.cell.column()?, self.cell.value()?))
    }

    /// Its value, where it names this column.
    pub(crate) fn value(&self, column: &Label<'_>) -> Option<&Label<'_>>
        ensures { option_copied result ≡ value_in column.now self.now }
    {
        match self.cell() {
            Some((named, value)) if column == named => Some(value),
            _ => None,
        }
    }

    /// Whether its cell stands behind the empty value of this column.
    pub(crate) fn is_past(&self, column: &Label<'_>) -> bool
        ensures { result ≡ is_past column.now self.now }
    {
        let Some((named, value)) = self.cell() else {
            return false;
        };
        match named.cmp(column) {
            Ordering::Less => false,
            Ordering::Equal => !value.is_empty(),
            Ordering::Greater => true,
        }
    }

    /// A copy of its key.
    pub fn copy_key(&self, alloc: Global) -> Result<Row, NoMemory>
        ensures { IfOk result (λ key. key ≡ self.now.key) }
    {
        self.key.copy(alloc)
    }

    /// A copy of its column label and its value.
    pub fn copy_cell(&self, alloc: Global) -> Result<Option<(Text, Text)>, NoMemory>
        ensures { IfOk result (λ cell. cell ≡ self.now.cell) }
    {
        match self.cell() {
            None => Ok(None),
            Some((column, value)) => Ok(Some((column.copy(alloc)?, value.copy(alloc)?))),
        }
    }

    /// Compares from now on by what stands behind this beginning of the first value of its key, if that begins so.
    pub(crate) fn stand_behind(&mut self, beginning: &'a Text)
        ensures { self.new ≡ self.old }
    {
        self.key.stand_behind(beginning);
    }

    /// The bytes of the first value of its key.
    pub(crate) fn first(&self) -> &'a [u8] {
        match self.key.values().at(0) {
            Some(first) => first.as_slice(),
            None => &[],
        }
    }

    /// How it stands to another of its table: by key, and then by cell. No label is read.
    pub(crate) fn order_in_table(&self, other: &Fact<'a, C>) -> Ordering
        ensures { result ≡ by_key self.now other.now }
    {
        match self.key.cmp(&other.key) {
            Ordering::Equal => self.cell.order(&other.cell),
            differs => differs,
        }
    }

    /// Whether it has the key of another.
    pub(crate) fn has_key_of(&self, other: &Fact<'a, C>) -> bool
        ensures { result ≡ row_eq self.now.key other.now.key }
    {
        self.key == other.key
    }
}

/// The fact at a place.
pub(crate) fn fact_at<'f, 'a, C: FactCell>(
    facts: &'f [Fact<'a, C>],
    place: usize,
) -> Option<&'f Fact<'a, C>>
    ensures fact { option_copied result ≡ slice_get facts.now place }
    ensures there { OnSome result (place < length facts.now) }
{
    facts.get(place)
}

/// The facts from a place on.
pub(crate) fn facts_from<'f, 'a, C: FactCell>(
    facts: &'f [Fact<'a, C>],
    place: usize,
) -> &'f [Fact<'a, C>]
    requires { place ≤ length facts.now }
    ensures { result.now ≡ drop place facts.now }
{
    &facts[place..]
}

/// How many facts at the front have this label.
pub(crate) fn label_count<'a, C: FactCell>(facts: &[Fact<'a, C>], label: &Label<'_>) -> usize
    ensures count { result ≡ prefix_len (λ f. text_eq label.now f.label) facts.now }
    ensures within { result ≤ length facts.now }
{
    facts
        .iter()
        .take_while(|fact| label == fact.label())
        .count()
}

/// How many facts at the front have the key of the first one, which is this. That one is not compared with itself.
pub(crate) fn key_count<'a, C: FactCell>(facts: &[Fact<'a, C>], first: &Fact<'a, C>) -> usize
    requires { Some first.now ≡ slice_get facts.now 0 }
    ensures count { result ≡ prefix_len (λ f. row_eq first.now.key f.key) facts.now }
    ensures within { result ≤ length facts.now }
{
    let [_, others @ ..] = facts else {
        return 0;
    };
    1 + like_count(others, first)
}

// How many facts at the front have the key of this one.
fn like_count<'a, C: FactCell>(facts: &[Fact<'a, C>], first: &Fact<'a, C>) -> usize
    ensures count { result ≡ prefix_len (λ f. row_eq first.now.key f.key) facts.now }
    ensures within { result ≤ length facts.now }
{
    facts
        .iter()
        .take_while(|fact| first.has_key_of(fact))
        .count()
}

impl<'a, C: FactCell> PartialEq for Fact<'a, C> {
    ghost eq = { eq_by_cmp fact_cmp };

    ghost laws = { partial_equiv_from_equiv (eq_by_cmp_equiv fact_total) };

    fn eq(&self, other: &Self) -> bool {
        self.cmp(other).is_eq()
    }
}

impl<'a, C: FactCell> Eq for Fact<'a, C> {
    ghost laws = { eq_by_cmp_equiv fact_total };
}

impl<'a, C: FactCell> PartialOrd for Fact<'a, C> {
    ghost partial_cmp = { as_partial_cmp fact_cmp };

    ghost laws = { partial_order_from_agreeing_total fact_cmp fact_total (λ a b. refl) (λ a b. refl) };

    fn partial_cmp(&self, other: &Self) -> Option<Ordering> {
        Some(self.cmp(other))
    }
}

impl<'a, C: FactCell> Ord for Fact<'a, C> {
    ghost cmp = { fact_cmp };

    ghost total = { fact_total };

    ghost matches_partial_cmp = { λ a b. refl };

    ghost matches_eq = { λ a b. refl };

    fn cmp(&self, other: &Self) -> Ordering {
        match self.label.cmp(&other.label) {
            Ordering::Equal => self.order_in_table(other),
            differs => differs,
        }
    }
}
