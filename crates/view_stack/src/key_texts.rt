//! What a table says of a key.
ghost use Rattle.std.specs.Prelude.{◌≡◌, [], map, unwrap_or, option_map, slice_get, IfOk, IfErr};
ghost use Rattle.std.specs.Option.{option_copied};
ghost use Rattle.std.specs.List.Sorted.{IsStrictlySortedBy};
ghost use Rattle.ss_text.specs.Texts.{Text as TextValue, text_cmp};
ghost use Rattle.ss_text.specs.Keys.{IsPlaceOf, IsPlaceFor};
ghost use Rattle.flow_law.specs.Tables.{empty_table, cells_of, cell_in};
ghost use Rattle.kept_tables.specs.Kept.{KeptTableValue};
ghost use Rattle.view_stack.specs.Records.{text_of, text_in, text_after};

use crate::position::position_of;
use kept_tables::KeptTable;
use ss_text::{NoMemory, Row, Text};
use std::alloc::Global;

/// The texts of a key: its parts under the constant columns, and the cells of its row under the columns, which ascend.
#[derive(Drop)]
pub(crate) struct KeyTexts<'a> {
    pub constants: &'a [Text],
    pub columns: &'a [Text],
    pub key: &'a [Text],
    pub cells: &'a [Text],
}

impl<'a> KeyTexts<'a> {
    /// What a table says of a key, or one without rows and columns where there is none.
    pub(crate) fn of(constants: &'a Row, table: Option<&'a KeptTable>, key: &'a Row) -> KeyTexts<'a>
        ensures ascend { IsStrictlySortedBy text_cmp result.columns.now }
        ensures texts { text_in result.constants.now result.columns.now result.key.now result.cells.now
            ≡ text_of constants.now (unwrap_or (option_map (λ (t : KeptTableValue). t.table) (option_copied table.entry)) empty_table) key.now }
    {
        match table {
            Some(table) => KeyTexts {
                constants: constants.cells(),
                columns: table.columns(),
                key: key.cells(),
                cells: cells_of(table, key),
            },
            None => KeyTexts {
                constants: constants.cells(),
                columns: &[],
                key: key.cells(),
                cells: &[],
            },
        }
    }

    // The text under a name, if there is one.
    fn found(&self, name: &Text) -> Option<&Text>
        requires { IsStrictlySortedBy text_cmp self.now.columns.now }
        ensures { unwrap_or (option_copied result) [] ≡ text_in self.now.constants.now self.now.columns.now self.now.key.now self.now.cells.now name.now }
    {
        match position_of(self.constants, name) {
            Some(place) => text_at(self.key, place),
            None => cell_in(self.columns, self.cells, name),
        }
    }

    // The text under a name after cells of the row got values.
    fn text(&self, alloc: Global, name: &Text, cells: &[(&Text, &Text)]) -> Result<Text, NoMemory>
        requires { IsStrictlySortedBy text_cmp self.now.columns.now }
        ensures { IfOk result (λ text. text ≡ text_after name.now (map (λ c. (c.0.now, c.1.now)) cells.now)
            (text_in self.now.constants.now self.now.columns.now self.now.key.now self.now.cells.now name.now)) }
    {
        if let Some(value) = last_value(name, cells) {
            return value.copy();
        }
        match self.found(name) {
            Some(text) => text.copy(),
            None => Ok(Text::empty(alloc)),
        }
    }

    /// The record of the key in the order of these names, after cells of its row got values.
    pub(crate) fn record(
        &self,
        alloc: Global,
        names: &[Text],
        cells: &[(&Text, &Text)],
    ) -> Result<Row, NoMemory>
        requires { IsStrictlySortedBy text_cmp self.now.columns.now }
        ensures { IfOk result (λ row. row ≡ map (λ name. text_after name (map (λ c. (c.0.now, c.1.now)) cells.now)
            (text_in self.now.constants.now self.now.columns.now self.now.key.now self.now.cells.now name)) names.now) }
    {
        let mut texts = Vec::with_capacity(alloc, names.len())?;
        for name in names {
            texts.push(self.text(alloc, name, cells)?)?;
        }
        Ok(Row::of(texts))
    }
}

// The cells of a key, none where there is no row of it.
fn cells_of<'a>(table: &'a KeptTable, key: &Row) -> &'a [Text]
    ensures { result.now ≡ cells_of table.now.table key.now }
{
    match table.cells_of(key) {
        Some(cells) => cells,
        None => &[],
    }
}

fn text_at(texts: &[Text], place: usize) -> Option<&Text>
    ensures { option_copied result ≡ slice_get texts.now place }
{
    texts.get(place)
}

// The cell of a column, of which each but the first is greater than the one before.
fn cell_in<'a>(columns: &[Text], cells: &'a [Text], column: &Text) -> Option<&'a Text>
    requires { IsStrictlySortedBy text_cmp columns.now }
    ensures { unwrap_or (option_copied result) [] ≡ cell_in columns.now cells.now column.now }
{
    match find(columns, column) {
        Ok(place) => text_at(cells, place),
        Err(_) => None,
    }
}

// The place of a column, or where it would stand.
fn find(columns: &[Text], column: &Text) -> Result<usize, usize>
    requires { IsStrictlySortedBy text_cmp columns.now }
    ensures found { IfOk result (IsPlaceOf (λ c. c) column.now columns.now) }
    ensures absent { IfErr result (IsPlaceFor text_cmp (λ c. c) column.now columns.now) }
{
    columns.binary_search(column)
}

// The last value that a column got.
fn last_value<'a>(name: &Text, cells: &[(&Text, &'a Text)]) -> Option<&'a Text>
    ensures { (text : TextValue) → unwrap_or (option_copied result) text ≡ text_after name.now (map (λ c. (c.0.now, c.1.now)) cells.now) text }
{
    let mut last = None;
    for (column, value) in cells {
        if name == *column {
            last = Some(*value);
        }
    }
    last
}
