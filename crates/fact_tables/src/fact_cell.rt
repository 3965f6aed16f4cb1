//! The cell of a fact.
ghost use Rattle.std.specs.Prelude.{◌≡◌, Option, Some, None, option_copied, option_map};
ghost use Rattle.ss_text.specs.Texts.{Text as TextValue};
ghost use Rattle.flow_law.specs.FactOrder.{cell_cmp};

use crate::label::Label;
use ss_text::Text;
use std::cmp::Ordering;
use std::marker::Model;

/// The cell of a fact: a column label with its value where the view has a variable column, and else nothing.
pub trait FactCell: Drop {
    // The column label and the value.
    ghost cell: { Self → Option (TextValue × TextValue) };

    /// Its column label.
    fn column(&self) -> Option<&Label<'_>>
        ensures { option_copied result ≡ option_map (λ c. c.0) (cell self.now) };

    /// Its value.
    fn value(&self) -> Option<&Label<'_>>
        ensures { option_copied result ≡ option_map (λ c. c.1) (cell self.now) };

    /// How it stands to another: by column, and then by value.
    fn order(&self, other: &Self) -> Ordering
        ensures { result ≡ cell_cmp (cell self.now) (cell other.now) };

    /// The same cell.
    fn again(&self) -> Self
        ensures { cell result ≡ cell self.now };
}

/// The cell of a fact of a view without a variable column. It takes no room.
#[derive(Drop)]
pub struct NoCell;

impl FactCell for NoCell {
    ghost cell = { λ c. None };

    fn column(&self) -> Option<&Label<'_>> {
        None
    }

    fn value(&self) -> Option<&Label<'_>> {
        None
    }

    fn order(&self, _other: &NoCell) -> Ordering {
        Ordering::Equal
    }

    fn again(&self) -> NoCell {
        NoCell
    }
}

/// The cell of a fact of a view with a variable column, which contracts see as its two texts.
#[derive(Drop)]
pub struct OneCell<'a> {
    column: Label<'a>,
    value: Label<'a>,
}

impl<'a> Model for OneCell<'a> {
    ghost use Rattle.ss_text.specs.Texts.{Text};

    ghost Value = { Text × Text };

    ghost view = { λ c. (c.column, c.value) };
}

impl<'a> OneCell<'a> {
    /// The cell with this column label and this value.
    pub fn of(column: Label<'a>, value: &'a Text) -> OneCell<'a>
        ensures { result ≡ (column.entry, value.now) }
    {
        OneCell {
            column,
            value: Label::of(value),
        }
    }
}

impl FactCell for OneCell<'_> {
    ghost cell = { λ c. Some c };

    fn column(&self) -> Option<&Label<'_>> {
        Some(&self.column)
    }

    fn value(&self) -> Option<&Label<'_>> {
        Some(&self.value)
    }

    fn order(&self, other: &Self) -> Ordering {
        match self.column.cmp(&other.column) {
            Ordering::Equal => self.value.cmp(&other.value),
            differs => differs,
        }
    }

    fn again(&self) -> Self {
        OneCell {
            column: self.column.again(),
            value: self.value.again(),
        }
    }
}
