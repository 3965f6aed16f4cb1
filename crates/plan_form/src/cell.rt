//! Cells of a row.
ghost use Rattle.std.specs.Prelude.{◌≡◌, option_copied, option_map, IfOk};
ghost use Rattle.plan_form.specs.Cells.{text_in, term_cell};
ghost use Rattle.plan_form.specs.Sources.{seen};

use crate::source::Source;
use ss_text::{Row, Text};

/// Where the text of a term is found in a row: it is given, or stands at a place, or is nowhere.
#[derive(Debug, Drop)]
pub enum Cell {
    Given(Text),
    At(usize),
    Nowhere,
}

/// The text of a cell in a row, where it has one.
pub(crate) fn text_in<'a>(row: &'a Row, cell: &'a Cell) -> Option<&'a Text>
    ensures { option_copied result ≡ text_in row.now cell.now }
{
    match cell {
        Cell::Given(text) => Some(text),
        Cell::At(place) => row.cells().get(*place),
        Cell::Nowhere => None,
    }
}

/// The cell of a row that is found so; another row has none.
pub(crate) fn left_cell(source: Option<Source>) -> Cell
    ensures { result ≡ term_cell (option_map seen source) }
{
    match source {
        None => Cell::Nowhere,
        Some(Source::Given(text)) => Cell::Given(text),
        Some(Source::Left(place)) => Cell::At(place),
        Some(Source::Right(_)) => Cell::Nowhere,
    }
}
