//! The cells of a row that are wanted.
ghost use Rattle.std.specs.Prelude.{◌≡◌, [], IfOk, slice_index_or};
ghost use Rattle.std.specs.List.{position};
ghost use Rattle.ss_text.specs.Texts.{text_eq, is_in};
ghost use Rattle.operator_law.specs.Rows.{cells_at};
ghost use Rattle.fold_op.specs.Cells.{has_all, place_of, places_of};

use ss_text::{NoMemory, Row, Text};
use std::alloc::Global;

/// Whether all that are wanted are among the attributes.
pub(crate) fn has_all(wanted: &Row, attributes: &Row) -> bool
    ensures { result ≡ has_all wanted.now attributes.now }
{
    wanted.cells().iter().all(|name| is_in(name, attributes))
}

fn is_in(text: &Text, texts: &Row) -> bool
    ensures { result ≡ is_in text.now texts.now }
{
    texts.cells().iter().any(|t| text == t)
}

/// The places of the wanted attributes.
pub(crate) fn places_of(
    alloc: Global,
    wanted: &Row,
    attributes: &Row,
) -> Result<Vec<usize>, NoMemory>
    ensures { IfOk result (λ places. places.items ≡ places_of wanted.now attributes.now) }
{
    let mut places = Vec::with_capacity(alloc, wanted.cells().len())?;
    for name in wanted.cells() {
        places.push(place_of(attributes, name))?;
    }
    Ok(places)
}

/// The place of an attribute, or how many there are where it is missing.
pub fn place_of(attributes: &Row, name: &Text) -> usize
    ensures { result ≡ place_of attributes.now name.now }
{
    match found(attributes, name) {
        Some(place) => place,
        None => attributes.cells().len(),
    }
}

fn found(attributes: &Row, name: &Text) -> Option<usize>
    ensures { result ≡ position (text_eq name.now) attributes.now }
{
    attributes.cells().iter().position(|a| name == a)
}

/// The cells at these places, each empty where the row has none there.
pub(crate) fn cells_at(alloc: Global, places: &[usize], row: &Row) -> Result<Vec<Text>, NoMemory>
    ensures { IfOk result (λ cells. cells.items ≡ cells_at places.now row.now) }
{
    let mut cells = Vec::with_capacity(alloc, places.len())?;
    for place in places {
        cells.push(cell_at(alloc, row, *place)?)?;
    }
    Ok(cells)
}

/// The cell at a place, empty where the row has none there.
pub(crate) fn cell_at(alloc: Global, row: &Row, place: usize) -> Result<Text, NoMemory>
    ensures { IfOk result (λ cell. cell ≡ slice_index_or row.now place []) }
{
    match row.cells().get(place) {
        Some(cell) => cell.copy(),
        None => Ok(Text::empty(alloc)),
    }
}
