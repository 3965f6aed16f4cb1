//! Attributes, and rows, after a change.
ghost use Rattle.std.specs.Prelude.{◌≡◌, ◌<◌, ◌++◌, ◌∷◌, [], IfOk, length, map, remove, slice_set};
ghost use Rattle.fold_op.specs.Sheets.{with_last};

use ss_text::{NoMemory, Row, Text};
use std::alloc::Global;

/// The row with a text last.
pub(crate) fn with_text(alloc: Global, row: &Row, last: &Text) -> Result<Row, NoMemory>
    ensures { IfOk result (λ r. r ≡ row.now ++ last.now ∷ []) }
{
    let mut texts = copied(alloc, row)?;
    texts.push(last.copy()?)?;
    Ok(Row::of(texts))
}

/// The rows with a text last in each.
pub(crate) fn with_last(alloc: Global, rows: &[&Row], fill: &Text) -> Result<Vec<Row>, NoMemory>
    ensures { IfOk result (λ wider. wider.items ≡ with_last fill.now (map (λ r. r.now) rows.now)) }
{
    let mut wider = Vec::with_capacity(alloc, rows.len())?;
    for row in rows {
        wider.push(with_text(alloc, row, fill)?)?;
    }
    Ok(wider)
}

/// The rows, borrowed.
pub(crate) fn borrowed(alloc: Global, rows: &[Row]) -> Result<Vec<&Row>, NoMemory>
    ensures { IfOk result (λ refs. map (λ r. r.now) refs.items ≡ rows.now) }
{
    let mut refs = Vec::with_capacity(alloc, rows.len())?;
    for row in rows {
        refs.push(row)?;
    }
    Ok(refs)
}

/// The attributes without the one at a place.
pub(crate) fn without(alloc: Global, attributes: &Row, place: usize) -> Result<Row, NoMemory>
    requires { place < length attributes.now }
    ensures { IfOk result (λ row. row ≡ remove attributes.now place) }
{
    let mut names = copied(alloc, attributes)?;
    names.remove(place);
    Ok(Row::of(names))
}

/// The attributes with another name at a place.
pub(crate) fn renamed(
    alloc: Global,
    attributes: &Row,
    place: usize,
    to: &Text,
) -> Result<Row, NoMemory>
    requires { place < length attributes.now }
    ensures { IfOk result (λ row. row ≡ slice_set attributes.now place to.now) }
{
    let to = to.copy()?;
    let mut names = copied(alloc, attributes)?;
    names[place] = to;
    Ok(Row::of(names))
}

fn copied(alloc: Global, row: &Row) -> Result<Vec<Text>, NoMemory>
    ensures { IfOk result (λ texts. texts.items ≡ row.now) }
{
    let mut texts = Vec::with_capacity(alloc, row.cells().len())?;
    for text in row.cells() {
        texts.push(text.copy()?)?;
    }
    Ok(texts)
}
