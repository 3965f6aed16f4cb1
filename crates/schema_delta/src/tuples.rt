//! What the rows of a relation contribute behind names, each flat row made once.
ghost use Rattle.std.specs.Prelude.{◌≡◌, ◌++◌, IfOk, OnOk, map};
ghost use Rattle.ss_text.specs.Texts.{is_in};
ghost use Rattle.fold_op.specs.Cells.{has_all, places_of};
ghost use Rattle.fold_op.specs.Flat.{entries, pick_value, fold_value};
ghost use Rattle.unite_op.specs.NamedThings.{rows_behind};

use crate::behind::{push_entry, push_picked};
use fold_op::place_of;
use ss_text::{NoMemory, Row, Text};
use std::alloc::Global;

// Whether all that are wanted are among the attributes.
fn has_all(wanted: &Row, attributes: &Row) -> bool
    ensures { result ≡ has_all wanted.now attributes.now }
{
    wanted.cells().iter().all(|name| is_in(name, attributes))
}

fn is_in(text: &Text, texts: &Row) -> bool
    ensures { result ≡ is_in text.now texts.now }
{
    texts.cells().iter().any(|t| text == t)
}

// The places of the wanted attributes.
fn places_of(alloc: Global, wanted: &Row, attributes: &Row) -> Result<Vec<usize>, NoMemory>
    ensures { IfOk result (λ places. places.items ≡ places_of wanted.now attributes.now) }
{
    let mut places = Vec::with_capacity(alloc, wanted.cells().len())?;
    for name in wanted.cells() {
        places.push(place_of(attributes, name))?;
    }
    Ok(places)
}

/// Adds the wanted cells of each row, and nothing where a wanted attribute is missing.
pub(crate) fn push_all_picked(
    alloc: Global,
    flat: &mut Vec<Row>,
    names: &Row,
    wanted: &Row,
    attributes: &Row,
    rows: &[&Row],
) -> Result<(), NoMemory>
    ensures { OnOk result (flat.new.items ≡ flat.old.items ++ rows_behind names.now (pick_value wanted.now (attributes.now, map (λ r. r.now) rows.now))) }
{
    if !has_all(wanted, attributes) {
        return Ok(());
    }
    let places = places_of(alloc, wanted, attributes)?;
    flat.reserve(rows.len())?;
    for row in rows {
        push_picked(alloc, flat, names, &places, row)?;
    }
    Ok(())
}

// Adds a row's flat rows, one for each attribute.
fn push_entries(
    alloc: Global,
    flat: &mut Vec<Row>,
    names: &Row,
    places: &[usize],
    attributes: &Row,
    row: &Row,
) -> Result<(), NoMemory>
    ensures { OnOk result (flat.new.items ≡ flat.old.items ++ rows_behind names.now (entries places.now attributes.now row.now)) }
{
    let (labels, cells) = (attributes.cells(), row.cells());
    let count = labels.len().min(cells.len());
    for k in 0..count {
        push_entry(alloc, flat, names, places, row, &labels[k], &cells[k])?;
    }
    Ok(())
}

/// Adds the wanted cells of each row with each attribute's name and cell, and nothing where a wanted attribute is missing.
#[tactic(auto, unfolding(fold_op::specs::Flat::fold_value))]
pub(crate) fn push_all_folded(
    alloc: Global,
    flat: &mut Vec<Row>,
    names: &Row,
    wanted: &Row,
    attributes: &Row,
    rows: &[&Row],
) -> Result<(), NoMemory>
    ensures { OnOk result (flat.new.items ≡ flat.old.items ++ rows_behind names.now (fold_value wanted.now (attributes.now, map (λ r. r.now) rows.now))) }
{
    if !has_all(wanted, attributes) {
        return Ok(());
    }
    let places = places_of(alloc, wanted, attributes)?;
    flat.reserve(rows.len().saturating_mul(attributes.cells().len()))?;
    for row in rows {
        push_entries(alloc, flat, names, &places, attributes, row)?;
    }
    Ok(())
}
