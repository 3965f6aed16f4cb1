//! What a relation contributes behind the names of its database and its own.
ghost use Rattle.std.specs.Prelude.{◌≡◌, ◌++◌, ◌∷◌, [], IfOk, OnOk, map};
ghost use Rattle.schema_model.specs.Catalogue.{relation_value};
ghost use Rattle.schema_delta.specs.Flat.{part, goes_over, keeps};

use crate::FlatSpec;
use crate::inside::push_inside;
use ss_text::{NoMemory, Row, Text};
use std::alloc::Global;
use view_def::{Place, Range};

/// Adds what a relation of this name contributes, with these attributes and rows.
pub(crate) fn push_part(
    alloc: Global,
    flat: &mut Vec<Row>,
    spec: &FlatSpec,
    db: &Text,
    rel: &Text,
    attributes: &Row,
    rows: &[&Row],
) -> Result<(), NoMemory>
    ensures { OnOk result (flat.new.items ≡ flat.old.items ++ part spec.now db.now (relation_value rel.now attributes.now (map (λ r. r.now) rows.now))) }
{
    if !goes_over(&spec.range, db, rel) {
        return Ok(());
    }
    let names = both(alloc, db, rel)?;
    push_inside(alloc, flat, &names, spec, attributes, rows)?;
    Ok(())
}

/// What a relation of this name contributes, with these attributes and rows.
pub(crate) fn part_rows(
    alloc: Global,
    spec: &FlatSpec,
    db: &Text,
    rel: &Text,
    attributes: &Row,
    rows: &[&Row],
) -> Result<Vec<Row>, NoMemory>
    ensures { IfOk result (λ flat. flat.items ≡ part spec.now db.now (relation_value rel.now attributes.now (map (λ r. r.now) rows.now))) }
{
    let mut flat = Vec::new(alloc);
    push_part(alloc, &mut flat, spec, db, rel, attributes, rows)?;
    Ok(flat)
}

/// Whether a range goes over a relation of these names.
pub(crate) fn goes_over(range: &Range, db: &Text, rel: &Text) -> bool
    ensures { result ≡ goes_over range.now db.now rel.now }
{
    match range {
        Range::Databases | Range::Alias(..) => false,
        Range::Relations(p) => keeps(p, db),
        Range::Attributes(p, q) | Range::Tuples(p, q) | Range::Values(p, q, _) => {
            keeps(p, db) && keeps(q, rel)
        }
    }
}

fn keeps(place: &Place, name: &Text) -> bool
    ensures { result ≡ keeps place.now name.now }
{
    match place {
        Place::Fixed(text) => text == name,
        Place::Var(_) => true,
    }
}

/// The row of two texts.
pub(crate) fn both(alloc: Global, first: &Text, second: &Text) -> Result<Row, NoMemory>
    ensures { IfOk result (λ row. row ≡ first.now ∷ second.now ∷ []) }
{
    let mut cells = Vec::new(alloc);
    cells.push(first.copy()?)?;
    cells.push(second.copy()?)?;
    Ok(Row::of(cells))
}
