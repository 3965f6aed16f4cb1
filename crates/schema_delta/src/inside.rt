//! What a relation contributes, behind the names of its database and its own.
ghost use Rattle.std.specs.Prelude.{◌≡◌, ◌++◌, ◌∷◌, [], IfOk, OnOk, map};
ghost use Rattle.fold_op.specs.Flat.{pick_value};
ghost use Rattle.unite_op.specs.NamedThings.{rows_behind};
ghost use Rattle.schema_delta.specs.Flat.{inside, values_of, names_of};

use crate::FlatSpec;
use crate::behind::{push_rows, with_name};
use crate::tuples::{push_all_folded, push_all_picked};
use ss_text::{NoMemory, Row, Text};
use std::alloc::Global;
use view_def::{Place, Range};

/// Adds what a relation with these attributes and rows contributes, each row behind these names.
pub(crate) fn push_inside(
    alloc: Global,
    flat: &mut Vec<Row>,
    names: &Row,
    spec: &FlatSpec,
    attributes: &Row,
    rows: &[&Row],
) -> Result<(), NoMemory>
    ensures { OnOk result (flat.new.items ≡ flat.old.items ++ rows_behind names.now (inside spec.now.range spec.now.wanted spec.now.folded (attributes.now, map (λ r. r.now) rows.now))) }
{
    match &spec.range {
        Range::Tuples(..) if spec.folded => {
            push_all_folded(alloc, flat, names, &spec.wanted, attributes, rows)?;
        }
        Range::Tuples(..) => {
            push_all_picked(alloc, flat, names, &spec.wanted, attributes, rows)?;
        }
        Range::Databases | Range::Alias(..) => {}
        Range::Relations(..) => push_rows(alloc, flat, names, &one_empty(alloc)?)?,
        Range::Attributes(..) => {
            push_rows(alloc, flat, names, &attribute_rows(alloc, attributes)?)?;
        }
        Range::Values(_, _, place) => push_values(alloc, flat, names, place, attributes, rows)?,
    }
    Ok(())
}

// Adds the name and the cell of the attribute that a place names, for every row.
fn push_values(
    alloc: Global,
    flat: &mut Vec<Row>,
    names: &Row,
    place: &Place,
    attributes: &Row,
    rows: &[&Row],
) -> Result<(), NoMemory>
    ensures { OnOk result (flat.new.items ≡ flat.old.items ++ rows_behind names.now (values_of place.now (attributes.now, map (λ r. r.now) rows.now))) }
{
    match place {
        Place::Fixed(name) => push_named(alloc, flat, names, name, attributes, rows),
        Place::Var(_) => {
            let none = Row::of(Vec::new(alloc));
            push_all_folded(alloc, flat, names, &none, attributes, rows)
        }
    }
}

// Adds the name and the cell of this attribute, for every row.
fn push_named(
    alloc: Global,
    flat: &mut Vec<Row>,
    names: &Row,
    name: &Text,
    attributes: &Row,
    rows: &[&Row],
) -> Result<(), NoMemory>
    ensures { OnOk result (flat.new.items ≡ flat.old.items ++ rows_behind names.now (rows_behind (name.now ∷ []) (pick_value (name.now ∷ []) (attributes.now, map (λ r. r.now) rows.now)))) }
{
    let wanted = one(alloc, name)?;
    let names = with_name(alloc, names, name)?;
    push_all_picked(alloc, flat, &names, &wanted, attributes, rows)?;
    Ok(())
}

fn one_empty(alloc: Global) -> Result<Vec<Row>, NoMemory>
    ensures { IfOk result (λ flat. flat.items ≡ [] ∷ []) }
{
    let mut flat = Vec::new(alloc);
    flat.push(Row::of(Vec::new(alloc)))?;
    Ok(flat)
}

fn attribute_rows(alloc: Global, attributes: &Row) -> Result<Vec<Row>, NoMemory>
    ensures { IfOk result (λ flat. flat.items ≡ names_of attributes.now) }
{
    let mut flat = Vec::with_capacity(alloc, attributes.cells().len())?;
    for name in attributes.cells() {
        flat.push(one(alloc, name)?)?;
    }
    Ok(flat)
}

/// The row of one text.
pub(crate) fn one(alloc: Global, text: &Text) -> Result<Row, NoMemory>
    ensures { IfOk result (λ row. row ≡ text.now ∷ []) }
{
    let mut cells = Vec::new(alloc);
    cells.push(text.copy()?)?;
    Ok(Row::of(cells))
}
