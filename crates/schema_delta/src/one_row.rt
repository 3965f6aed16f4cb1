//! How changes of rows move the flat rows of declarations.
ghost use Rattle.std.specs.Prelude.{◌≡◌, None, Some, IfOk, IsTrue};
ghost use Rattle.operator_law.specs.Bags.{all_signed};
ghost use Rattle.ss_text.specs.Texts.{Row as Header};
ghost use Rattle.schema_model.specs.Catalogue.{CatalogueValue, RelationValue, relation_of};
ghost use Rattle.schema_model.specs.Refusals.{fault};
ghost use Rattle.schema_model.specs.Sound.{IsSound};
ghost use Rattle.schema_delta.specs.Flat.{MovesFlat};
ghost use Rattle.schema_delta.specs.OneRow.{is_of_rows, header_of, SameHeaders, row_part};

use crate::FlatSpec;
use crate::find::relation_of;
use crate::part::part_rows;
use operator_law::Delta;
use schema_model::{Catalogue, Change};
use ss_text::{NoMemory, Row, Text};
use std::alloc::Global;
use view_def::Range;

/// Whether a change inserts or deletes a row.
pub(crate) fn is_of_rows(change: &Change) -> bool
    ensures { result ≡ is_of_rows change.now }
{
    matches!(change, Change::Insert { .. } | Change::Delete { .. })
}

/// How a change of rows moves the flat rows of a declaration, over each catalogue whose relations have the attributes
/// that they have in this one.
pub(crate) fn rows_change(
    alloc: Global,
    catalogue: &Catalogue,
    change: &Change,
    spec: &FlatSpec,
) -> Result<Delta, NoMemory>
    requires of_rows { IsTrue (is_of_rows change.now) }
    requires there { (c : CatalogueValue) × SameHeaders c catalogue.now.databases × (fault c change.now ≡ None) }
    ensures moved { IfOk result (λ d. (c : CatalogueValue) → IsSound c → SameHeaders c catalogue.now.databases → fault c change.now ≡ None → MovesFlat c change.now spec.now d) }
    ensures sound { IsSound catalogue.now.databases }
{
    match change {
        Change::Insert { db, rel, row } => {
            Ok(row_change(alloc, catalogue, db, rel, row, true, spec)?)
        }
        Change::Delete { db, rel, row } => {
            Ok(row_change(alloc, catalogue, db, rel, row, false, spec)?)
        }
        _ => unreachable!(),
    }
}

// What a row contributes comes or goes.
fn row_change(
    alloc: Global,
    catalogue: &Catalogue,
    db: &Text,
    rel: &Text,
    row: &Row,
    up: bool,
    spec: &FlatSpec,
) -> Result<Delta, NoMemory>
    requires { (r : RelationValue) × (relation_of catalogue.now.databases db.now rel.now ≡ Some r) }
    ensures signed { IfOk result (λ d. (h : Header) → header_of catalogue.now.databases db.now rel.now ≡ Some h → d ≡ all_signed up (row_part spec.now db.now rel.now h row.now)) }
    ensures sound { IsSound catalogue.now.databases }
{
    let relation = relation_of(catalogue, db, rel);
    let rows = row_part(alloc, spec, db, rel, relation.attributes(), row)?;
    let delta = Delta::of(alloc, rows, up)?;
    Ok(delta)
}

// What a row contributes in a relation of these names and attributes.
fn row_part(
    alloc: Global,
    spec: &FlatSpec,
    db: &Text,
    rel: &Text,
    attributes: &Row,
    row: &Row,
) -> Result<Vec<Row>, NoMemory>
    ensures { IfOk result (λ rows. rows.items ≡ row_part spec.now db.now rel.now attributes.now row.now) }
{
    match &spec.range {
        Range::Tuples(..) | Range::Values(..) => {
            Ok(part_rows(alloc, spec, db, rel, attributes, &[row])?)
        }
        _ => Ok(Vec::new(alloc)),
    }
}
