//! How a change of the catalogue moves the flat rows of declarations.
ghost use Rattle.std.specs.Prelude.{◌≡◌, None, IfOk};
ghost use Rattle.std.specs.List.{AllZip};
ghost use Rattle.schema_model.specs.Refusals.{fault};
ghost use Rattle.schema_delta.specs.Flat.{MovesFlat};

use crate::FlatSpec;
use crate::attributes::{attribute_added, attribute_dropped, attribute_renamed};
use crate::databases::{
    database_created, database_dropped, database_renamed, relation_created, relation_dropped,
    relation_renamed,
};
use crate::one_row::rows_change;
use operator_law::Delta;
use schema_model::{Catalogue, Change};
use ss_text::{NoMemory, Steps};
use std::alloc::Global;
use std::sync::ledger::Ledger;

/// How a change that is not refused moves the flat rows of each declaration.
pub fn flat_changes<L: Ledger>(
    alloc: Global,
    catalogue: &Catalogue,
    change: &Change,
    specs: &[FlatSpec],
    steps: &mut Steps<L>,
) -> Result<Vec<Delta>, NoMemory>
    requires { fault catalogue.now.databases change.now ≡ None }
    ensures moved { IfOk result (λ deltas. AllZip (MovesFlat catalogue.now.databases change.now) specs.now deltas.items) }
    ensures steps { steps.new ≡ steps.old }
{
    let mut deltas = Vec::with_capacity(alloc, specs.len())?;
    for spec in specs {
        let delta = flat_change(alloc, catalogue, change, spec, steps)?;
        deltas.push(delta)?;
    }
    Ok(deltas)
}

/// How such a change moves the flat rows of one declaration.
pub(crate) fn flat_change<L: Ledger>(
    alloc: Global,
    catalogue: &Catalogue,
    change: &Change,
    spec: &FlatSpec,
    steps: &mut Steps<L>,
) -> Result<Delta, NoMemory>
    requires { fault catalogue.now.databases change.now ≡ None }
    ensures moved { IfOk result (MovesFlat catalogue.now.databases change.now spec.now) }
    ensures steps { steps.new ≡ steps.old }
{
    match change {
        Change::Insert { .. } => Ok(rows_change(alloc, catalogue, change, spec)?),
        Change::Delete { .. } => Ok(rows_change(alloc, catalogue, change, spec)?),
        Change::AddAttribute {
            db,
            rel,
            name,
            fill,
        } => Ok(attribute_added(alloc, catalogue, db, rel, name, fill, spec, steps)?),
        Change::DropAttribute { db, rel, name } => {
            Ok(attribute_dropped(alloc, catalogue, db, rel, name, spec, steps)?)
        }
        Change::RenameAttribute { db, rel, name, to } => {
            Ok(attribute_renamed(alloc, catalogue, db, rel, name, to, spec, steps)?)
        }
        Change::CreateRelation {
            db,
            rel,
            attributes,
        } => Ok(relation_created(alloc, catalogue, db, rel, attributes, spec)?),
        Change::DropRelation { db, rel } => Ok(relation_dropped(alloc, catalogue, db, rel, spec)?),
        Change::RenameRelation { db, rel, to } => {
            Ok(relation_renamed(alloc, catalogue, db, rel, to, spec)?)
        }
        Change::CreateDatabase { db } => Ok(database_created(alloc, catalogue, db, spec)?),
        Change::DropDatabase { db } => Ok(database_dropped(alloc, catalogue, db, spec)?),
        Change::RenameDatabase { db, to } => Ok(database_renamed(alloc, catalogue, db, to, spec)?),
    }
}
