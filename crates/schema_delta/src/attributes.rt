//! Attributes of one relation that come, go and get another name.
ghost use Rattle.std.specs.Prelude.{◌≡◌, None, IfOk};
ghost use Rattle.schema_model.specs.declared.change.Change.TheVariants as change_is;
ghost use Rattle.schema_model.specs.Refusals.{fault};
ghost use Rattle.schema_delta.specs.Flat.{MovesFlat};

use crate::FlatSpec;
use crate::change::part_change;
use crate::find::relation_of;
use fold_op::{SheetChange, place_of};
use operator_law::Delta;
use schema_model::Catalogue;
use ss_text::{NoMemory, Steps, Text};
use std::alloc::Global;
use std::sync::ledger::Ledger;

pub(crate) fn attribute_added<L: Ledger>(
    alloc: Global,
    catalogue: &Catalogue,
    db: &Text,
    rel: &Text,
    name: &Text,
    fill: &Text,
    spec: &FlatSpec,
    steps: &mut Steps<L>,
) -> Result<Delta, NoMemory>
    requires { fault catalogue.now.databases (change_is.AddAttribute db.now rel.now name.now fill.now) ≡ None }
    ensures moved { IfOk result (MovesFlat catalogue.now.databases (change_is.AddAttribute db.now rel.now name.now fill.now) spec.now) }
    ensures steps { steps.new ≡ steps.old }
{
    let relation = relation_of(catalogue, db, rel);
    let name = name.copy()?;
    let fill = fill.copy()?;
    let change = SheetChange::Add { name, fill };
    let delta = part_change(alloc, spec, db, relation, &change, steps)?;
    Ok(delta)
}

pub(crate) fn attribute_dropped<L: Ledger>(
    alloc: Global,
    catalogue: &Catalogue,
    db: &Text,
    rel: &Text,
    name: &Text,
    spec: &FlatSpec,
    steps: &mut Steps<L>,
) -> Result<Delta, NoMemory>
    requires { fault catalogue.now.databases (change_is.DropAttribute db.now rel.now name.now) ≡ None }
    ensures moved { IfOk result (MovesFlat catalogue.now.databases (change_is.DropAttribute db.now rel.now name.now) spec.now) }
    ensures steps { steps.new ≡ steps.old }
{
    let relation = relation_of(catalogue, db, rel);
    let place = place_of(relation.attributes(), name);
    let change = SheetChange::Drop { place };
    let delta = part_change(alloc, spec, db, relation, &change, steps)?;
    Ok(delta)
}

pub(crate) fn attribute_renamed<L: Ledger>(
    alloc: Global,
    catalogue: &Catalogue,
    db: &Text,
    rel: &Text,
    name: &Text,
    to: &Text,
    spec: &FlatSpec,
    steps: &mut Steps<L>,
) -> Result<Delta, NoMemory>
    requires { fault catalogue.now.databases (change_is.RenameAttribute db.now rel.now name.now to.now) ≡ None }
    ensures moved { IfOk result (MovesFlat catalogue.now.databases (change_is.RenameAttribute db.now rel.now name.now to.now) spec.now) }
    ensures steps { steps.new ≡ steps.old }
{
    let relation = relation_of(catalogue, db, rel);
    let place = place_of(relation.attributes(), name);
    let to = to.copy()?;
    let change = SheetChange::Rename { place, to };
    let delta = part_change(alloc, spec, db, relation, &change, steps)?;
    Ok(delta)
}
