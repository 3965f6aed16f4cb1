//! Relations and databases that come, go and get another name.
ghost use Rattle.std.specs.Prelude.{◌≡◌, None, IfOk};
ghost use Rattle.schema_model.specs.declared.change.Change.TheVariants as change_is;
ghost use Rattle.schema_model.specs.Refusals.{fault};
ghost use Rattle.schema_delta.specs.Flat.{MovesFlat};

use crate::FlatSpec;
use crate::find::{database_of, relation_of};
use crate::part::part_rows;
use crate::rows::{database_rows, own_rows, relation_rows};
use fold_op::replaced;
use operator_law::Delta;
use schema_model::Catalogue;
use ss_text::{NoMemory, Row, Text};
use std::alloc::Global;

pub(crate) fn relation_created(
    alloc: Global,
    catalogue: &Catalogue,
    db: &Text,
    rel: &Text,
    attributes: &Row,
    spec: &FlatSpec,
) -> Result<Delta, NoMemory>
    requires { fault catalogue.now.databases (change_is.CreateRelation db.now rel.now attributes.now) ≡ None }
    ensures { IfOk result (MovesFlat catalogue.now.databases (change_is.CreateRelation db.now rel.now attributes.now) spec.now) }
{
    let _sound = catalogue.databases();
    let come = part_rows(alloc, spec, db, rel, attributes, &[])?;
    let delta = Delta::of(alloc, come, true)?;
    Ok(delta)
}

pub(crate) fn relation_dropped(
    alloc: Global,
    catalogue: &Catalogue,
    db: &Text,
    rel: &Text,
    spec: &FlatSpec,
) -> Result<Delta, NoMemory>
    requires { fault catalogue.now.databases (change_is.DropRelation db.now rel.now) ≡ None }
    ensures { IfOk result (MovesFlat catalogue.now.databases (change_is.DropRelation db.now rel.now) spec.now) }
{
    let relation = relation_of(catalogue, db, rel);
    let gone = relation_rows(alloc, db, relation, relation.name(), spec)?;
    let delta = Delta::of(alloc, gone, false)?;
    Ok(delta)
}

pub(crate) fn relation_renamed(
    alloc: Global,
    catalogue: &Catalogue,
    db: &Text,
    rel: &Text,
    to: &Text,
    spec: &FlatSpec,
) -> Result<Delta, NoMemory>
    requires { fault catalogue.now.databases (change_is.RenameRelation db.now rel.now to.now) ≡ None }
    ensures { IfOk result (MovesFlat catalogue.now.databases (change_is.RenameRelation db.now rel.now to.now) spec.now) }
{
    let relation = relation_of(catalogue, db, rel);
    let gone = relation_rows(alloc, db, relation, relation.name(), spec)?;
    let come = relation_rows(alloc, db, relation, to, spec)?;
    let delta = replaced(alloc, gone, come)?;
    Ok(delta)
}

pub(crate) fn database_created(
    alloc: Global,
    catalogue: &Catalogue,
    db: &Text,
    spec: &FlatSpec,
) -> Result<Delta, NoMemory>
    requires { fault catalogue.now.databases (change_is.CreateDatabase db.now) ≡ None }
    ensures { IfOk result (MovesFlat catalogue.now.databases (change_is.CreateDatabase db.now) spec.now) }
{
    let _sound = catalogue.databases();
    let come = own_rows(alloc, db, spec)?;
    let delta = Delta::of(alloc, come, true)?;
    Ok(delta)
}

pub(crate) fn database_dropped(
    alloc: Global,
    catalogue: &Catalogue,
    db: &Text,
    spec: &FlatSpec,
) -> Result<Delta, NoMemory>
    requires { fault catalogue.now.databases (change_is.DropDatabase db.now) ≡ None }
    ensures { IfOk result (MovesFlat catalogue.now.databases (change_is.DropDatabase db.now) spec.now) }
{
    let database = database_of(catalogue, db);
    let gone = database_rows(alloc, database, database.name(), spec)?;
    let delta = Delta::of(alloc, gone, false)?;
    Ok(delta)
}

pub(crate) fn database_renamed(
    alloc: Global,
    catalogue: &Catalogue,
    db: &Text,
    to: &Text,
    spec: &FlatSpec,
) -> Result<Delta, NoMemory>
    requires { fault catalogue.now.databases (change_is.RenameDatabase db.now to.now) ≡ None }
    ensures { IfOk result (MovesFlat catalogue.now.databases (change_is.RenameDatabase db.now to.now) spec.now) }
{
    let database = database_of(catalogue, db);
    let gone = database_rows(alloc, database, database.name(), spec)?;
    let come = database_rows(alloc, database, to, spec)?;
    let delta = replaced(alloc, gone, come)?;
    Ok(delta)
}
