//! The wanted cells of each row of a sheet, with each attribute's name and cell.
ghost use Rattle.std.specs.Prelude.{◌≡◌, ◌+◌, ◌≤◌, ◌<◌, ◌∷◌, [], ℕ, IfOk, IfErr, map, length, ◌&&◌};
ghost use Rattle.operator_law.specs.Bags.{all_signed};
ghost use Rattle.schema_model.specs.Placed.{placed_rows};
ghost use Rattle.fold_op.specs.Sheets.{FitsSheet, IsSheet};
ghost use Rattle.fold_op.specs.Cells.{has_all};
ghost use Rattle.fold_op.specs.Flat.{fold_value, fold_moves, column, replaced};

use crate::cells::{cell_at, has_all, places_of};
use crate::entries::{column_rows, push_entries};
use crate::header::{borrowed, renamed, with_last, with_text, without};
use crate::moves::replaced;
use crate::{Sheet, SheetChange, rows_of};
use operator_law::{Delta, Operator};
use ss_text::{NoMemory, Row, Steps, Text};
use std::alloc::Global;
use std::marker::PhantomData;
use std::sync::ledger::Ledger;

/// Gives per row and attribute the wanted cells, the attribute's name and its cell, also an empty one, and nothing
/// for a sheet that lacks a wanted attribute.
#[derive(Drop)]
pub struct Fold<S> {
    wanted: Row,
    of: PhantomData<S>,
}

impl<S: Sheet> Fold<S> {
    /// Of these attributes, in this order.
    pub fn new(wanted: Row) -> Fold<S>
        ensures { result.wanted ≡ wanted }
    {
        Fold {
            wanted,
            of: PhantomData,
        }
    }
}

impl<S: Sheet> Operator for Fold<S> {
    ghost use Rattle.schema_model.specs.Placed.{placed_rows};
    ghost use Rattle.fold_op.specs.Sheets.{FitsSheet};
    ghost use Rattle.fold_op.specs.Flat.{fold_value, fold_moves};

    type Input = S;

    type Change = SheetChange;

    type Output = Delta;

    type Fault = NoMemory;

    ghost value = { λ s x. fold_value s.wanted x };

    ghost stands_for = { λ s i x. x ≡ (S.attributes i, placed_rows (S.placed i)) };

    ghost can_prepare = { λ s i g. FitsSheet g (S.attributes i, placed_rows (S.placed i)) };

    ghost gives = { λ s i g o. o ≡ fold_moves s.wanted (S.attributes i, placed_rows (S.placed i)) g };

    ghost may_stop = { λ s i g e. Unit {0} };

    ghost is_bound = { λ s i g n. Unit {0} };

    fn prepare<L: Ledger>(
        &self,
        alloc: Global,
        input: &S,
        change: &SheetChange,
        steps: &mut Steps<L>,
    ) -> Result<Delta, NoMemory> {
        let delta = fold_moves(alloc, &self.wanted, input, change)?;
        Ok(delta)
    }
}

// How the change moves the flat rows.
fn fold_moves<S: Sheet>(
    alloc: Global,
    wanted: &Row,
    sheet: &S,
    change: &SheetChange,
) -> Result<Delta, NoMemory>
    requires { FitsSheet change.now (S.attributes sheet.now, placed_rows (S.placed sheet.now)) }
    ensures sheet { IfOk result (λ _. IsSheet (S.attributes sheet.now, placed_rows (S.placed sheet.now))) }
    ensures moves { IfOk result (λ d. d ≡ fold_moves wanted.now (S.attributes sheet.now, placed_rows (S.placed sheet.now)) change.now) }
{
    let attributes = sheet.attributes();
    match change {
        SheetChange::Up { row } => Ok(folded(alloc, wanted, attributes, &[row], true)?),
        SheetChange::Down { row } => Ok(folded(alloc, wanted, attributes, &[row], false)?),
        SheetChange::Add { name, fill } => Ok(fold_added(alloc, wanted, sheet, name, fill)?),
        SheetChange::Drop { place } => Ok(fold_dropped(alloc, wanted, sheet, *place)?),
        SheetChange::Rename { place, to } => Ok(fold_renamed(alloc, wanted, sheet, *place, to)?),
        SheetChange::Born { .. } => Ok(Delta::none(alloc)),
        SheetChange::Gone => {
            let rows = rows_of(alloc, sheet)?;
            Ok(folded(alloc, wanted, attributes, &rows, false)?)
        }
    }
}

fn fold_added<S: Sheet>(
    alloc: Global,
    wanted: &Row,
    sheet: &S,
    name: &Text,
    fill: &Text,
) -> Result<Delta, NoMemory>
    ensures { IfOk result (λ d. d ≡ fold_moves wanted.now (S.attributes sheet.now, placed_rows (S.placed sheet.now)) (SheetChange.Add name.now fill.now)) }
{
    let attributes = sheet.attributes();
    let after = with_text(alloc, attributes, name)?;
    let rows = with_last(alloc, &rows_of(alloc, sheet)?, fill)?;
    let rows = borrowed(alloc, &rows)?;
    if has_all(wanted, attributes) {
        let last = attributes.cells().len();
        Ok(column_moves(alloc, wanted, &after, &rows, last, true)?)
    } else {
        Ok(folded(alloc, wanted, &after, &rows, true)?)
    }
}

fn fold_dropped<S: Sheet>(
    alloc: Global,
    wanted: &Row,
    sheet: &S,
    place: usize,
) -> Result<Delta, NoMemory>
    requires { place < length (S.attributes sheet.now) }
    ensures { IfOk result (λ d. d ≡ fold_moves wanted.now (S.attributes sheet.now, placed_rows (S.placed sheet.now)) (SheetChange.Drop place)) }
{
    let attributes = sheet.attributes();
    let after = without(alloc, attributes, place)?;
    let rows = rows_of(alloc, sheet)?;
    if has_all(wanted, &after) {
        Ok(column_moves(alloc, wanted, attributes, &rows, place, false)?)
    } else {
        Ok(folded(alloc, wanted, attributes, &rows, false)?)
    }
}

fn fold_renamed<S: Sheet>(
    alloc: Global,
    wanted: &Row,
    sheet: &S,
    place: usize,
    to: &Text,
) -> Result<Delta, NoMemory>
    requires { place < length (S.attributes sheet.now) }
    ensures { IfOk result (λ d. d ≡ fold_moves wanted.now (S.attributes sheet.now, placed_rows (S.placed sheet.now)) (SheetChange.Rename place to.now)) }
{
    let attributes = sheet.attributes();
    let after = renamed(alloc, attributes, place, to)?;
    let rows = rows_of(alloc, sheet)?;
    if both_have(wanted, attributes, &after) {
        let gone = column(alloc, wanted, attributes, &rows, place)?;
        let come = column(alloc, wanted, &after, &rows, place)?;
        Ok(replaced(alloc, gone, come)?)
    } else {
        let gone = fold_rows(alloc, wanted, attributes, &rows)?;
        let come = fold_rows(alloc, wanted, &after, &rows)?;
        Ok(replaced(alloc, gone, come)?)
    }
}

fn both_have(wanted: &Row, before: &Row, after: &Row) -> bool
    ensures { result ≡ (has_all wanted.now before.now && has_all wanted.now after.now) }
{
    has_all(wanted, before) && has_all(wanted, after)
}

// The flat rows of each row, which all come or all go.
fn folded(
    alloc: Global,
    wanted: &Row,
    attributes: &Row,
    rows: &[&Row],
    up: bool,
) -> Result<Delta, NoMemory>
    ensures { IfOk result (λ d. d ≡ all_signed up (fold_value wanted.now (attributes.now, map (λ r. r.now) rows.now))) }
{
    let flat = fold_rows(alloc, wanted, attributes, rows)?;
    let delta = Delta::of(alloc, flat, up)?;
    Ok(delta)
}

// The flat row of each row for the attribute at a place, which all come or all go.
fn column_moves(
    alloc: Global,
    wanted: &Row,
    attributes: &Row,
    rows: &[&Row],
    place: usize,
    up: bool,
) -> Result<Delta, NoMemory>
    ensures { IfOk result (λ d. d ≡ all_signed up (column wanted.now (attributes.now, map (λ r. r.now) rows.now) place)) }
{
    let flat = column(alloc, wanted, attributes, rows, place)?;
    let delta = Delta::of(alloc, flat, up)?;
    Ok(delta)
}

/// The flat rows of each row, one for each attribute, and nothing where a wanted attribute is missing.
#[tactic(auto, unfolding(crate::specs::Flat::fold_value))]
pub fn fold_rows(
    alloc: Global,
    wanted: &Row,
    attributes: &Row,
    rows: &[&Row],
) -> Result<Vec<Row>, NoMemory>
    ensures { IfOk result (λ flat. flat.items ≡ fold_value wanted.now (attributes.now, map (λ r. r.now) rows.now)) }
{
    let mut flat = Vec::new(alloc);
    if !has_all(wanted, attributes) {
        return Ok(flat);
    }
    let places = places_of(alloc, wanted, attributes)?;
    for row in rows {
        push_entries(alloc, &mut flat, &places, attributes, row)?;
    }
    Ok(flat)
}

#[tactic(auto, unfolding(crate::specs::Flat::column))]
fn column(
    alloc: Global,
    wanted: &Row,
    attributes: &Row,
    rows: &[&Row],
    place: usize,
) -> Result<Vec<Row>, NoMemory>
    ensures { IfOk result (λ flat. flat.items ≡ column wanted.now (attributes.now, map (λ r. r.now) rows.now) place) }
{
    let places = places_of(alloc, wanted, attributes)?;
    let name = cell_at(alloc, attributes, place)?;
    column_rows(alloc, &places, &name, rows, place)
}
