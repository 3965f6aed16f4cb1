//! The wanted cells of each row of a sheet.
ghost use Rattle.std.specs.Prelude.{◌≡◌, ◌+◌, ◌≤◌, ◌<◌, ℕ, IfOk, IfErr, map, length};
ghost use Rattle.operator_law.specs.Bags.{all_signed};
ghost use Rattle.schema_model.specs.Placed.{placed_rows};
ghost use Rattle.fold_op.specs.Sheets.{FitsSheet, IsSheet};
ghost use Rattle.fold_op.specs.Flat.{pick_value, pick_moves};

use crate::cells::{cells_at, has_all, places_of};
use crate::header::{borrowed, renamed, with_last, with_text, without};
use crate::moves::replaced;
use crate::{Sheet, SheetChange, rows_of};
use operator_law::{Delta, Operator};
use ss_text::{NoMemory, Row, Steps, Text};
use std::alloc::Global;
use std::marker::PhantomData;
use std::sync::ledger::Ledger;

/// Gives the wanted cells of each row, and nothing for a sheet that lacks a wanted attribute.
#[derive(Drop)]
pub struct Pick<S> {
    wanted: Row,
    of: PhantomData<S>,
}

impl<S: Sheet> Pick<S> {
    /// Of these attributes, in this order.
    pub fn new(wanted: Row) -> Pick<S>
        ensures { result.wanted ≡ wanted }
    {
        Pick {
            wanted,
            of: PhantomData,
        }
    }
}

impl<S: Sheet> Operator for Pick<S> {
    ghost use Rattle.schema_model.specs.Placed.{placed_rows};
    ghost use Rattle.fold_op.specs.Sheets.{FitsSheet};
    ghost use Rattle.fold_op.specs.Flat.{pick_value, pick_moves};

    type Input = S;

    type Change = SheetChange;

    type Output = Delta;

    type Fault = NoMemory;

    ghost value = { λ s x. pick_value s.wanted x };

    ghost stands_for = { λ s i x. x ≡ (S.attributes i, placed_rows (S.placed i)) };

    ghost can_prepare = { λ s i g. FitsSheet g (S.attributes i, placed_rows (S.placed i)) };

    ghost gives = { λ s i g o. o ≡ pick_moves s.wanted (S.attributes i, placed_rows (S.placed i)) g };

    ghost may_stop = { λ s i g e. Unit {0} };

    ghost is_bound = { λ s i g n. Unit {0} };

    fn prepare<L: Ledger>(
        &self,
        alloc: Global,
        input: &S,
        change: &SheetChange,
        steps: &mut Steps<L>,
    ) -> Result<Delta, NoMemory> {
        let delta = pick_moves(alloc, &self.wanted, input, change)?;
        Ok(delta)
    }
}

// How the change moves the wanted cells.
fn pick_moves<S: Sheet>(
    alloc: Global,
    wanted: &Row,
    sheet: &S,
    change: &SheetChange,
) -> Result<Delta, NoMemory>
    requires { FitsSheet change.now (S.attributes sheet.now, placed_rows (S.placed sheet.now)) }
    ensures sheet { IfOk result (λ _. IsSheet (S.attributes sheet.now, placed_rows (S.placed sheet.now))) }
    ensures moves { IfOk result (λ d. d ≡ pick_moves wanted.now (S.attributes sheet.now, placed_rows (S.placed sheet.now)) change.now) }
{
    let attributes = sheet.attributes();
    match change {
        SheetChange::Up { row } => Ok(picked(alloc, wanted, attributes, &[row], true)?),
        SheetChange::Down { row } => Ok(picked(alloc, wanted, attributes, &[row], false)?),
        SheetChange::Add { name, fill } => Ok(pick_added(alloc, wanted, sheet, name, fill)?),
        SheetChange::Drop { place } => Ok(pick_dropped(alloc, wanted, sheet, *place)?),
        SheetChange::Rename { place, to } => Ok(pick_renamed(alloc, wanted, sheet, *place, to)?),
        SheetChange::Born { .. } => Ok(Delta::none(alloc)),
        SheetChange::Gone => {
            let rows = rows_of(alloc, sheet)?;
            Ok(picked(alloc, wanted, attributes, &rows, false)?)
        }
    }
}

fn pick_added<S: Sheet>(
    alloc: Global,
    wanted: &Row,
    sheet: &S,
    name: &Text,
    fill: &Text,
) -> Result<Delta, NoMemory>
    ensures { IfOk result (λ d. d ≡ pick_moves wanted.now (S.attributes sheet.now, placed_rows (S.placed sheet.now)) (SheetChange.Add name.now fill.now)) }
{
    let attributes = sheet.attributes();
    if has_all(wanted, attributes) {
        return Ok(Delta::none(alloc));
    }
    let after = with_text(alloc, attributes, name)?;
    let rows = with_last(alloc, &rows_of(alloc, sheet)?, fill)?;
    let rows = borrowed(alloc, &rows)?;
    let delta = picked(alloc, wanted, &after, &rows, true)?;
    Ok(delta)
}

fn pick_dropped<S: Sheet>(
    alloc: Global,
    wanted: &Row,
    sheet: &S,
    place: usize,
) -> Result<Delta, NoMemory>
    requires { place < length (S.attributes sheet.now) }
    ensures { IfOk result (λ d. d ≡ pick_moves wanted.now (S.attributes sheet.now, placed_rows (S.placed sheet.now)) (SheetChange.Drop place)) }
{
    let attributes = sheet.attributes();
    let after = without(alloc, attributes, place)?;
    if has_all(wanted, &after) {
        return Ok(Delta::none(alloc));
    }
    let rows = rows_of(alloc, sheet)?;
    let delta = picked(alloc, wanted, attributes, &rows, false)?;
    Ok(delta)
}

fn pick_renamed<S: Sheet>(
    alloc: Global,
    wanted: &Row,
    sheet: &S,
    place: usize,
    to: &Text,
) -> Result<Delta, NoMemory>
    requires { place < length (S.attributes sheet.now) }
    ensures { IfOk result (λ d. d ≡ pick_moves wanted.now (S.attributes sheet.now, placed_rows (S.placed sheet.now)) (SheetChange.Rename place to.now)) }
{
    let attributes = sheet.attributes();
    let after = renamed(alloc, attributes, place, to)?;
    if has_all(wanted, attributes) && has_all(wanted, &after) {
        return Ok(Delta::none(alloc));
    }
    let rows = rows_of(alloc, sheet)?;
    let gone = pick_rows(alloc, wanted, attributes, &rows)?;
    let come = pick_rows(alloc, wanted, &after, &rows)?;
    let delta = replaced(alloc, gone, come)?;
    Ok(delta)
}

// The wanted cells of each row, which all come or all go.
fn picked(
    alloc: Global,
    wanted: &Row,
    attributes: &Row,
    rows: &[&Row],
    up: bool,
) -> Result<Delta, NoMemory>
    ensures { IfOk result (λ d. d ≡ all_signed up (pick_value wanted.now (attributes.now, map (λ r. r.now) rows.now))) }
{
    let flat = pick_rows(alloc, wanted, attributes, rows)?;
    let delta = Delta::of(alloc, flat, up)?;
    Ok(delta)
}

/// The wanted cells of each row, and nothing where a wanted attribute is missing.
pub fn pick_rows(
    alloc: Global,
    wanted: &Row,
    attributes: &Row,
    rows: &[&Row],
) -> Result<Vec<Row>, NoMemory>
    ensures { IfOk result (λ flat. flat.items ≡ pick_value wanted.now (attributes.now, map (λ r. r.now) rows.now)) }
{
    if !has_all(wanted, attributes) {
        return Ok(Vec::new(alloc));
    }
    let places = places_of(alloc, wanted, attributes)?;
    let mut flat = Vec::with_capacity(alloc, rows.len())?;
    for row in rows {
        let cells = cells_at(alloc, &places, row)?;
        flat.push(Row::of(cells))?;
    }
    Ok(flat)
}
