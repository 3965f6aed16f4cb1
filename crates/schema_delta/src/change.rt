//! How a change of one relation moves what it contributes.
ghost use Rattle.std.specs.Prelude.{◌≡◌, ◌∷◌, [], IfOk, IsTrue};
ghost use Rattle.operator_law.specs.Bags.{MovesBag, all_signed};
ghost use Rattle.fold_op.specs.Sheets.{FitsSheet};
ghost use Rattle.fold_op.specs.Flat.{pick_value, fold_value, replaced};
ghost use Rattle.schema_model.specs.States.{plain_relation};
ghost use Rattle.schema_delta.specs.Flat.{part, inside, values_of, changed_relation, sheet_of, is_inner, names_of};
ghost use Rattle.schema_delta.specs.Given.{sheet_in, MovesGiven};

use crate::FlatSpec;
use crate::inside::one;
use crate::part::{both, goes_over};
use fold_op::{Fold, Pick, SheetChange, replaced};
use operator_law::{Delta, Operator};
use schema_model::Relation;
use ss_text::{NoMemory, Row, Steps, Text};
use std::alloc::Global;
use std::sync::ledger::Ledger;
use unite_op::moves_behind;
use view_def::{Place, Range};

/// How a change of a relation's sheet moves what the relation contributes.
pub(crate) fn part_change<L: Ledger>(
    alloc: Global,
    spec: &FlatSpec,
    db: &Text,
    relation: &Relation,
    change: &SheetChange,
    steps: &mut Steps<L>,
) -> Result<Delta, NoMemory>
    requires fits { FitsSheet change.now (sheet_of (plain_relation relation.now)) }
    requires inner { IsTrue (is_inner change.now) }
    ensures moved { IfOk result (λ d. MovesBag (part spec.now db.now (plain_relation relation.now)) d (part spec.now db.now (changed_relation change.now (plain_relation relation.now)))) }
    ensures steps { steps.new ≡ steps.old }
{
    let name = relation.name();
    if !goes_over(&spec.range, db, name) {
        return Ok(Delta::none(alloc));
    }
    let inside = inside_change(alloc, spec, relation, change, steps)?;
    let names = both(alloc, db, name)?;
    let delta = moves_behind(alloc, &names, &inside)?;
    Ok(delta)
}

fn inside_change<L: Ledger>(
    alloc: Global,
    spec: &FlatSpec,
    relation: &Relation,
    change: &SheetChange,
    steps: &mut Steps<L>,
) -> Result<Delta, NoMemory>
    requires fits { FitsSheet change.now (sheet_in relation.now) }
    requires inner { IsTrue (is_inner change.now) }
    ensures moved { IfOk result (MovesGiven (inside spec.now.range spec.now.wanted spec.now.folded) change.now (sheet_in relation.now)) }
    ensures steps { steps.new ≡ steps.old }
{
    match &spec.range {
        Range::Databases | Range::Relations(..) | Range::Alias(..) => Ok(Delta::none(alloc)),
        Range::Attributes(..) => Ok(attributes_change(alloc, relation, change)?),
        Range::Tuples(..) if spec.folded => {
            Ok(fold_change(alloc, &spec.wanted, relation, change, steps)?)
        }
        Range::Tuples(..) => Ok(pick_change(alloc, &spec.wanted, relation, change, steps)?),
        Range::Values(_, _, place) => Ok(values_change(alloc, place, relation, change, steps)?),
    }
}

fn values_change<L: Ledger>(
    alloc: Global,
    place: &Place,
    relation: &Relation,
    change: &SheetChange,
    steps: &mut Steps<L>,
) -> Result<Delta, NoMemory>
    requires { FitsSheet change.now (sheet_in relation.now) }
    ensures moved { IfOk result (MovesGiven (values_of place.now) change.now (sheet_in relation.now)) }
    ensures steps { steps.new ≡ steps.old }
{
    match place {
        Place::Fixed(name) => {
            let names = one(alloc, name)?;
            let cells = pick_change(alloc, &names, relation, change, steps)?;
            let delta = moves_behind(alloc, &names, &cells)?;
            Ok(delta)
        }
        Place::Var(_) => {
            let none = Row::of(Vec::new(alloc));
            let delta = fold_change(alloc, &none, relation, change, steps)?;
            Ok(delta)
        }
    }
}

fn pick_change<L: Ledger>(
    alloc: Global,
    wanted: &Row,
    relation: &Relation,
    change: &SheetChange,
    steps: &mut Steps<L>,
) -> Result<Delta, NoMemory>
    requires { FitsSheet change.now (sheet_in relation.now) }
    ensures moved { IfOk result (MovesGiven (pick_value wanted.now) change.now (sheet_in relation.now)) }
    ensures steps { steps.new ≡ steps.old }
{
    let pick = Pick::<Relation>::new(wanted.copy()?);
    match pick.prepare(alloc, relation, change, steps) {
        Ok(delta) => Ok(delta),
        Err(fault) => Err(fault),
    }
}

fn fold_change<L: Ledger>(
    alloc: Global,
    wanted: &Row,
    relation: &Relation,
    change: &SheetChange,
    steps: &mut Steps<L>,
) -> Result<Delta, NoMemory>
    requires { FitsSheet change.now (sheet_in relation.now) }
    ensures moved { IfOk result (MovesGiven (fold_value wanted.now) change.now (sheet_in relation.now)) }
    ensures steps { steps.new ≡ steps.old }
{
    let fold = Fold::<Relation>::new(wanted.copy()?);
    match fold.prepare(alloc, relation, change, steps) {
        Ok(delta) => Ok(delta),
        Err(fault) => Err(fault),
    }
}

// How the names of attributes move; rows that come and go leave them.
fn attributes_change(
    alloc: Global,
    relation: &Relation,
    change: &SheetChange,
) -> Result<Delta, NoMemory>
    requires fits { FitsSheet change.now (sheet_in relation.now) }
    requires inner { IsTrue (is_inner change.now) }
    ensures { IfOk result (MovesGiven (λ x. names_of x.0) change.now (sheet_in relation.now)) }
{
    let attributes = relation.attributes();
    match change {
        SheetChange::Add { name, .. } => Ok(name_moves(alloc, name, true)?),
        SheetChange::Drop { place } => Ok(name_moves(alloc, &attributes.cells()[*place], false)?),
        SheetChange::Rename { place, to } => {
            Ok(name_replaced(alloc, &attributes.cells()[*place], to)?)
        }
        _ => Ok(Delta::none(alloc)),
    }
}

fn name_moves(alloc: Global, name: &Text, up: bool) -> Result<Delta, NoMemory>
    ensures { IfOk result (λ d. d ≡ all_signed up ((name.now ∷ []) ∷ [])) }
{
    let rows = name_row(alloc, name)?;
    let delta = Delta::of(alloc, rows, up)?;
    Ok(delta)
}

fn name_replaced(alloc: Global, name: &Text, to: &Text) -> Result<Delta, NoMemory>
    ensures { IfOk result (λ d. d ≡ replaced ((name.now ∷ []) ∷ []) ((to.now ∷ []) ∷ [])) }
{
    let gone = name_row(alloc, name)?;
    let come = name_row(alloc, to)?;
    let delta = replaced(alloc, gone, come)?;
    Ok(delta)
}

fn name_row(alloc: Global, name: &Text) -> Result<Vec<Row>, NoMemory>
    ensures { IfOk result (λ rows. rows.items ≡ (name.now ∷ []) ∷ []) }
{
    let mut rows = Vec::new(alloc);
    rows.push(one(alloc, name)?)?;
    Ok(rows)
}
