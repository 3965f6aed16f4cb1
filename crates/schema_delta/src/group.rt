//! How changes that are made one after another move the flat rows of declarations.
ghost use Rattle.std.specs.Prelude.{◌≡◌, [], map, length, None, IfOk, OnOk, IsTrue};
ghost use Rattle.std.specs.List.{AllByRecursion, AllZip, list_all};
ghost use Rattle.schema_model.specs.Catalogue.{CatalogueValue};
ghost use Rattle.schema_model.specs.Changes.{after, is_well_formed};
ghost use Rattle.schema_model.specs.Refusals.{fault, group_fault};
ghost use Rattle.schema_delta.specs.Net.{SameNet};
ghost use Rattle.schema_delta.specs.Flat.{MovesBetween, MovesGroup};
ghost use Rattle.schema_delta.specs.OneRow.{is_of_rows};

use crate::changes::flat_change;
use crate::one_row::{is_of_rows, rows_change};
use crate::{FlatSpec, each_net};
use operator_law::Delta;
use schema_model::{Catalogue, Change};
use ss_text::{NoMemory, Seed, Steps};
use std::alloc::Global;
use std::sync::ledger::Ledger;

/// How changes move the flat rows of each declaration, of which none is refused behind those before it. The catalogue
/// stays. Where all insert or delete rows none is copied; else its states between are those of a copy, in which the
/// changes are made, and what comes and goes again is taken out on the way.
pub fn flat_group<L: Ledger>(
    alloc: Global,
    catalogue: &Catalogue,
    changes: &[Change],
    specs: &[FlatSpec],
    steps: &mut Steps<L>,
) -> Result<Vec<Delta>, NoMemory>
    requires accepted { group_fault catalogue.now.databases changes.now ≡ None }
    requires well_formed { AllByRecursion (λ g. IsTrue (is_well_formed g)) changes.now }
    ensures moved { IfOk result (λ deltas. AllZip (MovesGroup catalogue.now.databases changes.now) specs.now deltas.items) }
    ensures steps { steps.new ≡ steps.old }
{
    if all_of_rows(changes) {
        return by_rows(alloc, catalogue, changes, specs);
    }
    let mut present = catalogue.copy()?;
    let mut deltas = no_moves(alloc, specs)?;
    let mut in_net = 0;
    for change in changes {
        let all = moved_on(alloc, &present, change, specs, deltas, steps)?;
        make(&mut present, change)?;
        deltas = thinned(alloc, catalogue.seed(), all, &mut in_net)?;
    }
    Ok(deltas)
}

fn all_of_rows(changes: &[Change]) -> bool
    ensures { result ≡ list_all is_of_rows changes.now }
{
    changes.iter().all(|change| is_of_rows(change))
}

// The moves of each declaration by changes of rows.
fn by_rows(
    alloc: Global,
    catalogue: &Catalogue,
    changes: &[Change],
    specs: &[FlatSpec],
) -> Result<Vec<Delta>, NoMemory>
    requires accepted { group_fault catalogue.now.databases changes.now ≡ None }
    requires well_formed { AllByRecursion (λ g. IsTrue (is_well_formed g)) changes.now }
    requires of_rows { IsTrue (list_all is_of_rows changes.now) }
    ensures { IfOk result (λ deltas. AllZip (MovesGroup catalogue.now.databases changes.now) specs.now deltas.items) }
{
    let mut deltas = Vec::with_capacity(alloc, specs.len())?;
    for spec in specs {
        deltas.push(rows_moves(alloc, catalogue, changes, spec)?)?;
    }
    Ok(deltas)
}

// The moves of one declaration by changes of rows: those of each change, one behind the other.
fn rows_moves(
    alloc: Global,
    catalogue: &Catalogue,
    changes: &[Change],
    spec: &FlatSpec,
) -> Result<Delta, NoMemory>
    requires accepted { group_fault catalogue.now.databases changes.now ≡ None }
    requires well_formed { AllByRecursion (λ g. IsTrue (is_well_formed g)) changes.now }
    requires of_rows { IsTrue (list_all is_of_rows changes.now) }
    ensures { IfOk result (MovesGroup catalogue.now.databases changes.now spec.now) }
{
    let _sound = catalogue.databases();
    let mut delta = Delta::none(alloc);
    for change in changes {
        delta = delta.followed_by(rows_change(alloc, catalogue, change, spec)?)?;
    }
    Ok(delta)
}

// No moves for each declaration.
fn no_moves(alloc: Global, specs: &[FlatSpec]) -> Result<Vec<Delta>, NoMemory>
    ensures { IfOk result (λ deltas. deltas.items ≡ map (λ s. []) specs.now) }
{
    let mut deltas = Vec::with_capacity(alloc, specs.len())?;
    for _spec in specs {
        deltas.push(Delta::none(alloc))?;
    }
    Ok(deltas)
}

// The moves of each declaration, and behind them those of one more change.
fn moved_on<L: Ledger>(
    alloc: Global,
    present: &Catalogue,
    change: &Change,
    specs: &[FlatSpec],
    deltas: Vec<Delta>,
    steps: &mut Steps<L>,
) -> Result<Vec<Delta>, NoMemory>
    requires accepted { fault present.now.databases change.now ≡ None }
    requires each { length deltas.items ≡ length specs.now }
    ensures moved { IfOk result (λ all. (c : CatalogueValue) → AllZip (MovesBetween c present.now.databases) specs.now deltas.items
        → AllZip (MovesBetween c (after present.now.databases change.now)) specs.now all.items) }
    ensures steps { steps.new ≡ steps.old }
{
    let mut all = Vec::with_capacity(alloc, specs.len())?;
    for delta in deltas {
        let spec = &specs[all.len()];
        let more = flat_change(alloc, present, change, spec, steps)?;
        all.push(delta.followed_by(more)?)?;
    }
    Ok(all)
}

// The moves of each declaration in net, where they are twice as many as those that were last in net, or as those of the
// first change. So they are made net no more often than they double.
#[tactic(auto, using(crate::proofs::NetLaw::each_same))]
fn thinned(
    alloc: Global,
    seed: Seed,
    deltas: Vec<Delta>,
    in_net: &mut usize,
) -> Result<Vec<Delta>, NoMemory>
    ensures { IfOk result (λ same. AllZip SameNet deltas.items same.items) }
{
    let moves = count(&deltas);
    if *in_net == 0 {
        *in_net = moves;
        return Ok(deltas);
    }
    if moves <= in_net.saturating_mul(2) {
        return Ok(deltas);
    }
    let nets = each_net(alloc, seed, deltas)?;
    *in_net = count(&nets);
    Ok(nets)
}

// How many moves there are.
fn count(deltas: &[Delta]) -> usize {
    let mut moves = 0usize;
    for delta in deltas {
        moves = moves.saturating_add(delta.moves.len());
    }
    moves
}

// Makes a change that is not refused.
fn make(catalogue: &mut Catalogue, change: &Change) -> Result<(), NoMemory>
    requires well_formed { IsTrue (is_well_formed change.now) }
    requires accepted { fault catalogue.old.databases change.now ≡ None }
    ensures { OnOk result (catalogue.new.databases ≡ after catalogue.old.databases change.now) }
{
    let ready = catalogue.reserve(change)?;
    catalogue.commit(ready);
    Ok(())
}
