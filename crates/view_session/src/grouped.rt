//! Changes that are proposed together.
ghost use Rattle.std.specs.Prelude.{◌≡◌, ◌≤◌, None, IfOk, IfErr, OnOk, IsTrue};
ghost use Rattle.std.specs.List.{AllByRecursion};
ghost use Rattle.schema_model.specs.Catalogue.{CatalogueValue};
ghost use Rattle.schema_model.specs.Changes.{after_all, is_well_formed};
ghost use Rattle.schema_model.specs.Refusals.{group_fault};
ghost use Rattle.flow_law.specs.Script.{script};
ghost use Rattle.flow_law.specs.Faults.{IsFault};
ghost use Rattle.view_meaning.specs.Meaning.{meaning};
ghost use Rattle.view_meaning.specs.Refusal.{refusal};
ghost use Rattle.view_engine.specs.Engines.{EngineMoves};
ghost use Rattle.apply_law.specs.Verdicts.{Verdict, IsGroupRefused};
ghost use Rattle.view_session.specs.Group.{IsOver};
ghost use Rattle.view_session.specs.Proposals.{proposed_in, CanMake};
ghost use Rattle.view_session.specs.Upkeeps.{view_of, IsKept, KeptAs};
ghost use Rattle.view_session.specs.Verdicts.{verdict_of};

use crate::HoldRefused;
use crate::changed::Changed;
use crate::group::Group;
use crate::moving::propose_accepted;
use crate::proposal::{CatalogueReady, Proposal};
use crate::upkeep::Upkeep;
use apply_law::GroupRefused;
use change_script::Script;
use flow_law::EvalFault;
use schema_model::{Catalogue, Change};
use ss_text::{NoMemory, Steps};
use std::alloc::Global;
use std::sync::ledger::Ledger;
use view_engine::EngineMove;

// The group of these changes, or the first that is refused behind those before it. The databases stay.
fn group_of(
    alloc: Global,
    catalogue: &mut Catalogue,
    changes: &[Change],
) -> Result<Group, GroupRefused>
    requires { AllByRecursion (λ g. IsTrue (is_well_formed g)) changes.now }
    ensures catalogue { catalogue.new.databases ≡ catalogue.old.databases }
    ensures over { IfOk result (λ group. IsOver group catalogue.new.databases) }
    ensures changes { IfOk result (λ group. group.draft.changes ≡ changes.now) }
    ensures refused { (verdict : CatalogueValue → Verdict) → IfErr result (IsGroupRefused verdict catalogue.old.databases changes.now) }
{
    let mut group = Group::new(alloc, catalogue.seed());
    for change in changes {
        match group.hold(alloc, catalogue, change) {
            Ok(()) => {}
            Err(HoldRefused::Change(refusal)) => {
                let place = group.count();
                return Err(GroupRefused::Change { place, refusal });
            }
            Err(HoldRefused::NoMemory) => return Err(GroupRefused::NoMemory),
        }
    }
    Ok(group)
}

// Takes all memory for the changes of a group that move what is kept so. All stays but what waits, after `NoMemory` too.
fn reserve(
    alloc: Global,
    catalogue: &mut Catalogue,
    upkeep: &mut Upkeep,
    changed: &mut Changed,
    group: Group,
    moved: EngineMove,
) -> Result<(Proposal, Script), NoMemory>
    requires kept { IsKept catalogue.old.databases upkeep.old }
    requires over { IsOver group catalogue.old.databases }
    requires moves { EngineMoves catalogue.old.databases (after_all catalogue.old.databases group.draft.changes) (view_of upkeep.old) moved }
    ensures catalogue { catalogue.new.databases ≡ catalogue.old.databases }
    ensures upkeep { KeptAs upkeep.old upkeep.new }
    ensures names { changed.new.names ≡ changed.old.names }
    ensures changes { IfOk result (λ told. proposed_in told.0 ≡ group.draft.changes) }
    ensures can { IfOk result (λ told. CanMake catalogue.new upkeep.new changed.new told.0) }
    ensures script { IfOk result (λ told. told.1
        ≡ script (meaning catalogue.old.databases (view_of upkeep.old)) (meaning (after_all catalogue.old.databases group.draft.changes) (view_of upkeep.old))) }
{
    let (draft, names) = group.into_parts();
    changed.expect_all(alloc, names, moved.lines())?;
    let (upkeep, lines) = upkeep.reserve(alloc, moved)?;
    let catalogue = catalogue.reserve_all(draft.changes())?;
    let catalogue = CatalogueReady::All(catalogue);
    Ok((Proposal { catalogue, upkeep }, Script::of(lines)))
}

/// Proposes the changes of a group, and answers the script; or why the view is refused over the catalogue after them. All
/// stays but what waits, after each refusal too.
pub(crate) fn propose_group<L: Ledger>(
    alloc: Global,
    catalogue: &mut Catalogue,
    upkeep: &mut Upkeep,
    changed: &mut Changed,
    group: Group,
    steps: &mut Steps<L>,
) -> Result<(Proposal, Script), EvalFault>
    requires kept { IsKept catalogue.old.databases upkeep.old }
    requires over { IsOver group catalogue.old.databases }
    ensures catalogue { catalogue.new.databases ≡ catalogue.old.databases }
    ensures upkeep { KeptAs upkeep.old upkeep.new }
    ensures names { changed.new.names ≡ changed.old.names }
    ensures changes { IfOk result (λ told. proposed_in told.0 ≡ group.draft.changes) }
    ensures can { IfOk result (λ told. CanMake catalogue.new upkeep.new changed.new told.0) }
    ensures allowed { OnOk result (refusal (after_all catalogue.old.databases group.draft.changes) (view_of upkeep.old) ≡ None) }
    ensures script { IfOk result (λ told. told.1
        ≡ script (meaning catalogue.old.databases (view_of upkeep.old)) (meaning (after_all catalogue.old.databases group.draft.changes) (view_of upkeep.old))) }
    ensures refused { IfErr result (IsFault (refusal (after_all catalogue.old.databases group.draft.changes) (view_of upkeep.old))) }
    ensures rises { steps.old ≤ steps.new }
{
    let engine = &upkeep.engine;
    let moved = engine.prepare_all(alloc, catalogue, group.changes(), steps)?;
    Ok(reserve(alloc, catalogue, upkeep, changed, group, moved)?)
}

/// The same, where a group of one change goes the way of that change alone.
pub(crate) fn propose_held<L: Ledger>(
    alloc: Global,
    catalogue: &mut Catalogue,
    upkeep: &mut Upkeep,
    changed: &mut Changed,
    group: Group,
    steps: &mut Steps<L>,
) -> Result<(Proposal, Script), EvalFault>
    requires kept { IsKept catalogue.old.databases upkeep.old }
    requires over { IsOver group catalogue.old.databases }
    ensures catalogue { catalogue.new.databases ≡ catalogue.old.databases }
    ensures upkeep { KeptAs upkeep.old upkeep.new }
    ensures names { changed.new.names ≡ changed.old.names }
    ensures changes { IfOk result (λ told. proposed_in told.0 ≡ group.draft.changes) }
    ensures can { IfOk result (λ told. CanMake catalogue.new upkeep.new changed.new told.0) }
    ensures allowed { OnOk result (refusal (after_all catalogue.old.databases group.draft.changes) (view_of upkeep.old) ≡ None) }
    ensures script { IfOk result (λ told. told.1
        ≡ script (meaning catalogue.old.databases (view_of upkeep.old)) (meaning (after_all catalogue.old.databases group.draft.changes) (view_of upkeep.old))) }
    ensures refused { IfErr result (IsFault (refusal (after_all catalogue.old.databases group.draft.changes) (view_of upkeep.old))) }
    ensures rises { steps.old ≤ steps.new }
{
    if let [change] = group.changes() {
        return propose_accepted(alloc, catalogue, upkeep, changed, change, steps);
    }
    propose_group(alloc, catalogue, upkeep, changed, group, steps)
}

/// Proposes changes, and answers the script; or the first that is refused behind those before it, or why the view is refused
/// over the catalogue after them. All stays but what waits, after each refusal too.
pub(crate) fn propose_all<L: Ledger>(
    alloc: Global,
    catalogue: &mut Catalogue,
    upkeep: &mut Upkeep,
    changed: &mut Changed,
    changes: &[Change],
    steps: &mut Steps<L>,
) -> Result<(Proposal, Script), GroupRefused>
    requires kept { IsKept catalogue.old.databases upkeep.old }
    requires well_formed { AllByRecursion (λ g. IsTrue (is_well_formed g)) changes.now }
    ensures catalogue { catalogue.new.databases ≡ catalogue.old.databases }
    ensures upkeep { KeptAs upkeep.old upkeep.new }
    ensures names { changed.new.names ≡ changed.old.names }
    ensures changes { IfOk result (λ told. proposed_in told.0 ≡ changes.now) }
    ensures can { IfOk result (λ told. CanMake catalogue.new upkeep.new changed.new told.0) }
    ensures accepted { OnOk result (group_fault catalogue.old.databases changes.now ≡ None) }
    ensures allowed { OnOk result (refusal (after_all catalogue.old.databases changes.now) (view_of upkeep.old) ≡ None) }
    ensures script { IfOk result (λ told. told.1 ≡ script (meaning catalogue.old.databases (view_of upkeep.old)) (meaning (after_all catalogue.old.databases changes.now) (view_of upkeep.old))) }
    ensures refused { IfErr result (IsGroupRefused (verdict_of (view_of upkeep.old)) catalogue.old.databases changes.now) }
    ensures rises { steps.old ≤ steps.new }
{
    let group = group_of(alloc, catalogue, changes)?;
    Ok(propose_group(alloc, catalogue, upkeep, changed, group, steps)?)
}
