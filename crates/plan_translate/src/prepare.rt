//! How changes of the catalogue move a plan.
ghost use Rattle.std.specs.Prelude.{◌≡◌, ◌≤◌, None, IfOk, IsTrue};
ghost use Rattle.std.specs.List.{AllByRecursion};
ghost use Rattle.schema_model.specs.Changes.{after, after_all, is_well_formed};
ghost use Rattle.schema_model.specs.Refusals.{fault, group_fault};
ghost use Rattle.plan_translate.specs.Costs.{CountsWalk, CountsPairs, IsRowBounded};
ghost use Rattle.plan_translate.specs.Plans.{query_in, PlanStands, PlanMoves};

use crate::{Plan, PlanMove};
use schema_delta::{flat_changes, flat_group};
use schema_model::{Catalogue, Change};
use ss_text::{NoMemory, Steps};
use std::alloc::Global;
use std::sync::ledger::Ledger;

impl Plan {
    /// How a change that is not refused moves what the plan keeps for the catalogue, and the fact rows. Nothing is changed.
    /// Whatever is answered, the steps are at most the pairs of a walk of the change.
    pub fn prepare<L: Ledger>(
        &self,
        alloc: Global,
        catalogue: &Catalogue,
        change: &Change,
        steps: &mut Steps<L>,
    ) -> Result<PlanMove, NoMemory>
        requires well_formed { IsTrue (is_well_formed change.now) }
        requires accepted { fault catalogue.now.databases change.now ≡ None }
        requires stands { PlanStands catalogue.now.databases self.now }
        ensures moves { IfOk result (PlanMoves catalogue.now.databases (after catalogue.now.databases change.now) (query_in self.now)) }
        ensures cost { IfOk result (λ m. CountsPairs catalogue.now.databases (after catalogue.now.databases change.now) (query_in self.now) m steps.old steps.new) }
        ensures within { CountsWalk catalogue.now.databases (after catalogue.now.databases change.now) (query_in self.now) steps.old steps.new }
        ensures row { IfOk result (λ m. IsRowBounded catalogue.now.databases (query_in self.now) change.now m steps.old steps.new) }
        ensures rises { steps.old ≤ steps.new }
    {
        // What a catalogue has is sound.
        let _databases = catalogue.databases();
        let deltas = flat_changes(alloc, catalogue, change, &self.specs, steps)?;
        let moved = self.moved(alloc, catalogue, deltas, steps)?;
        Ok(moved)
    }

    /// How changes move what the plan keeps for the catalogue, and the fact rows, all together. None is refused behind those
    /// before it. Nothing is changed. Whatever is answered, the steps are at most the pairs of a walk of the changes.
    pub fn prepare_all<L: Ledger>(
        &self,
        alloc: Global,
        catalogue: &Catalogue,
        changes: &[Change],
        steps: &mut Steps<L>,
    ) -> Result<PlanMove, NoMemory>
        requires well_formed { AllByRecursion (λ g. IsTrue (is_well_formed g)) changes.now }
        requires accepted { group_fault catalogue.now.databases changes.now ≡ None }
        requires stands { PlanStands catalogue.now.databases self.now }
        ensures moves { IfOk result (PlanMoves catalogue.now.databases (after_all catalogue.now.databases changes.now) (query_in self.now)) }
        ensures cost { IfOk result (λ m. CountsPairs catalogue.now.databases (after_all catalogue.now.databases changes.now) (query_in self.now) m steps.old steps.new) }
        ensures within { CountsWalk catalogue.now.databases (after_all catalogue.now.databases changes.now) (query_in self.now) steps.old steps.new }
        ensures rises { steps.old ≤ steps.new }
    {
        // What a catalogue has is sound.
        let _databases = catalogue.databases();
        let deltas = flat_group(alloc, catalogue, changes, &self.specs, steps)?;
        let moved = self.moved(alloc, catalogue, deltas, steps)?;
        Ok(moved)
    }
}
