//! How changes of the catalogue move an engine.
ghost use Rattle.std.specs.Prelude.{◌≡◌, ◌+◌, ◌≤◌, None, IfOk, IfErr, IsTrue};
ghost use Rattle.std.specs.List.{AllByRecursion};
ghost use Rattle.std.specs.Option.{ForSome};
ghost use Rattle.schema_model.specs.Catalogue.{CatalogueValue};
ghost use Rattle.schema_model.specs.Changes.{after, after_all, is_well_formed};
ghost use Rattle.schema_model.specs.Refusals.{fault, group_fault};
ghost use Rattle.schema_model.specs.Sound.{IsSound};
ghost use Rattle.plan_translate.specs.Plans.{PlanMoves};
ghost use Rattle.plan_translate.specs.Costs.{CountsWalk, CountsPairs};
ghost use Rattle.view_engine.specs.Engines.{view_in, EngineStands, EngineMoves, IsViewFault, row_limit};

use crate::{Engine, EngineMove};
use flow_law::EvalFault;
use plan_translate::PlanMove;
use schema_model::{Catalogue, Change};
use ss_text::Steps;
use std::alloc::Global;
use std::sync::ledger::Ledger;

impl Engine {
    // A move of the plan with the lines by which the tables change.
    fn with_lines<L: Ledger>(
        &self,
        alloc: Global,
        plan: PlanMove,
        steps: &mut Steps<L>,
    ) -> Result<EngineMove, EvalFault>
        requires { (c : CatalogueValue) × (c' : CatalogueValue) × IsSound c' × EngineStands c self.now × PlanMoves c c' (view_in self.now) plan }
        ensures moves { IfOk result (λ m. (c c' : CatalogueValue) → IsSound c' → EngineStands c self.now → PlanMoves c c' (view_in self.now) plan → EngineMoves c c' (view_in self.now) m) }
        ensures plan { IfOk result (λ m. m.plan ≡ plan) }
        ensures stops { IfErr result (λ stop. (c c' : CatalogueValue) → IsSound c' → EngineStands c self.now → PlanMoves c c' (view_in self.now) plan → IsViewFault c' (view_in self.now) stop) }
        ensures steps { steps.new ≡ steps.old }
    {
        match self.tables.prepare(alloc, plan.facts(), steps) {
            Ok(lines) => Ok(EngineMove { plan, lines }),
            Err(stop) => Err(stop),
        }
    }

    /// How a change that the catalogue does not refuse moves what the engine keeps for it, with the lines by which the view's
    /// tables change; or why the view is refused over the catalogue after it. Nothing is changed. Whatever is answered, the
    /// steps are at most the pairs of a walk of the change.
    pub fn prepare<L: Ledger>(
        &self,
        alloc: Global,
        catalogue: &Catalogue,
        change: &Change,
        steps: &mut Steps<L>,
    ) -> Result<EngineMove, EvalFault>
        requires well_formed { IsTrue (is_well_formed change.now) }
        requires accepted { fault catalogue.now.databases change.now ≡ None }
        requires stands { EngineStands catalogue.now.databases self.now }
        ensures moves { IfOk result (EngineMoves catalogue.now.databases (after catalogue.now.databases change.now) (view_in self.now)) }
        ensures stops { IfErr result (IsViewFault (after catalogue.now.databases change.now) (view_in self.now)) }
        ensures cost { IfOk result (λ m. CountsPairs catalogue.now.databases (after catalogue.now.databases change.now) (view_in self.now) m.plan steps.old steps.new) }
        ensures counts { CountsWalk catalogue.now.databases (after catalogue.now.databases change.now) (view_in self.now) steps.old steps.new }
        ensures within { ForSome (row_limit catalogue.now.databases (view_in self.now) change.now) (λ n. steps.new ≤ steps.old + n) }
        ensures rises { steps.old ≤ steps.new }
    {
        let _databases = catalogue.databases();
        let plan = self.plan.prepare(alloc, catalogue, change, steps)?;
        self.with_lines(alloc, plan, steps)
    }

    /// How changes move what the engine keeps for the catalogue, all together, with the lines by which the view's tables change;
    /// or why the view is refused over the catalogue after them. None is refused behind those before it. Nothing is changed.
    /// The steps are bounded as those of one change are.
    pub fn prepare_all<L: Ledger>(
        &self,
        alloc: Global,
        catalogue: &Catalogue,
        changes: &[Change],
        steps: &mut Steps<L>,
    ) -> Result<EngineMove, EvalFault>
        requires well_formed { AllByRecursion (λ g. IsTrue (is_well_formed g)) changes.now }
        requires accepted { group_fault catalogue.now.databases changes.now ≡ None }
        requires stands { EngineStands catalogue.now.databases self.now }
        ensures moves { IfOk result (EngineMoves catalogue.now.databases (after_all catalogue.now.databases changes.now) (view_in self.now)) }
        ensures stops { IfErr result (IsViewFault (after_all catalogue.now.databases changes.now) (view_in self.now)) }
        ensures cost { IfOk result (λ m. CountsPairs catalogue.now.databases (after_all catalogue.now.databases changes.now) (view_in self.now) m.plan steps.old steps.new) }
        ensures counts { CountsWalk catalogue.now.databases (after_all catalogue.now.databases changes.now) (view_in self.now) steps.old steps.new }
        ensures rises { steps.old ≤ steps.new }
    {
        let _databases = catalogue.databases();
        let plan = self.plan.prepare_all(alloc, catalogue, changes, steps)?;
        self.with_lines(alloc, plan, steps)
    }
}
