//! The walk of moves of all declarations through the joins.
ghost use Rattle.std.specs.Prelude.{◌≡◌, ◌≤◌, ◌∷◌, [], true, List, map, length, IfOk};
ghost use Rattle.std.specs.List.{AllZip, AllByRecursion};
ghost use Rattle.schema_model.specs.Catalogue.{CatalogueValue};
ghost use Rattle.view_def.specs.Profile.{IsViewOfProfile};
ghost use Rattle.operator_law.specs.declared.delta.Signed.{Signed as SignedValue};
ghost use Rattle.schema_delta.specs.Net.{SameNet, IsNet};
ghost use Rattle.plan_law.specs.Chain.{AreNet};
ghost use Rattle.plan_law.specs.PlanRows.{specs_from, plan_joints};
ghost use Rattle.plan_law.specs.PlanMoves.{first_moves, further_moves};
ghost use Rattle.plan_translate.specs.ChainStages.{side_moves};
ghost use Rattle.plan_translate.specs.Read.{is_read, left_moves};
ghost use Rattle.plan_translate.specs.Plans.{query_in, PlanStands};
ghost use Rattle.plan_translate.specs.Walked.{WalksOver, CostsOver};

use crate::own::own_moves;
use crate::{Plan, WalkMoves, walk};
use operator_law::Delta;
use schema_model::Catalogue;
use ss_text::{NoMemory, Seed, Steps};
use std::alloc::Global;
use std::sync::ledger::Ledger;

// The moves of the first declaration, and those of the others.
fn split(deltas: Vec<Delta>) -> (Delta, Vec<Delta>)
    requires { 1 ≤ length deltas.items }
    ensures { deltas.items ≡ result.0 ∷ result.1.items }
{
    let mut further = deltas;
    let first = further.remove(0);
    (first, further)
}

/// Leaves the moves of the left sides alone.
pub(crate) fn keep_left(alloc: Global, sides: &mut Vec<(Delta, Delta)>)
    ensures { map side_moves sides.new.items ≡ map left_moves (map side_moves sides.old.items) }
{
    for side in sides.iter_mut() {
        side.1 = Delta {
            moves: Vec::new(alloc),
        };
    }
}

impl Plan {
    // The moves of the first declaration's flat rows that pass its tests, in net, and those of each other one's. The view is
    // one of the profile.
    pub(crate) fn own_moves(
        &self,
        alloc: Global,
        seed: Seed,
        deltas: Vec<Delta>,
    ) -> Result<(Delta, Vec<Delta>), NoMemory>
        requires { length deltas.items ≡ length (specs_from (query_in self.now) 0 (query_in self.now).decls) }
        ensures profile { IsViewOfProfile (query_in self.now) }
        ensures moves { let q = query_in self.now in IfOk result (λ r. (nets : List (List SignedValue)) × AllZip SameNet deltas.items nets × (r.0 ≡ first_moves q q.decls nets)
            × (r.1.items ≡ further_moves q q.decls nets)) }
        ensures net { IfOk result (λ r. IsNet r.0 × AllByRecursion IsNet r.1.items) }
        ensures each { let q = query_in self.now in IfOk result (λ r. length r.1.items ≡ length (plan_joints q q.decls)) }
    {
        let own = own_moves(alloc, seed, &self.tests, deltas)?;
        Ok(split(own))
    }

    // How they walk through joins that are filled anew over the catalogue.
    fn walk_anew<L: Ledger>(
        &self,
        alloc: Global,
        catalogue: &Catalogue,
        first: Delta,
        further: Vec<Delta>,
        steps: &mut Steps<L>,
    ) -> Result<WalkMoves, NoMemory>
        requires { let q = query_in self.now in length further.items ≡ length (plan_joints q q.decls) }
        ensures walks { IfOk result (λ w. WalksOver catalogue.now.databases (query_in self.now) first further.items (map side_moves w.sides.items) w.out steps.old steps.new) }
        ensures each { let q = query_in self.now in IfOk result (λ w. length w.sides.items ≡ length (plan_joints q q.decls)) }
        ensures nets { IfOk result (λ w. IsNet first → AllByRecursion IsNet further.items → AreNet (map side_moves w.sides.items) × IsNet w.out) }
        ensures within { PlanStands catalogue.now.databases self.now → CostsOver catalogue.now.databases (query_in self.now) first further.items steps.old steps.new }
        ensures rises { steps.old ≤ steps.new }
    {
        let joins = self.filled(alloc, catalogue)?;
        let moves = walk(alloc, &joins, first, further, steps)?;
        Ok(moves)
    }

    // And through those that the plan keeps, which tell all where no row is read, or no left side moves.
    fn walk_kept<L: Ledger>(
        &self,
        alloc: Global,
        first: Delta,
        further: Vec<Delta>,
        steps: &mut Steps<L>,
    ) -> Result<WalkMoves, NoMemory>
        requires each { let q = query_in self.now in length further.items ≡ length (plan_joints q q.decls) }
        requires none { is_read (query_in self.now) ≡ true → first ≡ [] }
        ensures walks { IfOk result (λ w. (c : CatalogueValue) → PlanStands c self.now → WalksOver c (query_in self.now) first further.items (map side_moves w.sides.items) w.out steps.old steps.new) }
        ensures each { let q = query_in self.now in IfOk result (λ w. length w.sides.items ≡ length (plan_joints q q.decls)) }
        ensures nets { IfOk result (λ w. IsNet first → AllByRecursion IsNet further.items → AreNet (map side_moves w.sides.items) × IsNet w.out) }
        ensures within { (c : CatalogueValue) → PlanStands c self.now → CostsOver c (query_in self.now) first further.items steps.old steps.new }
        ensures rises { steps.old ≤ steps.new }
    {
        let moves = walk(alloc, &self.joins, first, further, steps)?;
        Ok(moves)
    }

    // And through what comes to the joins over the catalogue, for which the plan stands.
    pub(crate) fn walk_over<L: Ledger>(
        &self,
        alloc: Global,
        catalogue: &Catalogue,
        first: Delta,
        further: Vec<Delta>,
        steps: &mut Steps<L>,
    ) -> Result<WalkMoves, NoMemory>
        requires { let q = query_in self.now in length further.items ≡ length (plan_joints q q.decls) }
        ensures walks { IfOk result (λ w. PlanStands catalogue.now.databases self.now
            → WalksOver catalogue.now.databases (query_in self.now) first further.items (map side_moves w.sides.items) w.out steps.old steps.new) }
        ensures each { let q = query_in self.now in IfOk result (λ w. length w.sides.items ≡ length (plan_joints q q.decls)) }
        ensures nets { IfOk result (λ w. IsNet first → AllByRecursion IsNet further.items → AreNet (map side_moves w.sides.items) × IsNet w.out) }
        ensures within { PlanStands catalogue.now.databases self.now → CostsOver catalogue.now.databases (query_in self.now) first further.items steps.old steps.new }
        ensures rises { steps.old ≤ steps.new }
    {
        if self.reads && !first.moves.is_empty() {
            return self.walk_anew(alloc, catalogue, first, further, steps);
        }
        self.walk_kept(alloc, first, further, steps)
    }
}
