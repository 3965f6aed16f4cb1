//! A plan, and how it is made of a view.
ghost use Rattle.std.specs.Prelude.{◌≡◌, ◌≤◌, length, None, IfOk};
ghost use Rattle.schema_model.specs.Catalogue.{CatalogueValue};
ghost use Rattle.view_def.specs.Query.{query_of};
ghost use Rattle.view_def.specs.Profile.{IsViewOfProfile};
ghost use Rattle.plan_law.specs.PlanRows.{specs_from};
ghost use Rattle.plan_law.specs.PlanMoves.{FlatMoved};
ghost use Rattle.plan_translate.specs.Plans.{query_in, PlanStands, IsFresh};
ghost use Rattle.plan_translate.specs.Walked.{Walked};
ghost use Rattle.plan_translate.specs.Costs.{CountsWalk};

use crate::facts::facts;
use crate::moved::PlanMove;
use crate::parts::{asked, joins_of};
use crate::reads::reads_rows;
use crate::walked::keep_left;
use join_delta::Join;
use operator_law::Delta;
use plan_form::{Equal, Form, Output, form_of};
use schema_delta::FlatSpec;
use schema_model::Catalogue;
use ss_text::{NoMemory, Seed, Steps};
use std::alloc::Global;
use std::marker::Model;
use std::snapshot::Snapshot;
use std::sync::ledger::Ledger;
use view_def::View;

/// Joins the flat rows of a view's declarations, and keeps what comes to each join. Where a view asks for the attributes of
/// a relation and its rows alone, the rows are not kept, and read where the attributes move. Contracts see the view, the
/// kept rows and the moves that wait.
pub struct Plan {
    pub(crate) view: Snapshot<View>,
    pub(crate) specs: Vec<FlatSpec>,
    pub(crate) reads: bool,
    pub(crate) tests: Vec<Vec<Equal>>,
    pub(crate) joins: Vec<Join>,
    pub(crate) output: Output,
    pub(crate) waiting: Option<Snapshot<Vec<(Delta, Delta)>>>,
}

impl Drop for Plan {
    fn drop(self) {
        let Plan {
            view,
            specs,
            reads: _,
            tests,
            joins,
            output,
            waiting,
        } = self;
        drop(view);
        drop(specs);
        drop(tests);
        drop(joins);
        drop(output);
        drop(waiting);
    }
}

impl Model for Plan {
    ghost use Rattle.std.specs.Coded.{codes};
    ghost use Rattle.view_def.specs.contracts.typed.Cond as cond;
    ghost use Rattle.plan_translate.specs.Plans.{PlanValue};

    ghost Value = { PlanValue };

    ghost coded = { Prim.hlevel (codes, cond.the_row.coded) };

    ghost use Rattle.plan_translate.specs.PlanFields.{seen, IsPlan};

    ghost view = { seen };

    ghost invariant = { IsPlan };
}

/// The plan of a view, which keeps nothing. What it will keep is hashed by a seed.
pub fn translate(alloc: Global, seed: Seed, view: &View) -> Result<Plan, NoMemory>
    requires { IsViewOfProfile (query_of view.now) }
    ensures view { IfOk result (λ plan. plan.view ≡ view.now) }
    ensures fresh { IfOk result IsFresh }
    ensures none { IfOk result (λ plan. plan.waiting ≡ None) }
{
    let Form { bases, output } = form_of(alloc, view)?;
    let joins = joins_of(alloc, seed, &bases)?;
    let (specs, tests) = asked(alloc, bases)?;
    let reads = reads_rows(&specs);
    Ok(Plan {
        view: Snapshot::of(view),
        specs,
        reads,
        tests,
        joins,
        output,
        waiting: None,
    })
}

impl Plan {
    // How moves of each declaration's flat rows move what the plan keeps for the catalogue, and its fact rows.
    pub(crate) fn moved<L: Ledger>(
        &self,
        alloc: Global,
        catalogue: &Catalogue,
        deltas: Vec<Delta>,
        steps: &mut Steps<L>,
    ) -> Result<PlanMove, NoMemory>
        requires { length deltas.items ≡ length (specs_from (query_in self.now) 0 (query_in self.now).decls) }
        ensures walked { let c = catalogue.now.databases in
            IfOk result (λ m. (c' : CatalogueValue) → FlatMoved c c' (query_in self.now) deltas.items → PlanStands c self.now → Walked c c' (query_in self.now) m steps.old steps.new) }
        ensures within { let c = catalogue.now.databases in
            (c' : CatalogueValue) → FlatMoved c c' (query_in self.now) deltas.items → PlanStands c self.now → CountsWalk c c' (query_in self.now) steps.old steps.new }
        ensures rises { steps.old ≤ steps.new }
    {
        let (first, further) = self.own_moves(alloc, catalogue.seed(), deltas)?;
        let mut walk = self.walk_over(alloc, catalogue, first, further, steps)?;
        if self.reads {
            keep_left(alloc, &mut walk.sides);
        }
        let facts = facts(alloc, catalogue.seed(), &self.output, &walk.out)?;
        Ok(PlanMove {
            sides: walk.sides,
            facts,
        })
    }
}
