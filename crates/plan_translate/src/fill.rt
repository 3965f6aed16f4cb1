//! Filling a plan that keeps nothing.
ghost use Rattle.std.specs.Prelude.{◌≡◌, map, None, IfOk, OnOk, OnErr, IsTrue};
ghost use Rattle.plan_law.specs.PlanRows.{plan_joints};
ghost use Rattle.plan_law.specs.PlanMoves.{PlanKeeps};
ghost use Rattle.plan_translate.specs.ChainStages.{joint_in, sides_in};
ghost use Rattle.plan_translate.specs.Read.{is_read};
ghost use Rattle.plan_translate.specs.Plans.{query_in, JoinsStand, PlanStands, IsFresh};

use crate::listed::{listed, own_rows};
use crate::{Plan, filled};
use join_delta::Join;
use schema_model::Catalogue;
use ss_text::NoMemory;
use std::alloc::Global;

impl Plan {
    // Joins by the plan's keys that keep all that comes to them over this catalogue.
    pub(crate) fn filled(&self, alloc: Global, catalogue: &Catalogue) -> Result<Vec<Join>, NoMemory>
        ensures joints { let q = query_in self.now in IfOk result (λ joins. map joint_in joins.items ≡ plan_joints q q.decls) }
        ensures keeps { IfOk result (λ joins. PlanKeeps catalogue.now.databases (query_in self.now) (map sides_in joins.items)) }
    {
        let (first, further) = listed(alloc, catalogue, &self.specs, &self.tests)?;
        let joins = filled(alloc, &self.joins, first, further)?;
        Ok(joins)
    }

    // The join of a plan that reads rows, with all that comes to its left side.
    fn left_filled(&self, alloc: Global, catalogue: &Catalogue) -> Result<Vec<Join>, NoMemory>
        requires { IsTrue (is_read (query_in self.now)) }
        ensures joints { let q = query_in self.now in IfOk result (λ joins. map joint_in joins.items ≡ plan_joints q q.decls) }
        ensures stand { IfOk result (λ joins. JoinsStand catalogue.now.databases (query_in self.now) (map sides_in joins.items)) }
    {
        let first = own_rows(alloc, catalogue, &self.specs[0], &self.tests[0])?;
        let join = self.joins[0].filled(alloc, first, Vec::new(alloc))?;
        let mut joins = Vec::new(alloc);
        joins.push(join)?;
        Ok(joins)
    }

    // Joins that keep what the plan keeps for this catalogue. Where there is none, no row is listed.
    fn kept(&self, alloc: Global, catalogue: &Catalogue) -> Result<Vec<Join>, NoMemory>
        ensures joints { let q = query_in self.now in IfOk result (λ joins. map joint_in joins.items ≡ plan_joints q q.decls) }
        ensures stand { IfOk result (λ joins. JoinsStand catalogue.now.databases (query_in self.now) (map sides_in joins.items)) }
    {
        if self.joins.is_empty() {
            return Ok(Vec::new(alloc));
        }
        if self.reads {
            return self.left_filled(alloc, catalogue);
        }
        self.filled(alloc, catalogue)
    }

    /// Keeps what comes to the joins over this catalogue, for which the plan stands then: both sides of each, or the left
    /// one alone where the plan reads rows. No step is counted. After `NoMemory` the plan keeps nothing.
    pub fn fill(&mut self, alloc: Global, catalogue: &Catalogue) -> Result<(), NoMemory>
        requires { IsFresh self.old }
        ensures stands { OnOk result (PlanStands catalogue.now.databases self.new) }
        ensures fresh { OnErr result (IsFresh self.new) }
        ensures view { self.new.view ≡ self.old.view }
        ensures none { self.new.waiting ≡ None }
    {
        self.waiting = None;
        let joins = self.kept(alloc, catalogue)?;
        self.joins = joins;
        Ok(())
    }
}
