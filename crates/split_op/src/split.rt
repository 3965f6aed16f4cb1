//! The tables of all labels, where the label is a variable.
ghost use Rattle.std.specs.Prelude.{◌≡◌, [], ◌∷◌, List, None, OnOk};
ghost use Rattle.ss_text.specs.Texts.{Row as RowValue};
ghost use Rattle.flow_law.specs.Facts.{Fact};
ghost use Rattle.flow_law.specs.FactRows.{fact_row};
ghost use Rattle.split_op.specs.Parts.{SameColumns};
ghost use Rattle.split_op.specs.Splits.{KeepsSplit};
ghost use Rattle.split_op.specs.Added.{CanAddSplit};

use crate::add::add_fact;
use crate::moved::{moved_lines, moved_stages};
use crate::stages::{Stage, commit_stages};
use flow_law::{EvalFault, Shape, TableLine};
use indexmap::IndexMap;
use operator_law::{Delta, Fresh, Kept, Operator};
use ss_text::{NoMemory, Row, Seed, Steps, Text};
use std::alloc::Global;
use std::marker::Model;
use std::snapshot::Snapshot;
use std::sync::ledger::Ledger;
use unfold_op::TableOperator;

/// What was made ready for a change.
#[derive(Drop)]
pub(crate) struct Waiting<I: TableOperator> {
    pub of: Snapshot<Delta>,
    pub stages: Vec<Stage<I>>,
}

/// Names the change that the tables were made ready for.
#[derive(Drop)]
pub struct SplitReady {
    of: Snapshot<Delta>,
}

impl Model for SplitReady {
    ghost use Rattle.std.specs.Prelude.{List};
    ghost use Rattle.operator_law.specs.declared.delta.Signed.{Signed};

    ghost Value = { List Signed };

    ghost view = { λ r. r.of.value };
}

/// Keeps the facts of the tables of all labels, by an operator for one table each. A label without facts has none.
#[derive(Drop)]
pub struct Split<I: TableOperator> {
    shape: Shape,
    pattern: I,
    parts: IndexMap<Text, I, Seed>,
    waiting: Option<Waiting<I>>,
}

impl<I: TableOperator> Model for Split<I> {
    ghost use Rattle.std.specs.Prelude.{option_map};
    ghost use Rattle.split_op.specs.Splits.{SplitValue};

    ghost Value = { SplitValue I };

    ghost use Rattle.split_op.specs.SplitFields.{IsSplit};

    ghost view = { λ s. record { shape = s.shape; pattern = s.pattern; parts = s.parts.entries; waiting = option_map (λ w. w.of.value) s.waiting } };

    ghost invariant = { λ s. IsSplit I.table I.waiting I.made_for s.shape s.pattern s.parts s.waiting };
}

impl<I: TableOperator> Split<I> {
    /// No facts, of tables of this form, whose label is a variable. The operator of a label is made like the pattern, whose tables
    /// have the same columns, and is found by a hash of a seed.
    pub fn new(alloc: Global, seed: Seed, shape: Shape, pattern: I) -> Split<I>
        requires label { shape.label ≡ None }
        requires columns { SameColumns shape (I.table pattern).shape }
        ensures shape { result.shape ≡ shape }
        ensures pattern { result.pattern ≡ pattern }
        ensures keeps { KeepsSplit I.table result [] }
        ensures none { result.waiting ≡ None }
    {
        Split {
            shape,
            pattern,
            parts: IndexMap::with_hasher(alloc, seed),
            waiting: None,
        }
    }

    /// Keeps a fact beside those that are kept: its label, its key, and its column and value where the tables have a variable
    /// column. No change waits then. After `NoMemory` it keeps no facts that are known.
    pub fn add(
        &mut self,
        alloc: Global,
        label: &Text,
        key: Row,
        cell: Option<(Text, Text)>,
    ) -> Result<(), NoMemory>
        requires { let fact : Fact = record { label = label.now; key = key; cell = cell } in (rows : List RowValue) × CanAddSplit I.table self.old fact rows }
        ensures keeps { let fact : Fact = record { label = label.now; key = key; cell = cell } in OnOk result ((rows : List RowValue) → CanAddSplit I.table self.old fact rows
            → KeepsSplit I.table self.new (fact_row fact ∷ rows)) }
        ensures shape { self.new.shape ≡ self.old.shape }
        ensures pattern { self.new.pattern ≡ self.old.pattern }
        ensures waits { self.new.waiting ≡ None }
    {
        self.waiting = None;
        add_fact(alloc, &self.pattern, &mut self.parts, label, key, cell)?;
        Ok(())
    }
}

impl<I: TableOperator> Operator for Split<I> {
    ghost use Rattle.flow_law.specs.FactTables.{tables};
    ghost use Rattle.flow_law.specs.Faults.{IsFaultOf};
    ghost use Rattle.operator_law.specs.Bags.{MovesBag};
    ghost use Rattle.unfold_op.specs.FactMoves.{facts_in};
    ghost use Rattle.split_op.specs.Tables.{ScriptLines};
    ghost use Rattle.split_op.specs.Splits.{part_of, KeepsSplit, CanPrepareSplit, IsSplitBound};
    ghost use Rattle.ss_text.specs.Texts.{Row as RowValue};
    ghost use Rattle.std.specs.Prelude.{List};

    type Input = ();

    type Change = Delta;

    type Output = Vec<TableLine>;

    type Fault = EvalFault;

    ghost value = { λ s x. tables s.shape (facts_in s.shape x) };

    ghost stands_for = { λ s i x. KeepsSplit I.table s x };

    ghost can_prepare = { λ s i g. CanPrepareSplit I.table s g };

    ghost gives = { λ s i g lines. (old new : List RowValue) → KeepsSplit I.table s old → MovesBag old g new → ScriptLines s.shape lines.items (facts_in s.shape old) (facts_in s.shape new) };

    ghost may_stop = { λ s i g stop. (old new : List RowValue) → KeepsSplit I.table s old → MovesBag old g new → IsFaultOf s.shape (facts_in s.shape new) stop };

    ghost is_bound = { λ s i g n. IsSplitBound (λ t. I.is_bound t tt) I.alike s.pattern (part_of s.parts) g n };

    fn prepare<L: Ledger>(
        &self,
        alloc: Global,
        input: &(),
        change: &Delta,
        steps: &mut Steps<L>,
    ) -> Result<Vec<TableLine>, EvalFault> {
        match moved_lines(alloc, &self.pattern, &self.parts, change, steps) {
            Ok(lines) => Ok(lines),
            Err(stop) => Err(stop),
        }
    }
}

impl<I: TableOperator> Kept for Split<I> {
    ghost use Rattle.std.specs.Prelude.{◌≡◌};
    ghost use Rattle.std.proofs.Common.{subst};
    ghost use Rattle.flow_law.specs.declared.shape.Shape.{Shape};
    ghost use Rattle.split_op.specs.Splits.{KeepsSplit, CanKeepSplit, AreWide, AlikeSplits};

    type Change = Delta;

    type Ready = SplitReady;

    ghost keeps = { λ s x. KeepsSplit I.table s x };

    ghost can_keep = { λ s x. CanKeepSplit s.shape x };

    ghost alike = { λ a b. AlikeSplits I.alike a b };

    ghost waiting = { λ s. s.waiting };

    ghost made_for = { λ r. r };

    ghost can_reserve = { λ s g. AreWide s.shape g };

    fn reserve(&mut self, alloc: Global, change: &Delta) -> Result<SplitReady, NoMemory> {
        self.waiting = None;
        let stages = moved_stages(alloc, &self.pattern, &mut self.parts, change)?;
        self.waiting = Some(Waiting {
            of: Snapshot::of(change),
            stages,
        });
        Ok(SplitReady {
            of: Snapshot::of(change),
        })
    }

    fn commit(&mut self, ready: SplitReady) {
        if let Some(waiting) = self.waiting.take() {
            commit_stages(&mut self.parts, waiting.stages);
        }
    }

    ghost keeps_alike = { λ s t x a h. subst (λ (v : Shape). CanKeepSplit v x) a.shape h };
}

impl<I: TableOperator> Fresh for Split<I> {
    ghost use Rattle.std.proofs.Common.{ap, ◌∙◌};
    ghost use Rattle.flow_law.specs.declared.shape.Shape.{Shape};
    ghost use Rattle.flow_law.specs.FactTables.{tables};
    ghost use Rattle.unfold_op.specs.FactMoves.{facts_in};

    fn fresh(&self, alloc: Global) -> Result<Split<I>, NoMemory> {
        let constants = self.shape.constants.copy()?;
        let pattern = self.pattern.fresh(alloc)?;
        let shape = Shape {
            label: None,
            constants,
            spot: self.shape.spot,
        };
        Ok(Split::new(alloc, *self.parts.hasher(), shape, pattern))
    }

    ghost stands = { λ s x h. h };

    ghost same_value = { λ s t x a. ap (λ (v : Shape). tables v (facts_in v x)) a.shape };

    ghost alike_on = { λ s t u a b. record { shape = a.shape ∙ b.shape; pattern = λ i h. a.pattern i (b.pattern i h) } };
}
