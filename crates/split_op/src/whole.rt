//! The one table of a constant label.
ghost use Rattle.std.specs.Prelude.{◌≡◌, ◌∷◌, List, true, IfOk, IfErr, OnOk};
ghost use Rattle.ss_text.specs.Texts.{Row as RowValue};
ghost use Rattle.ss_text.specs.Label.{is_table_label};
ghost use Rattle.flow_law.specs.Facts.{Fact};
ghost use Rattle.flow_law.specs.FactRows.{fact_row};
ghost use Rattle.flow_law.specs.Labelled.{AllBear};
ghost use Rattle.flow_law.specs.declared.line.TableLine.{TableLine as Line};
ghost use Rattle.unfold_op.specs.FactMoves.{facts_in};
ghost use Rattle.unfold_op.specs.OneTables.{KeepsFacts, framed};
ghost use Rattle.ss_text.specs.Texts.{Text as TextValue};
ghost use Rattle.split_op.specs.Wholes.{KeepsWhole, CanAddWhole};

use crate::count::count_moved;
use flow_law::{EvalFault, TableLine};
use operator_law::{Delta, Kept, Operator};
use ss_text::{NoMemory, Row, Steps, Text};
use std::alloc::Global;
use std::sync::ledger::Ledger;
use unfold_op::TableOperator;

// The lines without that of the table itself.
fn without_frame(before: bool, after: bool, lines: Vec<TableLine>) -> Vec<TableLine>
    requires { (label : TextValue) × (inner : List Line) × (lines.items ≡ framed label before after inner) }
    ensures { (label : TextValue) (inner : List Line) → lines.items ≡ framed label before after inner → result.items ≡ inner }
{
    let mut lines = lines;
    match (before, after) {
        (false, true) => {
            lines.remove(0);
            lines
        }
        (true, false) => {
            lines.pop();
            lines
        }
        _ => lines,
    }
}

/// Keeps the facts of the one table of a constant label, which always stands, by an operator for one table.
#[derive(Drop)]
pub struct Whole<I: TableOperator> {
    pub label: Text,
    pub inner: I,
}

impl<I: TableOperator> Whole<I> {
    /// The table of this label, with what the operator keeps; the label is legal.
    pub fn new(label: Text, inner: I) -> Whole<I>
        requires { is_table_label label ≡ true }
        ensures label { result.label ≡ label }
        ensures inner { result.inner ≡ inner }
        ensures keeps { (x : List RowValue) → KeepsFacts (I.table inner) x → AllBear label (facts_in (I.table inner).shape x) → KeepsWhole result.label (I.table result.inner) x }
    {
        Whole { label, inner }
    }

    /// Keeps a fact of the table beside those that are kept: its key, and its column and value where the table has a variable
    /// column. After `NoMemory` it keeps no facts that are known.
    pub fn add(&mut self, key: Row, cell: Option<(Text, Text)>) -> Result<(), NoMemory>
        requires { let fact : Fact = record { label = self.old.label; key = key; cell = cell } in (rows : List RowValue) × CanAddWhole self.old.label (I.table self.old.inner) fact rows }
        ensures keeps { let fact : Fact = record { label = self.old.label; key = key; cell = cell } in OnOk result ((rows : List RowValue)
            → CanAddWhole self.old.label (I.table self.old.inner) fact rows → KeepsWhole self.new.label (I.table self.new.inner) (fact_row fact ∷ rows)) }
        ensures label { self.new.label ≡ self.old.label }
        ensures shape { (I.table self.new.inner).shape ≡ (I.table self.old.inner).shape }
    {
        self.inner.add(&self.label, key, cell)?;
        Ok(())
    }
}

impl<I: TableOperator> Operator for Whole<I> {
    ghost use Rattle.flow_law.specs.FactTables.{tables};
    ghost use Rattle.flow_law.specs.Faults.{IsFaultOf};
    ghost use Rattle.operator_law.specs.Bags.{MovesBag};
    ghost use Rattle.unfold_op.specs.FactMoves.{facts_in};
    ghost use Rattle.split_op.specs.Tables.{ScriptLines};
    ghost use Rattle.split_op.specs.Wholes.{labelled, KeepsWhole, CanPrepareWhole};
    ghost use Rattle.ss_text.specs.Texts.{Row as RowValue};
    ghost use Rattle.std.specs.Prelude.{List};

    type Input = ();

    type Change = Delta;

    type Output = Vec<TableLine>;

    type Fault = EvalFault;

    ghost value = { λ w x. tables (labelled w.label (I.table w.inner).shape) (facts_in (I.table w.inner).shape x) };

    ghost stands_for = { λ w i x. KeepsWhole w.label (I.table w.inner) x };

    ghost can_prepare = { λ w i g. CanPrepareWhole w.label (I.table w.inner) g };

    ghost gives = { λ w i g lines. (old new : List RowValue) → KeepsWhole w.label (I.table w.inner) old → MovesBag old g new
        → ScriptLines (labelled w.label (I.table w.inner).shape) lines.items (facts_in (I.table w.inner).shape old) (facts_in (I.table w.inner).shape new) };

    ghost may_stop = { λ w i g stop. (old new : List RowValue) → KeepsWhole w.label (I.table w.inner) old → MovesBag old g new
        → IsFaultOf (labelled w.label (I.table w.inner).shape) (facts_in (I.table w.inner).shape new) stop };

    ghost is_bound = { λ w i g n. I.is_bound w.inner tt g n };

    fn prepare<L: Ledger>(
        &self,
        alloc: Global,
        input: &(),
        change: &Delta,
        steps: &mut Steps<L>,
    ) -> Result<Vec<TableLine>, EvalFault> {
        let before = self.inner.count();
        let after = count_moved(before, change);
        match self.inner.prepare(alloc, &(), change, steps) {
            Ok(lines) => {
                let told = without_frame(before > 0, after > 0, lines);
                Ok(told)
            }
            Err(stop) => Err(stop),
        }
    }
}

impl<I: TableOperator> Kept for Whole<I> {
    ghost use Rattle.std.specs.Prelude.{◌≡◌};
    ghost use Rattle.std.proofs.Common.{subst};
    ghost use Rattle.ss_text.specs.Texts.{Text as TextValue};
    ghost use Rattle.flow_law.specs.declared.shape.Shape.{Shape};
    ghost use Rattle.split_op.specs.Wholes.{KeepsWhole, CanKeepWhole, BearsLabel};

    type Change = Delta;

    type Ready = I::Ready;

    ghost keeps = { λ w x. KeepsWhole w.label (I.table w.inner) x };

    ghost can_keep = { λ w x. CanKeepWhole w.label (I.table w.inner).shape x };

    ghost alike = { λ a b. (a.label ≡ b.label) × ((I.table a.inner).shape ≡ (I.table b.inner).shape) };

    ghost waiting = { λ w. I.waiting w.inner };

    ghost made_for = { I.made_for };

    ghost can_reserve = { λ w g. BearsLabel w.label (I.table w.inner).shape g };

    fn reserve(&mut self, alloc: Global, change: &Delta) -> Result<I::Ready, NoMemory> {
        self.inner.reserve(alloc, change)
    }

    fn commit(&mut self, ready: I::Ready) {
        self.inner.commit(ready);
    }

    ghost keeps_alike = { λ s t x a h. subst (λ (v : Shape). CanKeepWhole t.label v x) a.1 (subst (λ (l : TextValue). CanKeepWhole l (I.table s.inner).shape x) a.0 h) };
}
