//! Operators for the facts of one table.
ghost use Rattle.std.specs.Prelude.{◌≡◌, ◌∷◌, List, OnOk};
ghost use Rattle.std.specs.Vec.{vec_items};
ghost use Rattle.ss_text.specs.Texts.{Row as RowValue};
ghost use Rattle.flow_law.specs.declared.refused.EvalFault.{EvalFault};
ghost use Rattle.flow_law.specs.Facts.{Fact};
ghost use Rattle.flow_law.specs.FactRows.{fact_row};
ghost use Rattle.operator_law.specs.declared.delta.Signed.{Signed as SignedValue};
ghost use Rattle.unfold_op.specs.OneTables.{OneTableValue, KeepsFacts, CanAdd, CanKeep, BearsOne, CanPrepare, Gives, MayStop};

use crate::form::FactForm;
use crate::kept_facts::KeptFacts;
use flow_law::{EvalFault, TableLine};
use operator_law::{Delta, Fresh, Kept, Operator};
use ss_text::{NoMemory, Row, Text};

/// An operator that keeps the facts of one table, which is there while it has facts.
pub trait TableOperator: Fresh
    + Operator<Input = (), Change = Delta, Output = Vec<TableLine>, Fault = EvalFault>
    + Kept<Change = Delta>
    + Drop {
    // What is seen of it.
    ghost table: { Self → OneTableValue };

    /// How many facts are kept.
    fn count(&self) -> u128
        ensures { result ≡ (table self.now).total };

    /// Keeps a fact beside those that are kept: its label, its key, and its column and value where the table has a variable
    /// column. After `NoMemory` it keeps no facts that are known.
    fn add(&mut self, label: &Text, key: Row, cell: Option<(Text, Text)>) -> Result<(), NoMemory>
        requires { let fact : Fact = record { label = label.now; key = key; cell = cell } in (rows : List RowValue) × CanAdd (table self.old) fact rows }
        ensures keeps { let fact : Fact = record { label = label.now; key = key; cell = cell } in OnOk result ((rows : List RowValue) → CanAdd (table self.old) fact rows
            → KeepsFacts (table self.new) (fact_row fact ∷ rows)) }
        ensures shape { (table self.new).shape ≡ (table self.old).shape };

    // What it keeps are the facts of rows.
    ghost keeps_facts: { (s : Self) (x : List RowValue) → Self.keeps s x → KeepsFacts (table s) x };

    ghost facts_kept: { (s : Self) (x : List RowValue) → KeepsFacts (table s) x → Self.keeps s x };

    // Moves of rows of one label that fit what is kept can be prepared and made ready.
    ghost prepares: { (s : Self) (ms : List SignedValue) → CanPrepare (table s) ms → Self.can_prepare s tt ms };

    ghost reserves: { (s : Self) (ms : List SignedValue) → BearsOne (table s).shape (table s).label (table s).total ms → Self.can_reserve s ms };

    ghost can_be_kept: { (s : Self) (x : List RowValue) → CanKeep (table s).shape x → Self.can_keep s x };

    // The lines are those of the table, and it stops just where the facts after the change are refused.
    ghost answers: { (s : Self) (ms : List SignedValue) (out : _) → Self.gives s tt ms out → Gives (table s) ms (vec_items out) };

    ghost stops: { (s : Self) (ms : List SignedValue) (stop : EvalFault) → Self.may_stop s tt ms stop → MayStop (table s) ms stop };

    // The form depends on the constants alone.
    ghost same_form: { (s t : Self) → Self.alike s t → (table s).shape ≡ (table t).shape };
}

impl<F: FactForm> TableOperator for KeptFacts<F> {
    ghost table = { λ o. o };

    fn count(&self) -> u128 {
        KeptFacts::count(self)
    }

    fn add(&mut self, label: &Text, key: Row, cell: Option<(Text, Text)>) -> Result<(), NoMemory> {
        KeptFacts::add(self, label, key, cell)
    }

    ghost keeps_facts = { λ s x h. h };

    ghost facts_kept = { λ s x h. h };

    ghost prepares = { λ s ms h. h };

    ghost reserves = { λ s ms h. h };

    ghost can_be_kept = { λ s x h. h };

    ghost answers = { λ s ms out h. h };

    ghost stops = { λ s ms stop h. h.0 };

    ghost same_form = { λ s t h. h };
}
