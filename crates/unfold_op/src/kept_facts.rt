//! The facts of one table, as an operator: with a variable column or without.
ghost use Rattle.std.specs.Prelude.{◌≡◌, [], ◌∷◌, List, None, Some, IfOk, IfErr, OnOk, MatchResult};
ghost use Rattle.ss_text.specs.Texts.{Row as RowValue};
ghost use Rattle.flow_law.specs.Facts.{Fact};
ghost use Rattle.flow_law.specs.FactRows.{fact_row};
ghost use Rattle.unfold_op.specs.OneTables.{KeepsFacts, CanAdd, CanKeep, BearsOne, CanPrepare, Gives, MayStop, Makes};

use crate::form::{FactForm, KeyAlone, KeyAndCell};
use crate::one_table::{OneTable, TableReady};
use flow_law::{EvalFault, TableLine};
use operator_law::{Delta, Fresh, Kept, Operator};
use ss_text::{NoMemory, Row, Seed, Steps, Text};
use std::alloc::Global;
use std::marker::{Model, PhantomData};
use std::sync::ledger::Ledger;

/// Keeps the facts of one table, of this form, and gives the lines by which the table changes.
#[derive(Drop)]
pub struct KeptFacts<F: FactForm> {
    table: OneTable,
    form: PhantomData<F>,
}

/// Keeps the facts of one table without a variable column: each row is there once. It never refuses.
pub type Distinct = KeptFacts<KeyAlone>;

/// Keeps the facts of one table with a variable column.
pub type Unfold = KeptFacts<KeyAndCell>;

impl<F: FactForm> Model for KeptFacts<F> {
    ghost use Rattle.std.specs.Prelude.{◌≡◌};
    ghost use Rattle.unfold_op.specs.OneTables.{OneTableValue};
    ghost use Rattle.unfold_op.specs.contracts.facts.FactCounts as counted;
    ghost use Rattle.std.specs.Coded.{codes};

    ghost Value = { OneTableValue };

    ghost coded = { Prim.hlevel (codes, counted.the_row.coded) };

    ghost use Rattle.unfold_op.specs.TableFields.{seen, IsOneTable};

    ghost view = { λ o. seen o.table };

    ghost invariant = { λ o. IsOneTable o.table × (o.table.shape.spot ≡ F.SPOT) };
}

impl<F: FactForm> KeptFacts<F> {
    /// No facts, beside these constant columns. They are hashed by a seed.
    pub fn new(alloc: Global, seed: Seed, constants: Row) -> KeptFacts<F>
        ensures shape { result.shape ≡ record { label = None; constants = constants; spot = F.SPOT } }
        ensures keeps { KeepsFacts result [] }
        ensures none { result.waiting ≡ None }
    {
        KeptFacts {
            table: OneTable::new(alloc, seed, constants, F::SPOT),
            form: PhantomData,
        }
    }

    /// The same, with room for so many facts.
    pub fn with_room(
        alloc: Global,
        seed: Seed,
        constants: Row,
        facts: usize,
    ) -> Result<KeptFacts<F>, NoMemory>
        ensures shape { IfOk result (λ o. o.shape ≡ record { label = None; constants = constants; spot = F.SPOT }) }
        ensures keeps { IfOk result (λ o. KeepsFacts o []) }
        ensures none { IfOk result (λ o. o.waiting ≡ None) }
    {
        let table = OneTable::with_room(alloc, seed, constants, F::SPOT, facts)?;
        Ok(KeptFacts {
            table,
            form: PhantomData,
        })
    }

    /// Keeps a fact beside those that are kept: its label, its key, and its column and value where the table has a variable
    /// column. No change waits then. After `NoMemory` it keeps no facts that are known.
    pub fn add(
        &mut self,
        label: &Text,
        key: Row,
        cell: Option<(Text, Text)>,
    ) -> Result<(), NoMemory>
        requires { let fact : Fact = record { label = label.now; key = key; cell = cell } in (rows : List RowValue) × CanAdd self.old fact rows }
        ensures keeps { let fact : Fact = record { label = label.now; key = key; cell = cell } in OnOk result ((rows : List RowValue) → CanAdd self.old fact rows
            → KeepsFacts self.new (fact_row fact ∷ rows)) }
        ensures shape { self.new.shape ≡ self.old.shape }
        ensures none { self.new.waiting ≡ None }
    {
        self.table.add(label, key, cell)?;
        Ok(())
    }

    /// How many facts are kept.
    pub fn count(&self) -> u128
        ensures { result ≡ self.now.total }
    {
        self.table.total
    }
}

impl<F: FactForm> Operator for KeptFacts<F> {
    ghost use Rattle.std.specs.Prelude.{◌≡◌, None};
    ghost use Rattle.flow_law.specs.declared.refused.EvalFault.TheVariants.{NoMemory};
    ghost use Rattle.unfold_op.specs.OneTables.{table_value, KeepsFacts, CanPrepare, Gives, MayStop};

    type Input = ();

    type Change = Delta;

    type Output = Vec<TableLine>;

    type Fault = EvalFault;

    ghost value = { λ o x. table_value o x };

    ghost stands_for = { λ o i x. KeepsFacts o x };

    ghost can_prepare = { λ o i g. CanPrepare o g };

    ghost gives = { λ o i g lines. Gives o g lines.items };

    ghost may_stop = { λ o i g stop. MayStop o g stop × (F.SPOT ≡ None → stop ≡ NoMemory) };

    ghost is_bound = { λ o i g n. Unit {0} };

    fn prepare<L: Ledger>(
        &self,
        alloc: Global,
        input: &(),
        change: &Delta,
        steps: &mut Steps<L>,
    ) -> Result<Vec<TableLine>, EvalFault> {
        match self.table.lines(alloc, change) {
            Ok(lines) => Ok(lines),
            Err(stop) => Err(stop),
        }
    }
}

impl<F: FactForm> Kept for KeptFacts<F> {
    ghost use Rattle.std.specs.Prelude.{◌≡◌};
    ghost use Rattle.std.proofs.Common.{subst};
    ghost use Rattle.flow_law.specs.declared.shape.Shape.{Shape};
    ghost use Rattle.unfold_op.specs.OneTables.{KeepsFacts, CanKeep, BearsOne};

    type Change = Delta;

    type Ready = TableReady;

    ghost keeps = { λ o x. KeepsFacts o x };

    ghost can_keep = { λ o x. CanKeep o.shape x };

    ghost alike = { λ a b. a.shape ≡ b.shape };

    ghost waiting = { λ o. o.waiting };

    ghost made_for = { λ r. r };

    ghost can_reserve = { λ o g. BearsOne o.shape o.label o.total g };

    fn reserve(&mut self, alloc: Global, change: &Delta) -> Result<TableReady, NoMemory> {
        self.table.reserve(alloc, change)?;
        Ok(TableReady::of(change))
    }

    fn commit(&mut self, ready: TableReady) {
        self.table.commit();
    }

    ghost keeps_alike = { λ s t x a h. subst (λ (v : Shape). CanKeep v x) a h };
}

impl<F: FactForm> Fresh for KeptFacts<F> {
    ghost use Rattle.std.proofs.Common.{ap, ◌∙◌};
    ghost use Rattle.flow_law.specs.declared.shape.Shape.{Shape};
    ghost use Rattle.flow_law.specs.FactTables.{tables};
    ghost use Rattle.unfold_op.specs.FactMoves.{facts_in};

    fn fresh(&self, alloc: Global) -> Result<KeptFacts<F>, NoMemory> {
        let table = self.table.fresh(alloc)?;
        Ok(KeptFacts {
            table,
            form: PhantomData,
        })
    }

    ghost stands = { λ s x h. h };

    ghost same_value = { λ s t x a. ap (λ (v : Shape). tables v (facts_in v x)) a };

    ghost alike_on = { λ s t u a b. a ∙ b };
}
