//! The facts of one table, kept as counts and moved in two steps.
ghost use Rattle.std.specs.Prelude.{◌≡◌, ◌<◌, [], ◌∷◌, List, All, length, slice_index_or, None, Some, IfOk, IfErr, OnOk, OnErr, if◌then◌else◌, nat_lt};
ghost use Rattle.ss_text.specs.Texts.{Row as RowValue};
ghost use Rattle.flow_law.specs.FactRows.{fact_row, fact_width};
ghost use Rattle.flow_law.specs.FactTables.{fact_table};
ghost use Rattle.flow_law.specs.Facts.{Fact, illegal_column, conflict};
ghost use Rattle.flow_law.specs.Script.{lines_between};
ghost use Rattle.unfold_op.specs.Moves.{Stands};
ghost use Rattle.unfold_op.specs.Stopped.{StopsFor};
ghost use Rattle.operator_law.specs.Bags.{MovesBag};
ghost use Rattle.operator_law.specs.declared.delta.Signed.{Signed as SignedValue};
ghost use Rattle.unfold_op.specs.FactMoves.{facts_in};
ghost use Rattle.unfold_op.specs.TableFields.{seen, IsOneTable};
ghost use Rattle.unfold_op.specs.OneTables.{KeepsFacts, CanAdd, CanKeep, BearsOne, CanPrepare, Gives, MayStop, Makes, label_for};

use crate::change::prepare;
use crate::delta::nets_of;
use crate::facts::FactCounts;
use crate::frame::{framed, total_after};
use crate::ready::{NewCounts, commit, reserve};
use flow_law::{EvalFault, Shape, TableLine};
use operator_law::{Delta, Signed};
use ss_text::{NoMemory, Row, Seed, Text};
use std::alloc::Global;
use std::marker::Model;
use std::snapshot::Snapshot;

/// What was made ready for a change.
#[derive(Drop)]
pub(crate) struct Waiting {
    pub of: Snapshot<Delta>,
    pub counts: NewCounts,
    pub label: Text,
    pub total: u128,
}

/// Names the change that a table was made ready for.
#[derive(Drop)]
pub struct TableReady {
    of: Snapshot<Delta>,
}

impl Model for TableReady {
    ghost use Rattle.std.specs.Prelude.{List};
    ghost use Rattle.operator_law.specs.declared.delta.Signed.{Signed};

    ghost Value = { List Signed };

    ghost view = { λ r. r.of.value };
}

impl TableReady {
    /// Names this change.
    pub(crate) fn of(change: &Delta) -> TableReady
        ensures { result ≡ change.now }
    {
        TableReady {
            of: Snapshot::of(change),
        }
    }
}

/// The facts of one table, with their label and how many they are.
#[derive(Drop)]
pub(crate) struct OneTable {
    pub shape: Shape,
    pub counts: FactCounts,
    pub label: Text,
    pub total: u128,
    pub waiting: Option<Waiting>,
}

// The label of a change: that of its rows, or where there are none that of the kept facts.
fn label_for<'a>(shape: &Shape, kept: &'a Text, moves: &'a [Signed]) -> &'a Text
    requires { All (λ m. length m.row ≡ fact_width shape.now) moves.now }
    ensures { result.now ≡ label_for shape.now kept.now moves.now }
{
    match moves {
        [first, ..] => &first.row.cells()[0],
        [] => kept,
    }
}

// The label of the kept facts, which is this one where there are none.
fn take_label(kept: &mut Text, total: u128, label: &Text) -> Result<(), NoMemory>
    ensures { OnOk result (kept.new ≡ (if nat_lt 0 total then kept.old else label.now)) }
{
    if total == 0 {
        *kept = label.copy()?;
    }
    Ok(())
}

impl OneTable {
    // No facts, of a table with these constant columns, counted by these counts.
    fn of(alloc: Global, constants: Row, spot: Option<usize>, counts: FactCounts) -> OneTable
        requires { Stands counts [] }
        ensures shape { result.shape ≡ record { label = None; constants = constants; spot = spot } }
        ensures keeps { KeepsFacts (seen result) [] }
        ensures whole { IsOneTable result }
        ensures none { result.waiting ≡ None }
    {
        OneTable {
            shape: Shape {
                label: None,
                constants,
                spot,
            },
            counts,
            label: Text::empty(alloc),
            total: 0,
            waiting: None,
        }
    }

    /// No facts, of a table with these constant columns, which are hashed by a seed.
    pub(crate) fn new(alloc: Global, seed: Seed, constants: Row, spot: Option<usize>) -> OneTable
        ensures shape { result.shape ≡ record { label = None; constants = constants; spot = spot } }
        ensures keeps { KeepsFacts (seen result) [] }
        ensures whole { IsOneTable result }
        ensures none { result.waiting ≡ None }
    {
        OneTable::of(alloc, constants, spot, FactCounts::new(alloc, seed))
    }

    /// The same, with room for so many facts.
    pub(crate) fn with_room(
        alloc: Global,
        seed: Seed,
        constants: Row,
        spot: Option<usize>,
        facts: usize,
    ) -> Result<OneTable, NoMemory>
        ensures shape { IfOk result (λ t. t.shape ≡ record { label = None; constants = constants; spot = spot }) }
        ensures keeps { IfOk result (λ t. KeepsFacts (seen t) []) }
        ensures whole { IfOk result (λ t. IsOneTable t) }
        ensures none { IfOk result (λ t. t.waiting ≡ None) }
    {
        let (keys, places) = if spot.is_some() {
            (0, facts)
        } else {
            (facts, 0)
        };
        let counts = FactCounts::with_room(alloc, seed, keys, places)?;
        Ok(OneTable::of(alloc, constants, spot, counts))
    }

    /// One of the same form that keeps no facts.
    pub(crate) fn fresh(&self, alloc: Global) -> Result<OneTable, NoMemory>
        requires { IsOneTable self.now }
        ensures shape { IfOk result (λ t. t.shape ≡ self.now.shape) }
        ensures keeps { IfOk result (λ t. KeepsFacts (seen t) []) }
        ensures whole { IfOk result (λ t. IsOneTable t) }
        ensures none { IfOk result (λ t. t.waiting ≡ None) }
    {
        let constants = self.shape.constants.copy()?;
        Ok(OneTable::new(alloc, self.counts.seed(), constants, self.shape.spot))
    }

    /// Keeps a fact beside those that are kept: its label, its key, and its column and value where the table has a variable
    /// column. No change waits then. After `NoMemory` it keeps no facts that are known.
    pub(crate) fn add(
        &mut self,
        label: &Text,
        key: Row,
        cell: Option<(Text, Text)>,
    ) -> Result<(), NoMemory>
        requires whole { IsOneTable self.old }
        requires fits { let fact : Fact = record { label = label.now; key = key; cell = cell } in (rows : List RowValue) × CanAdd (seen self.old) fact rows }
        ensures keeps { let fact : Fact = record { label = label.now; key = key; cell = cell } in OnOk result ((rows : List RowValue) → CanAdd (seen self.old) fact rows
            → KeepsFacts (seen self.new) (fact_row fact ∷ rows)) }
        ensures shape { self.new.shape ≡ self.old.shape }
        ensures whole { IsOneTable self.new }
        ensures none { self.new.waiting ≡ None }
    {
        self.waiting = None;
        take_label(&mut self.label, self.total, label)?;
        self.counts.count(key, cell)?;
        self.total += 1;
        Ok(())
    }

    // The lines between the table of the facts before and that of the facts after, or why the latter are refused.
    fn changed(
        &self,
        alloc: Global,
        label: &Text,
        change: &Delta,
    ) -> Result<Vec<TableLine>, EvalFault>
        requires can { CanPrepare (seen self.now) change.now }
        requires label { label.now ≡ label_for self.now.shape self.now.label change.now }
        ensures legal { IfOk result (λ lines. (old new : List RowValue) → KeepsFacts (seen self.now) old → MovesBag old change.now new
            → illegal_column self.now.shape.constants (facts_in self.now.shape new) ≡ None) }
        ensures clean { IfOk result (λ lines. (old new : List RowValue) → KeepsFacts (seen self.now) old → MovesBag old change.now new → conflict (facts_in self.now.shape new) ≡ None) }
        ensures lines { IfOk result (λ lines. (old new : List RowValue) → KeepsFacts (seen self.now) old → MovesBag old change.now new
            → lines.items ≡ lines_between label.now (fact_table (facts_in self.now.shape old)) (fact_table (facts_in self.now.shape new))) }
        ensures stops { IfErr result (MayStop (seen self.now) change.now) }
    {
        let nets = nets_of(alloc, &self.shape, &change.moves)?;
        match prepare(alloc, label, &self.shape.constants, &self.counts, &nets) {
            Ok(lines) => Ok(lines),
            Err(stop) => Err(stop),
        }
    }

    /// The lines by which the table changes, or why the facts after the change are refused.
    pub(crate) fn lines(&self, alloc: Global, change: &Delta) -> Result<Vec<TableLine>, EvalFault>
        requires whole { IsOneTable self.now }
        requires can { CanPrepare (seen self.now) change.now }
        ensures law { IfOk result (λ lines. Makes (seen self.now) change.now lines.items) }
        ensures gives { IfOk result (λ lines. Gives (seen self.now) change.now lines.items) }
        ensures stops { IfErr result (MayStop (seen self.now) change.now) }
    {
        let label = label_for(&self.shape, &self.label, &change.moves);
        let after = total_after(self.total, &change.moves);
        match self.changed(alloc, label, change) {
            Ok(lines) => {
                let all = framed(label, self.total > 0, after > 0, lines)?;
                Ok(all)
            }
            Err(stop) => Err(stop),
        }
    }

    /// Takes all memory that the change needs. It waits then, or after `NoMemory` none does.
    pub(crate) fn reserve(&mut self, alloc: Global, change: &Delta) -> Result<(), NoMemory>
        requires whole { IsOneTable self.old }
        requires change { BearsOne self.old.shape self.old.label self.old.total change.now }
        requires fits { (x : List RowValue) × (y : List RowValue) × KeepsFacts (seen self.old) x × MovesBag x change.now y × CanKeep self.old.shape y }
        ensures keeps { (x : List RowValue) → KeepsFacts (seen self.old) x → KeepsFacts (seen self.new) x }
        ensures shape { self.new.shape ≡ self.old.shape }
        ensures whole { IsOneTable self.new }
        ensures waits { OnOk result ((seen self.new).waiting ≡ Some change.now) }
        ensures none { OnErr result (self.new.waiting ≡ None) }
    {
        self.waiting = None;
        let label = label_for(&self.shape, &self.label, &change.moves).copy()?;
        let total = total_after(self.total, &change.moves);
        let nets = nets_of(alloc, &self.shape, &change.moves)?;
        let counts = reserve(alloc, &mut self.counts, nets)?;
        self.waiting = Some(Waiting {
            of: Snapshot::of(change),
            counts,
            label,
            total,
        });
        Ok(())
    }

    /// Moves the facts by the change that waits. It takes no memory.
    pub(crate) fn commit(&mut self)
        requires { IsOneTable self.old }
        ensures moved { (ms : List SignedValue) (x y : List RowValue) → (seen self.old).waiting ≡ Some ms → KeepsFacts (seen self.old) x → MovesBag x ms y → CanKeep self.old.shape y
            → KeepsFacts (seen self.new) y }
        ensures shape { self.new.shape ≡ self.old.shape }
        ensures whole { IsOneTable self.new }
        ensures none { self.new.waiting ≡ None }
    {
        if let Some(waiting) = self.waiting.take() {
            commit(&mut self.counts, waiting.counts);
            self.label = waiting.label;
            self.total = waiting.total;
        }
    }
}
