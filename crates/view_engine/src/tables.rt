//! The tables of a view, by the form that they have.
ghost use Rattle.std.specs.Prelude.{◌≡◌, [], ◌∷◌, ◌++◌, List, map, IfOk, IfErr, OnOk, true, false};
ghost use Rattle.std.specs.Option.{ForSome};
ghost use Rattle.ss_text.specs.Texts.{Row as RowValue};
ghost use Rattle.ss_text.specs.Label.{is_table_label};
ghost use Rattle.flow_law.specs.declared.shape.Shape.{Shape as ShapeValue};
ghost use Rattle.flow_law.specs.FactRows.{fact_row};
ghost use Rattle.fact_tables.specs.Counted.{each_fact};
ghost use Rattle.operator_law.specs.Bags.{MovesBag};
ghost use Rattle.view_engine.specs.Forms.{KeepsTables, CanKeepTables, CanAddTables, CanFillTables, MovesTables, TellsLines, StopsSo, IsReadyFor, made_for, is_one};

use fact_tables::{AllFacts, Fact, FactCell};
use flow_law::{EvalFault, Shape, TableLine};
use operator_law::{Delta, Kept, Operator};
use split_op::{Split, SplitReady, Whole};
use ss_text::{NoMemory, Row, Seed, Steps, Text};
use std::alloc::Global;
use std::marker::PhantomData;
use std::sync::ledger::Ledger;
use unfold_op::{Distinct, TableReady, Unfold};

/// Keeps the facts of a view's tables, by the form of the tables.
pub enum ViewTables {
    /// The one table of a constant label, with constant columns alone.
    OneOfRows(Whole<Distinct>),
    /// The one table of a constant label, with a variable column.
    OneOfCells(Whole<Unfold>),
    /// A table for each label, with constant columns alone.
    EachOfRows(Split<Distinct>, Answer),
    /// A table for each label, with a variable column.
    EachOfCells(Split<Unfold>, Answer),
}

impl Drop for ViewTables {
    fn drop(self) {
        match self {
            ViewTables::OneOfRows(table) => drop(table),
            ViewTables::OneOfCells(table) => drop(table),
            ViewTables::EachOfRows(tables, _) => drop(tables),
            ViewTables::EachOfCells(tables, _) => drop(tables),
        }
    }
}

/// What an operator of each label answers. It has no value: a function over `Split` at a given operator is proved only where
/// this type is named.
pub type Answer = PhantomData<Vec<TableLine>>;

/// Names the moves of facts that the tables were made ready for.
#[derive(Drop)]
pub enum TablesReady {
    One(TableReady),
    Each(SplitReady),
}

// The one table of this label, without facts, with room for so many.
fn one_table(
    alloc: Global,
    seed: Seed,
    label: Text,
    constants: Row,
    spot: Option<usize>,
    facts: usize,
) -> Result<ViewTables, NoMemory>
    requires { is_table_label label ≡ true }
    ensures { IfOk result (λ tables. KeepsTables (record { label = Some label; constants = constants; spot = spot }) tables []) }
{
    match spot {
        None => {
            let inner = Distinct::with_room(alloc, seed, constants, facts)?;
            Ok(ViewTables::OneOfRows(Whole::new(label, inner)))
        }
        Some(_) => {
            let inner = Unfold::with_room(alloc, seed, constants, facts)?;
            Ok(ViewTables::OneOfCells(Whole::new(label, inner)))
        }
    }
}

// No table of any label.
fn each_table(
    alloc: Global,
    seed: Seed,
    constants: Row,
    spot: Option<usize>,
) -> Result<ViewTables, NoMemory>
    ensures { IfOk result (λ tables. KeepsTables (record { label = None; constants = constants; spot = spot }) tables []) }
{
    let columns = constants.copy()?;
    let shape = Shape {
        label: None,
        constants,
        spot,
    };
    match spot {
        None => {
            let split = Split::new(alloc, seed, shape, Distinct::new(alloc, seed, columns));
            Ok(ViewTables::EachOfRows(split, PhantomData))
        }
        Some(_) => {
            let split = Split::new(alloc, seed, shape, Unfold::new(alloc, seed, columns));
            Ok(ViewTables::EachOfCells(split, PhantomData))
        }
    }
}

// What one table was made ready by, and what the tables of all labels were.
fn one(ready: TablesReady) -> TableReady
    requires { is_one ready ≡ true }
    ensures { result ≡ made_for ready }
{
    match ready {
        TablesReady::One(ready) => ready,
        TablesReady::Each(_) => unreachable!(),
    }
}

fn each(ready: TablesReady) -> SplitReady
    requires { is_one ready ≡ false }
    ensures { result ≡ made_for ready }
{
    match ready {
        TablesReady::One(_) => unreachable!(),
        TablesReady::Each(ready) => ready,
    }
}

impl ViewTables {
    /// No facts, of tables of this form, whose label is legal where it is constant. The one table of such a label has room
    /// for so many facts. They are hashed by a seed.
    pub fn new(
        alloc: Global,
        seed: Seed,
        shape: Shape,
        facts: usize,
    ) -> Result<ViewTables, NoMemory>
        requires { ForSome shape.label (λ label. is_table_label label ≡ true) }
        ensures { IfOk result (λ tables. KeepsTables shape tables []) }
    {
        let Shape {
            label,
            constants,
            spot,
        } = shape;
        match label {
            Some(label) => one_table(alloc, seed, label, constants, spot, facts),
            None => each_table(alloc, seed, constants, spot),
        }
    }

    /// The lines by which the tables change where their facts move so, or why the facts after that are refused. Nothing is
    /// changed.
    pub fn prepare<L: Ledger>(
        &self,
        alloc: Global,
        facts: &Delta,
        steps: &mut Steps<L>,
    ) -> Result<Vec<TableLine>, EvalFault>
        requires { (shape : ShapeValue) × (old : List RowValue) × (new : List RowValue) × MovesTables shape self.now facts.now old new }
        ensures lines { IfOk result (λ lines. TellsLines self.now facts.now lines.items) }
        ensures stops { IfErr result (StopsSo self.now facts.now) }
        ensures steps { steps.new ≡ steps.old }
    {
        match self {
            ViewTables::OneOfRows(whole) => whole.prepare(alloc, &(), facts, steps),
            ViewTables::OneOfCells(whole) => whole.prepare(alloc, &(), facts, steps),
            ViewTables::EachOfRows(split, _) => split.prepare(alloc, &(), facts, steps),
            ViewTables::EachOfCells(split, _) => split.prepare(alloc, &(), facts, steps),
        }
    }

    /// Takes all memory that these moves of facts need. What is kept stays, after `NoMemory` too.
    pub fn reserve(&mut self, alloc: Global, facts: &Delta) -> Result<TablesReady, NoMemory>
        requires { (shape : ShapeValue) × (old : List RowValue) × (new : List RowValue) × MovesTables shape self.old facts.now old new × CanKeepTables shape new }
        ensures keeps { (shape : ShapeValue) (rows : List RowValue) → KeepsTables shape self.old rows → KeepsTables shape self.new rows }
        ensures ready { IfOk result (IsReadyFor self.new) }
        ensures made { IfOk result (λ ready. made_for ready ≡ facts.now) }
    {
        match self {
            ViewTables::OneOfRows(whole) => Ok(TablesReady::One(whole.reserve(alloc, facts)?)),
            ViewTables::OneOfCells(whole) => Ok(TablesReady::One(whole.reserve(alloc, facts)?)),
            ViewTables::EachOfRows(split, _) => Ok(TablesReady::Each(split.reserve(alloc, facts)?)),
            ViewTables::EachOfCells(split, _) => Ok(TablesReady::Each(split.reserve(
                alloc, facts,
            )?)),
        }
    }

    /// Moves what is kept by the moves that wait. It takes no memory.
    pub fn commit(&mut self, ready: TablesReady)
        requires { IsReadyFor self.old ready }
        ensures { (shape : ShapeValue) (old new : List RowValue) → KeepsTables shape self.old old → MovesBag old (made_for ready) new → CanKeepTables shape new → KeepsTables shape self.new new }
    {
        match self {
            ViewTables::OneOfRows(whole) => whole.commit(one(ready)),
            ViewTables::OneOfCells(whole) => whole.commit(one(ready)),
            ViewTables::EachOfRows(split, _) => split.commit(each(ready)),
            ViewTables::EachOfCells(split, _) => split.commit(each(ready)),
        }
    }

    // Keeps a fact beside those that are kept. After `NoMemory` the tables keep no facts that are known.
    fn add<C: FactCell>(&mut self, alloc: Global, fact: &Fact<'_, C>) -> Result<(), NoMemory>
        requires { (shape : ShapeValue) × (rows : List RowValue) × CanAddTables shape self.old (fact.now ∷ []) rows }
        ensures { OnOk result ((shape : ShapeValue) (rows : List RowValue) → CanAddTables shape self.old (fact.now ∷ []) rows → KeepsTables shape self.new (fact_row fact.now ∷ rows)) }
    {
        let key = fact.copy_key(alloc)?;
        let cell = fact.copy_cell(alloc)?;
        match self {
            ViewTables::OneOfRows(whole) => whole.add(key, cell)?,
            ViewTables::OneOfCells(whole) => whole.add(key, cell)?,
            ViewTables::EachOfRows(split, _) => {
                let label = fact.label().copy(alloc)?;
                split.add(alloc, &label, key, cell)?;
            }
            ViewTables::EachOfCells(split, _) => {
                let label = fact.label().copy(alloc)?;
                split.add(alloc, &label, key, cell)?;
            }
        }
        Ok(())
    }

    /// Keeps all these facts, where none are kept, the last first. After `NoMemory` the tables keep no facts that are known.
    pub fn fill<C: FactCell>(
        &mut self,
        alloc: Global,
        facts: AllFacts<'_, C>,
    ) -> Result<(), NoMemory>
        requires { (shape : ShapeValue) × CanFillTables shape self.old (each_fact facts) }
        ensures { OnOk result ((shape : ShapeValue) → CanFillTables shape self.old (each_fact facts.entry) → KeepsTables shape self.new (map fact_row (each_fact facts.entry))) }
    {
        let mut left = facts;
        while let Some(fact) = left.take_last() {
            self.add(alloc, &fact)?;
        }
        Ok(())
    }
}
