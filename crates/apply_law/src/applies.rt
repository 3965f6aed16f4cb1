//! What takes changes of a catalogue in two steps.
ghost use Rattle.std.specs.Prelude.{◌≡◌, ◌+◌, ◌≤◌, [], ◌∷◌, List, None, IfOk, IfErr, OnOk, OnErr, IsTrue, length};
ghost use Rattle.std.specs.List.{AllByRecursion};
ghost use Rattle.std.specs.Option.{ForSome};
ghost use Rattle.schema_model.specs.Catalogue.{CatalogueValue};
ghost use Rattle.schema_model.specs.Changes.{after_all, is_well_formed};
ghost use Rattle.schema_model.specs.Refusals.{group_fault};
ghost use Rattle.schema_model.specs.Sound.{IsSound};
ghost use Rattle.schema_model.specs.declared.change.Change.{Change as ChangeValue};
ghost use Rattle.flow_law.specs.InOrder.{AreTables};
ghost use Rattle.flow_law.specs.Tables.{TablesValue};
ghost use Rattle.change_script.specs.Fits.{IsForm, TablesFit};
ghost use Rattle.view_meaning.specs.Orders.{DifferInOrder};
ghost use Rattle.apply_law.specs.Standing.{Waiting, Idle, Proposes, IsProposal, Standing, tables_of, verdict_after, made};
ghost use Rattle.apply_law.specs.Verdicts.{Makes, IsScriptTo, IsGroupRefused};

use crate::GroupRefused;
use change_script::Script;
use flow_law::Shape;
use kept_tables::KeptTables;
use schema_model::{Catalogue, Change};
use ss_text::Steps;
use std::alloc::Global;
use std::sync::ledger::Ledger;

/// What stands for a catalogue, has a verdict over every catalogue, and takes changes in two steps.
///
/// A verdict is tables, an illegal label or a clash. That over its own catalogue is its tables.
pub trait Applies {
    // The catalogue that it stands for, and what no call changes: the form of its tables, its verdict over each
    // catalogue, and at most how many steps a change of each takes.
    ghost state: { Self → Standing };

    // What waits in it: nothing, changes that are proposed, or something else that has to end first.
    ghost waits: { Self → Waiting };

    // What it is where changes are proposed, and where what is proposed is made.
    ghost after_propose: { Self → List ChangeValue → Self };

    ghost after_accept: { Self → Self };

    /// The catalogue that it stands for.
    fn catalogue(&self) -> &Catalogue
        ensures catalogue { result.now.databases ≡ (state self.now).catalogue }
        ensures sound { IsSound (state self.now).catalogue };

    /// The tables, which are the verdict over the catalogue.
    fn tables(&self) -> &KeptTables
        ensures tables { result.now.tables ≡ tables_of (state self.now) }
        ensures verdict { (state self.now).verdict (state self.now).catalogue ≡ Makes (tables_of (state self.now)) };

    /// The form of the tables of every verdict, which has a constant column. All are in order and fit it.
    fn shape(&self) -> &Shape
        ensures shape { result.now ≡ (state self.now).shape }
        ensures form { IsForm (state self.now).shape }
        ensures some { 1 ≤ length (state self.now).shape.constants }
        ensures fits { (c : CatalogueValue) (ts : TablesValue) → (state self.now).verdict c ≡ Makes ts → TablesFit (state self.now).shape ts }
        ensures order { (c : CatalogueValue) (ts : TablesValue) → (state self.now).verdict c ≡ Makes ts → AreTables ts };

    /// Proposes changes, all together, and answers the script by which the tables change; or the first change that is
    /// refused behind those before it, or why there are no tables over the catalogue after them. All memory is taken.
    /// After each refusal nothing is proposed.
    fn propose<L: Ledger>(
        &mut self,
        alloc: Global,
        changes: &[Change],
        steps: &mut Steps<L>,
    ) -> Result<Script, GroupRefused>
        requires well_formed { AllByRecursion (λ g. IsTrue (is_well_formed g)) changes.now }
        requires idle { waits self.old ≡ Idle }
        ensures accepted { OnOk result (group_fault (state self.old).catalogue changes.now ≡ None) }
        ensures script { IfOk result (IsScriptTo (tables_of (state self.old)) (verdict_after (state self.old) changes.now)) }
        ensures refused { IfErr result (IsGroupRefused (state self.old).verdict (state self.old).catalogue changes.now) }
        ensures same { state self.new ≡ state self.old }
        ensures proposed { OnOk result (self.new ≡ after_propose self.old changes.now) }
        ensures unchanged { OnErr result (self.new ≡ self.old) }
        ensures proposes { OnOk result (waits self.new ≡ Proposes changes.now) }
        ensures idle { OnErr result (waits self.new ≡ Idle) }
        ensures within { (g : ChangeValue) → changes.now ≡ g ∷ [] → ForSome ((state self.old).limit (state self.old).catalogue g) (λ n. steps.new ≤ steps.old + n) }
        ensures rises { steps.old ≤ steps.new };

    /// Makes what is proposed the state. It takes no memory.
    fn accept(&mut self)
        requires { IsProposal (waits self.old) }
        ensures made { (gs : List ChangeValue) → waits self.old ≡ Proposes gs → state self.new ≡ made (state self.old) gs }
        ensures accepted { self.new ≡ after_accept self.old }
        ensures idle { waits self.new ≡ Idle };

    /// Drops what is proposed, and is as it was before. It takes no memory.
    fn dismiss(&mut self)
        requires { IsProposal (waits self.old) }
        ensures same { state self.new ≡ state self.old }
        ensures dropped { (a : Self) (gs : List ChangeValue) → waits a ≡ Idle → self.old ≡ after_propose a gs → self.new ≡ a }
        ensures idle { waits self.new ≡ Idle };

    // Sound catalogues that differ in the order of rows and attributes alone have the same verdict.
    ghost same_verdict: { (s : Self) (c d : CatalogueValue) → IsSound c → IsSound d → DifferInOrder c d → (state s).verdict c ≡ (state s).verdict d };
}
