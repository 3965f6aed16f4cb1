//! Levels, each over the one below.
ghost use Rattle.std.specs.Prelude.{◌≡◌, ◌≤◌, ◌<◌, ◌+◌, ◌++◌, [], ◌∷◌, List, None, map, length, drop, slice_index_or, IfOk, IfErr, OnOk, OnErr, IsTrue};
ghost use Rattle.std.specs.Vec.{vec_len, vec_capacity};
ghost use Rattle.std.specs.List.{AllByRecursion};
ghost use Rattle.ss_text.specs.Texts.{Text as TextValue};
ghost use Rattle.flow_law.specs.declared.line.TableLine.{TableLine};
ghost use Rattle.schema_model.specs.Changes.{is_well_formed};
ghost use Rattle.schema_model.specs.Refusals.{group_fault};
ghost use Rattle.schema_model.specs.declared.change.Change.{Change as ChangeValue};
ghost use Rattle.apply_law.specs.Standing.{tables_of, verdict_after};
ghost use Rattle.apply_law.specs.Verdicts.{IsScriptTo};
ghost use Rattle.view_stack.specs.Stands.{stands};
ghost use Rattle.view_stack.specs.Lifted.{lifted};
ghost use Rattle.view_stack.specs.Stacks.{stack_value, AreStacked, AreIdle, IsStack, changes_above, Takes, AreTaken, made_all, IsStackRefused, AreProposed, proposing_all, IsLifted, LiftsAbove, HaveProposed, IsLiftRefused};
ghost use Rattle.view_stack.specs.Told.{first_refusal, lines_over, IsOver, lowest, comes_to, IsTold};

use crate::StackRefused;
use crate::lifting::{Below, lifted};
use apply_law::{Applies, GroupRefused};
use change_script::Script;
use schema_model::Change;
use ss_text::{NoMemory, Steps, Text};
use std::alloc::Global;
use std::marker::Model;
use std::sync::ledger::Ledger;

/// Levels, the lowest first, each under the name of the database that its tables are for the level above.
///
/// What holds of a stack stands in its calls as a condition, since it speaks of all catalogues: its levels are over one
/// another, and nothing waits in them. Each call leaves it so.
pub struct Stack<A> {
    levels: Vec<A>,
    names: Vec<Text>,
}

impl<A: Drop> Drop for Stack<A> {
    fn drop(self) {
        let Stack { levels, names } = self;
        drop(levels);
        drop(names);
    }
}

impl<A> Model for Stack<A> {
    ghost use Rattle.view_stack.specs.Stacks.{StackValue, stack_value};

    ghost Value = { StackValue A };

    ghost view = { λ s. stack_value s.levels.items s.names.items };
}

impl<A: Applies> Stack<A> {
    /// A stack of these levels, under the names of the databases that their tables are.
    pub fn of(levels: Vec<A>, names: Vec<Text>) -> Stack<A>
        requires { IsStack (map A.state levels.items) (map A.waits levels.items) names.items }
        ensures { result ≡ stack_value levels.items names.items }
    {
        Stack { levels, names }
    }

    /// How many levels there are.
    pub fn count(&self) -> usize
        ensures { result ≡ length self.now.levels }
    {
        self.levels.len()
    }

    /// The level at a place, counted from 0.
    pub fn level(&self, place: usize) -> &A
        requires { place < length self.now.levels }
        ensures { slice_index_or self.now.levels place result.now ≡ result.now }
    {
        &self.levels[place]
    }

    /// Makes changes of the lowest level with all that they come to at the levels above, and answers each level's lines, the
    /// lines of the lowest level first; or tells the first level that refuses, and then no level has changed. Nothing waits
    /// afterwards.
    pub fn apply<L: Ledger>(
        &mut self,
        alloc: Global,
        changes: &[Change],
        steps: &mut Steps<L>,
    ) -> Result<Vec<Script>, StackRefused>
        requires stack { IsStack (map A.state self.old.levels) (map A.waits self.old.levels) self.old.names }
        requires well_formed { AllByRecursion (λ g. IsTrue (is_well_formed g)) changes.now }
        ensures taken { IfOk result (λ all. AreTaken (map A.state self.old.levels) self.old.names changes.now all.items) }
        ensures lines { IfOk result (λ all. all.items ≡ lines_over (map A.state self.old.levels) self.old.names (comes_to (map A.state self.old.levels) changes.now)) }
        ensures unrefused { OnOk result (first_refusal (map A.state self.old.levels) self.old.names (comes_to (map A.state self.old.levels) changes.now) ≡ None) }
        ensures over { OnOk result (IsOver (map A.state self.new.levels) self.old.names (comes_to (map A.state self.old.levels) changes.now)) }
        ensures made { IfOk result (λ all. map A.state self.new.levels ≡ made_all (map A.state self.old.levels) self.old.names changes.now all.items) }
        ensures levels { IfOk result (λ all. self.new.levels ≡ map A.after_accept (proposing_all A.state A.after_propose self.old.levels self.old.names changes.now all.items)) }
        ensures refused { IfErr result (λ e. IsStackRefused (map A.state self.old.levels) self.old.names changes.now e.level e.why) }
        ensures told { group_fault (lowest (map A.state self.old.levels)) changes.now ≡ None
            → IfErr result (λ e. IsTold (first_refusal (map A.state self.old.levels) self.old.names (comes_to (map A.state self.old.levels) changes.now)) e.level e.why) }
        ensures same { OnErr result (self.new ≡ self.old) }
        ensures names { self.new.names ≡ self.old.names }
        ensures stack { IsStack (map A.state self.new.levels) (map A.waits self.new.levels) self.new.names }
        ensures rises { steps.old ≤ steps.new }
    {
        apply_levels(alloc, &mut self.levels, &self.names, changes, steps)
    }
}

/// Makes changes of the lowest of levels, each over the one before it, with all that they come to above, and answers each
/// level's lines, the lines of the lowest level first; or tells the first level that refuses, and then each is as it was.
/// Nothing waits afterwards.
///
/// It is what a stack does, for those who keep its levels themselves.
pub fn apply_levels<A: Applies, L: Ledger>(
    alloc: Global,
    levels: &mut [A],
    names: &[Text],
    changes: &[Change],
    steps: &mut Steps<L>,
) -> Result<Vec<Script>, StackRefused>
    requires stack { IsStack (map A.state levels.old) (map A.waits levels.old) names.now }
    requires well_formed { AllByRecursion (λ g. IsTrue (is_well_formed g)) changes.now }
    ensures taken { IfOk result (λ all. AreTaken (map A.state levels.old) names.now changes.now all.items) }
    ensures lines { IfOk result (λ all. all.items ≡ lines_over (map A.state levels.old) names.now (comes_to (map A.state levels.old) changes.now)) }
    ensures unrefused { OnOk result (first_refusal (map A.state levels.old) names.now (comes_to (map A.state levels.old) changes.now) ≡ None) }
    ensures over { OnOk result (IsOver (map A.state levels.new) names.now (comes_to (map A.state levels.old) changes.now)) }
    ensures made { IfOk result (λ all. map A.state levels.new ≡ made_all (map A.state levels.old) names.now changes.now all.items) }
    ensures levels { IfOk result (λ all. levels.new ≡ map A.after_accept (proposing_all A.state A.after_propose levels.old names.now changes.now all.items)) }
    ensures refused { IfErr result (λ e. IsStackRefused (map A.state levels.old) names.now changes.now e.level e.why) }
    ensures told { group_fault (lowest (map A.state levels.old)) changes.now ≡ None
        → IfErr result (λ e. IsTold (first_refusal (map A.state levels.old) names.now (comes_to (map A.state levels.old) changes.now)) e.level e.why) }
    ensures same { OnErr result (levels.new ≡ levels.old) }
    ensures stack { IsStack (map A.state levels.new) (map A.waits levels.new) names.now }
    ensures rises { steps.old ≤ steps.new }
{
    let Ok(mut all) = Vec::with_capacity(alloc, levels.len()) else {
        return Err(StackRefused {
            level: 1,
            why: GroupRefused::NoMemory,
        });
    };
    match propose_all(alloc, levels, names, changes, &mut all, steps) {
        Ok(()) => {
            accept_all(levels);
            Ok(all)
        }
        Err(refused) => Err(refused),
    }
}

// Proposes changes to the first level, and to each other what the lines of the one below come to; or tells the first that
// refuses, and then nothing is proposed.
fn propose_all<A: Applies, L: Ledger>(
    alloc: Global,
    levels: &mut [A],
    names: &[Text],
    changes: &[Change],
    all: &mut Vec<Script>,
    steps: &mut Steps<L>,
) -> Result<(), StackRefused>
    requires idle { AreIdle (map A.waits levels.old) }
    requires stacked { AreStacked (map A.state levels.old) names.now }
    requires well_formed { AllByRecursion (λ g. IsTrue (is_well_formed g)) changes.now }
    requires room { vec_len all.old + length levels.old ≤ vec_capacity all.old }
    ensures same { map A.state levels.new ≡ map A.state levels.old }
    ensures proposed { OnOk result ((more : List (List TableLine)) × (all.new.items ≡ all.old.items ++ more)
        × HaveProposed A.state A.after_propose levels.old levels.new names.now changes.now more (map A.waits levels.new)) }
    ensures unchanged { OnErr result (levels.new ≡ levels.old) }
    ensures refused { IfErr result (λ e. IsLiftRefused (map A.state levels.old) names.now changes.now e.level e.why) }
    ensures level { IfErr result (λ e. e.level ≤ length levels.old) }
    ensures rises { steps.old ≤ steps.new }
{
    let _count = levels.len();
    let Some((first, rest)) = levels.split_first_mut() else {
        return Ok(());
    };
    let lines = match first.propose(alloc, changes, steps) {
        Ok(lines) => lines,
        Err(why) => return Err(StackRefused { level: 1, why }),
    };
    if rest.is_empty() {
        all.push_reserved(lines);
        return Ok(());
    }
    let Ok(above) = lifted_above(alloc, first, rest, names, &lines) else {
        first.dismiss();
        return Err(StackRefused {
            level: 2,
            why: GroupRefused::NoMemory,
        });
    };
    all.push_reserved(lines);
    match propose_all(alloc, rest, behind_first(names), &above, all, steps) {
        Ok(()) => Ok(()),
        Err(refused) => {
            first.dismiss();
            Err(StackRefused {
                level: refused.level + 1,
                why: refused.why,
            })
        }
    }
}

// The names but the first.
fn behind_first(names: &[Text]) -> &[Text]
    ensures { result.now ≡ drop 1 names.now }
{
    match names.split_first() {
        Some((_, rest)) => rest,
        None => names,
    }
}

// What lines of a level come to at the first of the levels above it.
fn lifted_above<A: Applies>(
    alloc: Global,
    lower: &A,
    above: &[A],
    names: &[Text],
    lines: &Script,
) -> Result<Vec<Change>, NoMemory>
    requires { AreStacked (A.state lower.now ∷ map A.state above.now) names.now }
    ensures changes { IfOk result (λ changes. changes.items ≡ changes_above names.now (A.state lower.now) (map A.state above.now) lines.now) }
    ensures well_formed { IfOk result (λ changes. AllByRecursion (λ g. IsTrue (is_well_formed g)) changes.items) }
    ensures lifts { (gs : List ChangeValue) → Takes (A.state lower.now) gs lines.now → LiftsAbove names.now (A.state lower.now) (map A.state above.now) gs lines.now }
{
    let Some(upper) = above.first() else {
        return Ok(Vec::new(alloc));
    };
    let Some(name) = names.first() else {
        return Ok(Vec::new(alloc));
    };
    lifted_to(alloc, lower, upper, name, lines)
}

// What lines of a level come to at the level above, whose catalogue stands for its tables under this name.
fn lifted_to<A: Applies>(
    alloc: Global,
    lower: &A,
    upper: &A,
    name: &Text,
    lines: &Script,
) -> Result<Vec<Change>, NoMemory>
    requires { stands name.now (A.state lower.now).shape (tables_of (A.state lower.now)) (A.state upper.now).catalogue }
    ensures changes { IfOk result (λ changes.
        changes.items ≡ lifted name.now (A.state lower.now).shape.constants (tables_of (A.state lower.now)) (A.state upper.now).catalogue lines.now) }
    ensures well_formed { IfOk result (λ changes. AllByRecursion (λ g. IsTrue (is_well_formed g)) changes.items) }
    ensures lifts { (gs : List ChangeValue) → IsScriptTo (tables_of (A.state lower.now)) (verdict_after (A.state lower.now) gs) lines.now
        → IsLifted name.now (A.state lower.now) (A.state upper.now) gs lines.now }
{
    let shape = lower.shape();
    let below = Below {
        db: name,
        constants: &shape.constants,
        tables: lower.tables(),
    };
    lifted(alloc, upper.catalogue(), &below, lines.lines())
}

// Makes what is proposed. It takes no memory.
fn accept_all<A: Applies>(levels: &mut [A])
    requires { (names : List TextValue) × (gs : List ChangeValue) × (all : List (List TableLine)) × AreProposed (map A.state levels.old) names gs all (map A.waits levels.old) }
    ensures made { (names : List TextValue) (gs : List ChangeValue) (all : List (List TableLine)) → AreProposed (map A.state levels.old) names gs all (map A.waits levels.old)
        → map A.state levels.new ≡ made_all (map A.state levels.old) names gs all }
    ensures accepted { levels.new ≡ map A.after_accept levels.old }
    ensures idle { AreIdle (map A.waits levels.new) }
{
    let Some((first, rest)) = levels.split_first_mut() else {
        return;
    };
    first.accept();
    accept_all(rest);
}
