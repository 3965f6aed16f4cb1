//! The levels of a stack.
ghost use Rattle.std.specs.Prelude.{◌≡◌, ◌≤◌, false, None, map, IfOk, IfErr, OnOk, OnErr, IsTrue};
ghost use Rattle.std.specs.List.{AllByRecursion};
ghost use Rattle.schema_model.specs.Changes.{after_all, is_well_formed};
ghost use Rattle.schema_model.specs.Refusals.{group_fault};
ghost use Rattle.change_draft.specs.Drafts.{StandsOver};
ghost use Rattle.stack_levels.specs.Levels.{tables_over, lines_over, changing_refusal};
ghost use Rattle.stack_levels.specs.States.{level_tables, level_labels, level_synced, lowest_catalogue, lowest_names, databases_of, views_of, AreLevels};
ghost use Rattle.stack_levels.specs.Opening.{AreFresh};
ghost use Rattle.stack_levels.specs.Taking.{HaveTaken, HaveApplied, AreRefused};

use crate::{Level, LevelsRefused, TableLabels};
use change_draft::Draft;
use change_script::Script;
use schema_model::Change;
use ss_text::{NoMemory, Seed, Steps, Text};
use std::alloc::Global;
use std::marker::Model;
use std::sync::ledger::Ledger;
use view_session::Session;
use view_stack::apply_levels;

/// The levels of a stack, the lowest first. Contracts see their list.
///
/// That they stand over one another, each with the tables of its view, stands in their calls as a condition, since it speaks
/// of all catalogues. Each call leaves it so.
pub struct Levels {
    levels: Vec<Level>,
    // The view database of each.
    names: Vec<Text>,
}

impl Drop for Levels {
    fn drop(self) {
        let Levels { levels, names } = self;
        drop(levels);
        drop(names);
    }
}

impl Model for Levels {
    ghost use Rattle.std.specs.Prelude.{◌≡◌, List};
    ghost use Rattle.stack_levels.specs.States.{LevelState, databases_of};
    ghost use Rattle.std.specs.Coded.{Coded, codes};
    ghost use Rattle.view_session.specs.ConditionCode.{Mark, condition_code};

    ghost Value = { List LevelState };

    ghost coded = { let mark_code : Coded Mark = Prim.hlevel codes in Prim.hlevel (codes, condition_code mark_code) };

    ghost view = { λ s. s.levels.items };

    ghost invariant = { λ s. s.names.items ≡ databases_of s.levels.items };
}

impl Levels {
    // These levels.
    pub(crate) fn of(alloc: Global, levels: Vec<Level>) -> Result<Levels, NoMemory>
        ensures { IfOk result (λ all. all ≡ levels.items) }
    {
        let names = databases_of(alloc, &levels)?;
        Ok(Levels { levels, names })
    }

    /// The levels. Their tables are those of their views over the catalogue of the lowest.
    #[tactic(auto, using(crate::proofs::KeptLemmas::tables_kept))]
    pub fn all(&self) -> &[Level]
        requires { AreLevels self.now }
        ensures levels { result.now ≡ self.now }
        ensures tables { map level_tables self.now ≡ tables_over (lowest_catalogue self.now) (views_of self.now) }
    {
        &self.levels
    }

    /// The lowest level's view over the catalogue of the sources, with what was named of them.
    pub fn lowest(&self) -> &Session
        requires { AreLevels self.now }
        ensures catalogue { result.now.catalogue ≡ lowest_catalogue self.now }
        ensures names { result.now.changed ≡ lowest_names self.now }
    {
        self.levels[0].session()
    }

    /// The seed by which all is hashed that is kept for the levels.
    pub fn seed(&self) -> Seed {
        match self.levels.first() {
            Some(level) => level.session().catalogue().seed(),
            None => Seed::fixed(),
        }
    }

    /// Makes a draft over the lowest level's catalogue ready to judge a change, which is judged after this call. The levels
    /// stay, and so do the changes of the draft.
    pub fn link(&mut self, draft: &mut Draft, change: &Change) -> Result<(), NoMemory>
        requires levels { AreLevels self.old }
        requires stands { StandsOver draft.old (lowest_catalogue self.old) }
        ensures levels { self.new ≡ self.old }
        ensures changes { draft.new.changes ≡ draft.old.changes }
        ensures stands { StandsOver draft.new (lowest_catalogue self.old) }
        ensures ready { OnOk result (draft.new.is_due ≡ false) }
    {
        self.levels[0].link(draft, change)
    }

    /// Makes changes of the lowest level's catalogue, with all that they come to at the levels above, and answers each level's
    /// lines, the lines of the lowest level first; or tells the first refusal, and then the levels are as before.
    pub fn apply<L: Ledger>(
        &mut self,
        alloc: Global,
        changes: &[Change],
        steps: &mut Steps<L>,
    ) -> Result<Vec<Script>, LevelsRefused>
        requires levels { AreLevels self.old }
        requires well_formed { AllByRecursion (λ g. IsTrue (is_well_formed g)) changes.now }
        ensures lines { IfOk result (λ all. all.items ≡ lines_over (lowest_catalogue self.old) (after_all (lowest_catalogue self.old) changes.now) (views_of self.old)) }
        ensures accepted { OnOk result (group_fault (lowest_catalogue self.old) changes.now ≡ None) }
        ensures unrefused { OnOk result (changing_refusal (lowest_catalogue self.old) (after_all (lowest_catalogue self.old) changes.now) (views_of self.old) ≡ None) }
        ensures taken { IfOk result (λ all. HaveTaken self.old self.new changes.now all.items) }
        ensures refused { IfErr result (AreRefused (lowest_catalogue self.old) (views_of self.old) changes.now) }
        ensures same { OnErr result (self.new ≡ self.old) }
        ensures levels { AreLevels self.new }
        ensures rises { steps.old ≤ steps.new }
    {
        apply_to(alloc, &mut self.levels, &self.names, changes, steps)
    }

    /// The labels of each level's tables, for a note that all files are synced, which is to take no memory.
    pub fn labels(&self, alloc: Global) -> Result<Vec<TableLabels>, NoMemory>
        ensures { IfOk result (λ all. all.items ≡ map level_labels self.now) }
    {
        labels_of(alloc, &self.levels)
    }

    /// Notes that the files of all levels, which are those of these labels, are synced.
    pub fn note_synced(&mut self, labels: Vec<TableLabels>)
        requires levels { AreLevels self.old }
        requires labels { labels.items ≡ map level_labels self.old }
        ensures all { self.new ≡ map level_synced self.old }
        ensures levels { AreLevels self.new }
        ensures fresh { AreFresh self.new (lowest_catalogue self.old) (views_of self.old) }
    {
        note_all(&mut self.levels, labels);
    }
}

// Makes changes of the lowest of levels with all that they come to, or tells the first refusal.
fn apply_to<L: Ledger>(
    alloc: Global,
    levels: &mut [Level],
    names: &[Text],
    changes: &[Change],
    steps: &mut Steps<L>,
) -> Result<Vec<Script>, LevelsRefused>
    requires levels { AreLevels levels.old }
    requires names { names.now ≡ databases_of levels.old }
    requires well_formed { AllByRecursion (λ g. IsTrue (is_well_formed g)) changes.now }
    ensures applied { IfOk result (λ all. HaveApplied levels.old levels.new changes.now all.items) }
    ensures refused { IfErr result (AreRefused (lowest_catalogue levels.old) (views_of levels.old) changes.now) }
    ensures same { OnErr result (levels.new ≡ levels.old) }
    ensures rises { steps.old ≤ steps.new }
{
    match apply_levels(alloc, levels, names, changes, steps) {
        Ok(all) => Ok(all),
        Err(refused) => Err(LevelsRefused::of(alloc, refused)),
    }
}

// The labels of each level's tables.
fn labels_of(alloc: Global, levels: &[Level]) -> Result<Vec<TableLabels>, NoMemory>
    ensures { IfOk result (λ all. all.items ≡ map level_labels levels.now) }
{
    let mut all = Vec::with_capacity(alloc, levels.len())?;
    for level in levels {
        all.push(level.labels(alloc)?)?;
    }
    Ok(all)
}

// Notes that the files of each level, which are those of these labels, are synced.
fn note_all(levels: &mut [Level], mut labels: Vec<TableLabels>)
    requires { labels.items ≡ map level_labels levels.old }
    ensures { levels.new ≡ map level_synced levels.old }
{
    if labels.is_empty() {
        return;
    }
    let own = labels.remove(0);
    levels[0].note_synced(own);
    note_all(&mut levels[1..], labels);
}

// The view databases of levels.
fn databases_of(alloc: Global, levels: &[Level]) -> Result<Vec<Text>, NoMemory>
    ensures { IfOk result (λ names. names.items ≡ databases_of levels.now) }
{
    let mut names = Vec::with_capacity(alloc, levels.len())?;
    for level in levels {
        names.push(level.view_db().copy()?)?;
    }
    Ok(names)
}
