//! A draft: changes that are held, and what is kept to judge the next one.
ghost use Rattle.std.specs.Prelude.{◌≡◌, ◌++◌, ◌∷◌, [], false, None, IfOk, OnOk, OnErr, IsTrue};
ghost use Rattle.schema_model.specs.Changes.{after, after_all, is_well_formed};
ghost use Rattle.std.specs.List.{AllByRecursion};
ghost use Rattle.schema_model.specs.Refusals.{fault, group_fault};
ghost use Rattle.change_draft.specs.Drafts.{StandsOver, empty, without_rows};
ghost use Rattle.change_draft.specs.Counted.{AreCounted, is_of_rows};

use crate::counted::{RowCounts, is_of_rows};
use schema_model::{Catalogue, Change, Refusal};
use ss_text::{NoMemory, Seed};
use std::alloc::Global;
use std::marker::Model;
use std::mem::replace;

/// Changes that wait to be made together, which contracts see as their list, the catalogue after them, where it keeps
/// one, and whether that one is due. It stands over the catalogue that they are for.
pub struct Draft {
    changes: Vec<Change>,
    kept: Kept,
}

impl Drop for Draft {
    fn drop(self) {
        let Draft { changes, kept } = self;
        drop(changes);
        drop(kept);
    }
}

// What is kept to judge a change.
enum Kept {
    // How often the changes bring and take each row, where they insert and delete rows alone.
    Counts(RowCounts),
    // Nothing yet: the last of them is no change of rows alone, and the catalogue after them is made when the next one is
    // to be judged.
    Due,
    // The catalogue after them.
    After(Catalogue),
}

impl Drop for Kept {
    fn drop(self) {
        match self {
            Kept::Counts(part) => drop(part),
            Kept::Due => {}
            Kept::After(part) => drop(part),
        }
    }
}

impl Model for Draft {
    ghost use Rattle.change_draft.specs.Drafts.{DraftState};
    ghost use Rattle.change_draft.specs.Kept.{after_kept, is_due_in, CountedIn};

    ghost Value = { DraftState };

    ghost view = { λ d. record { changes = d.changes.items; after = after_kept d.kept; is_due = is_due_in d.kept } };

    ghost invariant = { λ d. CountedIn d.kept d.changes.items };
}

impl Draft {
    /// The draft without changes, which stands over each catalogue. What it counts is hashed by a seed.
    pub fn new(alloc: Global, seed: Seed) -> Draft
        ensures { result ≡ empty }
    {
        Draft {
            changes: Vec::new(alloc),
            kept: Kept::Counts(RowCounts::none(alloc, seed)),
        }
    }

    /// The first refusal of a change behind those that it holds, or none where it can be held.
    pub fn judge(&self, base: &Catalogue, change: &Change) -> Option<Refusal>
        requires stands { StandsOver self.now base.now.databases }
        requires ready { self.now.is_due ≡ false }
        ensures { result ≡ fault (after_all base.now.databases self.now.changes) change.now }
    {
        match &self.kept {
            Kept::Counts(counts) => counts.judge(base, change),
            Kept::Due => unreachable!(),
            Kept::After(catalogue) => catalogue.judge(change),
        }
    }

    /// Makes ready to judge a change, which is judged after this call: it makes the catalogue after the changes that it
    /// holds, where that is due, and takes all memory to find the row of a delete without a walk of all rows: where the
    /// change is judged, those of its relation are linked, once. The changes stay, and so do the databases of the
    /// catalogue, for which no change waits from then on.
    pub fn link(&mut self, base: &mut Catalogue, change: &Change) -> Result<(), NoMemory>
        requires { StandsOver self.old base.old.databases }
        ensures changes { self.new.changes ≡ self.old.changes }
        ensures stands { StandsOver self.new base.old.databases }
        ensures ready { OnOk result (self.new.is_due ≡ false) }
        ensures base { base.new.databases ≡ base.old.databases }
    {
        self.make_due(base)?;
        match &mut self.kept {
            Kept::Counts(_) => base.link(change),
            Kept::Due => unreachable!(),
            Kept::After(catalogue) => catalogue.link(change),
        }
    }

    // Makes the catalogue after the changes that it holds, where that is due. The changes stay.
    fn make_due(&mut self, base: &Catalogue) -> Result<(), NoMemory>
        requires { StandsOver self.old base.now.databases }
        ensures changes { self.new.changes ≡ self.old.changes }
        ensures stands { StandsOver self.new base.now.databases }
        ensures ready { OnOk result (self.new.is_due ≡ false) }
    {
        if matches!(&self.kept, Kept::Due) {
            let catalogue = made(base, &self.changes)?;
            drop(replace(&mut self.kept, Kept::After(catalogue)));
        }
        Ok(())
    }

    /// Holds one more change, which is not refused. After `NoMemory` the draft is as before.
    pub fn hold(&mut self, base: &Catalogue, change: &Change) -> Result<(), NoMemory>
        requires stands { StandsOver self.old base.now.databases }
        requires ready { self.old.is_due ≡ false }
        requires well_formed { IsTrue (is_well_formed change.now) }
        requires accepted { fault (after_all base.now.databases self.old.changes) change.now ≡ None }
        ensures held { OnOk result (self.new.changes ≡ self.old.changes ++ change.now ∷ []) }
        ensures stands { OnOk result (StandsOver self.new base.now.databases) }
        ensures same { OnErr result (self.new ≡ self.old) }
    {
        match &mut self.kept {
            Kept::Counts(counts) if is_of_rows(change) => {
                hold_row(&mut self.changes, counts, change)
            }
            Kept::Counts(_) => {
                hold_last(&mut self.changes, change)?;
                drop(replace(&mut self.kept, Kept::Due));
                Ok(())
            }
            Kept::Due => unreachable!(),
            Kept::After(catalogue) => hold_in(&mut self.changes, catalogue, change),
        }
    }

    /// The changes that it holds, in order.
    pub fn changes(&self) -> &[Change]
        ensures { result.now ≡ self.now.changes }
    {
        &self.changes
    }

    /// A catalogue with the databases, the relations and the attributes of the one after its changes. Of the rows
    /// nothing is said.
    pub fn schema<'a>(&'a self, base: &'a Catalogue) -> &'a Catalogue
        requires stands { StandsOver self.now base.now.databases }
        requires ready { self.now.is_due ≡ false }
        ensures { without_rows result.now.databases ≡ without_rows (after_all base.now.databases self.now.changes) }
    {
        match &self.kept {
            Kept::Counts(_) => base,
            Kept::Due => unreachable!(),
            Kept::After(catalogue) => catalogue,
        }
    }
}

// A copy of a catalogue in which changes are made.
fn made(base: &Catalogue, changes: &[Change]) -> Result<Catalogue, NoMemory>
    requires accepted { group_fault base.now.databases changes.now ≡ None }
    requires well_formed { AllByRecursion (λ g. IsTrue (is_well_formed g)) changes.now }
    ensures { IfOk result (λ c. c.databases ≡ after_all base.now.databases changes.now) }
{
    let mut catalogue = base.copy()?;
    match make_all(&mut catalogue, changes) {
        Ok(()) => Ok(catalogue),
        Err(error) => {
            drop(catalogue);
            Err(error)
        }
    }
}

// Makes changes, of which none is refused behind those before it.
fn make_all(catalogue: &mut Catalogue, changes: &[Change]) -> Result<(), NoMemory>
    requires accepted { group_fault catalogue.old.databases changes.now ≡ None }
    requires well_formed { AllByRecursion (λ g. IsTrue (is_well_formed g)) changes.now }
    ensures { OnOk result (catalogue.new.databases ≡ after_all catalogue.old.databases changes.now) }
{
    for change in changes {
        make(catalogue, change)?;
    }
    Ok(())
}

// Makes a change that is not refused.
fn make(catalogue: &mut Catalogue, change: &Change) -> Result<(), NoMemory>
    requires well_formed { IsTrue (is_well_formed change.now) }
    requires accepted { fault catalogue.old.databases change.now ≡ None }
    ensures { OnOk result (catalogue.new.databases ≡ after catalogue.old.databases change.now) }
{
    let waits = catalogue.reserve(change)?;
    catalogue.commit(waits);
    Ok(())
}

// Counts a change of rows, and puts it last.
fn hold_row(
    changes: &mut Vec<Change>,
    counts: &mut RowCounts,
    change: &Change,
) -> Result<(), NoMemory>
    requires counted { AreCounted counts.old changes.old.items }
    requires of_rows { IsTrue (is_of_rows change.now) }
    ensures held { OnOk result (changes.new.items ≡ changes.old.items ++ change.now ∷ []) }
    ensures counted { AreCounted counts.new changes.new.items }
    ensures same { OnErr result (changes.new.items ≡ changes.old.items) }
{
    let held = change.copy()?;
    changes.reserve(1)?;
    counts.count(change)?;
    let Ok(()) = changes.push(held) else {
        unreachable!()
    };
    Ok(())
}

// Makes a change of a catalogue, and puts it last.
fn hold_in(
    changes: &mut Vec<Change>,
    catalogue: &mut Catalogue,
    change: &Change,
) -> Result<(), NoMemory>
    requires well_formed { IsTrue (is_well_formed change.now) }
    requires accepted { fault catalogue.old.databases change.now ≡ None }
    ensures held { OnOk result (changes.new.items ≡ changes.old.items ++ change.now ∷ []) }
    ensures made { OnOk result (catalogue.new.databases ≡ after catalogue.old.databases change.now) }
    ensures same { OnErr result (changes.new.items ≡ changes.old.items) }
    ensures same_catalogue { OnErr result (catalogue.new.databases ≡ catalogue.old.databases) }
{
    let held = change.copy()?;
    let ready = catalogue.reserve(change)?;
    changes.push(held)?;
    catalogue.commit(ready);
    Ok(())
}

// Puts a change last.
fn hold_last(changes: &mut Vec<Change>, change: &Change) -> Result<(), NoMemory>
    ensures held { OnOk result (changes.new.items ≡ changes.old.items ++ change.now ∷ []) }
    ensures same { OnErr result (changes.new.items ≡ changes.old.items) }
{
    let held = change.copy()?;
    changes.push(held)?;
    Ok(())
}
