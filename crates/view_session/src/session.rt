//! A view over a catalogue, and its changes.
ghost use Rattle.std.specs.Prelude.{◌≡◌, ◌+◌, ◌≤◌, [], ◌∷◌, true, false, None, IfOk, IfErr, OnOk, OnErr, IsTrue, is_some, option_map, unwrap_or, length};
ghost use Rattle.std.specs.List.{AllByRecursion};
ghost use Rattle.std.specs.Option.{ForSome};
ghost use Rattle.std.specs.List.Sorted.{IsStrictlySortedBy};
ghost use Rattle.ss_text.specs.Texts.{text_cmp};
ghost use Rattle.schema_model.specs.Changes.{after, after_all, is_well_formed};
ghost use Rattle.schema_model.specs.Pairs.{pair_cmp};
ghost use Rattle.schema_model.specs.Refusals.{fault, group_fault};
ghost use Rattle.schema_model.specs.declared.change.Change.{Change as ChangeValue};
ghost use Rattle.change_draft.specs.Drafts.{StandsOver};
ghost use Rattle.view_def.specs.Query.{query_of};
ghost use Rattle.view_def.specs.Profile.{IsViewOfProfile};
ghost use Rattle.flow_law.specs.Script.{script};
ghost use Rattle.flow_law.specs.Faults.{IsFault};
ghost use Rattle.view_meaning.specs.Meaning.{meaning, shape_of};
ghost use Rattle.view_meaning.specs.Refusal.{refusal};
ghost use Rattle.apply_law.specs.Verdicts.{IsGroupRefused};
ghost use Rattle.view_session.specs.Limits.{limit_of, limit_over};
ghost use Rattle.view_session.specs.Proposals.{proposed_in, CanMake};
ghost use Rattle.view_session.specs.Upkeeps.{view_of, IsKept, KeptAs};
ghost use Rattle.view_session.specs.Session.{opened, cleared, begun, holding, closed, working, committed, proposing, accepted, dismissed, tables_of, lines_to, moved, IsAccepted, IsRefused, IsHoldRefused};
ghost use Rattle.view_session.specs.Verdicts.{verdict_of};

use crate::changed::Changed;
use crate::group::Group;
use crate::grouped::{propose_all, propose_held};
use crate::moving::{propose_first, propose_one};
use crate::proposal::Proposal;
use crate::upkeep::Upkeep;
use crate::waits::Waits;
use crate::{HoldRefused, Refused};
use apply_law::GroupRefused;
use change_draft::Draft;
use change_script::Script;
use flow_law::{EvalFault, Shape};
use kept_tables::KeptTables;
use schema_model::{Catalogue, Change, Pair};
use ss_text::{NoMemory, Steps, Text};
use std::alloc::Global;
use std::marker::Model;
use std::mem;
use std::sync::ledger::Ledger;
use view_def::View;
use view_meaning::shape_of;

/// A view that is kept up to date, which contracts see as the view, the catalogue that it stands for, what was named
/// since the names were last cleared, the changes that the open group holds, where one is open, and those that are
/// proposed, where some are. Its tables are the view's meaning.
pub struct Session {
    catalogue: Catalogue,
    upkeep: Upkeep,
    shape: Shape,
    changed: Changed,
    waits: Waits,
}

// Each part is let go by a call, so that the proof of what owns a session does not unfold it.
impl Drop for Session {
    fn drop(self) {
        let Session {
            catalogue,
            upkeep,
            shape,
            changed,
            waits,
        } = self;
        drop(catalogue);
        drop(upkeep);
        drop(shape);
        drop(changed);
        drop(waits);
    }
}

impl Model for Session {
    ghost use Rattle.std.specs.Prelude.{◌≡◌};
    ghost use Rattle.view_meaning.specs.Meaning.{shape_of};
    ghost use Rattle.view_session.specs.Session.{SessionState};
    ghost use Rattle.view_session.specs.Upkeeps.{view_of, IsKept};
    ghost use Rattle.view_session.specs.Waits.{held_in, proposed_by, CanEnd};
    ghost use Rattle.std.specs.Coded.{Coded, codes};
    ghost use Rattle.view_session.specs.ConditionCode.{Mark, condition_code};

    ghost Value = { SessionState };

    ghost coded = { let mark_code : Coded Mark = Prim.hlevel codes in Prim.hlevel (codes, condition_code mark_code) };

    ghost view = { λ s. record { query = view_of s.upkeep; catalogue = s.catalogue.databases; changed = s.changed.names; held = held_in s.waits; proposed = proposed_by s.waits } };

    ghost invariant = { λ s. record {
      kept : IsKept s.catalogue.databases s.upkeep;
      shape : s.shape ≡ shape_of (view_of s.upkeep);
      waits : CanEnd s.catalogue s.upkeep s.changed s.waits;
    } };
}

// The form of a view's tables, and what is kept for a catalogue; or the fault for which the view is refused over it.
fn kept_over<L: Ledger>(
    alloc: Global,
    catalogue: &Catalogue,
    view: Box<View>,
    steps: &mut Steps<L>,
) -> Result<(Shape, Upkeep), EvalFault>
    requires { IsViewOfProfile (query_of view.value) }
    ensures shape { IfOk result (λ told. told.0 ≡ shape_of (query_of view.value)) }
    ensures view { IfOk result (λ told. view_of told.1 ≡ query_of view.value) }
    ensures kept { IfOk result (λ told. IsKept catalogue.now.databases told.1) }
    ensures refused { IfErr result (λ fault. IsFault (refusal catalogue.now.databases (query_of view.value)) fault) }
    ensures steps { steps.new ≡ steps.old }
    ensures rises { steps.old ≤ steps.new }
{
    let shape = shape_of(&view)?;
    let upkeep = Upkeep::open(alloc, catalogue, view, steps)?;
    Ok((shape, upkeep))
}

// Proposes changes of a catalogue, for which a view is kept. All stays but what waits, after each refusal too.
fn propose<L: Ledger>(
    alloc: Global,
    catalogue: &mut Catalogue,
    upkeep: &mut Upkeep,
    changed: &mut Changed,
    changes: &[Change],
    steps: &mut Steps<L>,
) -> Result<(Proposal, Script), GroupRefused>
    requires kept { IsKept catalogue.old.databases upkeep.old }
    requires well_formed { AllByRecursion (λ g. IsTrue (is_well_formed g)) changes.now }
    ensures catalogue { catalogue.new.databases ≡ catalogue.old.databases }
    ensures upkeep { KeptAs upkeep.old upkeep.new }
    ensures names { changed.new.names ≡ changed.old.names }
    ensures changes { IfOk result (λ told. proposed_in told.0 ≡ changes.now) }
    ensures can { IfOk result (λ told. CanMake catalogue.new upkeep.new changed.new told.0) }
    ensures accepted { OnOk result (group_fault catalogue.old.databases changes.now ≡ None) }
    ensures allowed { OnOk result (refusal (after_all catalogue.old.databases changes.now) (view_of upkeep.old) ≡ None) }
    ensures script { IfOk result (λ told. told.1 ≡ script (meaning catalogue.old.databases (view_of upkeep.old)) (meaning (after_all catalogue.old.databases changes.now) (view_of upkeep.old))) }
    ensures refused { IfErr result (IsGroupRefused (verdict_of (view_of upkeep.old)) catalogue.old.databases changes.now) }
    ensures within { (g : ChangeValue) → changes.now ≡ g ∷ [] → ForSome (limit_over (view_of upkeep.old) catalogue.old.databases g) (λ n. steps.new ≤ steps.old + n) }
    ensures rises { steps.old ≤ steps.new }
{
    if let [change] = changes {
        return propose_first(alloc, catalogue, upkeep, changed, change, steps);
    }
    propose_all(alloc, catalogue, upkeep, changed, changes, steps)
}

impl Session {
    /// Opens a view over a catalogue. Where its facts have an illegal label, or else a conflict, it is refused. No step
    /// is counted.
    pub fn open<L: Ledger>(
        alloc: Global,
        catalogue: Catalogue,
        view: Box<View>,
        steps: &mut Steps<L>,
    ) -> Result<Session, EvalFault>
        requires profile { IsViewOfProfile (query_of view.value) }
        ensures session { IfOk result (λ session. session ≡ opened (query_of view.value) catalogue.databases) }
        ensures allowed { OnOk result (refusal catalogue.databases (query_of view.value) ≡ None) }
        ensures refused { IfErr result (λ e. IsFault (refusal catalogue.databases (query_of view.value)) e) }
        ensures steps { steps.new ≡ steps.old }
        ensures rises { steps.old ≤ steps.new }
    {
        match kept_over(alloc, &catalogue, view, steps) {
            Ok((shape, upkeep)) => Ok(Session {
                catalogue,
                upkeep,
                shape,
                changed: Changed::none(alloc),
                waits: Waits::Nothing,
            }),
            Err(fault) => {
                drop(catalogue);
                Err(fault.into())
            }
        }
    }

    /// Makes a change where no group is open and nothing is proposed, and answers the lines by which the tables change. It
    /// takes all memory first. After each refusal the session is as before.
    pub fn apply<L: Ledger>(
        &mut self,
        alloc: Global,
        change: &Change,
        steps: &mut Steps<L>,
    ) -> Result<Script, Refused>
        requires well_formed { IsTrue (is_well_formed change.now) }
        requires idle { self.old.held ≡ None }
        requires unproposed { self.old.proposed ≡ None }
        ensures script { IfOk result (λ lines. lines ≡ lines_to self.old (after self.old.catalogue change.now)) }
        ensures accepted { OnOk result (IsAccepted self.old change.now) }
        ensures moved { OnOk result (self.new ≡ moved self.old change.now) }
        ensures refused { IfErr result (λ e. IsRefused self.old change.now e) }
        ensures same { OnErr result (self.new ≡ self.old) }
        ensures within { ForSome (limit_of self.old change.now) (λ n. steps.new ≤ steps.old + n) }
        ensures rises { steps.old ≤ steps.new }
    {
        let (proposal, script) = propose_one(
            alloc,
            &mut self.catalogue,
            &mut self.upkeep,
            &mut self.changed,
            change,
            steps,
        )?;
        proposal.accept(&mut self.catalogue, &mut self.upkeep, &mut self.changed);
        Ok(script)
    }

    /// Opens a group of changes, where none is open and nothing is proposed.
    pub fn begin(&mut self, alloc: Global)
        requires idle { self.old.held ≡ None }
        requires unproposed { self.old.proposed ≡ None }
        ensures { self.new ≡ begun self.old }
    {
        self.waits = Waits::Open(Group::new(alloc, self.catalogue.seed()));
    }

    /// Holds one more change in the open group. After each refusal the session is as before.
    pub fn hold(&mut self, alloc: Global, change: &Change) -> Result<(), HoldRefused>
        requires open { is_some self.old.held ≡ true }
        requires well_formed { IsTrue (is_well_formed change.now) }
        ensures held { OnOk result (self.new ≡ holding self.old change.now) }
        ensures accepted { OnOk result (fault (working self.old) change.now ≡ None) }
        ensures refused { IfErr result (λ e. IsHoldRefused self.old change.now e) }
        ensures same { OnErr result (self.new ≡ self.old) }
    {
        let Waits::Open(group) = &mut self.waits else {
            unreachable!()
        };
        group.hold(alloc, &mut self.catalogue, change)
    }

    /// Makes the changes of the open group, all at once, and answers the lines by which the tables change. The group
    /// is closed, and after each refusal the rest of the session is as before.
    pub fn commit_group<L: Ledger>(
        &mut self,
        alloc: Global,
        steps: &mut Steps<L>,
    ) -> Result<Script, EvalFault>
        requires { is_some self.old.held ≡ true }
        ensures script { IfOk result (λ lines. lines ≡ lines_to self.old (working self.old)) }
        ensures allowed { OnOk result (refusal (working self.old) self.old.query ≡ None) }
        ensures moved { OnOk result (self.new ≡ committed self.old) }
        ensures refused { IfErr result (λ e. IsFault (refusal (working self.old) self.old.query) e) }
        ensures closed { OnErr result (self.new ≡ closed self.old) }
        ensures rises { steps.old ≤ steps.new }
    {
        let Some(group) = mem::replace(&mut self.waits, Waits::Nothing).into_group() else {
            unreachable!()
        };
        let (proposal, script) = propose_held(
            alloc,
            &mut self.catalogue,
            &mut self.upkeep,
            &mut self.changed,
            group,
            steps,
        )?;
        proposal.accept(&mut self.catalogue, &mut self.upkeep, &mut self.changed);
        Ok(script)
    }

    /// Gives up the open group.
    pub fn abort_group(&mut self)
        requires { is_some self.old.held ≡ true }
        ensures { self.new ≡ closed self.old }
    {
        self.waits = Waits::Nothing;
    }

    /// Proposes changes, all together, where no group is open and nothing is proposed, and answers the lines by which the
    /// tables change; or the first change that is refused behind those before it, or why the view is refused over the
    /// catalogue after them. All memory is taken. After each refusal the session is as before.
    pub fn propose<L: Ledger>(
        &mut self,
        alloc: Global,
        changes: &[Change],
        steps: &mut Steps<L>,
    ) -> Result<Script, GroupRefused>
        requires well_formed { AllByRecursion (λ g. IsTrue (is_well_formed g)) changes.now }
        requires idle { self.old.held ≡ None }
        requires unproposed { self.old.proposed ≡ None }
        ensures script { IfOk result (λ lines. lines ≡ lines_to self.old (after_all self.old.catalogue changes.now)) }
        ensures accepted { OnOk result (group_fault self.old.catalogue changes.now ≡ None) }
        ensures allowed { OnOk result (refusal (after_all self.old.catalogue changes.now) self.old.query ≡ None) }
        ensures proposed { OnOk result (self.new ≡ proposing self.old changes.now) }
        ensures refused { IfErr result (IsGroupRefused (verdict_of self.old.query) self.old.catalogue changes.now) }
        ensures same { OnErr result (self.new ≡ self.old) }
        ensures within { (g : ChangeValue) → changes.now ≡ g ∷ [] → ForSome (limit_of self.old g) (λ n. steps.new ≤ steps.old + n) }
        ensures rises { steps.old ≤ steps.new }
    {
        match propose(
            alloc,
            &mut self.catalogue,
            &mut self.upkeep,
            &mut self.changed,
            changes,
            steps,
        ) {
            Ok((proposal, script)) => {
                self.waits = Waits::Proposed(proposal);
                Ok(script)
            }
            Err(refused) => Err(refused),
        }
    }

    /// Proposes one change, where no group is open and nothing is proposed, and answers the lines by which the tables
    /// change. All memory is taken. After each refusal the session is as before.
    pub fn propose_change<L: Ledger>(
        &mut self,
        alloc: Global,
        change: &Change,
        steps: &mut Steps<L>,
    ) -> Result<Script, Refused>
        requires well_formed { IsTrue (is_well_formed change.now) }
        requires idle { self.old.held ≡ None }
        requires unproposed { self.old.proposed ≡ None }
        ensures script { IfOk result (λ lines. lines ≡ lines_to self.old (after self.old.catalogue change.now)) }
        ensures accepted { OnOk result (IsAccepted self.old change.now) }
        ensures proposed { OnOk result (self.new ≡ proposing self.old (change.now ∷ [])) }
        ensures refused { IfErr result (λ e. IsRefused self.old change.now e) }
        ensures same { OnErr result (self.new ≡ self.old) }
        ensures within { ForSome (limit_of self.old change.now) (λ n. steps.new ≤ steps.old + n) }
        ensures rises { steps.old ≤ steps.new }
    {
        let (waiting, script) = propose_one(
            alloc,
            &mut self.catalogue,
            &mut self.upkeep,
            &mut self.changed,
            change,
            steps,
        )?;
        self.waits = Waits::Proposed(waiting);
        Ok(script)
    }

    /// Proposes the changes of the open group, all at once, and answers the lines by which the tables change. All memory is
    /// taken. The group is closed, and after each refusal the rest of the session is as before.
    pub fn propose_group<L: Ledger>(
        &mut self,
        alloc: Global,
        steps: &mut Steps<L>,
    ) -> Result<Script, EvalFault>
        requires { is_some self.old.held ≡ true }
        ensures script { IfOk result (λ lines. lines ≡ lines_to self.old (working self.old)) }
        ensures allowed { OnOk result (refusal (working self.old) self.old.query ≡ None) }
        ensures proposed { OnOk result (self.new ≡ proposing (closed self.old) (unwrap_or self.old.held [])) }
        ensures refused { IfErr result (λ e. IsFault (refusal (working self.old) self.old.query) e) }
        ensures closed { OnErr result (self.new ≡ closed self.old) }
        ensures rises { steps.old ≤ steps.new }
    {
        let Some(group) = mem::replace(&mut self.waits, Waits::Nothing).into_group() else {
            unreachable!()
        };
        let (waiting, script) = propose_held(
            alloc,
            &mut self.catalogue,
            &mut self.upkeep,
            &mut self.changed,
            group,
            steps,
        )?;
        self.waits = Waits::Proposed(waiting);
        Ok(script)
    }

    /// Makes the changes that are proposed. It takes no memory.
    pub fn accept(&mut self)
        requires { is_some self.old.proposed ≡ true }
        ensures { self.new ≡ accepted self.old }
    {
        let Some(proposal) = mem::replace(&mut self.waits, Waits::Nothing).into_proposal() else {
            unreachable!()
        };
        proposal.accept(&mut self.catalogue, &mut self.upkeep, &mut self.changed);
    }

    /// Drops the changes that are proposed. It takes no memory, and gives that of the tables' lines back.
    pub fn dismiss(&mut self)
        requires { is_some self.old.proposed ≡ true }
        ensures { self.new ≡ dismissed self.old }
    {
        self.upkeep.forget();
        self.changed.forget();
        self.waits = Waits::Nothing;
    }

    /// How many changes the open group holds, where one is open.
    pub fn held(&self) -> Option<usize>
        ensures { result ≡ option_map length self.now.held }
    {
        match &self.waits {
            Waits::Open(group) => Some(group.count()),
            Waits::Nothing | Waits::Proposed(_) => None,
        }
    }

    /// The changes that the open group holds, in order, and none where no group is open.
    pub fn held_changes(&self) -> &[Change]
        ensures changes { result.now ≡ unwrap_or self.now.held [] }
        ensures well_formed { AllByRecursion (λ g. IsTrue (is_well_formed g)) result.now }
    {
        match &self.waits {
            Waits::Open(group) => group.changes(),
            Waits::Nothing | Waits::Proposed(_) => &[],
        }
    }

    /// The tables, which are the view's meaning over the catalogue.
    pub fn tables(&self) -> &KeptTables
        ensures { result.now.tables ≡ tables_of self.now }
    {
        &self.upkeep.tables
    }

    /// The form of the tables.
    pub fn shape(&self) -> &Shape
        ensures { result.now ≡ shape_of self.now.query }
    {
        &self.shape
    }

    /// The catalogue that the session stands for.
    pub fn catalogue(&self) -> &Catalogue
        ensures { result.now.databases ≡ self.now.catalogue }
    {
        &self.catalogue
    }

    /// The labels that script lines named since the names were last cleared, each once, ascending.
    pub fn changed_labels(&self) -> &[Text]
        ensures labels { result.now ≡ self.now.changed.labels }
        ensures ascends { IsStrictlySortedBy text_cmp result.now }
    {
        self.changed.labels()
    }

    /// The relations that changes named since then, each once, ascending: a rename names both names, and a drop or
    /// a rename of a database each of its relations.
    pub fn changed_relations(&self) -> &[Pair]
        ensures relations { result.now ≡ self.now.changed.relations }
        ensures ascends { IsStrictlySortedBy pair_cmp result.now }
    {
        self.changed.relations()
    }

    /// The databases that came, went or got another name since then, each once, ascending; a rename names both.
    pub fn changed_databases(&self) -> &[Text]
        ensures databases { result.now ≡ self.now.changed.databases }
        ensures ascends { IsStrictlySortedBy text_cmp result.now }
    {
        self.changed.databases()
    }

    // What is kept for the catalogue.
    pub(crate) fn upkeep(&self) -> &Upkeep
        ensures view { view_of result.now ≡ self.now.query }
        ensures kept { IsKept self.now.catalogue result.now }
    {
        &self.upkeep
    }

    /// Makes a draft over its catalogue ready to judge a change, where nothing is proposed. A change is judged after this
    /// call. The session stays, and so do the changes of the draft.
    pub fn link(&mut self, draft: &mut Draft, change: &Change) -> Result<(), NoMemory>
        requires unproposed { self.old.proposed ≡ None }
        requires stands { StandsOver draft.old self.old.catalogue }
        ensures session { self.new ≡ self.old }
        ensures changes { draft.new.changes ≡ draft.old.changes }
        ensures stands { StandsOver draft.new self.old.catalogue }
        ensures ready { OnOk result (draft.new.is_due ≡ false) }
    {
        draft.link(&mut self.catalogue, change)
    }

    /// Forgets what was named.
    pub fn clear_changed(&mut self)
        ensures { self.new ≡ cleared self.old }
    {
        self.changed.clear();
    }
}
