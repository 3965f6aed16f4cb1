//! Answers to the lines of a group, and to the words that stand alone.
ghost use Rattle.std.specs.Prelude.{◌≡◌, ◌≢◌, ◌≤◌, ◌∷◌, ◌++◌, [], true, false, None, IfOk, IfErr, OnOk, OnErr, IsTrue, is_some, unwrap_or};
ghost use Rattle.outside.specs.Effects.{Does, world_of};
ghost use Rattle.outside.specs.Blame.{Blames, SinkBlames};
ghost use Rattle.schema_model.specs.Changes.{after_all, is_well_formed};
ghost use Rattle.schema_model.specs.Refusals.{fault};
ghost use Rattle.change_draft.specs.Drafts.{StandsOver};
ghost use Rattle.ss_print.specs.Fields.{in_group_fields, no_group_fields};
ghost use Rattle.view_session.specs.Session.{IsNotHeld};
ghost use Rattle.opened_view.specs.declared.word.Word.TheVariants as word;
ghost use Rattle.stack_levels.specs.Levels.{refused_at};
ghost use Rattle.stack_answers.specs.Stack.{working};
ghost use Rattle.stack_answers.specs.Steps.{IsOfLevels, IsRefusedBy};
ghost use Rattle.stack_answers.specs.Answers.{by_fields, by_word, by_broken, by_fault, judged, beginning, keeping, aborting, giving_up, refusing, plainly, end_effects, end_stack};

use crate::open_stack::OpenStack;
use change_draft::Draft;
use opened_view::{Word, held_fields};
use outside::{Folders, Sink, Stop};
use schema_model::{Catalogue, Change, ChangeFault};
use ss_print::{
    group_broken_fields, in_group_fields, line_fields, no_group_fields, open_group_fields,
    print_aborted, print_begun, print_held, print_scripts, refuse_level,
};
use ss_text::{NoMemory, Row, Steps};
use stack_levels::{LevelRefusal, LevelsRefused};
use std::alloc::Global;
use std::sync::ledger::Ledger;
use view_session::HoldRefused;

impl OpenStack {
    // Refuses a line that does not stand in a group.
    #[tactic(auto, using(outside::proofs::Following::following))]
    fn refuse_inside<K: Sink>(
        &mut self,
        alloc: Global,
        output: &mut K,
        row: &Row,
    ) -> Result<(), Stop>
        ensures does { (s : _) → Does (plainly refusing self.old (in_group_fields row.now)).effects (world_of s (K.state output.old)) (world_of s (K.state output.new)) result }
        ensures stack { OnOk result (self.new ≡ (plainly refusing self.old (in_group_fields row.now)).stack) }
        ensures blames { SinkBlames (K.state output.old) (K.state output.new) result }
    {
        let fields = in_group_fields(alloc, row)?;
        self.refuse(alloc, output, fields)
    }

    // Refuses a line that stands only in a group.
    #[tactic(auto, using(outside::proofs::Following::following))]
    fn refuse_outside<K: Sink>(
        &mut self,
        alloc: Global,
        output: &mut K,
        row: &Row,
    ) -> Result<(), Stop>
        ensures does { (s : _) → Does (plainly refusing self.old (no_group_fields row.now)).effects (world_of s (K.state output.old)) (world_of s (K.state output.new)) result }
        ensures stack { OnOk result (self.new ≡ (plainly refusing self.old (no_group_fields row.now)).stack) }
        ensures blames { SinkBlames (K.state output.old) (K.state output.new) result }
    {
        let fields = no_group_fields(alloc, row)?;
        self.refuse(alloc, output, fields)
    }

    // Opens a group.
    #[tactic(auto, using(outside::proofs::Following::following))]
    fn begin_group<K: Sink>(&mut self, alloc: Global, output: &mut K) -> Result<(), Stop>
        requires { self.old.held ≡ None }
        ensures does { (s : _) → Does (beginning self.old).effects (world_of s (K.state output.old)) (world_of s (K.state output.new)) result }
        ensures stack { OnOk result (self.new ≡ (beginning self.old).stack) }
        ensures blames { SinkBlames (K.state output.old) (K.state output.new) result }
    {
        print_begun(alloc, output)?;
        self.draft = Some(Draft::new(alloc, self.levels.seed()));
        self.broken = 0;
        Ok(())
    }

    // Holds one more change in the open group. After each refusal the stack is as before.
    fn hold_change(&mut self, change: &Change) -> Result<(), HoldRefused>
        requires inside { is_some self.old.held ≡ true }
        requires well_formed { IsTrue (is_well_formed change.now) }
        ensures held { OnOk result (self.new ≡ (keeping self.old change.now).stack) }
        ensures accepted { OnOk result (fault (working self.old) change.now ≡ None) }
        ensures refused { IfErr result (IsNotHeld (working self.old) change.now) }
        ensures same { OnErr result (self.new ≡ self.old) }
    {
        let Some(draft) = &mut self.draft else {
            unreachable!()
        };
        self.levels.link(draft, change)?;
        match hold_in(draft, self.levels.lowest().catalogue(), change) {
            Ok(()) => Ok(()),
            Err(refused) => Err(refused),
        }
    }

    // Answers a change in a group.
    #[tactic(auto, using(outside::proofs::Following::following, crate::proofs::AnswerLemmas::held_stack, crate::proofs::AnswerLemmas::unheld_stack))]
    pub(super) fn hold<K: Sink>(
        &mut self,
        alloc: Global,
        output: &mut K,
        change: &Change,
    ) -> Result<(), Stop>
        requires inside { is_some self.old.held ≡ true }
        requires well_formed { IsTrue (is_well_formed change.now) }
        ensures does { (s : _) → Does (by_fault self.old change.now (fault (working self.old) change.now)).effects (world_of s (K.state output.old)) (world_of s (K.state output.new)) result }
        ensures stack { OnOk result (self.new ≡ (by_fault self.old change.now (fault (working self.old) change.now)).stack) }
        ensures blames { SinkBlames (K.state output.old) (K.state output.new) result }
    {
        match self.hold_change(change) {
            Ok(()) => print_held(alloc, output),
            Err(refused) => {
                let fields = held_fields(alloc, change, &refused)?;
                self.refuse(alloc, output, fields)
            }
        }
    }

    // Closes the open group, and gives its changes.
    fn close(&mut self) -> Draft
        requires { is_some self.old.held ≡ true }
        ensures changes { result.changes ≡ unwrap_or self.old.held [] }
        ensures stands { StandsOver result self.old.catalogue }
        ensures stack { self.new ≡ record self.old { held = None } }
    {
        let Some(draft) = self.draft.take() else {
            unreachable!()
        };
        draft
    }

    // Gives a group up.
    #[tactic(auto, using(outside::proofs::Following::following))]
    fn abort_group<K: Sink>(&mut self, alloc: Global, output: &mut K) -> Result<(), Stop>
        ensures does { (s : _) → Does (aborting self.old).effects (world_of s (K.state output.old)) (world_of s (K.state output.new)) result }
        ensures stack { OnOk result (self.new ≡ (aborting self.old).stack) }
        ensures blames { SinkBlames (K.state output.old) (K.state output.new) result }
    {
        print_aborted(alloc, output)?;
        self.draft = None;
        self.broken = 0;
        Ok(())
    }

    // Refuses a group, as by this level, which gives it up.
    #[tactic(auto, using(outside::proofs::Following::following))]
    fn give_up_at<K: Sink>(
        &mut self,
        alloc: Global,
        output: &mut K,
        level: usize,
        fields: Row,
    ) -> Result<(), Stop>
        ensures does { (s : _) → Does (giving_up self.old (refused_at level fields)).effects (world_of s (K.state output.old)) (world_of s (K.state output.new)) result }
        ensures stack { OnOk result (self.new ≡ (giving_up self.old (refused_at level fields)).stack) }
        ensures blames { SinkBlames (K.state output.old) (K.state output.new) result }
    {
        refuse_level(alloc, output, level, fields)?;
        self.draft = None;
        self.some_refused = true;
        self.broken = 0;
        Ok(())
    }

    // Refuses a group before the levels are judged.
    fn give_up<K: Sink>(&mut self, alloc: Global, output: &mut K, fields: Row) -> Result<(), Stop>
        ensures does { (s : _) → Does (plainly giving_up self.old fields).effects (world_of s (K.state output.old)) (world_of s (K.state output.new)) result }
        ensures stack { OnOk result (self.new ≡ (plainly giving_up self.old fields).stack) }
        ensures blames { SinkBlames (K.state output.old) (K.state output.new) result }
    {
        self.give_up_at(alloc, output, 1, fields)
    }

    // Makes the changes of a group at all levels, or refuses it.
    #[tactic(auto, using(outside::proofs::Following::following, crate::proofs::AnswerLemmas::made_stack, crate::proofs::AnswerLemmas::stopped_stack))]
    fn make_group<K: Sink, L: Ledger>(
        &mut self,
        alloc: Global,
        output: &mut K,
        steps: &mut Steps<L>,
    ) -> Result<(), Stop>
        requires { is_some self.old.held ≡ true }
        ensures does { (s : _) → Does (judged giving_up self.old (unwrap_or self.old.held [])).effects (world_of s (K.state output.old)) (world_of s (K.state output.new)) result }
        ensures stack { OnOk result (self.new ≡ (judged giving_up self.old (unwrap_or self.old.held [])).stack) }
        ensures blames { SinkBlames (K.state output.old) (K.state output.new) result }
        ensures rises { steps.old ≤ steps.new }
    {
        let draft = self.close();
        let taken = self.take(alloc, draft.changes(), steps);
        drop(draft);
        match taken {
            Ok(all) => print_scripts(alloc, output, all),
            Err(refused) => {
                let refusal = level_refusal(refused)?;
                self.give_up_at(alloc, output, refusal.level, refusal.fields)
            }
        }
    }

    // Ends a group, which is refused where a line was.
    #[tactic(auto, using(outside::proofs::Following::following, crate::proofs::AnswerLemmas::unbroken_stack, crate::proofs::AnswerLemmas::broken_stack, crate::proofs::AnswerLemmas::unbroken_does))]
    fn commit_group<K: Sink, L: Ledger>(
        &mut self,
        alloc: Global,
        output: &mut K,
        steps: &mut Steps<L>,
    ) -> Result<(), Stop>
        requires { is_some self.old.held ≡ true }
        ensures does { (s : _) → Does (by_broken self.old self.old.broken).effects (world_of s (K.state output.old)) (world_of s (K.state output.new)) result }
        ensures stack { OnOk result (self.new ≡ (by_broken self.old self.old.broken).stack) }
        ensures blames { SinkBlames (K.state output.old) (K.state output.new) result }
        ensures rises { steps.old ≤ steps.new }
    {
        if self.broken == 0 {
            return self.make_group(alloc, output, steps);
        }
        let fields = group_broken_fields(alloc, self.broken)?;
        self.give_up(alloc, output, fields)
    }

    // Answers `begin` alone.
    #[tactic(auto, using(outside::proofs::Following::following, opened_view::proofs::ViewLemmas::none_open))]
    fn begin_line<K: Sink>(&mut self, alloc: Global, output: &mut K, row: &Row) -> Result<(), Stop>
        ensures does { (s : _) → Does (by_word self.old row.now word.Begin).effects (world_of s (K.state output.old)) (world_of s (K.state output.new)) result }
        ensures stack { OnOk result (self.new ≡ (by_word self.old row.now word.Begin).stack) }
        ensures blames { SinkBlames (K.state output.old) (K.state output.new) result }
    {
        if self.in_group() {
            self.refuse_inside(alloc, output, row)
        } else {
            self.begin_group(alloc, output)
        }
    }

    // Answers `commit` alone.
    #[tactic(auto, using(outside::proofs::Following::following))]
    fn commit_line<K: Sink, L: Ledger>(
        &mut self,
        alloc: Global,
        output: &mut K,
        row: &Row,
        steps: &mut Steps<L>,
    ) -> Result<(), Stop>
        ensures does { (s : _) → Does (by_word self.old row.now word.Commit).effects (world_of s (K.state output.old)) (world_of s (K.state output.new)) result }
        ensures stack { OnOk result (self.new ≡ (by_word self.old row.now word.Commit).stack) }
        ensures blames { SinkBlames (K.state output.old) (K.state output.new) result }
        ensures rises { steps.old ≤ steps.new }
    {
        if self.in_group() {
            self.commit_group(alloc, output, steps)
        } else {
            self.refuse_outside(alloc, output, row)
        }
    }

    // Answers `abort` alone.
    #[tactic(auto, using(outside::proofs::Following::following))]
    fn abort_line<K: Sink>(&mut self, alloc: Global, output: &mut K, row: &Row) -> Result<(), Stop>
        ensures does { (s : _) → Does (by_word self.old row.now word.Abort).effects (world_of s (K.state output.old)) (world_of s (K.state output.new)) result }
        ensures stack { OnOk result (self.new ≡ (by_word self.old row.now word.Abort).stack) }
        ensures blames { SinkBlames (K.state output.old) (K.state output.new) result }
    {
        if self.in_group() {
            self.abort_group(alloc, output)
        } else {
            self.refuse_outside(alloc, output, row)
        }
    }

    // Answers `sync` alone.
    #[tactic(auto, using(outside::proofs::Following::following))]
    fn sync_line<F: Folders, K: Sink>(
        &mut self,
        alloc: Global,
        store: &mut F,
        output: &mut K,
        row: &Row,
    ) -> Result<(), Stop>
        ensures does { Does (by_word self.old row.now word.Sync).effects (world_of (F.state store.old) (K.state output.old)) (world_of (F.state store.new) (K.state output.new)) result }
        ensures stack { OnOk result (self.new ≡ (by_word self.old row.now word.Sync).stack) }
        ensures no_read { IfErr result (λ e. e ≢ Stop.ReadFault) }
        ensures blames { Blames (world_of (F.state store.old) (K.state output.old)) (world_of (F.state store.new) (K.state output.new)) result }
    {
        if self.in_group() {
            self.refuse_inside(alloc, output, row)
        } else {
            self.sync(alloc, store, output)
        }
    }

    // Answers a word alone.
    #[tactic(auto, using(outside::proofs::Following::following))]
    fn word_alone<F: Folders, K: Sink, L: Ledger>(
        &mut self,
        alloc: Global,
        store: &mut F,
        output: &mut K,
        row: &Row,
        word: Word,
        steps: &mut Steps<L>,
    ) -> Result<(), Stop>
        ensures does { Does (by_word self.old row.now word).effects (world_of (F.state store.old) (K.state output.old)) (world_of (F.state store.new) (K.state output.new)) result }
        ensures stack { OnOk result (self.new ≡ (by_word self.old row.now word).stack) }
        ensures no_read { IfErr result (λ e. e ≢ Stop.ReadFault) }
        ensures blames { Blames (world_of (F.state store.old) (K.state output.old)) (world_of (F.state store.new) (K.state output.new)) result }
        ensures rises { steps.old ≤ steps.new }
    {
        match word {
            Word::Begin => self.begin_line(alloc, output, row),
            Word::Commit => self.commit_line(alloc, output, row, steps),
            Word::Abort => self.abort_line(alloc, output, row),
            Word::Sync => self.sync_line(alloc, store, output, row),
        }
    }

    // Answers a line that begins with a word.
    #[tactic(auto, using(outside::proofs::Following::following, crate::proofs::AnswerLemmas::one_word_does, crate::proofs::AnswerLemmas::one_word_stack, crate::proofs::AnswerLemmas::more_words_stack))]
    pub(super) fn word_line<F: Folders, K: Sink, L: Ledger>(
        &mut self,
        alloc: Global,
        store: &mut F,
        output: &mut K,
        row: &Row,
        word: Word,
        steps: &mut Steps<L>,
    ) -> Result<(), Stop>
        ensures does { Does (by_fields self.old row.now word).effects (world_of (F.state store.old) (K.state output.old)) (world_of (F.state store.new) (K.state output.new)) result }
        ensures stack { OnOk result (self.new ≡ (by_fields self.old row.now word).stack) }
        ensures no_read { IfErr result (λ e. e ≢ Stop.ReadFault) }
        ensures blames { Blames (world_of (F.state store.old) (K.state output.old)) (world_of (F.state store.new) (K.state output.new)) result }
        ensures rises { steps.old ≤ steps.new }
    {
        let got = row.cells().len();
        if got == 1 {
            return self.word_alone(alloc, store, output, row, word, steps);
        }
        let fields = line_fields(alloc, row, ChangeFault::FieldCount { got })?;
        self.refuse(alloc, output, fields)
    }

    // Refuses an open group at the end of the input.
    #[tactic(auto, using(outside::proofs::Following::following))]
    pub(super) fn end_group<K: Sink>(&mut self, alloc: Global, output: &mut K) -> Result<(), Stop>
        ensures does { (s : _) → Does (end_effects self.old) (world_of s (K.state output.old)) (world_of s (K.state output.new)) result }
        ensures stack { OnOk result (self.new ≡ end_stack self.old) }
        ensures blames { SinkBlames (K.state output.old) (K.state output.new) result }
    {
        match self.held() {
            Some(changes) => {
                let fields = open_group_fields(alloc, changes)?;
                self.give_up(alloc, output, fields)
            }
            None => Ok(()),
        }
    }
}

// Holds one more change in a draft over a catalogue, which is ready to judge it, unless the catalogue after those that it
// holds refuses it. After each refusal the draft is as before.
fn hold_in(draft: &mut Draft, catalogue: &Catalogue, change: &Change) -> Result<(), HoldRefused>
    requires stands { StandsOver draft.old catalogue.now.databases }
    requires ready { draft.old.is_due ≡ false }
    requires well_formed { IsTrue (is_well_formed change.now) }
    ensures held { OnOk result (draft.new.changes ≡ draft.old.changes ++ change.now ∷ []) }
    ensures accepted { OnOk result (fault (after_all catalogue.now.databases draft.old.changes) change.now ≡ None) }
    ensures refused { IfErr result (IsNotHeld (after_all catalogue.now.databases draft.old.changes) change.now) }
    ensures same { OnErr result (draft.new ≡ draft.old) }
    ensures stands { StandsOver draft.new catalogue.now.databases }
{
    if let Some(refusal) = draft.judge(catalogue, change) {
        return Err(HoldRefused::Change(refusal));
    }
    draft.hold(catalogue, change)?;
    Ok(())
}

// The refusal of changes by a level, where the catalogue refuses none of them.
fn level_refusal(refused: LevelsRefused) -> Result<LevelRefusal, NoMemory>
    requires { IsOfLevels refused }
    ensures { IfOk result (IsRefusedBy refused) }
{
    match refused {
        LevelsRefused::Change { .. } => unreachable!(),
        LevelsRefused::Level(refusal) => Ok(refusal),
        LevelsRefused::NoMemory => Err(NoMemory),
    }
}
