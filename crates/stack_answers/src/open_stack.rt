//! An opened stack, and its answers.
ghost use Rattle.std.specs.Prelude.{◌≡◌, ◌≢◌, ◌≤◌, ◌∷◌, ◌++◌, [], length, false, None, Some, IfOk, IfErr, OnOk, OnErr, IsErrOf, IsTrue, option_map};
ghost use Rattle.std.specs.List.{AllByRecursion};
ghost use Rattle.tab_lines.specs.Lines.{has_feed};
ghost use Rattle.outside.specs.Reading.{OnlyRead};
ghost use Rattle.outside.specs.Tree.{Tree};
ghost use Rattle.outside.specs.Effects.{Does, Replace, world_of};
ghost use Rattle.outside.specs.Blame.{Blames, StoreBlames, SinkBlames};
ghost use Rattle.outside.specs.Performing.{Performs};
ghost use Rattle.schema_model.specs.Changes.{after_all, is_well_formed};
ghost use Rattle.schema_model.specs.Reading.{change_of};
ghost use Rattle.schema_model.specs.Refusals.{fault, group_fault};
ghost use Rattle.csv_catalog.specs.Saved.{saved};
ghost use Rattle.course.specs.Idle.{IdleUnread};
ghost use Rattle.ss_print.specs.Printing.{prints_synced};
ghost use Rattle.stack_levels.specs.Levels.{refused_at, lines_over, changing_refusal};
ghost use Rattle.stack_levels.specs.States.{AreLevels};
ghost use Rattle.stack_levels.specs.Taking.{AreRefused};
ghost use Rattle.stack_answers.specs.Stack.{queries_of, stack_tables, working};
ghost use Rattle.stack_answers.specs.Held.{stack_state};
ghost use Rattle.stack_answers.specs.Opening.{folders_opened, opening_sum};
ghost use Rattle.stack_answers.specs.Steps.{IsRefusalOf};
ghost use Rattle.stack_answers.specs.Answers.{finish, answer, by_row, by_change, by_fault, in_group, more_broken, refusing, plainly, making, folder_effects, sync_count, sync_effects, syncing, end_stack};

use crate::folders::{file_count, plan_folders, sync_folders, write_tables};
use change_draft::Draft;
use change_script::Script;
use course::{LineHandler, LineStop, NoDisk, Verdict};
use csv_catalog::save_changed;
use opened_view::{line_refusal, word_of};
use outside::{Folders, Sink, Stop};
use schema_model::Change;
use ss_print::{escape_fields, print_scripts, print_synced, refusal_fields, refuse_level};
use ss_text::{NoMemory, Row, Steps};
use stack_levels::{LevelRefusal, Levels, LevelsRefused};
use std::alloc::Global;
use std::marker::Model;
use std::slice::from_ref;
use std::sync::ledger::Ledger;
use tab_lines::{LineFault, read_line};

mod group;

/// An opened stack. Contracts see the catalogue of the sources and what was named of it, each level's view with the labels
/// that were named and those at the last sync, the changes of the open group, whether some line was refused, and how many
/// were refused in the open group.
pub(crate) struct OpenStack {
    levels: Levels,
    // The open group.
    draft: Option<Draft>,
    some_refused: bool,
    broken: usize,
}

impl Drop for OpenStack {
    fn drop(self) {
        let OpenStack {
            levels,
            draft,
            some_refused: _,
            broken: _,
        } = self;
        drop(levels);
        drop(draft);
    }
}

impl Model for OpenStack {
    ghost use Rattle.stack_answers.specs.Stack.{StackState};
    ghost use Rattle.stack_answers.specs.Held.{stack_state, held_in, IsStanding};
    ghost use Rattle.std.specs.Coded.{Coded, codes};
    ghost use Rattle.view_session.specs.ConditionCode.{Mark, condition_code};

    ghost Value = { StackState };

    ghost coded = { let mark_code : Coded Mark = Prim.hlevel codes in Prim.hlevel (codes, condition_code mark_code) };

    ghost view = { λ s. stack_state s.levels (held_in s.draft) s.some_refused s.broken };

    ghost invariant = { λ s. IsStanding s.levels s.draft };
}

impl OpenStack {
    /// The stack of levels that were just opened.
    pub(crate) fn of(levels: Levels) -> OpenStack
        requires { AreLevels levels }
        ensures { result ≡ stack_state levels None false 0 }
    {
        OpenStack {
            levels,
            draft: None,
            some_refused: false,
            broken: 0,
        }
    }

    /// Writes the folders of a stack that was just opened, one level behind the other, and prints that it did.
    #[tactic(auto, using(outside::proofs::Following::following, outside::proofs::EffectLemmas::partly_more, outside::proofs::EffectLemmas::partly_later, outside::proofs::EffectLemmas::performed_append, course::proofs::IdleLemmas::idle_first, course::proofs::IdleLemmas::idle_print))]
    pub(crate) fn fill_folders<F: Folders, K: Sink>(
        &self,
        alloc: Global,
        store: &mut F,
        output: &mut K,
    ) -> Result<(), Stop>
        ensures does { (t : Tree) → (F.state store.old).tree ≡ Some t
            → Does (folders_opened t self.now.catalogue (queries_of self.now) ++ prints_synced (opening_sum t self.now.catalogue (queries_of self.now)) ∷ [])
            (world_of (F.state store.old) (K.state output.old)) (world_of (F.state store.new) (K.state output.new)) result }
        ensures idle { IdleUnread result (world_of (F.state store.old) (K.state output.old)) (world_of (F.state store.new) (K.state output.new)) }
        ensures blames { Blames (world_of (F.state store.old) (K.state output.old)) (world_of (F.state store.new) (K.state output.new)) result }
    {
        let count = self.write_tables(alloc, store)?;
        print_synced(alloc, output, count)?;
        Ok(())
    }

    // Brings the folder of each level to its tables, and answers how many files that writes or removes. All folders are
    // read before the first is written.
    fn write_tables<F: Folders>(&self, alloc: Global, store: &mut F) -> Result<usize, Stop>
        ensures does { (o : _) (t : Tree) → (F.state store.old).tree ≡ Some t
            → Does (folders_opened t self.now.catalogue (queries_of self.now)) (world_of (F.state store.old) o) (world_of (F.state store.new) o) result }
        ensures count { IfOk result (λ n. (t : Tree) → (F.state store.old).tree ≡ Some t → n ≡ opening_sum t self.now.catalogue (queries_of self.now)) }
        ensures read_first { IsErrOf result Stop.ReadFault → OnlyRead (F.state store.old) (F.state store.new) }
        ensures blames { StoreBlames (F.state store.old) (F.state store.new) result }
    {
        let levels = self.levels.all();
        let plans = plan_folders(alloc, store, levels)?;
        write_tables(alloc, store, levels, &plans)
    }

    // How many changes the open group holds, where one is open.
    fn held(&self) -> Option<usize>
        ensures { result ≡ option_map length self.now.held }
    {
        match &self.draft {
            Some(draft) => Some(draft.changes().len()),
            None => None,
        }
    }

    // Whether a group is open.
    #[tactic(auto, using(crate::proofs::AnswerLemmas::held_open))]
    fn in_group(&self) -> bool
        ensures { result ≡ in_group self.now }
    {
        self.draft.is_some()
    }

    // How many lines are refused in the open group with one more.
    fn more_broken(&self) -> Result<usize, NoMemory>
        ensures { IfOk result (λ broken. broken ≡ more_broken self.now) }
    {
        if !self.in_group() {
            return Ok(self.broken);
        }
        // More lines than can be counted are no memory.
        match self.broken.checked_add(1) {
            Some(broken) => Ok(broken),
            None => Err(NoMemory),
        }
    }

    // Refuses a line, as by this level.
    #[tactic(auto, using(outside::proofs::Following::following))]
    fn refuse_at<K: Sink>(
        &mut self,
        alloc: Global,
        output: &mut K,
        level: usize,
        fields: Row,
    ) -> Result<(), Stop>
        ensures does { (s : _) → Does (refusing self.old (refused_at level fields)).effects (world_of s (K.state output.old)) (world_of s (K.state output.new)) result }
        ensures stack { OnOk result (self.new ≡ (refusing self.old (refused_at level fields)).stack) }
        ensures blames { SinkBlames (K.state output.old) (K.state output.new) result }
    {
        let broken = self.more_broken()?;
        refuse_level(alloc, output, level, fields)?;
        self.some_refused = true;
        self.broken = broken;
        Ok(())
    }

    // Refuses a line before the levels are judged.
    fn refuse<K: Sink>(&mut self, alloc: Global, output: &mut K, fields: Row) -> Result<(), Stop>
        ensures does { (s : _) → Does (plainly refusing self.old fields).effects (world_of s (K.state output.old)) (world_of s (K.state output.new)) result }
        ensures stack { OnOk result (self.new ≡ (plainly refusing self.old fields).stack) }
        ensures blames { SinkBlames (K.state output.old) (K.state output.new) result }
    {
        self.refuse_at(alloc, output, 1, fields)
    }

    // Saves the relations and databases of the sources that were named.
    fn save_named<F: Folders>(&self, alloc: Global, store: &mut F) -> Result<(), Stop>
        ensures { Performs (Replace (saved self.now.catalogue self.now.databases self.now.relations) ∷ []) (F.state store.old) (F.state store.new) result }
    {
        let lowest = self.levels.lowest();
        save_changed(
            alloc,
            store,
            lowest.catalogue(),
            lowest.changed_databases(),
            lowest.changed_relations(),
        )
    }

    // Syncs the files of the labels that were named in the folder of each level.
    fn sync_named<F: Folders>(&self, alloc: Global, store: &mut F) -> Result<(), Stop>
        ensures { Performs (folder_effects self.now.levels (stack_tables self.now)) (F.state store.old) (F.state store.new) result }
    {
        sync_folders(alloc, store, self.levels.all())
    }

    // How many files of all folders a sync writes or removes.
    fn sync_count(&self) -> Result<usize, NoMemory>
        ensures { IfOk result (λ count. count ≡ sync_count self.now.levels (stack_tables self.now)) }
    {
        file_count(self.levels.all())
    }

    // Syncs the folders of the levels, and prints the number of their files.
    #[tactic(auto, using(outside::proofs::Following::following, outside::proofs::EffectLemmas::partly_more, outside::proofs::EffectLemmas::partly_later, outside::proofs::EffectLemmas::performed_append))]
    fn write_named<F: Folders, K: Sink>(
        &self,
        alloc: Global,
        store: &mut F,
        output: &mut K,
    ) -> Result<(), Stop>
        ensures does { Does (folder_effects self.now.levels (stack_tables self.now) ++ prints_synced (sync_count self.now.levels (stack_tables self.now)) ∷ [])
            (world_of (F.state store.old) (K.state output.old)) (world_of (F.state store.new) (K.state output.new)) result }
        ensures no_read { IfErr result (λ e. e ≢ Stop.ReadFault) }
        ensures blames { Blames (world_of (F.state store.old) (K.state output.old)) (world_of (F.state store.new) (K.state output.new)) result }
    {
        let count = self.sync_count()?;
        self.sync_named(alloc, store)?;
        print_synced(alloc, output, count)?;
        Ok(())
    }

    // Saves the sources that were named, and then syncs the folders of the levels.
    #[tactic(auto, using(outside::proofs::Following::following, outside::proofs::EffectLemmas::partly_more, outside::proofs::EffectLemmas::partly_later, outside::proofs::EffectLemmas::performed_append))]
    fn write_changed<F: Folders, K: Sink>(
        &self,
        alloc: Global,
        store: &mut F,
        output: &mut K,
    ) -> Result<(), Stop>
        ensures does { Does (sync_effects self.now) (world_of (F.state store.old) (K.state output.old)) (world_of (F.state store.new) (K.state output.new)) result }
        ensures no_read { IfErr result (λ e. e ≢ Stop.ReadFault) }
        ensures blames { Blames (world_of (F.state store.old) (K.state output.old)) (world_of (F.state store.new) (K.state output.new)) result }
    {
        self.save_named(alloc, store)?;
        self.write_named(alloc, store, output)?;
        Ok(())
    }

    // A sync.
    #[tactic(auto, using(outside::proofs::Following::following))]
    fn sync<F: Folders, K: Sink>(
        &mut self,
        alloc: Global,
        store: &mut F,
        output: &mut K,
    ) -> Result<(), Stop>
        ensures does { Does (syncing self.old).effects (world_of (F.state store.old) (K.state output.old)) (world_of (F.state store.new) (K.state output.new)) result }
        ensures stack { OnOk result (self.new ≡ (syncing self.old).stack) }
        ensures no_read { IfErr result (λ e. e ≢ Stop.ReadFault) }
        ensures blames { Blames (world_of (F.state store.old) (K.state output.old)) (world_of (F.state store.new) (K.state output.new)) result }
    {
        // A note takes no memory, so nothing fails once all is written.
        let labels = self.levels.labels(alloc)?;
        self.write_changed(alloc, store, output)?;
        self.levels.note_synced(labels);
        Ok(())
    }

    // Refuses an open group at the end of the input, and syncs.
    #[tactic(auto, using(outside::proofs::Following::following, outside::proofs::EffectLemmas::partly_more, outside::proofs::EffectLemmas::partly_later, outside::proofs::EffectLemmas::performed_append))]
    fn end_input<F: Folders, K: Sink>(
        &mut self,
        alloc: Global,
        store: &mut F,
        output: &mut K,
    ) -> Result<(), Stop>
        ensures does { Does (finish self.old).effects (world_of (F.state store.old) (K.state output.old)) (world_of (F.state store.new) (K.state output.new)) result }
        ensures stack { OnOk result (self.new ≡ end_stack self.old) }
        ensures no_read { IfErr result (λ e. e ≢ Stop.ReadFault) }
        ensures blames { Blames (world_of (F.state store.old) (K.state output.old)) (world_of (F.state store.new) (K.state output.new)) result }
    {
        self.end_group(alloc, output)?;
        self.write_changed(alloc, store, output)
    }

    // Makes changes at all levels, where no group is open, and answers each level's lines; or tells why they are refused, and
    // then nothing has changed.
    fn take<L: Ledger>(
        &mut self,
        alloc: Global,
        changes: &[Change],
        steps: &mut Steps<L>,
    ) -> Result<Vec<Script>, LevelsRefused>
        requires closed { self.old.held ≡ None }
        requires well_formed { AllByRecursion (λ g. IsTrue (is_well_formed g)) changes.now }
        ensures lines { IfOk result (λ all. all.items ≡ lines_over self.old.catalogue (after_all self.old.catalogue changes.now) (queries_of self.old)) }
        ensures accepted { OnOk result (group_fault self.old.catalogue changes.now ≡ None) }
        ensures unrefused { OnOk result (changing_refusal self.old.catalogue (after_all self.old.catalogue changes.now) (queries_of self.old) ≡ None) }
        ensures stack { OnOk result (self.new ≡ (making self.old changes.now).stack) }
        ensures refused { IfErr result (AreRefused self.old.catalogue (queries_of self.old) changes.now) }
        ensures same { OnErr result (self.new ≡ self.old) }
        ensures rises { steps.old ≤ steps.new }
    {
        match self.levels.apply(alloc, changes, steps) {
            Ok(all) => {
                self.broken = 0;
                Ok(all)
            }
            Err(refused) => Err(refused),
        }
    }

    // Answers a change where no group is open.
    #[tactic(auto, using(outside::proofs::Following::following, crate::proofs::AnswerLemmas::taken_stack, crate::proofs::AnswerLemmas::refused_stack))]
    fn apply<K: Sink, L: Ledger>(
        &mut self,
        alloc: Global,
        output: &mut K,
        change: &Change,
        steps: &mut Steps<L>,
    ) -> Result<(), Stop>
        requires well_formed { IsTrue (is_well_formed change.now) }
        requires closed { self.old.held ≡ None }
        ensures does { (s : _) → Does (by_fault self.old change.now (fault (working self.old) change.now)).effects (world_of s (K.state output.old)) (world_of s (K.state output.new)) result }
        ensures stack { OnOk result (self.new ≡ (by_fault self.old change.now (fault (working self.old) change.now)).stack) }
        ensures blames { SinkBlames (K.state output.old) (K.state output.new) result }
        ensures rises { steps.old ≤ steps.new }
    {
        match self.take(alloc, from_ref(change), steps) {
            Ok(all) => print_scripts(alloc, output, all),
            Err(refused) => {
                let refusal = change_refusal(alloc, change, refused)?;
                self.refuse_at(alloc, output, refusal.level, refusal.fields)
            }
        }
    }

    // Answers a change.
    #[tactic(auto, using(opened_view::proofs::ViewLemmas::none_open))]
    fn change<K: Sink, L: Ledger>(
        &mut self,
        alloc: Global,
        output: &mut K,
        change: &Change,
        steps: &mut Steps<L>,
    ) -> Result<(), Stop>
        requires { IsTrue (is_well_formed change.now) }
        ensures does { (s : _) → Does (by_fault self.old change.now (fault (working self.old) change.now)).effects (world_of s (K.state output.old)) (world_of s (K.state output.new)) result }
        ensures stack { OnOk result (self.new ≡ (by_fault self.old change.now (fault (working self.old) change.now)).stack) }
        ensures blames { SinkBlames (K.state output.old) (K.state output.new) result }
        ensures rises { steps.old ≤ steps.new }
    {
        if self.in_group() {
            self.hold(alloc, output, change)
        } else {
            self.apply(alloc, output, change, steps)
        }
    }

    // Answers a line that begins with no word that stands alone.
    #[tactic(auto, using(outside::proofs::Following::following, crate::proofs::AnswerLemmas::unread_stack))]
    fn change_line<K: Sink, L: Ledger>(
        &mut self,
        alloc: Global,
        output: &mut K,
        row: &Row,
        steps: &mut Steps<L>,
    ) -> Result<(), Stop>
        ensures does { (s : _) → Does (by_change self.old row.now (change_of row.now)).effects (world_of s (K.state output.old)) (world_of s (K.state output.new)) result }
        ensures stack { OnOk result (self.new ≡ (by_change self.old row.now (change_of row.now)).stack) }
        ensures blames { SinkBlames (K.state output.old) (K.state output.new) result }
        ensures rises { steps.old ≤ steps.new }
    {
        match Change::read(alloc, row) {
            Ok(change) => self.change(alloc, output, &change, steps),
            Err(fault) => {
                let fields = line_refusal(alloc, row, fault)?;
                self.refuse(alloc, output, fields)
            }
        }
    }

    // Answers the row of a line.
    #[tactic(auto, using(outside::proofs::Following::following, crate::proofs::AnswerLemmas::words_does))]
    fn row<F: Folders, K: Sink, L: Ledger>(
        &mut self,
        alloc: Global,
        store: &mut F,
        output: &mut K,
        row: &Row,
        steps: &mut Steps<L>,
    ) -> Result<(), Stop>
        ensures does { Does (by_row self.old row.now).effects (world_of (F.state store.old) (K.state output.old)) (world_of (F.state store.new) (K.state output.new)) result }
        ensures stack { OnOk result (self.new ≡ (by_row self.old row.now).stack) }
        ensures no_read { IfErr result (λ e. e ≢ Stop.ReadFault) }
        ensures blames { Blames (world_of (F.state store.old) (K.state output.old)) (world_of (F.state store.new) (K.state output.new)) result }
        ensures rises { steps.old ≤ steps.new }
    {
        match word_of(row) {
            Some(word) => self.word_line(alloc, store, output, row, word, steps),
            None => self.change_line(alloc, output, row, steps),
        }
    }

    // Answers a line.
    #[tactic(auto, using(outside::proofs::Following::following, crate::proofs::AnswerLemmas::spelled_does, crate::proofs::AnswerLemmas::unspelled_does))]
    fn answer<F: Folders, K: Sink, L: Ledger>(
        &mut self,
        alloc: Global,
        store: &mut F,
        output: &mut K,
        line: &[u8],
        steps: &mut Steps<L>,
    ) -> Result<(), Stop>
        requires { has_feed line.now ≡ false }
        ensures does { Does (answer self.old line.now).effects (world_of (F.state store.old) (K.state output.old)) (world_of (F.state store.new) (K.state output.new)) result }
        ensures stack { OnOk result (self.new ≡ (answer self.old line.now).stack) }
        ensures no_read { IfErr result (λ e. e ≢ Stop.ReadFault) }
        ensures blames { Blames (world_of (F.state store.old) (K.state output.old)) (world_of (F.state store.new) (K.state output.new)) result }
        ensures rises { steps.old ≤ steps.new }
    {
        match read_line(alloc, line) {
            Ok(row) => self.row(alloc, store, output, &row, steps),
            Err(LineFault::BadEscape { at }) => {
                let fields = escape_fields(alloc, at)?;
                self.refuse(alloc, output, fields)
            }
            Err(LineFault::NoMemory) => Err(Stop::NoMemory),
        }
    }
}

// The refusal of a change: by the catalogue, which is the lowest level's, or by a level.
fn change_refusal(
    alloc: Global,
    change: &Change,
    refused: LevelsRefused,
) -> Result<LevelRefusal, NoMemory>
    ensures { IfOk result (IsRefusalOf change.now refused) }
{
    match refused {
        LevelsRefused::Change { refusal, .. } => {
            let fields = refusal_fields(alloc, change, refusal)?;
            Ok(LevelRefusal { level: 1, fields })
        }
        LevelsRefused::Level(refusal) => Ok(refusal),
        LevelsRefused::NoMemory => Err(NoMemory),
    }
}

impl LineHandler<NoDisk> for OpenStack {
    ghost use Rattle.std.specs.Prelude.{true, [], None};
    ghost use Rattle.course.specs.Keeping.{no_log};
    ghost use Rattle.stack_answers.specs.Answers.{step, finish};

    ghost step = { step };

    ghost log = { no_log };

    ghost note = { λ stack line. [] };

    ghost ready = { λ stack disk. Unit {0} };

    ghost limit = { λ stack line. None };

    ghost counts = { true };

    ghost finish = { finish };

    fn line<F: Folders, K: Sink, L: Ledger>(
        &mut self,
        alloc: Global,
        store: &mut F,
        output: &mut K,
        _disk: &mut NoDisk,
        line: &[u8],
        steps: &mut Steps<L>,
    ) -> Result<Option<Verdict>, LineStop> {
        self.answer(alloc, store, output, line, steps)?;
        Ok(None)
    }

    fn end<F: Folders, K: Sink, L: Ledger>(
        &mut self,
        alloc: Global,
        store: &mut F,
        output: &mut K,
        _steps: &mut Steps<L>,
    ) -> Result<Verdict, Stop> {
        self.end_input(alloc, store, output)?;
        if self.some_refused {
            Ok(Verdict::SomeRefused)
        } else {
            Ok(Verdict::Done)
        }
    }
}
