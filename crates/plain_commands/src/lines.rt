//! The tables of a view folder, and the lines that are applied to them.
ghost use Rattle.std.specs.Prelude.{◌≡◌, ◌≢◌, ◌||◌, [], ◌∷◌, is_some, false, Ok, Err, IfOk, IfErr, IfSome, IfNone, OnOk};
ghost use Rattle.std.specs.List.Sorted.{IsStrictlySortedBy};
ghost use Rattle.ss_text.specs.Texts.{is_in, text_cmp};
ghost use Rattle.ss_text.specs.Ascending.{with_element};
ghost use Rattle.tab_lines.specs.Lines.{has_feed};
ghost use Rattle.outside.specs.Effects.{Replace, Does, world_of};
ghost use Rattle.outside.specs.Performing.{Performs};
ghost use Rattle.outside.specs.Blame.{Blames, SinkBlames};
ghost use Rattle.flow_law.specs.Tables.{labels_of, table_of};
ghost use Rattle.change_script.specs.Applied.{applied_line};
ghost use Rattle.change_script.specs.Reading.{script_line_of};
ghost use Rattle.view_folder.specs.Files.{view_folder};
ghost use Rattle.view_folder.specs.Sync.{later_edits};
ghost use Rattle.view_folder.specs.Held.{AllKeysFit};
ghost use Rattle.ss_print.specs.Printing.{prints_applied};
ghost use Rattle.plain_commands.specs.Applying.{just_read, by_applying, by_reading, taken, finish, synced_count};

use crate::refused::{apply_fields, escape_fields, script_fields};
use change_script::{ApplyFault, ScriptFault, ScriptLine, apply_line, read_script_line};
use course::{LineHandler, LineStop, NoDisk, Verdict};
use flow_law::{Shape, TableLine, Tables};
use outside::{Folders, Sink, Stop};
use ss_print::{print_applied, refuse};
use ss_text::{NoMemory, Row, Steps, Text};
use std::alloc::Global;
use std::marker::Model;
use std::sync::ledger::Ledger;
use tab_lines::{LineFault, read_line};
use view_folder::sync_at_once;

/// The tables of a view folder, to which lines are applied. Contracts see the view's database and form, the labels
/// of the tables that the folder holds, the tables after the lines, the labels that lines named, and how many lines
/// were applied.
#[derive(Drop)]
pub(crate) struct Applying {
    view_db: Text,
    shape: Shape,
    before: Vec<Text>,
    tables: Tables,
    named: Vec<Text>,
    lines: usize,
}

impl Model for Applying {
    ghost use Rattle.std.specs.Prelude.{◌≢◌, []};
    ghost use Rattle.std.specs.List.Sorted.{IsStrictlySortedBy};
    ghost use Rattle.ss_text.specs.Texts.{text_cmp};
    ghost use Rattle.view_folder.specs.Held.{AllKeysFit};
    ghost use Rattle.plain_commands.specs.Applying.{ApplyState};

    ghost Value = { ApplyState };

    ghost view = { λ a. record { view_db = a.view_db; shape = a.shape; before = a.before.items; tables = a.tables; named = a.named.items; lines = a.lines } };

    ghost invariant = { λ a. record {
      some : a.shape.constants ≢ [];
      keys : AllKeysFit a.shape a.tables;
      before : IsStrictlySortedBy text_cmp a.before.items;
      named : IsStrictlySortedBy text_cmp a.named.items;
    } };
}

// The labels of tables, ascending.
fn labels_of(alloc: Global, tables: &Tables) -> Result<Vec<Text>, NoMemory>
    ensures labels { IfOk result (λ labels. labels.items ≡ labels_of tables.now) }
    ensures ascend { IfOk result (λ labels. IsStrictlySortedBy text_cmp labels.items) }
{
    let mut labels = Vec::with_capacity(alloc, tables.count())?;
    for place in 0..tables.count() {
        labels.push(tables.label(place).copy()?)?;
    }
    Ok(labels)
}

// Puts a label among ascending ones, where it is not there.
fn put(labels: &mut Vec<Text>, label: &Text) -> Result<(), NoMemory>
    requires { IsStrictlySortedBy text_cmp labels.old.items }
    ensures labels { OnOk result (labels.new.items ≡ with_element text_cmp label.now labels.old.items) }
    ensures ascend { IsStrictlySortedBy text_cmp labels.new.items }
{
    match labels.binary_search(label) {
        Ok(_) => Ok(()),
        Err(place) => {
            labels.insert(place, label.copy()?)?;
            Ok(())
        }
    }
}

impl Applying {
    // The tables of a folder, which were just read.
    pub(crate) fn of(
        alloc: Global,
        view_db: Text,
        shape: Shape,
        tables: Tables,
    ) -> Result<Applying, NoMemory>
        requires some { shape.constants ≢ [] }
        requires keys { AllKeysFit shape tables }
        ensures { IfOk result (λ a. a ≡ just_read view_db shape tables) }
    {
        let before = labels_of(alloc, &tables)?;
        Ok(Applying {
            view_db,
            shape,
            before,
            tables,
            named: Vec::new(alloc),
            lines: 0,
        })
    }

    // Applies a line of a script, or answers the fields of its refusal.
    #[tactic(auto, using(crate::proofs::KeyLemmas::keys_fit_after))]
    fn change(&mut self, alloc: Global, line: &TableLine) -> Result<Option<Row>, NoMemory>
        ensures applied { IfOk result (λ refused. IfNone refused (by_applying self.old line.now (applied_line self.old.shape self.old.tables line.now) ≡ Ok self.new)) }
        ensures refused { IfOk result (λ refused. IfSome refused (λ fields. by_applying self.old line.now (applied_line self.old.shape self.old.tables line.now) ≡ Err fields)) }
    {
        // More lines than can be counted are no memory.
        let Some(lines) = self.lines.checked_add(1) else {
            return Err(NoMemory);
        };
        match apply_line(&mut self.tables, &self.shape, line) {
            Ok(()) => {
                put(&mut self.named, line.label())?;
                self.lines = lines;
                Ok(None)
            }
            Err(ApplyFault::NoMemory) => Err(NoMemory),
            Err(fault) => Ok(Some(apply_fields(alloc, line, &fault)?)),
        }
    }

    // Applies what a row says, or answers the fields of its refusal.
    fn row(&mut self, alloc: Global, row: &Row) -> Result<Option<Row>, NoMemory>
        ensures applied { IfOk result (λ refused. IfNone refused (by_reading self.old row.now (script_line_of row.now) ≡ Ok self.new)) }
        ensures refused { IfOk result (λ refused. IfSome refused (λ fields. by_reading self.old row.now (script_line_of row.now) ≡ Err fields)) }
    {
        match read_script_line(alloc, row) {
            Ok(ScriptLine::Change(line)) => self.change(alloc, &line),
            Ok(ScriptLine::Passed) => Ok(None),
            Err(ScriptFault::NoMemory) => Err(NoMemory),
            Err(fault) => Ok(Some(script_fields(alloc, row, fault)?)),
        }
    }

    // Applies what a line of the input says, or answers the fields of its refusal.
    fn take(&mut self, alloc: Global, line: &[u8]) -> Result<Option<Row>, NoMemory>
        requires { has_feed line.now ≡ false }
        ensures applied { IfOk result (λ refused. IfNone refused (taken self.old line.now ≡ Ok self.new)) }
        ensures refused { IfOk result (λ refused. IfSome refused (λ fields. taken self.old line.now ≡ Err fields)) }
    {
        match read_line(alloc, line) {
            Ok(row) => self.row(alloc, &row),
            Err(LineFault::BadEscape { at }) => Ok(Some(escape_fields(alloc, at)?)),
            Err(LineFault::NoMemory) => Err(NoMemory),
        }
    }

    // Of the labels that were named, how many have a table, or had one.
    fn synced_count(&self) -> usize
        ensures { result ≡ synced_count self.now }
    {
        self.named
            .iter()
            .filter(|label| self.has_file(label))
            .count()
    }

    // Whether a label has a table, or had one.
    fn has_file(&self, label: &Text) -> bool
        ensures { result ≡ (is_some (table_of self.now.tables label.now) || is_in label.now self.now.before) }
    {
        self.has_table(label) || self.had_table(label)
    }

    #[tactic(auto, using(crate::proofs::KeyLemmas::copied_there))]
    fn has_table(&self, label: &Text) -> bool
        ensures { result ≡ is_some (table_of self.now.tables label.now) }
    {
        self.tables.table_of(label).is_some()
    }

    fn had_table(&self, label: &Text) -> bool
        ensures { result ≡ is_in label.now self.now.before }
    {
        self.before.binary_search(label).is_ok()
    }

    // Syncs the files of the labels that were named, all at once.
    #[tactic(auto, using(crate::proofs::KeyLemmas::fit_by_keys))]
    fn sync_named<F: Folders>(&self, alloc: Global, store: &mut F) -> Result<(), Stop>
        ensures { Performs (Replace (later_edits (view_folder self.now.view_db) self.now.shape self.now.tables self.now.named) ∷ []) (F.state store.old) (F.state store.new) result }
    {
        sync_at_once(
            alloc,
            store,
            &self.view_db,
            &self.shape,
            &self.tables,
            &self.named,
        )
    }

    // Prints how many lines were applied, and how many files were synced.
    fn print_counts<K: Sink>(&self, alloc: Global, output: &mut K) -> Result<(), Stop>
        ensures does { (s : _) → Does (prints_applied self.now.lines (synced_count self.now) ∷ []) (world_of s (K.state output.old)) (world_of s (K.state output.new)) result }
        ensures blames { SinkBlames (K.state output.old) (K.state output.new) result }
    {
        print_applied(alloc, output, self.lines, self.synced_count())
    }

    // Syncs the files of the labels that were named, and prints how many lines were applied.
    #[tactic(auto, using(outside::proofs::Following::following))]
    fn write_named<F: Folders, K: Sink>(
        &self,
        alloc: Global,
        store: &mut F,
        output: &mut K,
    ) -> Result<(), Stop>
        ensures does { Does (finish self.now).effects (world_of (F.state store.old) (K.state output.old)) (world_of (F.state store.new) (K.state output.new)) result }
        ensures no_read { IfErr result (λ e. e ≢ Stop.ReadFault) }
        ensures blames { Blames (world_of (F.state store.old) (K.state output.old)) (world_of (F.state store.new) (K.state output.new)) result }
    {
        self.sync_named(alloc, store)?;
        self.print_counts(alloc, output)
    }
}

impl LineHandler<NoDisk> for Applying {
    ghost use Rattle.std.specs.Prelude.{Some, false, []};
    ghost use Rattle.course.specs.Keeping.{no_log};
    ghost use Rattle.plain_commands.specs.Applying.{step, finish};

    ghost step = { step };

    ghost log = { no_log };

    ghost note = { λ a line. [] };

    ghost ready = { λ a d. Unit {0} };

    ghost limit = { λ a line. Some 0 };

    ghost counts = { false };

    ghost finish = { finish };

    #[tactic(auto, using(outside::proofs::Following::following, crate::proofs::OutcomeLemmas::line_taken, crate::proofs::OutcomeLemmas::line_refused, crate::proofs::OutcomeLemmas::line_stopped, crate::proofs::OutcomeLemmas::refusal_stopped))]
    fn line<F: Folders, K: Sink, L: Ledger>(
        &mut self,
        alloc: Global,
        _store: &mut F,
        output: &mut K,
        _disk: &mut NoDisk,
        line: &[u8],
        _steps: &mut Steps<L>,
    ) -> Result<Option<Verdict>, LineStop> {
        match self.take(alloc, line)? {
            None => Ok(None),
            Some(fields) => {
                refuse(alloc, output, fields)?;
                Ok(Some(Verdict::BadCatalogue))
            }
        }
    }

    fn end<F: Folders, K: Sink, L: Ledger>(
        &mut self,
        alloc: Global,
        store: &mut F,
        output: &mut K,
        _steps: &mut Steps<L>,
    ) -> Result<Verdict, Stop> {
        self.write_named(alloc, store, output)?;
        Ok(Verdict::Done)
    }
}
