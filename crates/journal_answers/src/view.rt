//! An opened view with a journal, and its answers.
ghost use Rattle.std.specs.Prelude.{◌≡◌, ◌≢◌, ◌⊎◌, ◌≤◌, ◌∷◌, [], List, true, false, Ok, None, is_some, unwrap_or, IfOk, IfErr, OnOk, IsTrue};
ghost use Rattle.outside.specs.Effects.{Does, world_of};
ghost use Rattle.outside.specs.Blame.{Blames};
ghost use Rattle.tab_lines.specs.Lines.{has_feed};
ghost use Rattle.schema_model.specs.Changes.{is_well_formed};
ghost use Rattle.course.specs.Keeping.{Entry, LeavesNow, LineBlamesDisk};
ghost use Rattle.change_journal.specs.Lines.{lines_in};
ghost use Rattle.journal_log.specs.Logs.{log_of, IsReady, KeepsFirst};
ghost use Rattle.journal_log.specs.Room.{appended_to};
ghost use Rattle.view_session.specs.Session.{closed};
ghost use Rattle.view_session.specs.Limits as session_limit;
ghost use Rattle.opened_view.specs.Limits as limits;
ghost use Rattle.opened_view.specs.Limits.{IsWithin};
ghost use Rattle.opened_view.specs.Answers.{by_row, end_view, giving_up, refusing, syncing_view};
ghost use Rattle.journal_answers.specs.Answers.{answer, asked_of, finish, made, made_by};
ghost use Rattle.journal_answers.specs.Steps.{Acts, Became, ending_group, judging, said};

use crate::asking::{Asked, asked_by_row};
use crate::taking::{Taken, copies, settle};
use change_journal::Journal;
use course::{LineHandler, LineStop, Verdict};
use disk::Disk;
use opened_view::{OpenView, fault_fields, refused_fields};
use outside::{Folders, Sink, Stop};
use schema_model::Change;
use ss_print::{escape_fields, print_script};
use ss_text::{NoMemory, Row, Steps};
use std::alloc::Global;
use std::slice::from_ref;
use std::sync::ledger::Ledger;
use tab_lines::{LineFault, read_line};
use view_answers::{answer_row, end_group};

/// An opened view, and the journal of its changes.
pub(crate) struct JournalView {
    view: OpenView,
    journal: Journal,
}

impl Drop for JournalView {
    fn drop(self) {
        let JournalView { view, journal } = self;
        drop(view);
        drop(journal);
    }
}

impl JournalView {
    /// An opened view over the catalogue after this journal.
    pub(crate) fn of(view: OpenView, journal: Journal) -> JournalView
        ensures { result ≡ record { view = view; journal = journal } }
    {
        JournalView { view, journal }
    }

    // Keeps a change and makes it, or refuses it, where no group is open.
    fn take_change<D: Disk, L: Ledger>(
        &mut self,
        alloc: Global,
        disk: &mut D,
        change: &Change,
        steps: &mut Steps<L>,
    ) -> Result<Taken, LineStop>
        requires formed { IsTrue (is_well_formed change.now) }
        requires alone { self.old.view.session.held ≡ None }
        requires ready { IsReady self.old.journal (D.state disk.old) }
        ensures took { IfOk result (Became refusing self.old (judging self.old.view change.now) (made_by (judging self.old.view change.now).said (change.now ∷ [])) self.old.view self.new) }
        ensures keeps { (es : List Entry) → LeavesNow (log_of D.state D.left_since) es disk.old
            → KeepsFirst (log_of D.state D.left_since) es (lines_in (appended_to self.old.journal.end (made_by (judging self.old.view change.now).said (change.now ∷ [])))) disk.old disk.new result }
        ensures ready { OnOk result (IsReady self.new.journal (D.state disk.new)) }
        ensures disk { LineBlamesDisk ((D.state disk.old).faults) ((D.state disk.new).faults) result }
        ensures only { IfErr result (λ e. (e ≡ LineStop.DiskFault) ⊎ (e ≡ LineStop.Stopped Stop.NoMemory)) }
        ensures rises { steps.old ≤ steps.new }
        ensures within { IsWithin (session_limit.limit_of self.old.view.session change.now) steps.old steps.new }
    {
        let view = &mut self.view;
        match view.session.propose_change(alloc, change, steps) {
            Ok(script) => match settle(
                alloc,
                &mut view.session,
                &mut self.journal,
                disk,
                from_ref(change),
            ) {
                Ok(true) => Ok(Taken::Made(script)),
                Ok(false) => Ok(Taken::Full),
                Err(stop) => Err(stop),
            },
            Err(refused) => match refused_fields(alloc, change, refused) {
                Ok(fields) => Ok(Taken::Refused(fields)),
                Err(NoMemory) => Err(LineStop::Stopped(Stop::NoMemory)),
            },
        }
    }

    // Keeps the changes of the open group and makes them, or refuses them. The group is closed.
    fn take_group<D: Disk, L: Ledger>(
        &mut self,
        alloc: Global,
        disk: &mut D,
        steps: &mut Steps<L>,
    ) -> Result<Taken, LineStop>
        requires open_group { is_some self.old.view.session.held ≡ true }
        requires ready { IsReady self.old.journal (D.state disk.old) }
        ensures took { IfOk result (Became giving_up self.old (ending_group self.old.view) (made_by (ending_group self.old.view).said (unwrap_or self.old.view.session.held []))
            (record self.old.view { session = closed self.old.view.session }) self.new) }
        ensures keeps { (es : List Entry) → LeavesNow (log_of D.state D.left_since) es disk.old
            → KeepsFirst (log_of D.state D.left_since) es (lines_in (appended_to self.old.journal.end (made_by (ending_group self.old.view).said (unwrap_or self.old.view.session.held []))))
            disk.old disk.new result }
        ensures ready { OnOk result (IsReady self.new.journal (D.state disk.new)) }
        ensures disk { LineBlamesDisk ((D.state disk.old).faults) ((D.state disk.new).faults) result }
        ensures only { IfErr result (λ e. (e ≡ LineStop.DiskFault) ⊎ (e ≡ LineStop.Stopped Stop.NoMemory)) }
        ensures rises { steps.old ≤ steps.new }
    {
        let view = &mut self.view;
        let Ok(group) = copies(alloc, view.session.held_changes()) else {
            return Err(LineStop::Stopped(Stop::NoMemory));
        };
        match view.session.propose_group(alloc, steps) {
            Ok(script) => match settle(
                alloc,
                &mut view.session,
                &mut self.journal,
                disk,
                group.as_slice(),
            ) {
                Ok(true) => {
                    view.broken = 0;
                    Ok(Taken::Made(script))
                }
                Ok(false) => Ok(Taken::Full),
                Err(stop) => Err(stop),
            },
            Err(fault) => match fault_fields(alloc, fault) {
                Ok(fields) => Ok(Taken::Refused(fields)),
                Err(NoMemory) => Err(LineStop::Stopped(Stop::NoMemory)),
            },
        }
    }

    // Answers a change, where no group is open.
    fn make_change<K: Sink, D: Disk, L: Ledger>(
        &mut self,
        alloc: Global,
        output: &mut K,
        disk: &mut D,
        change: &Change,
        steps: &mut Steps<L>,
    ) -> Result<Option<Verdict>, LineStop>
        requires formed { IsTrue (is_well_formed change.now) }
        requires alone { self.old.view.session.held ≡ None }
        requires ready { IsReady self.old.journal (D.state disk.old) }
        ensures acts { (s : _) → Acts D.state D.left_since self.old (judging self.old.view change.now) (made_by (judging self.old.view change.now).said (change.now ∷ [])) disk.old disk.new
            (world_of s (K.state output.old)) (world_of s (K.state output.new)) self.new result }
        ensures rises { steps.old ≤ steps.new }
        ensures within { IsWithin (session_limit.limit_of self.old.view.session change.now) steps.old steps.new }
    {
        match self.take_change(alloc, disk, change, steps) {
            Ok(Taken::Made(script)) => said(print_script(alloc, output, &script)),
            Ok(Taken::Refused(fields)) => said(self.view.refuse(alloc, output, fields)),
            Ok(Taken::Full) => Ok(Some(Verdict::JournalFull)),
            Err(stop) => Err(stop),
        }
    }

    // Answers the end of the open group, in which no line was refused.
    fn make_group<K: Sink, D: Disk, L: Ledger>(
        &mut self,
        alloc: Global,
        output: &mut K,
        disk: &mut D,
        steps: &mut Steps<L>,
    ) -> Result<Option<Verdict>, LineStop>
        requires open_group { is_some self.old.view.session.held ≡ true }
        requires ready { IsReady self.old.journal (D.state disk.old) }
        ensures acts { (s : _) → Acts D.state D.left_since self.old (ending_group self.old.view) (made_by (ending_group self.old.view).said (unwrap_or self.old.view.session.held [])) disk.old disk.new
            (world_of s (K.state output.old)) (world_of s (K.state output.new)) self.new result }
        ensures rises { steps.old ≤ steps.new }
    {
        match self.take_group(alloc, disk, steps) {
            Ok(Taken::Made(lines)) => said(print_script(alloc, output, &lines)),
            Ok(Taken::Refused(fields)) => said(self.view.refuse_group(alloc, output, fields)),
            Ok(Taken::Full) => Ok(Some(Verdict::JournalFull)),
            Err(stop) => Err(stop),
        }
    }

    // Answers the row of a line.
    fn row<F: Folders, K: Sink, D: Disk, L: Ledger>(
        &mut self,
        alloc: Global,
        store: &mut F,
        output: &mut K,
        disk: &mut D,
        row: &Row,
        steps: &mut Steps<L>,
    ) -> Result<Option<Verdict>, LineStop>
        requires ready { IsReady self.old.journal (D.state disk.old) }
        ensures acts { Acts D.state D.left_since self.old (by_row syncing_view self.old.view row.now)
            (made_by (by_row syncing_view self.old.view row.now).said (asked_of self.old.view (Ok row.now))) disk.old disk.new
            (world_of (F.state store.old) (K.state output.old)) (world_of (F.state store.new) (K.state output.new)) self.new result }
        ensures rises { steps.old ≤ steps.new }
        ensures within { IsWithin (limits.by_row self.old.view row.now) steps.old steps.new }
    {
        match asked_by_row(alloc, &self.view, row) {
            Ok(Asked::Change(change)) => self.make_change(alloc, output, disk, &change, steps),
            Ok(Asked::Group) => self.make_group(alloc, output, disk, steps),
            Ok(Asked::Sync) => said(self.view.sync_view(alloc, store, output)),
            Ok(Asked::Other) => said(answer_row(alloc, &mut self.view, store, output, row, steps)),
            Err(NoMemory) => Err(LineStop::Stopped(Stop::NoMemory)),
        }
    }

    // Answers a line.
    fn answer<F: Folders, K: Sink, D: Disk, L: Ledger>(
        &mut self,
        alloc: Global,
        store: &mut F,
        output: &mut K,
        disk: &mut D,
        line: &[u8],
        steps: &mut Steps<L>,
    ) -> Result<Option<Verdict>, LineStop>
        requires line { has_feed line.now ≡ false }
        requires ready { IsReady self.old.journal (D.state disk.old) }
        ensures acts { Acts D.state D.left_since self.old (answer self.old.view line.now) (made self.old.view line.now) disk.old disk.new
            (world_of (F.state store.old) (K.state output.old)) (world_of (F.state store.new) (K.state output.new)) self.new result }
        ensures rises { steps.old ≤ steps.new }
        ensures within { IsWithin (limits.limit self.old.view line.now) steps.old steps.new }
    {
        match read_line(alloc, line) {
            Ok(read) => self.row(alloc, store, output, disk, &read, steps),
            Err(LineFault::BadEscape { at }) => match escape_fields(alloc, at) {
                Ok(fields) => said(self.view.refuse(alloc, output, fields)),
                Err(NoMemory) => Err(LineStop::Stopped(Stop::NoMemory)),
            },
            Err(LineFault::NoMemory) => Err(LineStop::Stopped(Stop::NoMemory)),
        }
    }

    // Refuses an open group at the end of the input, and syncs the view's files.
    #[tactic(auto, using(outside::proofs::Following::following))]
    fn end_input<F: Folders, K: Sink>(
        &mut self,
        alloc: Global,
        store: &mut F,
        output: &mut K,
    ) -> Result<(), Stop>
        ensures does { Does (finish self.old).effects (world_of (F.state store.old) (K.state output.old)) (world_of (F.state store.new) (K.state output.new)) result }
        ensures view { OnOk result (self.new.view ≡ end_view self.old.view) }
        ensures no_read { IfErr result (λ e. e ≢ Stop.ReadFault) }
        ensures blames { Blames (world_of (F.state store.old) (K.state output.old)) (world_of (F.state store.new) (K.state output.new)) result }
    {
        end_group(alloc, &mut self.view, output)?;
        self.view.write_named(alloc, store, output)
    }
}

// The answer to a line behind a call.
fn said(done: Result<(), Stop>) -> Result<Option<Verdict>, LineStop>
    ensures { result ≡ said done }
{
    match done {
        Ok(()) => Ok(None),
        Err(stop) => Err(LineStop::Stopped(stop)),
    }
}

impl<D: Disk> LineHandler<D> for JournalView {
    ghost use Rattle.std.specs.Prelude.{true};
    ghost use Rattle.journal_log.specs.Logs.{log_of, IsReady};
    ghost use Rattle.journal_answers.specs.Answers.{step, note, finish};
    ghost use Rattle.journal_answers.specs.Limits.{limit};

    ghost step = { step };

    ghost log = { log_of D.state D.left_since };

    ghost note = { note };

    ghost ready = { λ f disk. IsReady f.journal (D.state disk) };

    ghost limit = { limit };

    ghost counts = { true };

    ghost finish = { finish };

    fn line<F: Folders, K: Sink, L: Ledger>(
        &mut self,
        alloc: Global,
        store: &mut F,
        output: &mut K,
        disk: &mut D,
        line: &[u8],
        steps: &mut Steps<L>,
    ) -> Result<Option<Verdict>, LineStop> {
        self.answer(alloc, store, output, disk, line, steps)
    }

    fn end<F: Folders, K: Sink, L: Ledger>(
        &mut self,
        alloc: Global,
        store: &mut F,
        output: &mut K,
        _steps: &mut Steps<L>,
    ) -> Result<Verdict, Stop> {
        self.end_input(alloc, store, output)?;
        if self.view.some_refused {
            Ok(Verdict::SomeRefused)
        } else {
            Ok(Verdict::Done)
        }
    }
}
