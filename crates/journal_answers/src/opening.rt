//! Opens a view with a journal.
ghost use Rattle.std.specs.Prelude.{◌≡◌, ◌≤◌, false, Some, Ok, IfOk};
ghost use Rattle.outside.specs.Counts.{Rose};
ghost use Rattle.outside.specs.Tree.{Tree};
ghost use Rattle.outside.specs.Effects.{world_of};
ghost use Rattle.outside.specs.Blame.{Blames};
ghost use Rattle.disk.specs.Disk.{Content};
ghost use Rattle.disk.specs.Moments.{Elapses};
ghost use Rattle.view_def.specs.Query.{query_of};
ghost use Rattle.journal_log.specs.Replay.{replayed};
ghost use Rattle.course.specs.Idle.{IdleUnread};
ghost use Rattle.view_stages.specs.Stages.{DefinitionOrRefusal, loaded_or_refused};
ghost use Rattle.view_stages.specs.Opening.{IsDefinition, definition_bytes};
ghost use Rattle.journal_answers.specs.Opening.{opening, with_catalogue, with_journal, with_replay};
ghost use Rattle.journal_answers.specs.Steps.{Opens, HasJournal, IsReadyOn, IsRefusal};

use crate::fields::journal_fields;
use crate::view::JournalView;
use change_journal::Journal;
use course::Verdict;
use disk::Disk;
use journal_log::{ReplayFault, replay};
use outside::{Folders, Sink, Stop};
use schema_model::Catalogue;
use ss_print::refuse;
use ss_text::{Steps, Text};
use std::alloc::Global;
use std::sync::ledger::Ledger;
use view_opening::{Viewing, view_over};
use view_stages::{Definition, Loading, Understood, load_sources, read_definition};

/// What an opening gives: an open view with its journal, the end of the run, or that the disk failed.
#[derive(Drop)]
pub(crate) enum Opened {
    Open(JournalView),
    Ended(Verdict),
    HeldUp,
}

/// Opens the view of this name: reads what it stands on and the journal, makes the changes of the journal, writes the view's
/// folder and prints that it did. Nothing is written or printed before the journal was read to its end, and nothing is written
/// on the disk.
#[tactic(auto, using(outside::proofs::Following::following, crate::proofs::OpeningLemmas::nothing_opened, outside::proofs::ReadingLemmas::only_read_then, outside::proofs::ReadingLemmas::only_read_nothing, course::proofs::IdleLemmas::idle_read, course::proofs::IdleLemmas::idle_print, course::proofs::IdleLemmas::idle_later))]
pub(crate) fn open<F: Folders, K: Sink, D: Disk, L: Ledger>(
    alloc: Global,
    store: &mut F,
    output: &mut K,
    disk: &mut D,
    name: &Text,
    steps: &mut Steps<L>,
) -> Result<Opened, Stop>
    ensures opens { (t : Tree) (held : Content) (d : DefinitionOrRefusal) → (F.state store.old).tree ≡ Some t → (D.state disk.old).content ≡ Some held
        → IsDefinition name.now (definition_bytes t name.now) d
        → Opens (opening t held.bytes d) (world_of (F.state store.old) (K.state output.old)) (world_of (F.state store.new) (K.state output.new)) result }
    ensures refused { IfOk result IsRefusal }
    ensures ready { IfOk result (IsReadyOn (D.state disk.new)) }
    ensures time { Elapses (D.state disk.old) (D.state disk.new) (D.left_since disk.old) (D.left_since disk.new) }
    ensures content { (D.state disk.new).content ≡ (D.state disk.old).content }
    ensures failed { result ≡ Ok Opened.HeldUp → Rose ((D.state disk.old).faults) ((D.state disk.new).faults) }
    ensures steady { (D.state disk.old).faults ≤ (D.state disk.new).faults }
    ensures idle { IdleUnread result (world_of (F.state store.old) (K.state output.old)) (world_of (F.state store.new) (K.state output.new)) }
    ensures blames { Blames (world_of (F.state store.old) (K.state output.old)) (world_of (F.state store.new) (K.state output.new)) result }
    ensures steps { steps.new ≡ steps.old }
{
    match read_definition(alloc, store, name)? {
        Understood::Refused(fields) => {
            refuse(alloc, output, fields)?;
            Ok(Opened::Ended(Verdict::BadDefinition))
        }
        Understood::Accepted(definition) => {
            let opened = open_defined(alloc, store, output, disk, definition, steps)?;
            Ok(opened)
        }
    }
}

// Opens a view over the source relations and the changes of the journal.
#[tactic(auto, using(outside::proofs::Following::following, crate::proofs::OpeningLemmas::nothing_opened, outside::proofs::ReadingLemmas::only_read_then, outside::proofs::ReadingLemmas::only_read_nothing, course::proofs::IdleLemmas::idle_read, course::proofs::IdleLemmas::idle_print, course::proofs::IdleLemmas::idle_later))]
fn open_defined<F: Folders, K: Sink, D: Disk, L: Ledger>(
    alloc: Global,
    store: &mut F,
    output: &mut K,
    disk: &mut D,
    definition: Definition,
    steps: &mut Steps<L>,
) -> Result<Opened, Stop>
    ensures opens { (t : Tree) (held : Content) → (F.state store.old).tree ≡ Some t → (D.state disk.old).content ≡ Some held
        → Opens (with_catalogue t held.bytes (query_of definition.view.value) (loaded_or_refused t)) (world_of (F.state store.old) (K.state output.old))
        (world_of (F.state store.new) (K.state output.new)) result }
    ensures refused { IfOk result IsRefusal }
    ensures ready { IfOk result (IsReadyOn (D.state disk.new)) }
    ensures time { Elapses (D.state disk.old) (D.state disk.new) (D.left_since disk.old) (D.left_since disk.new) }
    ensures content { (D.state disk.new).content ≡ (D.state disk.old).content }
    ensures failed { result ≡ Ok Opened.HeldUp → Rose ((D.state disk.old).faults) ((D.state disk.new).faults) }
    ensures steady { (D.state disk.old).faults ≤ (D.state disk.new).faults }
    ensures idle { IdleUnread result (world_of (F.state store.old) (K.state output.old)) (world_of (F.state store.new) (K.state output.new)) }
    ensures blames { Blames (world_of (F.state store.old) (K.state output.old)) (world_of (F.state store.new) (K.state output.new)) result }
    ensures steps { steps.new ≡ steps.old }
{
    match load_sources(alloc, store)? {
        Loading::Refused(fields) => {
            refuse(alloc, output, fields)?;
            Ok(Opened::Ended(Verdict::BadCatalogue))
        }
        Loading::Catalogue(catalogue) => {
            let opened = open_loaded(alloc, store, output, disk, definition, catalogue, steps)?;
            Ok(opened)
        }
    }
}

// Opens a view over a catalogue and the changes of the journal.
#[tactic(auto, using(outside::proofs::Following::following, crate::proofs::OpeningLemmas::nothing_opened, outside::proofs::ReadingLemmas::only_read_then, outside::proofs::ReadingLemmas::only_read_nothing, course::proofs::IdleLemmas::idle_read, course::proofs::IdleLemmas::idle_print, course::proofs::IdleLemmas::idle_later, crate::proofs::OpeningLemmas::is_ready_on))]
fn open_loaded<F: Folders, K: Sink, D: Disk, L: Ledger>(
    alloc: Global,
    store: &mut F,
    output: &mut K,
    disk: &mut D,
    definition: Definition,
    mut catalogue: Catalogue,
    steps: &mut Steps<L>,
) -> Result<Opened, Stop>
    ensures opens { (t : Tree) (held : Content) → (F.state store.old).tree ≡ Some t → (D.state disk.old).content ≡ Some held
        → Opens (with_journal t (query_of definition.view.value) (replayed catalogue.databases held.bytes)) (world_of (F.state store.old) (K.state output.old))
        (world_of (F.state store.new) (K.state output.new)) result }
    ensures refused { IfOk result IsRefusal }
    ensures ready { IfOk result (IsReadyOn (D.state disk.new)) }
    ensures time { Elapses (D.state disk.old) (D.state disk.new) (D.left_since disk.old) (D.left_since disk.new) }
    ensures content { (D.state disk.new).content ≡ (D.state disk.old).content }
    ensures failed { result ≡ Ok Opened.HeldUp → Rose ((D.state disk.old).faults) ((D.state disk.new).faults) }
    ensures steady { (D.state disk.old).faults ≤ (D.state disk.new).faults }
    ensures idle { IdleUnread result (world_of (F.state store.old) (K.state output.old)) (world_of (F.state store.new) (K.state output.new)) }
    ensures blames { Blames (world_of (F.state store.old) (K.state output.old)) (world_of (F.state store.new) (K.state output.new)) result }
    ensures steps { steps.new ≡ steps.old }
{
    match replay(alloc, disk, &mut catalogue) {
        Ok(journal) => open_replayed(alloc, store, output, definition, catalogue, journal, steps),
        Err(ReplayFault::Refused(refusal)) => {
            let fields = journal_fields(alloc, refusal)?;
            refuse(alloc, output, fields)?;
            Ok(Opened::Ended(Verdict::BadCatalogue))
        }
        Err(ReplayFault::DiskFault) => Ok(Opened::HeldUp),
        Err(ReplayFault::NoMemory) => Err(Stop::NoMemory),
    }
}

// Opens a view over the catalogue after a journal.
#[tactic(auto, using(outside::proofs::Following::following, crate::proofs::OpeningLemmas::nothing_opened, outside::proofs::ReadingLemmas::only_read_then, outside::proofs::ReadingLemmas::only_read_nothing, course::proofs::IdleLemmas::idle_read, course::proofs::IdleLemmas::idle_print, course::proofs::IdleLemmas::idle_later))]
fn open_replayed<F: Folders, K: Sink, L: Ledger>(
    alloc: Global,
    store: &mut F,
    output: &mut K,
    definition: Definition,
    catalogue: Catalogue,
    journal: Journal,
    steps: &mut Steps<L>,
) -> Result<Opened, Stop>
    ensures opens { (t : Tree) → (F.state store.old).tree ≡ Some t → journal.is_shut ≡ false
        → Opens (with_replay t (query_of definition.view.value) (record { catalogue = catalogue.databases; end = journal.end })) (world_of (F.state store.old) (K.state output.old))
        (world_of (F.state store.new) (K.state output.new)) result }
    ensures refused { IfOk result IsRefusal }
    ensures same { IfOk result (HasJournal journal) }
    ensures idle { IdleUnread result (world_of (F.state store.old) (K.state output.old)) (world_of (F.state store.new) (K.state output.new)) }
    ensures blames { Blames (world_of (F.state store.old) (K.state output.old)) (world_of (F.state store.new) (K.state output.new)) result }
    ensures steps { steps.new ≡ steps.old }
{
    match view_over(alloc, definition, catalogue, steps)? {
        Viewing::Refused(fields) => {
            refuse(alloc, output, fields)?;
            Ok(Opened::Ended(Verdict::NoView))
        }
        Viewing::View(view) => match view.fill_folder(alloc, store, output) {
            Ok(()) => {
                let opened = JournalView::of(view, journal);
                Ok(Opened::Open(opened))
            }
            Err(stop) => {
                drop(view);
                Err(stop)
            }
        },
    }
}
