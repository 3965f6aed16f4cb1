//! Opens a view.
ghost use Rattle.std.specs.Prelude.{◌≡◌, Some, IfOk};
ghost use Rattle.outside.specs.Effects.{world_of};
ghost use Rattle.outside.specs.Tree.{Tree};
ghost use Rattle.outside.specs.Blame.{Blames};
ghost use Rattle.view_def.specs.Query.{query_of};
ghost use Rattle.view_stages.specs.Stages.{refusal_of, loaded_or_refused};
ghost use Rattle.view_stages.specs.Stages.{DefinitionOrRefusal};
ghost use Rattle.view_stages.specs.Opening.{IsDefinition, definition_bytes, opening, with_catalogue, with_view};
ghost use Rattle.view_opening.specs.Opens.{Opens, Views, IsFresh, IsRefusal};
ghost use Rattle.course.specs.Idle.{IdleUnread};

use course::Verdict;
use opened_view::{OpenView, fault_fields};
use outside::{Folders, Sink, Stop};
use schema_model::Catalogue;
use ss_print::refuse;
use ss_text::{NoMemory, Row, Steps, Text};
use std::alloc::Global;
use std::sync::ledger::Ledger;
use view_session::Session;
use view_stages::{Definition, Loading, Understood, load_sources, read_definition};

/// What an opening gives: an open view, or the end of the run.
#[derive(Drop)]
pub enum Opened {
    Open(OpenView),
    Ended(Verdict),
}

/// What a view gives over a catalogue: it can be opened, or is refused with these fields.
#[derive(Drop)]
pub enum Viewing {
    View(OpenView),
    Refused(Row),
}

/// Opens the view of this name: reads what it stands on, writes its folder and prints that it did.
#[tactic(auto, using(outside::proofs::Following::following, crate::proofs::OpeningLemmas::nothing_opened, outside::proofs::ReadingLemmas::only_read_then, outside::proofs::ReadingLemmas::only_read_nothing, course::proofs::IdleLemmas::idle_read, course::proofs::IdleLemmas::idle_print, course::proofs::IdleLemmas::idle_later))]
pub fn open<F: Folders, K: Sink, L: Ledger>(
    alloc: Global,
    store: &mut F,
    output: &mut K,
    name: &Text,
    steps: &mut Steps<L>,
) -> Result<Opened, Stop>
    ensures opens { (t : Tree) (d : DefinitionOrRefusal) → (F.state store.old).tree ≡ Some t → IsDefinition name.now (definition_bytes t name.now) d
        → Opens (opening t d) (world_of (F.state store.old) (K.state output.old)) (world_of (F.state store.new) (K.state output.new)) result }
    ensures refused { IfOk result IsRefusal }
    ensures fresh { IfOk result IsFresh }
    ensures idle { IdleUnread result (world_of (F.state store.old) (K.state output.old)) (world_of (F.state store.new) (K.state output.new)) }
    ensures blames { Blames (world_of (F.state store.old) (K.state output.old)) (world_of (F.state store.new) (K.state output.new)) result }
    ensures steps { steps.new ≡ steps.old }
{
    match read_definition(alloc, store, name)? {
        Understood::Refused(fields) => {
            refuse(alloc, output, fields)?;
            Ok(Opened::Ended(Verdict::BadDefinition))
        }
        Understood::Accepted(definition) => {
            let opened = open_view(alloc, store, output, definition, steps)?;
            Ok(opened)
        }
    }
}

// Opens a view over the source relations.
#[tactic(auto, using(outside::proofs::Following::following, crate::proofs::OpeningLemmas::nothing_opened, outside::proofs::ReadingLemmas::only_read_then, outside::proofs::ReadingLemmas::only_read_nothing, course::proofs::IdleLemmas::idle_read, course::proofs::IdleLemmas::idle_print, course::proofs::IdleLemmas::idle_later))]
fn open_view<F: Folders, K: Sink, L: Ledger>(
    alloc: Global,
    store: &mut F,
    output: &mut K,
    definition: Definition,
    steps: &mut Steps<L>,
) -> Result<Opened, Stop>
    ensures opens { (t : Tree) → (F.state store.old).tree ≡ Some t
        → Opens (with_catalogue t (query_of definition.view.value) (loaded_or_refused t)) (world_of (F.state store.old) (K.state output.old))
        (world_of (F.state store.new) (K.state output.new)) result }
    ensures refused { IfOk result IsRefusal }
    ensures fresh { IfOk result IsFresh }
    ensures idle { IdleUnread result (world_of (F.state store.old) (K.state output.old)) (world_of (F.state store.new) (K.state output.new)) }
    ensures blames { Blames (world_of (F.state store.old) (K.state output.old)) (world_of (F.state store.new) (K.state output.new)) result }
    ensures steps { steps.new ≡ steps.old }
{
    match load_sources(alloc, store)? {
        Loading::Refused(fields) => {
            refuse(alloc, output, fields)?;
            Ok(Opened::Ended(Verdict::BadCatalogue))
        }
        Loading::Catalogue(catalogue) => {
            let opened = open_session(alloc, store, output, definition, catalogue, steps)?;
            Ok(opened)
        }
    }
}

// Opens a view over a catalogue.
#[tactic(auto, using(outside::proofs::Following::following, crate::proofs::OpeningLemmas::nothing_opened, crate::proofs::OpeningLemmas::views_fresh, outside::proofs::ReadingLemmas::only_read_then, outside::proofs::ReadingLemmas::only_read_nothing, course::proofs::IdleLemmas::idle_read, course::proofs::IdleLemmas::idle_print, course::proofs::IdleLemmas::idle_later))]
fn open_session<F: Folders, K: Sink, L: Ledger>(
    alloc: Global,
    store: &mut F,
    output: &mut K,
    definition: Definition,
    catalogue: Catalogue,
    steps: &mut Steps<L>,
) -> Result<Opened, Stop>
    ensures opens { (t : Tree) → (F.state store.old).tree ≡ Some t
        → Opens (with_view t (query_of definition.view.value) catalogue.databases (refusal_of catalogue.databases (query_of definition.view.value)))
        (world_of (F.state store.old) (K.state output.old)) (world_of (F.state store.new) (K.state output.new)) result }
    ensures refused { IfOk result IsRefusal }
    ensures fresh { IfOk result IsFresh }
    ensures idle { IdleUnread result (world_of (F.state store.old) (K.state output.old)) (world_of (F.state store.new) (K.state output.new)) }
    ensures blames { Blames (world_of (F.state store.old) (K.state output.old)) (world_of (F.state store.new) (K.state output.new)) result }
    ensures steps { steps.new ≡ steps.old }
{
    match view_over(alloc, definition, catalogue, steps)? {
        Viewing::Refused(fields) => {
            refuse(alloc, output, fields)?;
            Ok(Opened::Ended(Verdict::NoView))
        }
        Viewing::View(view) => match view.fill_folder(alloc, store, output) {
            Ok(()) => Ok(Opened::Open(view)),
            Err(stop) => {
                drop(view);
                Err(stop)
            }
        },
    }
}

/// A view over a catalogue, whose folder is not synced yet.
#[tactic(auto, using(view_stages::proofs::StageLemmas::not_refused, crate::proofs::OpeningLemmas::refused_views))]
pub fn view_over<L: Ledger>(
    alloc: Global,
    definition: Definition,
    catalogue: Catalogue,
    steps: &mut Steps<L>,
) -> Result<Viewing, NoMemory>
    ensures views { IfOk result (λ r. Views r (query_of definition.view.value) catalogue.databases (refusal_of catalogue.databases (query_of definition.view.value))) }
    ensures steps { steps.new ≡ steps.old }
{
    let Definition { text, view } = definition;
    drop(text);
    let view_db = view.view_db.copy()?;
    match Session::open(alloc, catalogue, view, steps) {
        Ok(session) => {
            let view = OpenView::of(alloc, session, view_db)?;
            Ok(Viewing::View(view))
        }
        Err(fault) => {
            drop(view_db);
            let fields = fault_fields(alloc, fault)?;
            Ok(Viewing::Refused(fields))
        }
    }
}
