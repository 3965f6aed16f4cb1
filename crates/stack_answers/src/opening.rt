//! Opens a stack.
ghost use Rattle.std.specs.Prelude.{◌≡◌, ◌≤◌, List, [], Some, None, IfOk, length, map};
ghost use Rattle.outside.specs.Tree.{Tree};
ghost use Rattle.outside.specs.Effects.{world_of};
ghost use Rattle.outside.specs.Blame.{Blames};
ghost use Rattle.csv_catalog.specs.FileFaults.{first_repeated};
ghost use Rattle.view_def.specs.Query.{Query};
ghost use Rattle.course.specs.Idle.{IdleUnread};
ghost use Rattle.view_stages.specs.Stages.{DefinitionOrRefusal, loaded_or_refused};
ghost use Rattle.stack_levels.specs.Levels.{opening_refusal};
ghost use Rattle.schema_model.specs.Catalogue.{CatalogueValue};
ghost use Rattle.stack_levels.specs.Opening.{defined_views, AreFresh};
ghost use Rattle.stack_levels.specs.States.{AreLevels};
ghost use Rattle.stack_answers.specs.Definitions.{AreDefinitions};
ghost use Rattle.stack_answers.specs.Opening.{opening, opened, with_databases, with_catalogue, with_levels};
ghost use Rattle.stack_answers.specs.Steps.{Opens, IsRefusal};

use crate::definitions::{Defined, databases_of, read_definitions, twice_fields};
use crate::open_stack::OpenStack;
use course::Verdict;
use csv_catalog::first_repeated;
use outside::{Folders, Sink, Stop};
use schema_model::Catalogue;
use ss_print::{refuse, refuse_level};
use ss_text::{NoMemory, Seed, Steps, Text};
use stack_levels::{Levels, OpenFault};
use std::alloc::Global;
use std::sync::ledger::Ledger;
use view_stages::{Definition, Loading, load_sources};

/// What an opening gives: an open stack, or the end of the run.
#[derive(Drop)]
pub(crate) enum Opened {
    Open(OpenStack),
    Ended(Verdict),
}

/// Opens the views of these names over one another: reads what they stand on, writes the folder of each and prints that it
/// did.
#[tactic(auto, using(outside::proofs::Following::following, crate::proofs::OpeningLemmas::nothing_opened, outside::proofs::ReadingLemmas::only_read_then, outside::proofs::ReadingLemmas::only_read_nothing, course::proofs::IdleLemmas::idle_read, course::proofs::IdleLemmas::idle_print, course::proofs::IdleLemmas::idle_later))]
pub(crate) fn open<F: Folders, K: Sink, L: Ledger>(
    alloc: Global,
    store: &mut F,
    output: &mut K,
    names: &[Text],
    steps: &mut Steps<L>,
) -> Result<Opened, Stop>
    requires { 1 ≤ length names.now }
    ensures opens { (t : Tree) (ds : List DefinitionOrRefusal) → (F.state store.old).tree ≡ Some t → AreDefinitions t names.now ds
        → Opens (opening t ds) (world_of (F.state store.old) (K.state output.old)) (world_of (F.state store.new) (K.state output.new)) result }
    ensures refused { IfOk result IsRefusal }
    ensures idle { IdleUnread result (world_of (F.state store.old) (K.state output.old)) (world_of (F.state store.new) (K.state output.new)) }
    ensures blames { Blames (world_of (F.state store.old) (K.state output.old)) (world_of (F.state store.new) (K.state output.new)) result }
    ensures steps { steps.new ≡ steps.old }
{
    match read_definitions(alloc, store, names)? {
        Defined::Refused(fields) => {
            refuse(alloc, output, fields)?;
            Ok(Opened::Ended(Verdict::BadDefinition))
        }
        Defined::Accepted(definitions) => {
            let opened = open_views(alloc, store, output, definitions, steps)?;
            Ok(opened)
        }
    }
}

// Opens views over one another, whose view databases are to be distinct.
#[tactic(auto, using(outside::proofs::Following::following, crate::proofs::OpeningLemmas::nothing_opened, course::proofs::IdleLemmas::idle_print))]
fn open_views<F: Folders, K: Sink, L: Ledger>(
    alloc: Global,
    store: &mut F,
    output: &mut K,
    definitions: Vec<Definition>,
    steps: &mut Steps<L>,
) -> Result<Opened, Stop>
    requires { 1 ≤ length definitions.items }
    ensures opens { (t : Tree) → (F.state store.old).tree ≡ Some t
        → Opens (with_databases t (defined_views definitions.items) (first_repeated (map (λ (q : Query). q.view_db) (defined_views definitions.items))))
        (world_of (F.state store.old) (K.state output.old)) (world_of (F.state store.new) (K.state output.new)) result }
    ensures refused { IfOk result IsRefusal }
    ensures idle { IdleUnread result (world_of (F.state store.old) (K.state output.old)) (world_of (F.state store.new) (K.state output.new)) }
    ensures blames { Blames (world_of (F.state store.old) (K.state output.old)) (world_of (F.state store.new) (K.state output.new)) result }
    ensures steps { steps.new ≡ steps.old }
{
    match repeated_database(alloc, store.seed(), &definitions)? {
        Some(db) => {
            let fields = twice_fields(alloc, &db)?;
            refuse(alloc, output, fields)?;
            Ok(Opened::Ended(Verdict::BadDefinition))
        }
        None => {
            let opened = open_sources(alloc, store, output, definitions, steps)?;
            Ok(opened)
        }
    }
}

// The view database at the first place whose view database stands earlier too.
fn repeated_database(
    alloc: Global,
    seed: Seed,
    definitions: &[Definition],
) -> Result<Option<Text>, NoMemory>
    ensures { IfOk result (λ db. db ≡ first_repeated (map (λ (q : Query). q.view_db) (defined_views definitions.now))) }
{
    let databases = databases_of(alloc, definitions)?;
    first_repeated(alloc, seed, &databases)
}

// Opens views over one another, the lowest over the source relations.
#[tactic(auto, using(outside::proofs::Following::following, crate::proofs::OpeningLemmas::nothing_opened, outside::proofs::ReadingLemmas::only_read_then, outside::proofs::ReadingLemmas::only_read_nothing, course::proofs::IdleLemmas::idle_read, course::proofs::IdleLemmas::idle_print, course::proofs::IdleLemmas::idle_later))]
fn open_sources<F: Folders, K: Sink, L: Ledger>(
    alloc: Global,
    store: &mut F,
    output: &mut K,
    definitions: Vec<Definition>,
    steps: &mut Steps<L>,
) -> Result<Opened, Stop>
    requires { 1 ≤ length definitions.items }
    ensures opens { (t : Tree) → (F.state store.old).tree ≡ Some t
        → Opens (with_catalogue t (defined_views definitions.items) (loaded_or_refused t)) (world_of (F.state store.old) (K.state output.old))
        (world_of (F.state store.new) (K.state output.new)) result }
    ensures refused { IfOk result IsRefusal }
    ensures idle { IdleUnread result (world_of (F.state store.old) (K.state output.old)) (world_of (F.state store.new) (K.state output.new)) }
    ensures blames { Blames (world_of (F.state store.old) (K.state output.old)) (world_of (F.state store.new) (K.state output.new)) result }
    ensures steps { steps.new ≡ steps.old }
{
    match load_sources(alloc, store)? {
        Loading::Refused(fields) => {
            refuse(alloc, output, fields)?;
            Ok(Opened::Ended(Verdict::BadCatalogue))
        }
        Loading::Catalogue(catalogue) => {
            let opened = open_levels(alloc, store, output, definitions, catalogue, steps)?;
            Ok(opened)
        }
    }
}

// Opens views over one another, the lowest over a catalogue.
#[tactic(auto, using(outside::proofs::Following::following, crate::proofs::OpeningLemmas::nothing_opened, course::proofs::IdleLemmas::idle_print))]
fn open_levels<F: Folders, K: Sink, L: Ledger>(
    alloc: Global,
    store: &mut F,
    output: &mut K,
    definitions: Vec<Definition>,
    catalogue: Catalogue,
    steps: &mut Steps<L>,
) -> Result<Opened, Stop>
    requires { 1 ≤ length definitions.items }
    ensures opens { (t : Tree) → (F.state store.old).tree ≡ Some t
        → Opens (with_levels t (defined_views definitions.items) catalogue.databases (opening_refusal catalogue.databases (defined_views definitions.items)))
        (world_of (F.state store.old) (K.state output.old)) (world_of (F.state store.new) (K.state output.new)) result }
    ensures refused { IfOk result IsRefusal }
    ensures idle { IdleUnread result (world_of (F.state store.old) (K.state output.old)) (world_of (F.state store.new) (K.state output.new)) }
    ensures blames { Blames (world_of (F.state store.old) (K.state output.old)) (world_of (F.state store.new) (K.state output.new)) result }
    ensures steps { steps.new ≡ steps.old }
{
    match stack_levels::open(alloc, catalogue, definitions, steps) {
        Ok(levels) => {
            let opened = fill_levels(alloc, store, output, levels)?;
            Ok(opened)
        }
        Err(OpenFault::Refused(refusal)) => {
            refuse_level(alloc, output, refusal.level, refusal.fields)?;
            Ok(Opened::Ended(Verdict::NoView))
        }
        Err(OpenFault::NoMemory) => Err(Stop::NoMemory),
    }
}

// The stack of levels that were just opened, whose folders are written.
fn fill_levels<F: Folders, K: Sink>(
    alloc: Global,
    store: &mut F,
    output: &mut K,
    levels: Levels,
) -> Result<Opened, Stop>
    requires { AreLevels levels }
    ensures opens { (t : Tree) (c : CatalogueValue) (qs : List Query) → (F.state store.old).tree ≡ Some t → AreFresh levels c qs
        → Opens (opened t qs c) (world_of (F.state store.old) (K.state output.old)) (world_of (F.state store.new) (K.state output.new)) result }
    ensures refused { IfOk result IsRefusal }
    ensures idle { IdleUnread result (world_of (F.state store.old) (K.state output.old)) (world_of (F.state store.new) (K.state output.new)) }
    ensures blames { Blames (world_of (F.state store.old) (K.state output.old)) (world_of (F.state store.new) (K.state output.new)) result }
{
    let stack = OpenStack::of(levels);
    match stack.fill_folders(alloc, store, output) {
        Ok(()) => Ok(Opened::Open(stack)),
        Err(stop) => {
            drop(stack);
            Err(stop)
        }
    }
}
