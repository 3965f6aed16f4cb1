//! The files that the folder of a view should hold.
ghost use Rattle.std.specs.Prelude.{◌≡◌, [], Some, IfOk};
ghost use Rattle.outside.specs.Reading.{OnlyRead};
ghost use Rattle.outside.specs.Tree.{Tree};
ghost use Rattle.outside.specs.Effects.{Does, world_of};
ghost use Rattle.outside.specs.Blame.{StoreBlames};
ghost use Rattle.view_def.specs.Query.{query_of};
ghost use Rattle.view_stages.specs.Stages.{DefinitionOrRefusal, loaded_or_refused, refusal_of};
ghost use Rattle.view_stages.specs.Opening.{IsDefinition, definition_bytes};
ghost use Rattle.view_stages.specs.Records.{HasRecords};
ghost use Rattle.plain_commands.specs.Meant.{meant, meant_over, meant_view};
ghost use Rattle.plain_commands.specs.Steps.{meant_of, IsMeantRefusal, AreMeantNamed};

use crate::tables::{Showing, show_tables};
use course::Verdict;
use outside::{Folders, Stop};
use schema_model::Catalogue;
use ss_text::{NoMemory, Row, Text};
use std::alloc::Global;
use view_def::View;
use view_folder::File;
use view_stages::{Loading, Understood, load_sources, read_definition};

/// What is meant by the name of a view: its database and the files of its tables in the order of their labels, or a
/// refusal with these fields, by which the run ends so.
#[derive(Drop)]
pub(crate) enum Meant {
    Files(Text, Vec<File>),
    Refused(Row, Verdict),
}

// The files of the view of this name.
#[tactic(auto, using(outside::proofs::Following::following, outside::proofs::ReadingLemmas::only_read_then, outside::proofs::ReadingLemmas::only_read_nothing))]
pub(crate) fn meant_files<F: Folders>(
    alloc: Global,
    store: &mut F,
    name: &Text,
) -> Result<Meant, Stop>
    ensures told { IfOk result (λ r. (t : Tree) (d : DefinitionOrRefusal) → (F.state store.old).tree ≡ Some t → IsDefinition name.now (definition_bytes t name.now) d → meant_of r ≡ meant t d) }
    ensures refused { IfOk result IsMeantRefusal }
    ensures named { IfOk result AreMeantNamed }
    ensures does { (o : _) → Does [] (world_of (F.state store.old) o) (world_of (F.state store.new) o) result }
    ensures only_read { OnlyRead (F.state store.old) (F.state store.new) }
    ensures blames { StoreBlames (F.state store.old) (F.state store.new) result }
{
    match read_definition(alloc, store, name)? {
        Understood::Refused(fields) => Ok(Meant::Refused(fields, Verdict::BadDefinition)),
        Understood::Accepted(definition) => {
            let meant = files_of_view(alloc, store, &definition.view)?;
            Ok(meant)
        }
    }
}

// The files of a view over the source relations.
#[tactic(auto, using(outside::proofs::Following::following, outside::proofs::ReadingLemmas::only_read_then, outside::proofs::ReadingLemmas::only_read_nothing))]
fn files_of_view<F: Folders>(alloc: Global, store: &mut F, view: &View) -> Result<Meant, Stop>
    requires { HasRecords (query_of view.now) }
    ensures told { IfOk result (λ r. (t : Tree) → (F.state store.old).tree ≡ Some t → meant_of r ≡ meant_over (query_of view.now) (loaded_or_refused t)) }
    ensures refused { IfOk result IsMeantRefusal }
    ensures named { IfOk result AreMeantNamed }
    ensures does { (o : _) → Does [] (world_of (F.state store.old) o) (world_of (F.state store.new) o) result }
    ensures only_read { OnlyRead (F.state store.old) (F.state store.new) }
    ensures blames { StoreBlames (F.state store.old) (F.state store.new) result }
{
    match load_sources(alloc, store)? {
        Loading::Refused(fields) => Ok(Meant::Refused(fields, Verdict::BadCatalogue)),
        Loading::Catalogue(catalogue) => {
            let meant = files_over(alloc, view, &catalogue)?;
            Ok(meant)
        }
    }
}

// The files of a view over a catalogue.
fn files_over(alloc: Global, view: &View, catalogue: &Catalogue) -> Result<Meant, NoMemory>
    requires { HasRecords (query_of view.now) }
    ensures told { IfOk result (λ r. meant_of r ≡ meant_view (query_of view.now) catalogue.now.databases (refusal_of catalogue.now.databases (query_of view.now))) }
    ensures refused { IfOk result IsMeantRefusal }
    ensures named { IfOk result AreMeantNamed }
{
    match show_tables(alloc, catalogue, view)? {
        Showing::Refused(fields) => Ok(Meant::Refused(fields, Verdict::NoView)),
        Showing::Files(files) => {
            let view_db = view.view_db.copy()?;
            Ok(Meant::Files(view_db, files))
        }
    }
}
