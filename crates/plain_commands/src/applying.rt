//! The command `apply`.
ghost use Rattle.std.specs.Prelude.{◌≡◌, true, false, List, ℕ, Some, IfOk, IfErr};
ghost use Rattle.outside.specs.Effects.{world_of};
ghost use Rattle.outside.specs.Blame.{Blames};
ghost use Rattle.outside.specs.Tree.{Tree};
ghost use Rattle.course.specs.Answering.{BlamesRun, is_too_long};
ghost use Rattle.view_def.specs.Query.{query_of};
ghost use Rattle.view_meaning.specs.Meaning.{shape_of};
ghost use Rattle.plain_commands.specs.Applying.{step, finish, opening};
ghost use Rattle.view_stages.specs.Stages.{DefinitionOrRefusal};
ghost use Rattle.view_stages.specs.Opening.{IsDefinition, definition_bytes};
ghost use Rattle.plain_commands.specs.Applies.{apply_opening};
ghost use Rattle.course.specs.Statuses.{can_apply};
ghost use Rattle.plain_commands.specs.Steps.{FolderOpens, IsFolderRefusal};
ghost use Rattle.course.specs.Idle.{IdleUnread, IdleRun};
ghost use Rattle.course.specs.Course.{RanBy, RanSome, Took, TookEnough, by_lines, status_of, IsWholeInput};

use crate::lines::Applying;
use crate::opening::{OpenedFolder, open_folder};
use course::{Halt, NoDisk, Verdict, answer_lines};
use outside::{Folders, Sink, Source, Stop};
use ss_print::refuse;
use ss_text::{Steps, Text};
use std::alloc::Global;
use std::sync::ledger::Ledger;
use view_meaning::shape_of;
use view_stages::{Definition, Understood, read_definition};

/// The tables of a view's folder, or the end of the run.
#[derive(Drop)]
pub(crate) enum Folder {
    Open(Applying),
    Ended(Verdict),
}

// Reads the definition of this name and the tables of its view's folder.
#[tactic(auto, using(outside::proofs::Following::following, crate::proofs::ApplyLemmas::nothing_read, outside::proofs::ReadingLemmas::only_read_then, outside::proofs::ReadingLemmas::only_read_nothing, course::proofs::IdleLemmas::idle_read, course::proofs::IdleLemmas::idle_print, course::proofs::IdleLemmas::idle_later))]
fn open<F: Folders, K: Sink>(
    alloc: Global,
    store: &mut F,
    output: &mut K,
    name: &Text,
) -> Result<Folder, Stop>
    ensures opens { (t : Tree) (d : DefinitionOrRefusal) → (F.state store.old).tree ≡ Some t → IsDefinition name.now (definition_bytes t name.now) d
        → FolderOpens (apply_opening t d) (world_of (F.state store.old) (K.state output.old)) (world_of (F.state store.new) (K.state output.new)) result }
    ensures refused { IfOk result IsFolderRefusal }
    ensures idle { IdleUnread result (world_of (F.state store.old) (K.state output.old)) (world_of (F.state store.new) (K.state output.new)) }
    ensures blames { Blames (world_of (F.state store.old) (K.state output.old)) (world_of (F.state store.new) (K.state output.new)) result }
{
    match read_definition(alloc, store, name)? {
        Understood::Refused(fields) => {
            refuse(alloc, output, fields)?;
            Ok(Folder::Ended(Verdict::BadDefinition))
        }
        Understood::Accepted(definition) => {
            let folder = open_tables(alloc, store, output, definition)?;
            Ok(folder)
        }
    }
}

// Reads the tables of the folder of a view.
#[tactic(auto, using(outside::proofs::Following::following, crate::proofs::ApplyLemmas::nothing_read, course::proofs::IdleLemmas::idle_read, crate::proofs::ApplyLemmas::idle_unprinted, crate::proofs::ApplyLemmas::folder_open, crate::proofs::ApplyLemmas::folder_refused, crate::proofs::ApplyLemmas::folder_stopped))]
fn open_tables<F: Folders, K: Sink>(
    alloc: Global,
    store: &mut F,
    output: &mut K,
    definition: Definition,
) -> Result<Folder, Stop>
    ensures opens { (t : Tree) → (F.state store.old).tree ≡ Some t
        → FolderOpens (opening (query_of definition.view.value).view_db (shape_of (query_of definition.view.value)) t)
        (world_of (F.state store.old) (K.state output.old)) (world_of (F.state store.new) (K.state output.new)) result }
    ensures refused { IfOk result IsFolderRefusal }
    ensures idle { IdleUnread result (world_of (F.state store.old) (K.state output.old)) (world_of (F.state store.new) (K.state output.new)) }
    ensures blames { Blames (world_of (F.state store.old) (K.state output.old)) (world_of (F.state store.new) (K.state output.new)) result }
{
    let view_db = definition.view.view_db.copy()?;
    let shape = shape_of(&definition.view)?;
    match open_folder(alloc, store, output, view_db, shape)? {
        OpenedFolder::Open(tables) => Ok(Folder::Open(tables)),
        OpenedFolder::Refused => Ok(Folder::Ended(Verdict::BadCatalogue)),
    }
}

/// Reads the folder of the view of this name, applies the lines of the input to its tables, and writes them at the
/// end. A line that is refused ends the run, and nothing is written. A fault at the end leaves a front of the writes.
#[tactic(auto, using(crate::proofs::ApplyLemmas::opening_ended, crate::proofs::ApplyLemmas::opening_stopped, crate::proofs::ApplyLemmas::opening_drove, crate::proofs::ApplyLemmas::drove_whole, crate::proofs::ApplyLemmas::ended_whole, crate::proofs::ApplyLemmas::ended_enough, course::proofs::DriveLemmas::blamed_later, crate::proofs::ApplyLemmas::some_ended, crate::proofs::ApplyLemmas::some_stopped, crate::proofs::ApplyLemmas::some_drove, course::proofs::DriveLemmas::took_nothing, crate::proofs::ApplyLemmas::refused_can, crate::proofs::ApplyLemmas::stopped_can, course::proofs::IdleLemmas::idle_drove))]
pub fn apply<F: Folders, S: Source, K: Sink, L: Ledger>(
    alloc: Global,
    store: &mut F,
    input: &mut S,
    output: &mut K,
    name: &Text,
    steps: &mut Steps<L>,
) -> Result<Verdict, Halt>
    ensures ran { (t : Tree) (bytes : List ℕ) (d : DefinitionOrRefusal) → (F.state store.old).tree ≡ Some t → S.rest input.old ≡ Some bytes
        → IsDefinition name.now (definition_bytes t name.now) d
        → RanBy (by_lines step finish (apply_opening t d)) bytes (S.rest input.new) (world_of (F.state store.old) (K.state output.old)) (world_of (F.state store.new) (K.state output.new)) result }
    ensures can { can_apply (status_of result) ≡ true }
    ensures some { (t : Tree) (d : DefinitionOrRefusal) → (F.state store.old).tree ≡ Some t → IsDefinition name.now (definition_bytes t name.now) d
        → RanSome (by_lines step finish (apply_opening t d)) (world_of (F.state store.old) (K.state output.old)) (world_of (F.state store.new) (K.state output.new)) result }
    ensures took { (t : Tree) (bytes : List ℕ) (d : DefinitionOrRefusal) → (F.state store.old).tree ≡ Some t → S.rest input.old ≡ Some bytes
        → IsDefinition name.now (definition_bytes t name.now) d
        → IfErr result (λ h. Took (by_lines step finish (apply_opening t d)) bytes (S.rest input.new) (S.last input.new)
        (world_of (F.state store.old) (K.state output.old)) (world_of (F.state store.new) (K.state output.new)) (is_too_long h)) }
    ensures enough { (t : Tree) (bytes : List ℕ) (d : DefinitionOrRefusal) → (F.state store.old).tree ≡ Some t → S.rest input.old ≡ Some bytes
        → IsDefinition name.now (definition_bytes t name.now) d
        → IfOk result (λ _. TookEnough (by_lines step finish (apply_opening t d)) bytes (S.rest input.new) (S.last input.new)) }
    ensures alone { (t : Tree) (d : DefinitionOrRefusal) → (F.state store.old).tree ≡ Some t → IsDefinition name.now (definition_bytes t name.now) d
        → (by_lines step finish (apply_opening t d)).reads ≡ false → input.new ≡ input.old }
    ensures idle { IdleRun result (world_of (F.state store.old) (K.state output.old)) (world_of (F.state store.new) (K.state output.new)) }
    ensures whole { (bytes : List ℕ) → S.rest input.old ≡ Some bytes → IsWholeInput bytes (S.rest input.new) result }
    ensures blames { BlamesRun (S.faults input.old) (S.faults input.new) (world_of (F.state store.old) (K.state output.old)) (world_of (F.state store.new) (K.state output.new)) result }
    ensures steps { steps.new ≡ steps.old }
{
    match open(alloc, store, output, name)? {
        Folder::Open(mut tables) => answer_lines(
            alloc,
            &mut tables,
            store,
            input,
            output,
            &mut NoDisk,
            steps,
        ),
        Folder::Ended(verdict) => Ok(verdict),
    }
}
