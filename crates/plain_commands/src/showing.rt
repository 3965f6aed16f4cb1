//! The command `show`.
ghost use Rattle.std.specs.Prelude.{◌≡◌, true, Some, IfOk};
ghost use Rattle.outside.specs.Effects.{Does, world_of};
ghost use Rattle.outside.specs.Tree.{Tree, files_of};
ghost use Rattle.outside.specs.Blame.{Blames};
ghost use Rattle.view_folder.specs.Files.{view_folder, AreViewFiles};
ghost use Rattle.course.specs.Answering.{Ended, ending};
ghost use Rattle.view_stages.specs.Stages.{DefinitionOrRefusal};
ghost use Rattle.view_stages.specs.Opening.{IsDefinition, definition_bytes, opening, opening_effects, done_at_once};
ghost use Rattle.course.specs.Statuses.{can_show};
ghost use Rattle.course.specs.Course.{verdict_status};
ghost use Rattle.course.specs.Idle.{IdleUnread};

use crate::meant::{Meant, meant_files};
use course::Verdict;
use outside::{Folders, Sink, Stop};
use ss_print::{print_synced, refuse};
use ss_text::Text;
use std::alloc::Global;
use view_folder::{File, folder_of_view, sync_files};

/// Fills the folder of the view of this name with its files, or prints a refusal. A fault leaves a front of what was
/// to be written.
#[tactic(auto, using(outside::proofs::Following::following, outside::proofs::ReadingLemmas::only_read_then, outside::proofs::ReadingLemmas::only_read_nothing, course::proofs::IdleLemmas::idle_read, course::proofs::IdleLemmas::idle_print, course::proofs::IdleLemmas::idle_later, course::proofs::IdleLemmas::refused_can_show, crate::proofs::VerifyLemmas::nothing_ended))]
pub fn show<F: Folders, K: Sink>(
    alloc: Global,
    store: &mut F,
    output: &mut K,
    name: &Text,
) -> Result<Verdict, Stop>
    ensures ended { (t : Tree) (d : DefinitionOrRefusal) → (F.state store.old).tree ≡ Some t → IsDefinition name.now (definition_bytes t name.now) d
        → Ended (ending done_at_once (opening t d)) (world_of (F.state store.old) (K.state output.old)) (world_of (F.state store.new) (K.state output.new)) result }
    ensures can { IfOk result (λ v. can_show (verdict_status v) ≡ true) }
    ensures idle { IdleUnread result (world_of (F.state store.old) (K.state output.old)) (world_of (F.state store.new) (K.state output.new)) }
    ensures blames { Blames (world_of (F.state store.old) (K.state output.old)) (world_of (F.state store.new) (K.state output.new)) result }
{
    match meant_files(alloc, store, name)? {
        Meant::Refused(fields, verdict) => {
            refuse(alloc, output, fields)?;
            Ok(verdict)
        }
        Meant::Files(view_db, files) => {
            fill_folder(alloc, store, output, &view_db, &files)?;
            Ok(Verdict::Done)
        }
    }
}

// Brings the folder of a view to exactly its files, and prints how many were written or removed.
#[tactic(auto, using(outside::proofs::Following::following, outside::proofs::EffectLemmas::partly_more, outside::proofs::EffectLemmas::partly_later, outside::proofs::EffectLemmas::performed_append, course::proofs::IdleLemmas::idle_first, course::proofs::IdleLemmas::idle_print))]
fn fill_folder<F: Folders, K: Sink>(
    alloc: Global,
    store: &mut F,
    output: &mut K,
    view_db: &Text,
    files: &[File],
) -> Result<(), Stop>
    requires { AreViewFiles files.now }
    ensures does { (t : Tree) → (F.state store.old).tree ≡ Some t
        → Does (opening_effects (view_folder view_db.now) files.now (files_of t (view_folder view_db.now))) (world_of (F.state store.old) (K.state output.old))
        (world_of (F.state store.new) (K.state output.new)) result }
    ensures idle { IdleUnread result (world_of (F.state store.old) (K.state output.old)) (world_of (F.state store.new) (K.state output.new)) }
    ensures blames { Blames (world_of (F.state store.old) (K.state output.old)) (world_of (F.state store.new) (K.state output.new)) result }
{
    let folder = folder_of_view(alloc, view_db)?;
    let count = sync_files(alloc, store, &folder, files)?;
    print_synced(alloc, output, count)?;
    Ok(())
}
