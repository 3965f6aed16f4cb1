//! The command `verify`.
ghost use Rattle.std.specs.Prelude.{◌≡◌, true, Some, IfOk};
ghost use Rattle.outside.specs.Effects.{world_of};
ghost use Rattle.outside.specs.Reading.{OnlyRead};
ghost use Rattle.outside.specs.Tree.{Tree};
ghost use Rattle.outside.specs.Blame.{Blames, SinkBlames};
ghost use Rattle.view_folder.specs.Comparison.{comparison};
ghost use Rattle.view_folder.specs.Files.{view_folder};
ghost use Rattle.course.specs.Answering.{Ended};
ghost use Rattle.view_stages.specs.Stages.{DefinitionOrRefusal};
ghost use Rattle.view_stages.specs.Opening.{IsDefinition, definition_bytes};
ghost use Rattle.course.specs.Statuses.{can_show};
ghost use Rattle.course.specs.Course.{verdict_status};
ghost use Rattle.course.specs.Idle.{IdleUnread};
ghost use Rattle.plain_commands.specs.Verifying.{by_comparison, verified};

use crate::meant::{Meant, meant_files};
use course::Verdict;
use outside::{Folders, Sink, Stop};
use ss_print::{print_difference, print_same, refuse};
use ss_text::Text;
use std::alloc::Global;
use view_folder::{Comparison, File, compare, folder_of_view};

/// Compares the folder of the view of this name with the files that are meant, and prints what comes of it. A fault
/// may leave a front of the line.
#[tactic(auto, using(outside::proofs::Following::following, outside::proofs::ReadingLemmas::only_read_then, outside::proofs::ReadingLemmas::only_read_nothing, course::proofs::IdleLemmas::idle_read, course::proofs::IdleLemmas::idle_print, course::proofs::IdleLemmas::idle_later, course::proofs::IdleLemmas::refused_can_show, crate::proofs::VerifyLemmas::nothing_ended))]
pub fn verify<F: Folders, K: Sink>(
    alloc: Global,
    store: &mut F,
    output: &mut K,
    name: &Text,
) -> Result<Verdict, Stop>
    ensures ended { (t : Tree) (d : DefinitionOrRefusal) → (F.state store.old).tree ≡ Some t → IsDefinition name.now (definition_bytes t name.now) d
        → Ended (verified t d) (world_of (F.state store.old) (K.state output.old)) (world_of (F.state store.new) (K.state output.new)) result }
    ensures can { IfOk result (λ v. can_show (verdict_status v) ≡ true) }
    ensures idle { IdleUnread result (world_of (F.state store.old) (K.state output.old)) (world_of (F.state store.new) (K.state output.new)) }
    ensures only_read { OnlyRead (F.state store.old) (F.state store.new) }
    ensures blames { Blames (world_of (F.state store.old) (K.state output.old)) (world_of (F.state store.new) (K.state output.new)) result }
{
    match meant_files(alloc, store, name)? {
        Meant::Refused(fields, verdict) => {
            refuse(alloc, output, fields)?;
            Ok(verdict)
        }
        Meant::Files(view_db, files) => {
            let verdict = compare_folder(alloc, store, output, &view_db, &files)?;
            Ok(verdict)
        }
    }
}

// Compares the folder of a view with these files.
#[tactic(auto, using(outside::proofs::Following::following, outside::proofs::ReadingLemmas::only_read_then, outside::proofs::ReadingLemmas::only_read_nothing, course::proofs::IdleLemmas::idle_read, course::proofs::IdleLemmas::idle_print, course::proofs::IdleLemmas::idle_later, crate::proofs::VerifyLemmas::compared_ends, crate::proofs::VerifyLemmas::nothing_ended))]
fn compare_folder<F: Folders, K: Sink>(
    alloc: Global,
    store: &mut F,
    output: &mut K,
    view_db: &Text,
    files: &[File],
) -> Result<Verdict, Stop>
    ensures ended { (t : Tree) → (F.state store.old).tree ≡ Some t
        → Ended (by_comparison (comparison (view_folder view_db.now) files.now t)) (world_of (F.state store.old) (K.state output.old)) (world_of (F.state store.new) (K.state output.new)) result }
    ensures can { IfOk result (λ v. can_show (verdict_status v) ≡ true) }
    ensures idle { IdleUnread result (world_of (F.state store.old) (K.state output.old)) (world_of (F.state store.new) (K.state output.new)) }
    ensures only_read { OnlyRead (F.state store.old) (F.state store.new) }
    ensures blames { Blames (world_of (F.state store.old) (K.state output.old)) (world_of (F.state store.new) (K.state output.new)) result }
{
    let folder = folder_of_view(alloc, view_db)?;
    let comparison = compare(alloc, store, &folder, files)?;
    print_comparison(alloc, output, comparison)
}

// Prints how a folder compares.
#[tactic(auto, using(outside::proofs::Following::following))]
fn print_comparison<K: Sink>(
    alloc: Global,
    output: &mut K,
    comparison: Comparison,
) -> Result<Verdict, Stop>
    ensures ended { (s : _) → Ended (by_comparison comparison) (world_of s (K.state output.old)) (world_of s (K.state output.new)) result }
    ensures can { IfOk result (λ v. can_show (verdict_status v) ≡ true) }
    ensures blames { SinkBlames (K.state output.old) (K.state output.new) result }
{
    match comparison {
        Comparison::Same { count } => {
            print_same(alloc, output, count)?;
            Ok(Verdict::Done)
        }
        Comparison::Differs { file, held, meant } => {
            print_difference(alloc, output, &file, held, meant)?;
            Ok(Verdict::NoView)
        }
    }
}
