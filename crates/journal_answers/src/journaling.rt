//! The command `journal`.
ghost use Rattle.std.specs.Prelude.{◌≡◌, ◌≤◌, true, false, List, ℕ, Some, IfOk, IfErr};
ghost use Rattle.outside.specs.Effects.{world_of};
ghost use Rattle.outside.specs.Tree.{Tree};
ghost use Rattle.disk.specs.Disk.{Content};
ghost use Rattle.tab_lines.specs.Lines.{lines_of};
ghost use Rattle.course.specs.Answering.{BlamesRun, is_too_long};
ghost use Rattle.course.specs.Keeping.{Entry, LeavesNow, BlamesDisk};
ghost use Rattle.journal_log.specs.Logs.{log_of};
ghost use Rattle.view_stages.specs.Stages.{DefinitionOrRefusal};
ghost use Rattle.view_stages.specs.Opening.{IsDefinition, definition_bytes};
ghost use Rattle.opened_view.specs.Limits.{StepsBy};
ghost use Rattle.course.specs.Idle.{IdleRun};
ghost use Rattle.course.specs.Course.{RanSome, Took, TookEnough, by_lines, status_of, IsWholeInput};
ghost use Rattle.journal_answers.specs.Answers.{step, note, finish};
ghost use Rattle.journal_answers.specs.Kept.{RanOver, KeptOpened};
ghost use Rattle.journal_answers.specs.Limits.{limit};
ghost use Rattle.journal_answers.specs.Opening.{opening};
ghost use Rattle.journal_answers.specs.Statuses.{can_journal};

use crate::opening::{Opened, open};
use course::{Halt, Verdict, answer_lines};
use disk::Disk;
use outside::{Folders, Sink, Source};
use ss_text::{Steps, Text};
use std::alloc::Global;
use std::sync::ledger::Ledger;

/// Opens the view of this name over its sources and the changes of the journal on the disk, and answers the lines of the input
/// in turn. Where a call fails or memory runs out, a front of the answers is there, and what was under way may have broken off;
/// where the disk fails or the journal is full, just the lines before were answered.
#[tactic(auto, using(course::proofs::DriveLemmas::blamed_later, course::proofs::DriveLemmas::took_nothing, course::proofs::IdleLemmas::idle_drove))]
pub fn journal<F: Folders, S: Source, K: Sink, D: Disk, L: Ledger>(
    alloc: Global,
    store: &mut F,
    input: &mut S,
    output: &mut K,
    disk: &mut D,
    name: &Text,
    steps: &mut Steps<L>,
) -> Result<Verdict, Halt>
    ensures ran { (t : Tree) (held : Content) (bytes : List ℕ) (d : DefinitionOrRefusal) → (F.state store.old).tree ≡ Some t → (D.state disk.old).content ≡ Some held → S.rest input.old ≡ Some bytes
        → IsDefinition name.now (definition_bytes t name.now) d
        → RanOver (by_lines step finish (opening t held.bytes d)) bytes (S.rest input.new)
        (world_of (F.state store.old) (K.state output.old)) (world_of (F.state store.new) (K.state output.new)) result }
    ensures can { can_journal (status_of result) ≡ true }
    ensures some { (t : Tree) (held : Content) (d : DefinitionOrRefusal) → (F.state store.old).tree ≡ Some t → (D.state disk.old).content ≡ Some held
        → IsDefinition name.now (definition_bytes t name.now) d
        → RanSome (by_lines step finish (opening t held.bytes d)) (world_of (F.state store.old) (K.state output.old)) (world_of (F.state store.new) (K.state output.new)) result }
    ensures took { (t : Tree) (held : Content) (bytes : List ℕ) (d : DefinitionOrRefusal) → (F.state store.old).tree ≡ Some t → (D.state disk.old).content ≡ Some held → S.rest input.old ≡ Some bytes
        → IsDefinition name.now (definition_bytes t name.now) d
        → IfErr result (λ h. Took (by_lines step finish (opening t held.bytes d)) bytes (S.rest input.new) (S.last input.new)
        (world_of (F.state store.old) (K.state output.old)) (world_of (F.state store.new) (K.state output.new)) (is_too_long h)) }
    ensures enough { (t : Tree) (held : Content) (bytes : List ℕ) (d : DefinitionOrRefusal) → (F.state store.old).tree ≡ Some t → (D.state disk.old).content ≡ Some held → S.rest input.old ≡ Some bytes
        → IsDefinition name.now (definition_bytes t name.now) d
        → IfOk result (λ _. TookEnough (by_lines step finish (opening t held.bytes d)) bytes (S.rest input.new) (S.last input.new)) }
    ensures alone { (t : Tree) (held : Content) (d : DefinitionOrRefusal) → (F.state store.old).tree ≡ Some t → (D.state disk.old).content ≡ Some held
        → IsDefinition name.now (definition_bytes t name.now) d
        → (by_lines step finish (opening t held.bytes d)).reads ≡ false → input.new ≡ input.old }
    ensures idle { IdleRun result (world_of (F.state store.old) (K.state output.old)) (world_of (F.state store.new) (K.state output.new)) }
    ensures whole { (bytes : List ℕ) → S.rest input.old ≡ Some bytes → IsWholeInput bytes (S.rest input.new) result }
    ensures kept { (t : Tree) (held : Content) (d : DefinitionOrRefusal) (es : List Entry) → (F.state store.old).tree ≡ Some t → (D.state disk.old).content ≡ Some held
        → IsDefinition name.now (definition_bytes t name.now) d → LeavesNow (log_of D.state D.left_since) es disk.old
        → KeptOpened step note (log_of D.state D.left_since) (opening t held.bytes d) es (S.rest input.old) (S.rest input.new) disk.old disk.new
        (world_of (F.state store.old) (K.state output.old)) (world_of (F.state store.new) (K.state output.new)) result }
    ensures disk { BlamesDisk ((D.state disk.old).faults) ((D.state disk.new).faults) result }
    ensures blames { BlamesRun (S.faults input.old) (S.faults input.new) (world_of (F.state store.old) (K.state output.old)) (world_of (F.state store.new) (K.state output.new)) result }
    ensures rises { steps.old ≤ steps.new }
    ensures within { (t : Tree) (held : Content) (bytes : List ℕ) (d : DefinitionOrRefusal) → (F.state store.old).tree ≡ Some t → (D.state disk.old).content ≡ Some held → S.rest input.old ≡ Some bytes
        → IsDefinition name.now (definition_bytes t name.now) d
        → StepsBy step limit (opening t held.bytes d) (lines_of bytes) steps.old steps.new }
{
    match open(alloc, store, output, disk, name, steps)? {
        Opened::Open(mut view) => {
            let ending = answer_lines(alloc, &mut view, store, input, output, disk, steps);
            drop(view);
            ending
        }
        Opened::Ended(verdict) => Ok(verdict),
        Opened::HeldUp => Err(Halt::DiskFault),
    }
}
