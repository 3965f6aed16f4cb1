//! The command `feed`.
ghost use Rattle.std.specs.Prelude.{◌≡◌, ◌≤◌, true, false, List, ℕ, Some, IfOk, IfErr};
ghost use Rattle.outside.specs.Effects.{world_of};
ghost use Rattle.outside.specs.Tree.{Tree};
ghost use Rattle.tab_lines.specs.Lines.{lines_of};
ghost use Rattle.course.specs.Answering.{BlamesRun, is_too_long};
ghost use Rattle.view_stages.specs.Stages.{DefinitionOrRefusal};
ghost use Rattle.view_stages.specs.Opening.{IsDefinition, definition_bytes, opening};
ghost use Rattle.opened_view.specs.Limits.{StepsBy};
ghost use Rattle.opened_view.specs.Steps.{starting};
ghost use Rattle.course.specs.Statuses.{can_maintain};
ghost use Rattle.course.specs.Idle.{IdleRun};
ghost use Rattle.course.specs.Course.{RanBy, RanSome, Took, TookEnough, by_lines, status_of, IsWholeInput};
ghost use Rattle.feed_answers.specs.Answers.{step, finish, at_first};
ghost use Rattle.feed_answers.specs.Limits.{limit};

use crate::view::FeedView;
use course::{Halt, NoDisk, Verdict, answer_lines};
use outside::{Folders, Sink, Source};
use ss_text::{Steps, Text};
use std::alloc::Global;
use std::sync::ledger::Ledger;
use view_opening::{Opened, open};

/// Opens the view of this name, and answers the lines of its feeds in turn. Where a call fails or memory runs out, a
/// front of the answers is there, and what was under way may have broken off.
#[tactic(auto, using(opened_view::proofs::MaintainLemmas::ended_whole, opened_view::proofs::MaintainLemmas::refused_can, opened_view::proofs::MaintainLemmas::stopped_can, course::proofs::DriveLemmas::blamed_later, course::proofs::DriveLemmas::took_nothing, course::proofs::IdleLemmas::idle_drove))]
pub fn feed<F: Folders, S: Source, K: Sink, L: Ledger>(
    alloc: Global,
    store: &mut F,
    input: &mut S,
    output: &mut K,
    name: &Text,
    steps: &mut Steps<L>,
) -> Result<Verdict, Halt>
    ensures ran { (t : Tree) (bytes : List ℕ) (d : DefinitionOrRefusal) → (F.state store.old).tree ≡ Some t → S.rest input.old ≡ Some bytes
        → IsDefinition name.now (definition_bytes t name.now) d
        → RanBy (by_lines step finish (starting at_first (opening t d))) bytes (S.rest input.new)
        (world_of (F.state store.old) (K.state output.old)) (world_of (F.state store.new) (K.state output.new)) result }
    ensures can { can_maintain (status_of result) ≡ true }
    ensures some { (t : Tree) (d : DefinitionOrRefusal) → (F.state store.old).tree ≡ Some t → IsDefinition name.now (definition_bytes t name.now) d
        → RanSome (by_lines step finish (starting at_first (opening t d))) (world_of (F.state store.old) (K.state output.old)) (world_of (F.state store.new) (K.state output.new)) result }
    ensures took { (t : Tree) (bytes : List ℕ) (d : DefinitionOrRefusal) → (F.state store.old).tree ≡ Some t → S.rest input.old ≡ Some bytes
        → IsDefinition name.now (definition_bytes t name.now) d
        → IfErr result (λ h. Took (by_lines step finish (starting at_first (opening t d))) bytes (S.rest input.new) (S.last input.new)
        (world_of (F.state store.old) (K.state output.old)) (world_of (F.state store.new) (K.state output.new)) (is_too_long h)) }
    ensures enough { (t : Tree) (bytes : List ℕ) (d : DefinitionOrRefusal) → (F.state store.old).tree ≡ Some t → S.rest input.old ≡ Some bytes
        → IsDefinition name.now (definition_bytes t name.now) d
        → IfOk result (λ _. TookEnough (by_lines step finish (starting at_first (opening t d))) bytes (S.rest input.new) (S.last input.new)) }
    ensures alone { (t : Tree) (d : DefinitionOrRefusal) → (F.state store.old).tree ≡ Some t → IsDefinition name.now (definition_bytes t name.now) d
        → (by_lines step finish (starting at_first (opening t d))).reads ≡ false → input.new ≡ input.old }
    ensures idle { IdleRun result (world_of (F.state store.old) (K.state output.old)) (world_of (F.state store.new) (K.state output.new)) }
    ensures whole { (bytes : List ℕ) → S.rest input.old ≡ Some bytes → IsWholeInput bytes (S.rest input.new) result }
    ensures blames { BlamesRun (S.faults input.old) (S.faults input.new) (world_of (F.state store.old) (K.state output.old)) (world_of (F.state store.new) (K.state output.new)) result }
    ensures rises { steps.old ≤ steps.new }
    ensures within { (t : Tree) (bytes : List ℕ) (d : DefinitionOrRefusal) → (F.state store.old).tree ≡ Some t → S.rest input.old ≡ Some bytes
        → IsDefinition name.now (definition_bytes t name.now) d
        → StepsBy step limit (starting at_first (opening t d)) (lines_of bytes) steps.old steps.new }
{
    match open(alloc, store, output, name, steps)? {
        Opened::Open(view) => {
            let seed = view.seed();
            let mut fed = FeedView::of(alloc, seed, view);
            let ending = answer_lines(alloc, &mut fed, store, input, output, &mut NoDisk, steps);
            drop(fed);
            ending
        }
        Opened::Ended(verdict) => Ok(verdict),
    }
}
