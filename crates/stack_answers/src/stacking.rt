//! The command `stack`.
ghost use Rattle.std.specs.Prelude.{◌≡◌, ◌≤◌, true, false, List, ℕ, Some, IfOk, IfErr, length};
ghost use Rattle.outside.specs.Effects.{world_of};
ghost use Rattle.outside.specs.Tree.{Tree};
ghost use Rattle.course.specs.Answering.{BlamesRun, is_too_long};
ghost use Rattle.view_stages.specs.Stages.{DefinitionOrRefusal};
ghost use Rattle.course.specs.Statuses.{can_maintain};
ghost use Rattle.course.specs.Idle.{IdleRun};
ghost use Rattle.course.specs.Course.{RanBy, RanSome, Took, TookEnough, by_lines, status_of, IsWholeInput};
ghost use Rattle.stack_answers.specs.Definitions.{AreDefinitions};
ghost use Rattle.stack_answers.specs.Opening.{opening};
ghost use Rattle.stack_answers.specs.Answers.{step, finish};

use crate::opening::{Opened, open};
use course::{Halt, NoDisk, Verdict, answer_lines};
use outside::{Folders, Sink, Source};
use ss_text::{Steps, Text};
use std::alloc::Global;
use std::sync::ledger::Ledger;

/// Opens the views of these names, the lowest first, over one another, and answers the lines of the input in turn. Where a
/// call fails or memory runs out, a front of the answers is there, and what was under way may have broken off.
#[tactic(auto, using(opened_view::proofs::MaintainLemmas::opening_ended, opened_view::proofs::MaintainLemmas::opening_stopped, opened_view::proofs::MaintainLemmas::opening_drove, opened_view::proofs::MaintainLemmas::ended_enough, opened_view::proofs::MaintainLemmas::some_ended, opened_view::proofs::MaintainLemmas::some_stopped, opened_view::proofs::MaintainLemmas::some_drove, opened_view::proofs::MaintainLemmas::refused_can, opened_view::proofs::MaintainLemmas::stopped_can, opened_view::proofs::MaintainLemmas::ended_whole, course::proofs::DriveLemmas::blamed_later, course::proofs::DriveLemmas::took_nothing, course::proofs::IdleLemmas::idle_drove))]
pub fn stack<F: Folders, S: Source, K: Sink, L: Ledger>(
    alloc: Global,
    store: &mut F,
    input: &mut S,
    output: &mut K,
    names: &[Text],
    steps: &mut Steps<L>,
) -> Result<Verdict, Halt>
    requires { 1 ≤ length names.now }
    ensures ran { (t : Tree) (bytes : List ℕ) (ds : List DefinitionOrRefusal) → (F.state store.old).tree ≡ Some t → S.rest input.old ≡ Some bytes
        → AreDefinitions t names.now ds
        → RanBy (by_lines step finish (opening t ds)) bytes (S.rest input.new) (world_of (F.state store.old) (K.state output.old)) (world_of (F.state store.new) (K.state output.new)) result }
    ensures can { can_maintain (status_of result) ≡ true }
    ensures some { (t : Tree) (ds : List DefinitionOrRefusal) → (F.state store.old).tree ≡ Some t → AreDefinitions t names.now ds
        → RanSome (by_lines step finish (opening t ds)) (world_of (F.state store.old) (K.state output.old)) (world_of (F.state store.new) (K.state output.new)) result }
    ensures took { (t : Tree) (bytes : List ℕ) (ds : List DefinitionOrRefusal) → (F.state store.old).tree ≡ Some t → S.rest input.old ≡ Some bytes
        → AreDefinitions t names.now ds
        → IfErr result (λ h. Took (by_lines step finish (opening t ds)) bytes (S.rest input.new) (S.last input.new)
        (world_of (F.state store.old) (K.state output.old)) (world_of (F.state store.new) (K.state output.new)) (is_too_long h)) }
    ensures enough { (t : Tree) (bytes : List ℕ) (ds : List DefinitionOrRefusal) → (F.state store.old).tree ≡ Some t → S.rest input.old ≡ Some bytes
        → AreDefinitions t names.now ds
        → IfOk result (λ _. TookEnough (by_lines step finish (opening t ds)) bytes (S.rest input.new) (S.last input.new)) }
    ensures alone { (t : Tree) (ds : List DefinitionOrRefusal) → (F.state store.old).tree ≡ Some t → AreDefinitions t names.now ds
        → (by_lines step finish (opening t ds)).reads ≡ false → input.new ≡ input.old }
    ensures idle { IdleRun result (world_of (F.state store.old) (K.state output.old)) (world_of (F.state store.new) (K.state output.new)) }
    ensures whole { (bytes : List ℕ) → S.rest input.old ≡ Some bytes → IsWholeInput bytes (S.rest input.new) result }
    ensures blames { BlamesRun (S.faults input.old) (S.faults input.new) (world_of (F.state store.old) (K.state output.old)) (world_of (F.state store.new) (K.state output.new)) result }
    ensures rises { steps.old ≤ steps.new }
{
    match open(alloc, store, output, names, steps)? {
        Opened::Open(mut stack) => {
            let ending = answer_lines(alloc, &mut stack, store, input, output, &mut NoDisk, steps);
            drop(stack);
            ending
        }
        Opened::Ended(verdict) => Ok(verdict),
    }
}
