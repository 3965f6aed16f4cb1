//! The commands, each by what it asks for.
ghost use Rattle.std.specs.Prelude.{◌≡◌, ◌≤◌, List, ℕ, Some, true, false, IfOk, IfErr};
ghost use Rattle.outside.specs.Effects.{world_of};
ghost use Rattle.outside.specs.Reading.{OnlyRead};
ghost use Rattle.tab_lines.specs.Lines.{lines_of};
ghost use Rattle.course.specs.Answering.{BlamesRun, is_too_long};
ghost use Rattle.ss_top.specs.Commands.{HasViews, asked_by, uses_store, only_reads, reads_input, counts, can_end};
ghost use Rattle.course.specs.Course.{RanBy, RanSome, Took, TookEnough, status_of, IsWholeInput};
ghost use Rattle.ss_top.specs.Runs.{OverEach, StepsOf, Told, course_by};
ghost use Rattle.course.specs.Idle.{IdleRun};

use crate::asked::Command;
use crate::usage::usage;
use course::{Halt, Verdict};
use feed_answers::feed;
use outside::{Folders, Sink, Source};
use plain_commands::{apply, check, load, show, verify};
use ss_text::Steps;
use stack_answers::stack;
use std::alloc::Global;
use std::sync::ledger::Ledger;
use view_opening::maintain;

// Does what a command asks for.
#[tactic(auto, using(course::proofs::RunLemmas::ran_some, course::proofs::RunLemmas::stopped_some, course::proofs::RunLemmas::stop_can_check, course::proofs::RunLemmas::stop_can_show, course::proofs::RunLemmas::stop_can_load, course::proofs::RunLemmas::stop_can_refuse, course::proofs::RunLemmas::idle_other, crate::proofs::DefinedLemmas::in_order))]
pub(crate) fn run_command<F: Folders, S: Source, K: Sink, L: Ledger>(
    alloc: Global,
    command: Command,
    store: &mut F,
    input: &mut S,
    output: &mut K,
    steps: &mut Steps<L>,
) -> Result<Verdict, Halt>
    requires { HasViews (asked_by command) }
    ensures ran { OverEach (asked_by command.entry) (F.state store.old).tree (λ t ds. (bytes : List ℕ) → Told (reads_input (asked_by command.entry)) (S.rest input.old) bytes
        → RanBy (course_by (asked_by command.entry) t ds) bytes (S.rest input.new) (world_of (F.state store.old) (K.state output.old)) (world_of (F.state store.new) (K.state output.new)) result) }
    ensures blames { BlamesRun (S.faults input.old) (S.faults input.new) (world_of (F.state store.old) (K.state output.old)) (world_of (F.state store.new) (K.state output.new)) result }
    ensures rises { steps.old ≤ steps.new }
    ensures steps { counts (asked_by command.entry) ≡ false → steps.new ≡ steps.old }
    ensures within { OverEach (asked_by command.entry) (F.state store.old).tree (λ t ds. (bytes : List ℕ) → Told (reads_input (asked_by command.entry)) (S.rest input.old) bytes
        → StepsOf (asked_by command.entry) t ds (lines_of bytes) steps.old steps.new) }
    ensures can { can_end (asked_by command.entry) (status_of result) ≡ true }
    ensures some { OverEach (asked_by command.entry) (F.state store.old).tree (λ t ds. RanSome (course_by (asked_by command.entry) t ds)
        (world_of (F.state store.old) (K.state output.old)) (world_of (F.state store.new) (K.state output.new)) result) }
    ensures took { OverEach (asked_by command.entry) (F.state store.old).tree (λ t ds. (bytes : List ℕ) → reads_input (asked_by command.entry) ≡ true → S.rest input.old ≡ Some bytes
        → IfErr result (λ h. Took (course_by (asked_by command.entry) t ds) bytes (S.rest input.new) (S.last input.new)
        (world_of (F.state store.old) (K.state output.old)) (world_of (F.state store.new) (K.state output.new)) (is_too_long h))) }
    ensures enough { OverEach (asked_by command.entry) (F.state store.old).tree (λ t ds. (bytes : List ℕ) → reads_input (asked_by command.entry) ≡ true → S.rest input.old ≡ Some bytes
        → IfOk result (λ _. TookEnough (course_by (asked_by command.entry) t ds) bytes (S.rest input.new) (S.last input.new))) }
    ensures alone { OverEach (asked_by command.entry) (F.state store.old).tree (λ t ds. (course_by (asked_by command.entry) t ds).reads ≡ false → input.new ≡ input.old) }
    ensures idle { IdleRun result (world_of (F.state store.old) (K.state output.old)) (world_of (F.state store.new) (K.state output.new)) }
    ensures whole { (bytes : List ℕ) → reads_input (asked_by command.entry) ≡ true → S.rest input.old ≡ Some bytes → IsWholeInput bytes (S.rest input.new) result }
    ensures only_read { only_reads (asked_by command.entry) ≡ true → OnlyRead (F.state store.old) (F.state store.new) }
    ensures store { uses_store (asked_by command.entry) ≡ false → F.state store.new ≡ F.state store.old }
    ensures rest { reads_input (asked_by command.entry) ≡ false → S.rest input.new ≡ S.rest input.old }
    ensures faults { reads_input (asked_by command.entry) ≡ false → S.faults input.new ≡ S.faults input.old }
{
    match command {
        Command::Check(name) => {
            let verdict = check(alloc, store, output, name)?;
            Ok(verdict)
        }
        Command::Show(name) => {
            let verdict = show(alloc, store, output, name)?;
            Ok(verdict)
        }
        Command::Maintain(name) => maintain(alloc, store, input, output, name, steps),
        Command::Verify(name) => {
            let verdict = verify(alloc, store, output, name)?;
            Ok(verdict)
        }
        Command::Apply(name) => apply(alloc, store, input, output, name, steps),
        Command::Stack(names) => stack(alloc, store, input, output, names, steps),
        Command::Feed(name) => feed(alloc, store, input, output, name, steps),
        Command::Load { changes, seed } => {
            let verdict = load(alloc, store, output, changes, seed, steps)?;
            Ok(verdict)
        }
        Command::Other => {
            let verdict = usage(alloc, store, output)?;
            Ok(verdict)
        }
    }
}
