//! The top call.
ghost use Rattle.std.specs.Prelude.{◌≡◌, ◌≤◌, true, false};
ghost use Rattle.outside.specs.Reading.{OnlyRead};
ghost use Rattle.outside.specs.Tree.{Tree};
ghost use Rattle.outside.specs.Effects.{world_of};
ghost use Rattle.ss_top.specs.Commands.{asked_of, names_of, uses_store, only_reads, reads_input, counts, can_end};
ghost use Rattle.course.specs.Course.{Cause};
ghost use Rattle.ss_top.specs.Runs.{Definitions, AreDefined, Request, Asks, course_of};
ghost use Rattle.ss_top.specs.Clauses.{DoesCourse, IsComplete, AnswersSome, Checks, Shows, Maintains, StopsAtSync, Stacks, StackStopsAtSync, Feeds, FeedStopsAtSync, Verifies, TellsDifference, Applies, AppliesNothing, Loads, ReadsWhole, KeepsAll, KeepsOthers, LeavesBetween, TakesLittle, TakesEnough, TakesSteps};

use crate::asked::command_of;
use crate::command::run_command;
use course::{Status, status_of_ending};
use outside::{Folders, Sink, Source};
use ss_text::{Steps, Text};
use std::alloc::Global;
use std::sync::ledger::Ledger;

/// Runs the command that the words ask for, `check NAME`, `show NAME`, `maintain NAME`, `verify NAME`, `apply NAME`,
/// `stack NAME NAME ..` or `feed NAME`, over the folders `defs`, `sources` and `views` of a store, or `load N SEED`, which
/// uses neither store nor input. What is answered and what is refused are lines of the output.
///
/// The status says which kind of end it was. After a fault the output holds a front of the answers, and all sources are
/// as the sync under way found them, or all are as it leaves them, and so are the files of a view under `apply`. Of the
/// files of the views under `show`, `maintain`, `stack` and `feed` each is the one or the other, but for one that was being
/// written or removed.
///
/// Steps are counted by `maintain`, `stack`, `feed` and `load` alone. Over input whose changes are inserts and deletes
/// outside groups, `maintain` and `feed` take no more of them than the sum, over the changes that the catalogue does not
/// refuse, of four for each combination of flat rows that the changed row is part of and four for each such flat row. So
/// it is however the run ends.
#[tactic(auto, using(course::proofs::RunLemmas::by_status))]
pub fn run<F: Folders, S: Source, K: Sink, L: Ledger>(
    alloc: Global,
    words: &[Text],
    store: &mut F,
    input: &mut S,
    output: &mut K,
    steps: &mut Steps<L>,
) -> Status
    // The names have definitions over every tree. What the words ask has a course, and a run does what it says, all of it where no call fails.
    ensures defined { (t : Tree) → (ds : Definitions) × AreDefined (names_of (asked_of words.now)) t ds }
    ensures did { DoesCourse words.now (S.rest input.old) (S.rest input.new) (world_of (F.state store.old) (K.state output.old)) (world_of (F.state store.new) (K.state output.new)) result }
    ensures complete { IsComplete words.now (S.rest input.old) (S.faults input.old) (S.faults input.new)
        (world_of (F.state store.old) (K.state output.old)) (world_of (F.state store.new) (K.state output.new)) result }
    ensures some { AnswersSome words.now (world_of (F.state store.old) (K.state output.old)) (world_of (F.state store.new) (K.state output.new)) result }

    // Which status comes when: a fault only where a count of faults rose.
    ensures can { can_end (asked_of words.now) result ≡ true }
    ensures cause { Cause result (S.faults input.old) (S.faults input.new) (world_of (F.state store.old) (K.state output.old)) (world_of (F.state store.new) (K.state output.new)) }

    // What a user of each command relies on.
    ensures checked { Checks words.now (world_of (F.state store.old) (K.state output.old)) (world_of (F.state store.new) (K.state output.new)) result }
    ensures shown { Shows words.now (world_of (F.state store.old) (K.state output.old)) (world_of (F.state store.new) (K.state output.new)) result }
    ensures maintained { Maintains words.now (S.rest input.old) (world_of (F.state store.old) (K.state output.old)) (world_of (F.state store.new) (K.state output.new)) result }
    ensures cut_off { StopsAtSync words.now (S.rest input.old) (S.rest input.new) (world_of (F.state store.old) (K.state output.old)) (world_of (F.state store.new) (K.state output.new)) result }
    ensures stacked { Stacks words.now (S.rest input.old) (world_of (F.state store.old) (K.state output.old)) (world_of (F.state store.new) (K.state output.new)) result }
    ensures stack_cut_off { StackStopsAtSync words.now (S.rest input.old) (S.rest input.new)
        (world_of (F.state store.old) (K.state output.old)) (world_of (F.state store.new) (K.state output.new)) result }
    ensures fed { Feeds words.now (S.rest input.old) (world_of (F.state store.old) (K.state output.old)) (world_of (F.state store.new) (K.state output.new)) result }
    ensures fed_cut_off { FeedStopsAtSync words.now (S.rest input.old) (S.rest input.new)
        (world_of (F.state store.old) (K.state output.old)) (world_of (F.state store.new) (K.state output.new)) result }
    ensures verified { Verifies words.now (world_of (F.state store.old) (K.state output.old)) (world_of (F.state store.new) (K.state output.new)) result }
    ensures differs { TellsDifference words.now (world_of (F.state store.old) (K.state output.old)) result }
    ensures applied { Applies words.now (S.rest input.old) (world_of (F.state store.old) (K.state output.old)) (world_of (F.state store.new) (K.state output.new)) result }
    ensures unapplied { AppliesNothing words.now (S.rest input.old) (world_of (F.state store.old) (K.state output.old)) (world_of (F.state store.new) (K.state output.new)) result }
    ensures loaded { Loads words.now (world_of (F.state store.old) (K.state output.old)) (world_of (F.state store.new) (K.state output.new)) result }
    ensures whole { ReadsWhole words.now (S.rest input.old) (S.rest input.new) result }

    // What stays, what is taken of the input, and how many steps are taken.
    ensures unchanged { KeepsAll words.now (world_of (F.state store.old) (K.state output.old)) (world_of (F.state store.new) (K.state output.new)) result }
    ensures others { KeepsOthers words.now (S.rest input.old) (world_of (F.state store.old) (K.state output.old)) (world_of (F.state store.new) (K.state output.new)) }
    ensures between { LeavesBetween words.now (S.rest input.old) (world_of (F.state store.old) (K.state output.old)) (world_of (F.state store.new) (K.state output.new)) }
    ensures took { TakesLittle words.now (S.rest input.old) (S.rest input.new) (S.last input.new)
        (world_of (F.state store.old) (K.state output.old)) (world_of (F.state store.new) (K.state output.new)) result }
    ensures enough { TakesEnough words.now (S.rest input.old) (S.rest input.new) (S.last input.new) (world_of (F.state store.old) (K.state output.old)) result }
    ensures alone { (r : Request) → Asks words.now (world_of (F.state store.old) (K.state output.old)) r → (course_of r).reads ≡ false → input.new ≡ input.old }
    ensures only_read { only_reads (asked_of words.now) ≡ true → OnlyRead (F.state store.old) (F.state store.new) }
    ensures store { uses_store (asked_of words.now) ≡ false → F.state store.new ≡ F.state store.old }
    ensures rest { reads_input (asked_of words.now) ≡ false → S.rest input.new ≡ S.rest input.old }
    ensures faults { reads_input (asked_of words.now) ≡ false → S.faults input.new ≡ S.faults input.old }
    ensures rises { steps.old ≤ steps.new }
    ensures steps { counts (asked_of words.now) ≡ false → steps.new ≡ steps.old }
    ensures within { TakesSteps words.now (S.rest input.old) (world_of (F.state store.old) (K.state output.old)) steps.old steps.new }
{
    let command = command_of(words);
    let ending = run_command(alloc, command, store, input, output, steps);
    status_of_ending(ending)
}
