//! The top call over a disk.
ghost use Rattle.std.specs.Prelude.{◌≡◌, ◌≤◌, None};
ghost use Rattle.outside.specs.Effects.{world_of};
ghost use Rattle.journal_log.specs.Logs.{log_of};
ghost use Rattle.ss_top.specs.Commands.{journal_of};
ghost use Rattle.ss_top.specs.Journals.{HasDefinition, DoesCourse, IsComplete, AnswersSome, CanEnd, Cause, Journals, StopsAtSync, StopsAtFault, StopsWhereFull, ReadsWhole, KeepsAccepted, Reopens, KeepsAll, KeepsOthers, LeavesBetween, TakesLittle, TakesEnough, LeavesInput, TakesSteps};
ghost use Rattle.ss_top.specs.Together.{IsRun};

use crate::asked::journal_name;
use crate::top::run;
use course::{Status, status_of_ending};
use disk::Disk;
use journal_answers::journal;
use outside::{Folders, Sink, Source};
use ss_text::{Steps, Text};
use std::alloc::Global;
use std::sync::ledger::Ledger;

/// Runs the command that the words ask for over a disk too: `journal NAME`, or else what [`run`] does, which calls no disk.
///
/// `journal NAME` does what `maintain NAME` does, over the sources and the changes of the journal on the disk, and writes no
/// source. A change or a group that it accepts is in the journal before it is made and before anything of it is told. Where
/// the disk fails, or the journal is full, just the lines before were answered. A crash at any moment leaves what the journal
/// held before, and a front of what was accepted.
pub fn run_with_disk<F: Folders, S: Source, K: Sink, D: Disk, L: Ledger>(
    alloc: Global,
    words: &[Text],
    store: &mut F,
    input: &mut S,
    output: &mut K,
    disk: &mut D,
    steps: &mut Steps<L>,
) -> Status
    // For all words but `journal NAME`, what `run` promises, and the disk is as it was.
    ensures runs { journal_of words.now ≡ None → IsRun words.now S.rest S.last S.faults input.old input.new steps.old steps.new
        (world_of (F.state store.old) (K.state output.old)) (world_of (F.state store.new) (K.state output.new)) result }
    ensures disk { journal_of words.now ≡ None → disk.new ≡ disk.old }

    // The name of `journal NAME` has a definition over every tree. A run does what its course says, all of it where no call fails.
    ensures defined { HasDefinition words.now }
    ensures did { DoesCourse words.now (D.state disk.old).content (S.rest input.old) (S.rest input.new)
        (world_of (F.state store.old) (K.state output.old)) (world_of (F.state store.new) (K.state output.new)) result }
    ensures complete { IsComplete words.now (D.state disk.old).content (S.rest input.old) (S.faults input.old) (S.faults input.new) ((D.state disk.old).faults) ((D.state disk.new).faults)
        (world_of (F.state store.old) (K.state output.old)) (world_of (F.state store.new) (K.state output.new)) result }
    ensures some { AnswersSome words.now (D.state disk.old).content (world_of (F.state store.old) (K.state output.old)) (world_of (F.state store.new) (K.state output.new)) result }

    // Which status comes when: a fault only where a count of faults rose.
    ensures can { CanEnd words.now result }
    ensures cause { Cause words.now result (S.faults input.old) (S.faults input.new) ((D.state disk.old).faults) ((D.state disk.new).faults)
        (world_of (F.state store.old) (K.state output.old)) (world_of (F.state store.new) (K.state output.new)) }

    // What a user relies on, and what a crash leaves of the journal.
    ensures journaled { Journals words.now (D.state disk.old).content (S.rest input.old)
        (world_of (F.state store.old) (K.state output.old)) (world_of (F.state store.new) (K.state output.new)) result }
    ensures cut_off { StopsAtSync words.now (D.state disk.old).content (S.rest input.old) (S.rest input.new)
        (world_of (F.state store.old) (K.state output.old)) (world_of (F.state store.new) (K.state output.new)) result }
    ensures held_up { StopsAtFault words.now (D.state disk.old).content (S.rest input.old)
        (world_of (F.state store.old) (K.state output.old)) (world_of (F.state store.new) (K.state output.new)) result }
    ensures full { StopsWhereFull words.now (D.state disk.old).content (S.rest input.old)
        (world_of (F.state store.old) (K.state output.old)) (world_of (F.state store.new) (K.state output.new)) result }
    ensures whole { ReadsWhole words.now (S.rest input.old) (S.rest input.new) result }
    ensures kept { KeepsAccepted words.now (D.state disk.old).content (log_of D.state D.left_since) (S.rest input.old) (S.rest input.new) disk.old disk.new
        (world_of (F.state store.old) (K.state output.old)) (world_of (F.state store.new) (K.state output.new)) result }
    ensures reopens { Reopens words.now (D.state disk.old).content (log_of D.state D.left_since) (S.rest input.old) disk.old disk.new
        (world_of (F.state store.old) (K.state output.old)) }

    // What stays, what is taken of the input, and how many steps are taken.
    ensures unchanged { KeepsAll words.now (D.state disk.old).content (world_of (F.state store.old) (K.state output.old)) (world_of (F.state store.new) (K.state output.new)) result }
    ensures others { KeepsOthers words.now (D.state disk.old).content (world_of (F.state store.old) (K.state output.old)) (world_of (F.state store.new) (K.state output.new)) }
    ensures between { LeavesBetween words.now (D.state disk.old).content (S.rest input.old)
        (world_of (F.state store.old) (K.state output.old)) (world_of (F.state store.new) (K.state output.new)) }
    ensures took { TakesLittle words.now (D.state disk.old).content (S.rest input.old) (S.rest input.new) (S.last input.new)
        (world_of (F.state store.old) (K.state output.old)) (world_of (F.state store.new) (K.state output.new)) result }
    ensures enough { TakesEnough words.now (D.state disk.old).content (S.rest input.old) (S.rest input.new) (S.last input.new)
        (world_of (F.state store.old) (K.state output.old)) result }
    ensures alone { LeavesInput words.now (D.state disk.old).content (world_of (F.state store.old) (K.state output.old)) input.old input.new }
    ensures rises { steps.old ≤ steps.new }
    ensures within { TakesSteps words.now (D.state disk.old).content (S.rest input.old) (world_of (F.state store.old) (K.state output.old)) steps.old steps.new }
{
    match journal_name(words) {
        Some(name) => {
            let ending = journal(alloc, store, input, output, disk, name, steps);
            status_of_ending(ending)
        }
        None => run(alloc, words, store, input, output, steps),
    }
}
