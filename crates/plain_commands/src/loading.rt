//! The command `load`.
ghost use Rattle.std.specs.Prelude.{◌≡◌, ◌≢◌, ◌≤◌, IfOk, IfErr};
ghost use Rattle.outside.specs.Effects.{world_of};
ghost use Rattle.outside.specs.Blame.{Blames};
ghost use Rattle.course.specs.Answering.{Ended};
ghost use Rattle.course.specs.declared.status.Verdict.TheVariants.{Done};
ghost use Rattle.plain_commands.specs.Loads.{loaded};

use course::Verdict;
use load_run::summary_row;
use outside::{Folders, Sink, Stop};
use ss_print::say;
use ss_text::Steps;
use std::alloc::Global;
use std::sync::ledger::Ledger;

/// Makes so many changes of a seed in memory, and prints what came of them. A fault may leave a front of the line.
#[tactic(auto, using(outside::proofs::Following::following))]
pub fn load<F: Folders, K: Sink, L: Ledger>(
    alloc: Global,
    _store: &mut F,
    output: &mut K,
    changes: u32,
    seed: u32,
    steps: &mut Steps<L>,
) -> Result<Verdict, Stop>
    ensures ended { Ended (loaded changes seed) (world_of (F.state _store.old) (K.state output.old)) (world_of (F.state _store.new) (K.state output.new)) result }
    ensures blames { Blames (world_of (F.state _store.old) (K.state output.old)) (world_of (F.state _store.new) (K.state output.new)) result }
    ensures no_read { IfErr result (λ e. e ≢ Stop.ReadFault) }
    ensures verdict { IfOk result (λ v. v ≡ Done) }
    ensures store { F.state _store.new ≡ F.state _store.old }
    ensures rises { steps.old ≤ steps.new }
{
    let summary = load_run::load(alloc, changes, seed, steps)?;
    let row = summary_row(alloc, changes, seed, &summary)?;
    say(alloc, output, &row)?;
    Ok(Verdict::Done)
}
