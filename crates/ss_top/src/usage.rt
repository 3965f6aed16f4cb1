//! The words that are asked for.
ghost use Rattle.std.specs.Prelude.{◌≡◌, ◌≢◌, ◌∷◌, [], IfErr, IfOk};
ghost use Rattle.outside.specs.Effects.{Does, world_of};
ghost use Rattle.outside.specs.Blame.{Blames, SinkBlames};
ghost use Rattle.course.specs.Answering.{Ended};
ghost use Rattle.course.specs.declared.status.Verdict.TheVariants.{Usage};
ghost use Rattle.ss_top.specs.Commands.{prints_usage};

use course::Verdict;
use outside::{Folders, Sink, Stop, print};
use std::alloc::Global;

// Prints which words are asked for.
fn print_usage<K: Sink>(alloc: Global, output: &mut K) -> Result<(), Stop>
    ensures does { (s : _) → Does (prints_usage ∷ []) (world_of s (K.state output.old)) (world_of s (K.state output.new)) result }
    ensures blames { SinkBlames (K.state output.old) (K.state output.new) result }
{
    print(
        alloc,
        output,
        b"usage: schemasql check|show|maintain|verify|apply NAME, or schemasql load N SEED, or schemasql stack NAME NAME .., or schemasql feed NAME, or schemasql journal NAME\n",
    )
}

/// Prints which words are asked for, and ends the run.
#[tactic(auto, using(outside::proofs::BlameLemmas::sink_no_read))]
pub(crate) fn usage<F: Folders, K: Sink>(
    alloc: Global,
    _store: &mut F,
    output: &mut K,
) -> Result<Verdict, Stop>
    ensures ended { Ended (record { effects = prints_usage ∷ []; status = Usage }) (world_of (F.state _store.old) (K.state output.old)) (world_of (F.state _store.new) (K.state output.new)) result }
    ensures blames { Blames (world_of (F.state _store.old) (K.state output.old)) (world_of (F.state _store.new) (K.state output.new)) result }
    ensures no_read { IfErr result (λ e. e ≢ Stop.ReadFault) }
    ensures verdict { IfOk result (λ v. v ≡ Usage) }
    ensures store { F.state _store.new ≡ F.state _store.old }
{
    print_usage(alloc, output)?;
    Ok(Verdict::Usage)
}
