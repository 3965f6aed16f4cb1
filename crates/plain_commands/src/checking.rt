//! The command `check`.
ghost use Rattle.std.specs.Prelude.{◌≡◌, true, Some, IfOk};
ghost use Rattle.outside.specs.Effects.{world_of};
ghost use Rattle.outside.specs.Reading.{OnlyRead};
ghost use Rattle.outside.specs.Tree.{Tree};
ghost use Rattle.outside.specs.Blame.{Blames};
ghost use Rattle.course.specs.Answering.{Ended};
ghost use Rattle.view_stages.specs.Stages.{DefinitionOrRefusal};
ghost use Rattle.view_stages.specs.Opening.{IsDefinition, definition_bytes};
ghost use Rattle.plain_commands.specs.Checking.{checked};
ghost use Rattle.course.specs.Statuses.{can_check};
ghost use Rattle.course.specs.Course.{verdict_status};
ghost use Rattle.course.specs.Idle.{IdleUnread};

use course::Verdict;
use outside::{Folders, Sink, Stop, print};
use ss_print::refuse;
use ss_text::Text;
use std::alloc::Global;
use view_def::view_text;
use view_stages::{Understood, read_definition};

/// Prints the canonical text of the definition of this name, or its refusal. A fault may leave a front of the line.
#[tactic(auto, using(outside::proofs::Following::following, outside::proofs::ReadingLemmas::only_read_then, outside::proofs::ReadingLemmas::only_read_nothing, course::proofs::IdleLemmas::idle_read, course::proofs::IdleLemmas::idle_print))]
pub fn check<F: Folders, K: Sink>(
    alloc: Global,
    store: &mut F,
    output: &mut K,
    name: &Text,
) -> Result<Verdict, Stop>
    ensures ended { (t : Tree) (d : DefinitionOrRefusal) → (F.state store.old).tree ≡ Some t → IsDefinition name.now (definition_bytes t name.now) d
        → Ended (checked d) (world_of (F.state store.old) (K.state output.old)) (world_of (F.state store.new) (K.state output.new)) result }
    ensures can { IfOk result (λ v. can_check (verdict_status v) ≡ true) }
    ensures idle { IdleUnread result (world_of (F.state store.old) (K.state output.old)) (world_of (F.state store.new) (K.state output.new)) }
    ensures only_read { OnlyRead (F.state store.old) (F.state store.new) }
    ensures blames { Blames (world_of (F.state store.old) (K.state output.old)) (world_of (F.state store.new) (K.state output.new)) result }
{
    match read_definition(alloc, store, name)? {
        Understood::Refused(fields) => {
            refuse(alloc, output, fields)?;
            Ok(Verdict::BadDefinition)
        }
        Understood::Accepted(definition) => {
            let text = view_text(alloc, &definition.text)?;
            print(alloc, output, text.as_slice())?;
            Ok(Verdict::Done)
        }
    }
}
