//! The opening of a view folder.
ghost use Rattle.std.specs.Prelude.{◌≡◌, ◌≢◌, [], Some, IsErrOf};
ghost use Rattle.outside.specs.Tree.{Tree};
ghost use Rattle.outside.specs.Reading.{OnlyRead};
ghost use Rattle.outside.specs.Effects.{world_of};
ghost use Rattle.outside.specs.Blame.{Blames};
ghost use Rattle.plain_commands.specs.Applying.{opening};
ghost use Rattle.plain_commands.specs.Opening.{Opens};

use crate::lines::Applying;
use crate::refused::tables_fields;
use flow_law::Shape;
use outside::{Folders, Sink, Stop};
use ss_print::refuse;
use ss_text::Text;
use std::alloc::Global;
use view_folder::{TablesFault, read_tables};

/// A view folder: its tables, or the end of a run whose refusal was printed.
#[derive(Drop)]
pub(crate) enum OpenedFolder {
    Open(Applying),
    Refused,
}

/// Reads the tables of the folder of a view's database, or prints why they are none of a view of this form.
#[tactic(auto, using(outside::proofs::Following::following, crate::proofs::OpeningLemmas::opened, crate::proofs::OpeningLemmas::unread, crate::proofs::OpeningLemmas::unread_whole, crate::proofs::OpeningLemmas::refused_so, crate::proofs::OpeningLemmas::refusal_off, outside::proofs::BlameLemmas::sink_no_read))]
pub(crate) fn open_folder<F: Folders, K: Sink>(
    alloc: Global,
    store: &mut F,
    output: &mut K,
    view_db: Text,
    shape: Shape,
) -> Result<OpenedFolder, Stop>
    requires { shape.constants ≢ [] }
    ensures opens { (t : Tree) → (F.state store.old).tree ≡ Some t
        → Opens (opening view_db shape t) (world_of (F.state store.old) (K.state output.old)) (world_of (F.state store.new) (K.state output.new)) result }
    ensures only_read { OnlyRead (F.state store.old) (F.state store.new) }
    ensures unprinted { IsErrOf result Stop.ReadFault → K.state output.new ≡ K.state output.old }
    ensures blames { Blames (world_of (F.state store.old) (K.state output.old)) (world_of (F.state store.new) (K.state output.new)) result }
{
    match read_tables(alloc, store, &view_db, &shape) {
        Ok(tables) => {
            let applying = Applying::of(alloc, view_db, shape, tables)?;
            Ok(OpenedFolder::Open(applying))
        }
        Err(TablesFault::ReadFault) => Err(Stop::ReadFault),
        Err(TablesFault::NoMemory) => Err(Stop::NoMemory),
        Err(fault) => {
            let fields = tables_fields(alloc, &view_db, &fault)?;
            refuse(alloc, output, fields)?;
            Ok(OpenedFolder::Refused)
        }
    }
}
