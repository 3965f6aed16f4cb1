//! The source relations.
ghost use Rattle.std.specs.Prelude.{◌≡◌, [], Some, IfOk};
ghost use Rattle.outside.specs.Reading.{OnlyRead};
ghost use Rattle.outside.specs.Tree.{Tree};
ghost use Rattle.outside.specs.Effects.{Does, world_of};
ghost use Rattle.outside.specs.Blame.{StoreBlames};
ghost use Rattle.view_stages.specs.Stages.{loaded_or_refused};
ghost use Rattle.view_stages.specs.Steps.{loading_of};

use csv_catalog::{LoadFault, load};
use outside::{Folders, Stop};
use schema_model::Catalogue;
use ss_print::load_fields;
use ss_text::Row;
use std::alloc::Global;

/// What the source folders give: a catalogue, or a refusal with these fields.
#[derive(Drop)]
pub enum Loading {
    Catalogue(Catalogue),
    Refused(Row),
}

/// Loads the source relations, or gives the fields of their refusal. Where a call fails or memory runs out, nothing
/// was done.
#[tactic(auto, using(outside::proofs::EffectLemmas::unmoved), unfolding(crate::specs::Stages::loaded_or_refused, outside::specs::Effects::contents))]
pub fn load_sources<F: Folders>(alloc: Global, store: &mut F) -> Result<Loading, Stop>
    ensures told { IfOk result (λ r. (t : Tree) → (F.state store.old).tree ≡ Some t → loading_of r ≡ loaded_or_refused t) }
    ensures does { (o : _) → Does [] (world_of (F.state store.old) o) (world_of (F.state store.new) o) result }
    ensures only_read { OnlyRead (F.state store.old) (F.state store.new) }
    ensures blames { StoreBlames (F.state store.old) (F.state store.new) result }
{
    match load(alloc, store) {
        Ok(catalogue) => Ok(Loading::Catalogue(catalogue)),
        Err(LoadFault::ReadFault) => Err(Stop::ReadFault),
        Err(LoadFault::NoMemory) => Err(Stop::NoMemory),
        Err(fault) => {
            let fields = load_fields(alloc, &fault)?;
            Ok(Loading::Refused(fields))
        }
    }
}
