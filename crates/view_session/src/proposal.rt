//! Changes that are proposed: all memory is taken, and what is left to do cannot fail.
ghost use Rattle.std.specs.Prelude.{◌≡◌};
ghost use Rattle.schema_model.specs.Changes.{after_all};
ghost use Rattle.flow_law.specs.Script.{script};
ghost use Rattle.view_meaning.specs.Meaning.{meaning};
ghost use Rattle.view_session.specs.Named.{with_changes, with_lines};
ghost use Rattle.view_session.specs.Proposals.{changes_in, proposed_in, WaitsIn, CanMake};
ghost use Rattle.view_session.specs.Upkeeps.{view_of, IsKept};

use crate::changed::Changed;
use crate::upkeep::{Upkeep, UpkeepReady};
use schema_model::{Catalogue, Ready, ReadyAll};

/// What waits in a catalogue: one change, or changes that are made together.
#[derive(Drop)]
pub(crate) enum CatalogueReady {
    One(Ready),
    All(ReadyAll),
}

/// Changes for which all memory was taken.
pub(crate) struct Proposal {
    pub(crate) catalogue: CatalogueReady,
    pub(crate) upkeep: UpkeepReady,
}

impl Drop for Proposal {
    fn drop(self) {
        let Proposal { catalogue, upkeep } = self;
        drop(catalogue);
        drop(upkeep);
    }
}

impl CatalogueReady {
    // Makes the changes that wait in a catalogue. It takes no memory.
    fn commit(self, catalogue: &mut Catalogue)
        requires { WaitsIn catalogue.old self }
        ensures { catalogue.new.databases ≡ after_all catalogue.old.databases (changes_in self) }
    {
        match self {
            CatalogueReady::One(ready) => catalogue.commit(ready),
            CatalogueReady::All(ready) => catalogue.commit_all(ready),
        }
    }
}

impl Proposal {
    // Makes the changes. It takes no memory.
    pub(crate) fn accept(
        self,
        catalogue: &mut Catalogue,
        upkeep: &mut Upkeep,
        changed: &mut Changed,
    )
        requires kept { IsKept catalogue.old.databases upkeep.old }
        requires can { CanMake catalogue.old upkeep.old changed.old self }
        ensures catalogue { catalogue.new.databases ≡ after_all catalogue.old.databases (proposed_in self) }
        ensures kept { IsKept catalogue.new.databases upkeep.new }
        ensures view { view_of upkeep.new ≡ view_of upkeep.old }
        ensures names { changed.new.names ≡ with_lines (with_changes changed.old.names catalogue.old.databases (proposed_in self))
            (script (meaning catalogue.old.databases (view_of upkeep.old)) (meaning catalogue.new.databases (view_of upkeep.old))) }
    {
        let Proposal {
            catalogue: changes,
            upkeep: moves,
        } = self;
        changed.put();
        moves.commit(upkeep);
        changes.commit(catalogue);
    }
}
