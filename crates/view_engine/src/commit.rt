//! Moving what an engine keeps: all memory first, and then the moves.
ghost use Rattle.std.specs.Prelude.{◌≡◌, IfOk};
ghost use Rattle.schema_model.specs.Catalogue.{CatalogueValue};
ghost use Rattle.view_engine.specs.declared.moved.EngineMove.{EngineMove as Moves};
ghost use Rattle.view_engine.specs.Engines.{view_in, EngineStands, EngineMoves, StandsAs, IsReadyMove, IsReadyEngine};

use crate::{Engine, EngineMove, EngineReady};
use flow_law::TableLine;
use ss_text::NoMemory;
use std::alloc::Global;

impl Engine {
    /// Takes all memory that a move of this engine needs, which was prepared since it was last committed, and hands the move's
    /// lines out. What the engine stands for stays, after `NoMemory` too.
    pub fn reserve(
        &mut self,
        alloc: Global,
        moved: EngineMove,
    ) -> Result<(EngineReady, Vec<TableLine>), NoMemory>
        requires { (c : CatalogueValue) × (c' : CatalogueValue) × EngineStands c self.old × EngineMoves c c' (view_in self.old) moved }
        ensures same { StandsAs self.old self.new }
        ensures ready { IfOk result (λ told. IsReadyMove moved told.0) }
        ensures waits { IfOk result (λ told. IsReadyEngine self.new told.0) }
        ensures lines { IfOk result (λ told. told.1 ≡ moved.lines) }
    {
        let EngineMove { plan, lines } = moved;
        let facts = plan.facts();
        let tables = self.tables.reserve(alloc, facts)?;
        let plan = self.plan.reserve(alloc, plan)?;
        Ok((EngineReady { plan, tables }, lines))
    }

    /// Moves what the engine keeps, so that it stands for the catalogue after the change. This takes no memory.
    pub fn commit(&mut self, ready: EngineReady)
        requires { IsReadyEngine self.old ready }
        ensures stands { (c c' : CatalogueValue) (m : Moves) → EngineStands c self.old → EngineMoves c c' (view_in self.old) m → IsReadyMove m ready → EngineStands c' self.new }
        ensures view { view_in self.new ≡ view_in self.old }
    {
        let EngineReady { plan, tables } = ready;
        self.plan.commit(plan);
        self.tables.commit(tables);
    }
}
