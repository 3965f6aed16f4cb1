//! Moves of an engine.
ghost use Rattle.std.specs.Prelude.{◌≡◌};

use crate::TablesReady;
use flow_law::TableLine;
use plan_translate::{PlanMove, PlanReady};

/// How a change moves what an engine keeps, and the lines by which the view's tables change.
#[derive(Drop)]
pub struct EngineMove {
    pub(crate) plan: PlanMove,
    pub(crate) lines: Vec<TableLine>,
}

impl EngineMove {
    /// The lines by which the tables change.
    pub fn lines(&self) -> &Vec<TableLine>
        ensures { result.now ≡ self.now.lines }
    {
        &self.lines
    }
}

/// A move that an engine was made ready for.
#[derive(Drop)]
pub struct EngineReady {
    pub(crate) plan: PlanReady,
    pub(crate) tables: TablesReady,
}
