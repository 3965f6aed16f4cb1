//! Why there is no database of tables, and why a stack refuses changes.
ghost use Rattle.std.specs.Prelude.{◌≡◌};

use apply_law::GroupRefused;
use schema_model::Which;
use ss_text::NoMemory;

/// Why there is no catalogue of tables.
#[derive(Debug, Drop)]
pub enum LiftFault {
    /// Their database would pass this limit.
    Limit { which: Which },
    NoMemory,
}

impl From<NoMemory> for LiftFault {
    ghost use Rattle.view_stack.specs.declared.fault.LiftFault.{LiftFault};

    ghost from_gives = { λ _ fault. fault ≡ LiftFault.NoMemory };

    fn from(_: NoMemory) -> Self {
        LiftFault::NoMemory
    }
}

/// Which level refuses changes, counted from 1, and why.
#[derive(Debug, Drop)]
pub struct StackRefused {
    pub level: usize,
    pub why: GroupRefused,
}
