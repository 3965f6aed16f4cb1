//! Why changes are refused.
ghost use Rattle.std.specs.Prelude.{◌≡◌};

use flow_law::{Clash, EvalFault, IllegalLabel};
use schema_model::Refusal;
use ss_text::NoMemory;

/// Why changes that were to be made together are refused.
#[derive(Debug, Drop)]
pub enum GroupRefused {
    /// The catalogue after the changes before it refuses the one at this place, counted from 0.
    Change { place: usize, refusal: Refusal },
    /// After them a label would not be legal.
    Illegal(IllegalLabel),
    /// After them a cell would have two values.
    Conflict(Clash),
    NoMemory,
}

impl From<NoMemory> for GroupRefused {
    ghost use Rattle.apply_law.specs.declared.refused.GroupRefused.{GroupRefused};

    ghost from_gives = { λ _ refused. refused ≡ GroupRefused.NoMemory };

    fn from(_: NoMemory) -> Self {
        GroupRefused::NoMemory
    }
}

impl From<EvalFault> for GroupRefused {
    ghost use Rattle.apply_law.specs.Verdicts.{all_refused};

    ghost from_gives = { λ fault refused. refused ≡ all_refused fault };

    fn from(fault: EvalFault) -> Self {
        match fault {
            EvalFault::Illegal(label) => GroupRefused::Illegal(label),
            EvalFault::Conflict(clash) => GroupRefused::Conflict(clash),
            EvalFault::NoMemory => GroupRefused::NoMemory,
        }
    }
}
