//! Why a journal was not replayed.

use ss_text::NoMemory as LacksMemory;

/// Why a journal is refused.
#[derive(Clone, Copy, Debug, PartialEq, Eq)]
pub enum JournalRefusal {
    /// At this place, from 0, the disk holds no entry and no end.
    BadJournal { at: u64 },
    /// A change of the entry with this number, from 1, is refused over the catalogue after those before it.
    Stale { number: u64 },
}

/// Why a journal was not replayed.
#[derive(Clone, Copy, Debug, PartialEq, Eq)]
pub enum ReplayFault {
    Refused(JournalRefusal),
    DiskFault,
    NoMemory,
}

impl From<LacksMemory> for ReplayFault {
    ghost use Rattle.std.specs.Prelude.{◌≡◌};
    ghost use Rattle.journal_log.specs.declared.fault.ReplayFault.TheVariants.{NoMemory};

    ghost from_gives = { λ _ e. e ≡ NoMemory };

    fn from(_: LacksMemory) -> Self {
        ReplayFault::NoMemory
    }
}
